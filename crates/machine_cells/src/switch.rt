//! A switch of either network, as it is at the ends of its wires.
ghost use Rattle.std.specs.Prelude.{◌≡◌, ℕ, ◌-◌};
ghost use Rattle.std.specs.Option.{option_copied};
ghost use Rattle.omega_net.specs.declared.component.Net.TheVariants.{Low as LowNet, Comb as CombNet};
ghost use Rattle.omega_net.specs.declared.component.Component.TheVariants.{Switch as SwitchAt};
ghost use Rattle.omega_net.specs.declared.wire.Wire.{Wire as WireIs};
ghost use Rattle.omega_net.specs.Wires.{lower_end, upper_end, input_of, output_of};
ghost use Rattle.machine_cells.specs.Moves.{request_on, reply_on, takes_request, takes_reply};

use comb_switch::CombState;
use low_switch::LowState;
use omega_net::{Reply, Request, Shape};
use project_book::{Depths, Project};

/// A switch at the ends of its wires, where its own number is known: what it takes and shows there, with no look at which
/// component it is.
pub(crate) trait Switch {
    ghost use Rattle.omega_net.specs.declared.component.Net.{Net};
    ghost use Rattle.machine_cells.specs.declared.state.MachineState.{MachineState};

    ghost net: { Net };

    ghost state: { Self → MachineState };

    /// Whether it takes this request at an input.
    fn takes_request(
        &self,
        project: &Project,
        shape: Shape,
        stage: u8,
        input: u8,
        request: &Request,
    ) -> bool
        requires { shape ≡ project.now.k }
        ensures { (w : WireIs) (index : ℕ) → lower_end shape w ≡ SwitchAt net stage index → input_of shape w ≡ input
            → result ≡ takes_request project.now w request.now (state self.now) };

    /// Whether it takes this reply at an output.
    fn takes_reply(
        &self,
        project: &Project,
        shape: Shape,
        stage: u8,
        output: u8,
        reply: &Reply,
    ) -> bool
        requires { shape ≡ project.now.k }
        ensures { (w : WireIs) (index : ℕ) → upper_end w ≡ SwitchAt net stage index → output_of w ≡ output
            → result ≡ takes_reply project.now w reply.now (state self.now) };

    /// The request that it shows at an output.
    fn shown_forward(&self, output: u8) -> Option<&Request>
        ensures { (w : WireIs) → output_of w ≡ output → option_copied result ≡ request_on w (state self.now) };

    /// The reply that it shows at an input.
    fn shown_back(&self, input: u8) -> Option<&Reply>
        ensures { (k : ℕ) (w : WireIs) → input_of k w ≡ input → option_copied result ≡ reply_on k w (state self.now) };
}

impl Switch for LowState {
    ghost use Rattle.machine_cells.specs.declared.state.MachineState.TheVariants.{Low as LowIs};
    ghost use Rattle.omega_net.specs.declared.component.Net.TheVariants.{Low as LowNet};

    ghost net = { LowNet };

    ghost state = { LowIs };

    fn takes_request(
        &self,
        project: &Project,
        shape: Shape,
        stage: u8,
        input: u8,
        request: &Request,
    ) -> bool {
        let depth = project.depth(Depths::LowForward);
        self.ready_forward(depth, shape.deciding_bit(stage), input, request)
    }

    fn takes_reply(
        &self,
        project: &Project,
        shape: Shape,
        stage: u8,
        output: u8,
        reply: &Reply,
    ) -> bool {
        let depth = project.depth(Depths::LowReverse);
        self.ready_reverse(depth, shape.deciding_bit(stage), output, reply)
    }

    fn shown_forward(&self, output: u8) -> Option<&Request> {
        self.offer_forward(output)
    }

    fn shown_back(&self, input: u8) -> Option<&Reply> {
        self.offer_reverse(input)
    }
}

impl Switch for CombState {
    ghost use Rattle.machine_cells.specs.declared.state.MachineState.TheVariants.{Comb as CombIs};
    ghost use Rattle.omega_net.specs.declared.component.Net.TheVariants.{Comb as CombNet};

    ghost net = { CombNet };

    ghost state = { CombIs };

    fn takes_request(
        &self,
        project: &Project,
        shape: Shape,
        stage: u8,
        input: u8,
        request: &Request,
    ) -> bool {
        let depth = project.depth(Depths::CombForward);
        self.ready_forward(depth, shape.deciding_bit(stage), input, request)
    }

    fn takes_reply(
        &self,
        project: &Project,
        _shape: Shape,
        _stage: u8,
        output: u8,
        _reply: &Reply,
    ) -> bool {
        self.ready_reverse(project.depth(Depths::CombReverse), output)
    }

    fn shown_forward(&self, output: u8) -> Option<&Request> {
        self.offer_forward(output)
    }

    fn shown_back(&self, input: u8) -> Option<&Reply> {
        self.offer_reverse(input)
    }
}
