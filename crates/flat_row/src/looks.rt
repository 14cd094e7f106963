//! Looks at the row: what a component shows of itself, without its whole state. No look takes memory.
ghost use Rattle.std.specs.Prelude.{◌≡◌, ◌<◌, ◌*◌, ◌&&◌, Some, is_some, nat_le, suc};
ghost use Rattle.omega_net.specs.declared.component.Component.TheVariants.{Switch};
ghost use Rattle.omega_net.specs.Numbers.{lines, half};
ghost use Rattle.omega_net.specs.Queues.{free, head};
ghost use Rattle.flat_row.specs.Looks.{length_forward};
ghost use Rattle.mem_module.specs.MemModule.{served_net, served_on};
ghost use Rattle.flat_row.specs.Labels.{switch_label};
ghost use Rattle.flat_row.specs.Row.{HasNetwork, buffers_at, module_of, port_label, proc_of, queue_of, state_of, wait_of};

use crate::bits::has;
use crate::labels::label_of;
use crate::read::{messages_at, net_for, ports};
use crate::row::Row;
use crate::side::Side;
use comb_switch::Waiting;
use omega_net::{Net, Reply, Request, Shape};

impl Row {
    /// The machine's size.
    pub fn shape(&self) -> Shape
        ensures { result ≡ self.now.k }
    {
        self.shape
    }

    /// The replies that a processor received in the last step, by network, the low one first.
    pub fn got(&self, p: u32) -> [Option<Reply>; 2]
        requires { p < lines self.now.k }
        ensures { result ≡ (proc_of self.now p).got }
    {
        self.is_row();
        self.procs[p as usize].got
    }

    /// Whether a processor issued a reference in the last step.
    pub fn sent(&self, p: u32) -> bool
        requires { p < lines self.now.k }
        ensures { result ≡ (proc_of self.now p).sent }
    {
        self.is_row();
        self.procs[p as usize].sent
    }

    /// The entry of its script that a processor has come to.
    pub fn index(&self, p: u32) -> u16
        requires { p < lines self.now.k }
        ensures { result ≡ (proc_of self.now p).index }
    {
        self.is_row();
        self.procs[p as usize].index
    }

    /// Whether a module served a request in the last step.
    pub fn served(&self, m: u32) -> bool
        requires { m < lines self.now.k }
        ensures { result ≡ (module_of self.now m).served }
    {
        self.is_row();
        has(self.served, m)
    }

    /// The network whose turn it is at a module.
    pub fn turn(&self, m: u32) -> Net
        requires { m < lines self.now.k }
        ensures { result ≡ (module_of self.now m).turn }
    {
        self.is_row();
        net_for(has(self.module_turns, m))
    }

    /// The network that a module serves in the next step, at this depth of its queues.
    pub fn serves(&self, m: u32, depth: u32) -> Option<Net>
        requires { m < lines self.now.k }
        ensures { result ≡ served_net (module_of self.now m) depth }
    {
        self.is_row();
        match (
            can_serve(&self.low, self.shape, m, depth),
            can_serve(&self.comb, self.shape, m, depth),
        ) {
            (true, true) => Some(self.turn(m)),
            (true, false) => Some(Net::Low),
            (false, true) => Some(Net::Comb),
            (false, false) => None,
        }
    }

    /// The first request that waits at a module on a network.
    pub fn first_request(&self, net: Net, m: u32) -> Option<Request>
        requires { m < lines self.now.k }
        ensures { result ≡ served_on (module_of self.now m) (Some net) }
    {
        self.is_row();
        let level = self.shape.k() as usize + 1;
        let waiting = match net {
            Net::Low => messages_at(&self.low.requests, level, m),
            Net::Comb => messages_at(&self.comb.requests, level, m),
        };
        waiting.first().copied()
    }

    /// What waits in a combining switch for replies, the oldest first.
    pub fn waiting(&self, stage: u32, index: u32) -> &[Waiting]
        requires stage { stage < self.now.k }
        requires index { index < half self.now.k }
        ensures { result.now ≡ (wait_of (buffers_at self.now stage) (switch_label self.now.k stage index)).items }
    {
        self.is_row();
        let (x, _) = ports(self.shape, stage, index);
        self.waits[stage as usize].entries[x as usize].as_slice()
    }

    /// How many requests wait at an output of a switch.
    pub fn length_forward(&self, net: Net, stage: u32, index: u32, output: u32) -> u8
        requires stage { stage < self.now.k }
        requires index { index < half self.now.k }
        requires output { output < 2 }
        ensures { result ≡ length_forward output (state_of self.now (Some (Switch net stage index))) }
    {
        self.is_row();
        let x = port_label(self.shape, stage, index, output);
        let behind = stage as usize + 1;
        match net {
            Net::Low => self.low.requests[behind].messages(x).len() as u8,
            Net::Comb => self.comb.requests[behind].messages(x).len() as u8,
        }
    }
}

/// Whether a network has a request at a module, and a free place for its reply at this depth.
fn can_serve(side: &Side, shape: Shape, m: u32, depth: u32) -> bool
    requires levels { HasNetwork shape side.now }
    requires there { m < lines shape }
    ensures { result ≡ (is_some (head (queue_of side.now.requests (suc shape) m)) && nat_le 1 (free depth (queue_of side.now.replies shape m))) }
{
    let k = shape.k() as usize;
    let waits = !messages_at(&side.requests, k + 1, m).is_empty();
    let room = (messages_at(&side.replies, k, m).len() as u32) < depth;
    waits && room
}

/// The label of a switch's port.
fn port_label(shape: Shape, stage: u32, index: u32, output: u32) -> u32
    requires stage { stage < shape }
    requires index { index < half shape }
    requires output { output < 2 }
    ensures value { result ≡ port_label shape stage index output }
    ensures within { result < lines shape }
{
    // There are at most 64 labels.
    let _k = shape.k();
    label_of(shape, stage, index) + (output << shape.deciding_bit(stage as u8))
}
