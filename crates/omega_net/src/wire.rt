//! The wires between components (Lawrie 1975): a perfect shuffle before each stage of switches.
ghost use Rattle.std.specs.Prelude.{◌≡◌, ◌<◌, ◌%◌};
ghost use Rattle.omega_net.specs.Numbers.{lines, half, Exists};
ghost use Rattle.omega_net.specs.Wires.{IsWire, upper_end, output_of, lower_end, input_of, wire_of_proc, wire_of_module, wire_into, wire_out};

use crate::{Component, Net, Shape};

/// A wire: a line of a network, before the stage of that number, or behind the last.
#[derive(Clone, Copy, PartialEq, Eq, Debug)]
pub struct Wire {
    pub net: Net,
    pub stage: u8,
    pub line: u8,
}

impl Wire {
    /// The component at its end towards the processors.
    pub fn upper_end(self) -> Component
        ensures { result ≡ upper_end self }
    {
        if self.stage == 0 {
            Component::Proc(self.line)
        } else {
            Component::Switch {
                net: self.net,
                stage: self.stage - 1,
                index: self.line / 2,
            }
        }
    }

    /// The output by which it leaves a switch at that end: 0 or 1.
    pub fn output(self) -> u8
        ensures value { result ≡ output_of self }
        ensures port { result < 2 }
    {
        self.line % 2
    }
}

impl Shape {
    /// The component at a wire's end towards the modules.
    pub fn lower_end(self, wire: Wire) -> Component
        ensures value { result ≡ lower_end self wire }
        ensures there { IsWire self wire → Exists self result }
    {
        if u32::from(wire.stage) == self.k() {
            return Component::Module(wire.line);
        }
        Component::Switch {
            net: wire.net,
            stage: wire.stage,
            index: self.index_met(wire.line),
        }
    }

    /// The switch of a stage that a line meets.
    fn index_met(self, line: u8) -> u8
        ensures { result ≡ line % half self }
    {
        match u32::from(line).checked_rem(self.half()) {
            Some(index) => index as u8,
            None => line,
        }
    }

    /// The input at which a wire meets a switch at that end: 0 or 1 on this machine's wires.
    #[tactic(auto, using(crate::proofs::Ends::input_within))]
    pub fn input(self, wire: Wire) -> u8
        ensures value { result ≡ input_of self wire }
        ensures port { IsWire self wire → result < 2 }
    {
        self.by_half(u32::from(wire.line)) as u8
    }

    /// The wire of a processor in a network.
    pub fn entry(self, net: Net, proc: u8) -> Wire
        requires { proc < lines self }
        ensures value { result ≡ wire_of_proc net proc }
        ensures there { IsWire self result }
    {
        Wire {
            net,
            stage: 0,
            line: proc,
        }
    }

    /// The wire of a module in a network.
    pub fn exit(self, net: Net, number: u8) -> Wire
        requires { number < lines self }
        ensures value { result ≡ wire_of_module self net number }
        ensures there { IsWire self result }
    {
        Wire {
            net,
            stage: self.k() as u8,
            line: number,
        }
    }

    /// The wire out of a switch, by its output 0 or 1.
    pub fn after(self, net: Net, stage: u8, index: u8, output: u8) -> Wire
        requires there { Exists self (Component.Switch net stage index) }
        requires port { output < 2 }
        ensures value { result ≡ wire_out net stage index output }
        ensures there { IsWire self result }
        ensures end { upper_end result ≡ Component.Switch net stage index }
        ensures output { output_of result ≡ output }
    {
        Wire {
            net,
            stage: stage + 1,
            line: 2 * index + output,
        }
    }

    /// The wire into a switch, at its input 0 or 1.
    pub fn before(self, net: Net, stage: u8, index: u8, input: u8) -> Wire
        requires there { Exists self (Component.Switch net stage index) }
        requires port { input < 2 }
        ensures value { result ≡ wire_into self net stage index input }
        ensures there { IsWire self result }
        ensures end { lower_end self result ≡ Component.Switch net stage index }
        ensures input { input_of self result ≡ input }
    {
        Wire {
            net,
            stage,
            line: input * (self.half() as u8) + index,
        }
    }
}
