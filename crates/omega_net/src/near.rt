//! The neighbours of a component.
ghost use Rattle.std.specs.Prelude.{◌≡◌, ◌≤◌, ◌<◌, length, All, Some};
ghost use Rattle.omega_net.specs.Numbers.{components, number_of, Exists};
ghost use Rattle.omega_net.specs.Wires.{upper_end, lower_end};
ghost use Rattle.omega_net.specs.Near.{near_of, NearIsMutual};

use crate::{Component, Net, Shape, Wire};
use arrayvec::ArrayVec;

impl Shape {
    /// The numbers of a component and of those that it is wired to: first its own, then by input
    /// those towards the processors, then by output those towards the modules.
    ///
    /// A processor or a module has its neighbour in the low network, then in the combining one;
    /// where there is no switch it has one neighbour.
    pub fn near(self, component: Component) -> ArrayVec<u32, 5>
        requires { Exists self component }
        ensures listed { result.items ≡ near_of self (Some component) }
        ensures few { length result.items ≤ 5 }
        ensures there { All (λ n. n < components self) result.items }
    {
        self.near_numbers(component)
    }

    /// The list of `near`, branch by branch; that all of it is there follows from the list as a whole.
    fn near_numbers(self, component: Component) -> ArrayVec<u32, 5>
        requires { Exists self component }
        ensures listed { result.items ≡ near_of self (Some component) }
        ensures few { length result.items ≤ 5 }
    {
        let own = self.number_of(component);
        match component {
            Component::Proc(proc) if self.k() == 0 => few(&[
                own,
                self.number_of(Component::Module(proc)),
            ]),
            Component::Module(number) if self.k() == 0 => few(&[
                own,
                self.number_of(Component::Proc(number)),
            ]),
            Component::Proc(proc) => few(&[
                own,
                self.number_below(self.entry(Net::Low, proc)),
                self.number_below(self.entry(Net::Comb, proc)),
            ]),
            Component::Module(number) => few(&[
                own,
                self.number_above(self.exit(Net::Low, number)),
                self.number_above(self.exit(Net::Comb, number)),
            ]),
            Component::Switch { net, stage, index } => few(&[
                own,
                self.number_above(self.before(net, stage, index, 0)),
                self.number_above(self.before(net, stage, index, 1)),
                self.number_below(self.after(net, stage, index, 0)),
                self.number_below(self.after(net, stage, index, 1)),
            ]),
        }
    }

    /// The number of the component at a wire's end towards the processors.
    fn number_above(self, wire: Wire) -> u32
        ensures { result ≡ number_of self (upper_end wire) }
    {
        self.number_of(wire.upper_end())
    }

    /// The number of the component at a wire's end towards the modules.
    fn number_below(self, wire: Wire) -> u32
        ensures { result ≡ number_of self (lower_end self wire) }
    {
        self.number_of(self.lower_end(wire))
    }
}

/// On every machine, a component is near each component that is near it.
pub fn near_is_mutual()
    ensures { NearIsMutual }
{}

/// A list of at most five numbers.
fn few(numbers: &[u32]) -> ArrayVec<u32, 5>
    requires { length numbers.now ≤ 5 }
    ensures { result.items ≡ numbers.now }
{
    let mut list = ArrayVec::new();
    let _ = list.try_extend_from_slice(numbers);
    list
}
