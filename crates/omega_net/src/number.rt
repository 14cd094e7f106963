//! Components and their numbers: processors first, then modules, then the switches of the low
//! network and of the combining one, stage by stage.
ghost use Rattle.std.specs.Prelude.{◌≡◌, ◌<◌, ◌≤◌, ◌*◌, ◌+◌, ◌^◌, ◌↔◌, IsTrue, IsSome, IfSome, Some};
ghost use Rattle.std.specs.Option.{SomeIff};
ghost use Rattle.omega_net.specs.Numbers.{components, half, number_of, component_of, Exists, first_switch, switch_at};
ghost use Rattle.page_map.specs.Limits.{max_k};

use crate::{Component, Net, Shape};

impl Shape {
    /// The number of a component, from 0 to [`Shape::components`] less one. None where this machine doesn't have it.
    pub fn number(self, component: Component) -> Option<u32>
        ensures value { SomeIff result (Exists self component) (number_of self component) }
        ensures back { IfSome result (λ n. component_of self n ≡ Some component) }
    {
        if self.has(component) {
            Some(self.number_of(component))
        } else {
            None
        }
    }

    /// The component of a number. None where there are no more than that many components.
    pub fn component(self, number: u32) -> Option<Component>
        ensures value { result ≡ component_of self number }
        ensures there { IsSome result ↔ (number < components self) }
        ensures exists { IfSome result (λ c. Exists self c) }
        ensures back { IfSome result (λ c. number_of self c ≡ number) }
    {
        let first_low = self.first_switch(Net::Low);
        let first_comb = self.first_switch(Net::Comb);
        if number < self.lines() {
            Some(Component::Proc(number as u8))
        } else if number < first_low {
            Some(Component::Module((number - self.lines()) as u8))
        } else if number < first_comb {
            Some(self.switch_at(Net::Low, number - first_low))
        } else if number < self.components() {
            Some(self.switch_at(Net::Comb, number - first_comb))
        } else {
            None
        }
    }

    /// Whether this machine has the component.
    pub fn has(self, component: Component) -> bool
        ensures { IsTrue result ↔ Exists self component }
    {
        match component {
            Component::Proc(line) | Component::Module(line) => u32::from(line) < self.lines(),
            Component::Switch { stage, index, .. } => {
                u32::from(stage) < self.k() && u32::from(index) < self.half()
            }
        }
    }

    /// The number that a component has, or would have.
    pub(crate) fn number_of(self, component: Component) -> u32
        ensures { result ≡ number_of self component }
    {
        match component {
            Component::Proc(line) => u32::from(line),
            Component::Module(line) => self.lines() + u32::from(line),
            Component::Switch { net, stage, index } => {
                self.first_switch(net) + u32::from(stage) * self.half() + u32::from(index)
            }
        }
    }

    /// The number of a network's first switch.
    fn first_switch(self, net: Net) -> u32
        ensures value { result ≡ first_switch self net }
        ensures within { result ≤ (2 + max_k) * 2 ^ max_k }
    {
        match net {
            Net::Low => 2 * self.lines(),
            Net::Comb => 2 * self.lines() + self.k() * self.half(),
        }
    }

    /// The switch that comes that many after the network's first.
    fn switch_at(self, net: Net, distance: u32) -> Component
        requires { distance < self * half self }
        ensures { result ≡ switch_at self net distance }
    {
        let stage = self.by_half(distance);
        Component::Switch {
            net,
            stage: stage as u8,
            index: (distance - stage * self.half()) as u8,
        }
    }
}
