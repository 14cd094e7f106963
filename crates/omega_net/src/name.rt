//! Names of components as commands write them.
ghost use Rattle.std.specs.Prelude.{◌≡◌, ◌<◌, IfSome, length, position};
ghost use Rattle.std.specs.Option.{SomeIff};
ghost use Rattle.omega_net.specs.Numbers.{Exists};
ghost use Rattle.omega_net.specs.Names.{name_of, switch_named, switch_of, is_dot, component_named, NamesAreReadBack};

use crate::{Component, Net, Shape};
use line_words::number;

/// A component's name, which need not be one of a machine's: its numbers are any of 32 bits.
#[derive(Clone, Copy, PartialEq, Eq, Debug)]
pub enum Name {
    Proc(u32),
    Module(u32),
    Switch { net: Net, stage: u32, index: u32 },
}

impl Name {
    /// Reads `pI`, `mI`, `lS.J` or `cS.J`, each number of 1 to 10 digits and at most 4,294,967,295.
    /// None where the word is no such name.
    pub fn read(word: &[u8]) -> Option<Self>
        ensures { result ≡ name_of word.now }
    {
        let [letter, text @ ..] = word else {
            return None;
        };
        match *letter {
            b'p' => number(text).map(Name::Proc),
            b'm' => number(text).map(Name::Module),
            b'l' => read_switch(Net::Low, text),
            b'c' => read_switch(Net::Comb, text),
            _ => None,
        }
    }
}

fn read_switch(net: Net, text: &[u8]) -> Option<Name>
    ensures { result ≡ switch_named net text.now }
{
    match dot_in(text) {
        Some(dot) => switch_of(net, number(&text[..dot]), number(&text[dot + 1..])),
        None => None,
    }
}

fn dot_in(text: &[u8]) -> Option<usize>
    ensures value { result ≡ position is_dot text.now }
    ensures within { IfSome result (λ dot. dot < length text.now) }
{
    text.iter().position(|b| *b == b'.')
}

fn switch_of(net: Net, stage: Option<u32>, index: Option<u32>) -> Option<Name>
    ensures { result ≡ switch_of net stage index }
{
    match (stage, index) {
        (Some(stage), Some(index)) => Some(Name::Switch { net, stage, index }),
        _ => None,
    }
}

/// What a component prints is read as its name.
pub fn names_are_read_back()
    ensures { NamesAreReadBack }
{}

impl Shape {
    /// The component of a name. None where this machine doesn't have it.
    pub fn named(self, name: Name) -> Option<Component>
        ensures { SomeIff result (Exists self (component_named name)) (component_named name) }
    {
        let component = match name {
            Name::Proc(line) => Component::Proc(u8::try_from(line).ok()?),
            Name::Module(line) => Component::Module(u8::try_from(line).ok()?),
            Name::Switch { net, stage, index } => Component::Switch {
                net,
                stage: u8::try_from(stage).ok()?,
                index: u8::try_from(index).ok()?,
            },
        };
        self.has(component).then_some(component)
    }
}
