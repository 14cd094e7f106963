//! The components that commands name.
ghost use Rattle.std.specs.Prelude.{◌≡◌};
ghost use Rattle.commands.specs.Components.{proc_number, module_number, switch_number, number_named, component_named};

use omega_net::{Component, Name, Net, Shape};

/// The number of the component that a word names, or None where it is no such name. What the machine
/// doesn't have gets the number behind the last component, which no component has.
pub(crate) fn component(shape: Shape, word: &[u8]) -> Option<u32>
    ensures { result ≡ component_named shape word.now }
{
    let name = Name::read(word)?;
    Some(number_named(shape, name))
}

fn number_named(shape: Shape, name: Name) -> u32
    ensures { result ≡ number_named shape name }
{
    match name {
        Name::Proc(line) => proc_number(shape, line),
        Name::Module(line) => module_number(shape, line),
        Name::Switch { net, stage, index } => switch_number(shape, net, stage, index),
    }
}

fn proc_number(shape: Shape, line: u32) -> u32
    ensures { result ≡ proc_number shape line }
{
    if line < shape.lines() {
        line
    } else {
        shape.components()
    }
}

fn module_number(shape: Shape, line: u32) -> u32
    ensures { result ≡ module_number shape line }
{
    if line < shape.lines() {
        shape.lines() + line
    } else {
        shape.components()
    }
}

fn switch_number(shape: Shape, net: Net, stage: u32, index: u32) -> u32
    ensures { result ≡ switch_number shape net stage index }
{
    if stage >= shape.k() || index >= shape.half() {
        return shape.components();
    }
    let switch = Component::Switch {
        net,
        stage: stage as u8,
        index: index as u8,
    };
    shape.number(switch).unwrap_or(shape.components())
}
