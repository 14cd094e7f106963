//! The components of a machine.
ghost use Rattle.std.specs.Prelude.{Some};
ghost use Rattle.omega_net.specs.Texts.{component_text};

use std::fmt;

/// The two networks.
#[derive(Clone, Copy, PartialEq, Eq, Hash, Debug)]
pub enum Net {
    Low,
    Comb,
}

/// A processor, a memory module or a switch.
#[derive(Clone, Copy, PartialEq, Eq, Debug)]
pub enum Component {
    Proc(u8),
    Module(u8),
    Switch { net: Net, stage: u8, index: u8 },
}

/// `pI`, `mI`, `lS.J` or `cS.J`: a processor or a module by its number, a switch of the low or the
/// combining network by its stage and its index.
impl fmt::Display for Component {
    ghost output = { λ component. Some (component_text component) };

    fn fmt<W: fmt::Write>(&self, f: &mut fmt::Formatter<W>) -> fmt::Result {
        match *self {
            Component::Proc(proc) => write!(f, "p{proc}"),
            Component::Module(number) => write!(f, "m{number}"),
            Component::Switch {
                net: Net::Low,
                stage,
                index,
            } => write!(f, "l{stage}.{index}"),
            Component::Switch {
                net: Net::Comb,
                stage,
                index,
            } => write!(f, "c{stage}.{index}"),
        }
    }
}
