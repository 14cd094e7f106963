//! Files whose references are all on the network that isn't drawn.
ghost use Rattle.std.specs.Prelude.{◌≡◌, ◌<◌, Some};
ghost use Rattle.omega_net.specs.Numbers.{lines};
ghost use Rattle.lab_tasks.specs.Elsewhere.{elsewhere, elsewhere_text, is_there, refers, refers_by, script_refers};

use omega_net::{Net, ScriptEntry};
use project_book::Project;
use std::fmt;

fn is_there(net: Net, sync: bool) -> bool
    ensures { result ≡ is_there net sync }
{
    match net {
        Net::Low => !sync,
        Net::Comb => sync,
    }
}

/// Whether an entry refers to a word over a network.
fn refers_by(net: Net, entry: Option<ScriptEntry>) -> bool
    ensures { result ≡ refers_by net entry }
{
    match entry {
        Some(ScriptEntry::Reference { sync, .. }) => is_there(net, sync),
        Some(ScriptEntry::Until { sync, .. }) => is_there(net, sync),
        _ => false,
    }
}

/// Whether an entry of a processor's script does.
#[tactic(auto, using(crate::proofs::Listing::any_next))]
fn script_refers(project: &Project, net: Net, proc: u32) -> bool
    ensures { result ≡ script_refers project.now net proc }
{
    let mut found = false;
    for index in 0..project.length(proc) {
        found = found || refers_by(net, project.entry(proc, index));
    }
    found
}

/// Whether a script does.
#[tactic(auto, using(crate::proofs::Listing::any_next))]
fn refers(project: &Project, net: Net) -> bool
    ensures { result ≡ refers project.now net }
{
    project.is_project();
    let mut found = false;
    for proc in 0..project.processors() {
        found = found || script_refers(project, net, proc);
    }
    found
}

/// The network that all references are on, where there are some and it isn't the one that is drawn.
pub(crate) fn elsewhere(project: &Project, drawn: Net) -> Option<Net>
    ensures { result ≡ elsewhere project.now drawn }
{
    let other = match drawn {
        Net::Low => Net::Comb,
        Net::Comb => Net::Low,
    };
    if refers(project, drawn) || !refers(project, other) {
        return None;
    }
    Some(other)
}

/// What is said of such a file: it prints as a line without LF.
#[derive(Clone, Copy)]
pub(crate) struct AllOn(pub Net);

impl fmt::Display for AllOn {
    ghost output = { λ e. Some (elsewhere_text e.0) };

    fn fmt<W: fmt::Write>(&self, f: &mut fmt::Formatter<W>) -> fmt::Result {
        match self.0 {
            Net::Low => write!(
                f,
                "lab: all references of this file are on the low network; --net low draws it"
            ),
            Net::Comb => write!(
                f,
                "lab: all references of this file are on the combining network; --net comb draws it"
            ),
        }
    }
}
