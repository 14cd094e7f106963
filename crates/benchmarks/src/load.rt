//! The projects that are measured.
ghost use Rattle.std.specs.Prelude.{◌≡◌, IfOk};

use anyhow::{Context, Result};
use omega_net::ScriptEntry;
use page_map::ADDRESSES;
use project_book::{Edit, Project, Scale, USUAL_HORIZON};
use std::alloc::Global;
use std::fmt;
use word_ops::{Kind, Op};

/// 2^k processors that each add 1 to address 0 a thousand times over the combining network, every
/// stage of which combines.
pub fn hot_spot(alloc: Global, k: u32, horizon: u32) -> Result<Project>
    ensures k { IfOk result (λ project. project.k ≡ k) }
    ensures horizon { IfOk result (λ project. project.horizon ≡ horizon) }
{
    let mut project = Project::of_scale(alloc, scale_for(horizon), k, horizon)?.context(
        "k or the horizon is past its limit",
    )?;
    for proc in 0..project.processors() {
        let edit = Edit::Entry {
            proc,
            index: 0,
            entry: reference(true, Kind::Add, 0, 1000),
        };
        project = project.apply(edit)?.0;
    }
    for stage in 0..k {
        project = project.apply(Edit::Combine { stage, on: true })?.0;
    }
    Ok(project)
}

/// The smallest scale that has such a horizon.
fn scale_for(horizon: u32) -> Scale {
    if horizon > USUAL_HORIZON {
        Scale::Large
    } else {
        Scale::Usual
    }
}

/// What the processors do. Every stage combines.
#[derive(Clone, Copy, PartialEq, Eq)]
pub enum Load {
    /// The hot spot: all add to one word all the time, window 1.
    Hot,
    /// Each makes four references, to words of all modules, window 1.
    Quiet,
    /// Each makes 256 references, to words of all modules, window 4.
    Uniform,
    /// The same, but every second reference adds 1 to address 0.
    Mixed,
}

/// All loads, those first that take less memory.
pub const LOADS: [Load; 4] = [Load::Quiet, Load::Hot, Load::Mixed, Load::Uniform];

impl fmt::Display for Load {
    fn fmt<W: fmt::Write>(&self, f: &mut fmt::Formatter<W>) -> fmt::Result {
        f.write_str(self.name())
    }
}

impl Load {
    fn name(self) -> &'static str {
        match self {
            Load::Hot => "hot",
            Load::Quiet => "quiet",
            Load::Uniform => "uniform",
            Load::Mixed => "mixed",
        }
    }

    /// The load of this name.
    pub fn named(name: &str) -> Option<Load> {
        for load in LOADS {
            if load.name() == name {
                return Some(load);
            }
        }
        None
    }

    /// How many entries a script has.
    pub fn entries(self) -> u32 {
        match self {
            Load::Hot => 1,
            Load::Quiet => 4,
            Load::Uniform | Load::Mixed => 256,
        }
    }

    /// How many references may be unanswered.
    pub fn window(self) -> u32 {
        match self {
            Load::Hot | Load::Quiet => 1,
            Load::Uniform | Load::Mixed => 4,
        }
    }

    /// The entry of a processor's script.
    pub fn entry(self, proc: u32, index: u32) -> ScriptEntry {
        match self {
            Load::Hot => reference(true, Kind::Add, 0, 1000),
            Load::Mixed if index % 2 == 1 => reference(true, Kind::Add, 0, 1),
            Load::Quiet | Load::Uniform | Load::Mixed => spread(drawn(proc, index)),
        }
    }
}

/// A reference to any word, by a number that was drawn.
fn spread(number: u32) -> ScriptEntry {
    let kind = if number & 0x1_0000 == 0 {
        Kind::Load
    } else {
        Kind::Add
    };
    reference(number & 0x2_0000 == 0, kind, number % ADDRESSES, 1)
}

fn reference(sync: bool, kind: Kind, address: u32, times: u32) -> ScriptEntry {
    ScriptEntry::Reference {
        sync,
        op: Op { kind, operand: 1 },
        address,
        times,
    }
}

/// A number that hangs on these two alone, and is spread as if it were drawn at random.
fn drawn(proc: u32, index: u32) -> u32 {
    let number = proc.wrapping_mul(256).wrapping_add(index).wrapping_add(1);
    let number = number.wrapping_mul(2_654_435_761);
    let number = (number ^ (number >> 15)).wrapping_mul(2_246_822_519);
    let number = (number ^ (number >> 13)).wrapping_mul(3_266_489_917);
    number ^ (number >> 16)
}

/// 2^k processors with a load.
pub fn loaded(alloc: Global, load: Load, k: u32, horizon: u32) -> Result<Project> {
    if load == Load::Hot {
        return hot_spot(alloc, k, horizon);
    }
    let blank = Project::of_scale(alloc, scale_for(horizon), k, horizon)?;
    let mut project = blank.context("k or the horizon is past its limit")?;
    for proc in 0..project.processors() {
        project = scripted(project, load, proc)?;
    }
    for stage in 0..k {
        project = project.apply(Edit::Combine { stage, on: true })?.0;
    }
    Ok(project.apply(Edit::Window(load.window()))?.0)
}

/// The project with a processor's script.
fn scripted(project: Project, load: Load, proc: u32) -> Result<Project> {
    let mut project = project;
    for index in 0..load.entries() {
        let edit = Edit::Entry {
            proc,
            index,
            entry: load.entry(proc, index),
        };
        project = project.apply(edit)?.0;
    }
    Ok(project)
}
