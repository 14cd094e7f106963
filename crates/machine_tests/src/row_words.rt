//! The words of a row.
ghost use Rattle.flat_row.specs.Row.{IsRowOf};

use flat_row::Row;
use machine_cells::encode;
use omega_net::ScriptEntry;
use project_book::{Edit, Project};
use std::alloc::Global;
use std::test::Fail;
use word_ops::{Kind, Op};

/// Where one of eight processors begins, what it asks of which address, and how often: five go through the network that combines.
const ENTRIES: [(u32, bool, Kind, u32, u32); 8] = [
    (0, true, Kind::Add, 0, 6),
    (1, true, Kind::Add, 0, 6),
    (2, false, Kind::Or, 0, 5),
    (3, true, Kind::Store, 0, 4),
    (4, true, Kind::Add, 0, 6),
    (5, false, Kind::Max, 3, 5),
    (6, true, Kind::Add, 0, 6),
    (7, false, Kind::Add, 3, 5),
];

/// The cycles that are tried.
const CYCLES: usize = 60;

/// Eight processors that ask for words 0 and 3 through both networks.
fn eight(alloc: Global) -> Result<Project, Fail> {
    let mut project = Project::new(alloc, 3, 60)?.ok_or("no such project")?;
    for (proc, sync, kind, address, times) in ENTRIES {
        let entry = ScriptEntry::Reference {
            sync,
            op: Op {
                kind,
                operand: proc + 1,
            },
            address,
            times,
        };
        let edit = Edit::Entry {
            proc,
            index: 0,
            entry,
        };
        project = project.apply(edit)?.0;
    }
    combining(project)
}

/// The same project, where all stages combine.
fn combining(project: Project) -> Result<Project, Fail> {
    let mut project = project;
    for stage in 0..3 {
        project = project.apply(Edit::Combine { stage, on: true })?.0;
    }
    Ok(project)
}

/// Whether the words of each component are those of its state.
fn words_are_states(alloc: Global, project: &Project, row: &Row) -> Result<bool, Fail>
    requires { IsRowOf project.now row.now }
{
    let shape = project.shape();
    for c in 0..shape.components() {
        let component = shape.component(c).ok_or("no such component")?;
        let mut told = Vec::new(alloc);
        encode(&row.read(alloc, component)?, &mut told)?;
        let mut words = Vec::new(alloc);
        row.words(component, &mut words)?;
        if words.as_slice() != told.as_slice()
            || words.first() != Some(&row.first_word(component))
        {
            return Ok(false);
        }
    }
    Ok(true)
}

/// Whether, cycle for cycle of a run, the words of a row that steps are those of its states.
fn are_told(alloc: Global, project: &Project, row: &mut Row) -> Result<bool, Fail>
    requires { IsRowOf project.now row.old }
{
    for _c in 0..CYCLES {
        if !words_are_states(alloc, project, row)? {
            return Ok(false);
        }
        row.step(project)?;
    }
    words_are_states(alloc, project, row)
}

/// The same from cycle 0 on.
fn run_is_told(alloc: Global, project: &Project) -> Result<bool, Fail> {
    let mut row = Row::start(alloc, project)?;
    are_told(alloc, project, &mut row)
}

#[test]
fn rows_have_the_words_of_their_states(rt: HostRuntime) -> Result<(), Fail> {
    let alloc = rt.alloc();
    let project = eight(alloc)?;
    assert!(rt; run_is_told(alloc, &project)?);
    Ok(())
}
