//! Projects, their files and their plain simulation.
use crate::again::again;
use machine_cells::from_scratch;
use omega_net::ScriptEntry;
use project_book::{Depths, Edit, Project, Scale};
use project_file::{fault_place, read_project, write_project};
use serial_order::{Ordered, order};
use std::alloc::Global;
use word_ops::{Kind, Op};

/// A project of two processors that both add to one word, up to cycle 6.
pub(crate) const FILE: &str = "format = 1
k = 1
horizon = 6
combine = [true]
[[page]]
number = 0
amount = 0
base = 0
[[word]]
address = 0
value = 10
[[script]]
processor = 0
entries = [\"sync add 0 1\"]
[[script]]
processor = 1
entries = [\"sync add 0 2\"]
";

/// A large project with a script that is drawn.
const DRAWN: &str = "format = 3
k = 0
horizon = 2001
[[traffic]]
processors = \"all\"
rate = 0.5
hot = 50
word = 0
page = 1
references = 4
seed = 1
";

/// A file with an entry that is none.
const WRONG: &str = "format = 1
k = 0
horizon = 0
[[script]]
processor = 0
entries = [\"fence\", \"jump 3\"]
";

/// What is told of that entry.
const TOLD: &str =
    "line 6, script of processor 0 (the first), entry 1, \"jump 3\": no entry begins with \"jump\"; there is sync, plain, until, fence or idle";

/// The project of the file.
pub(crate) fn project(alloc: Global) -> Option<Project> {
    project_of(alloc, FILE)
}

/// The project of a file.
pub(crate) fn project_of(alloc: Global, file: &str) -> Option<Project> {
    again!(read_project(alloc, file.as_bytes()))
}

pub(crate) fn add(operand: u32) -> ScriptEntry {
    ScriptEntry::Reference {
        sync: true,
        op: Op {
            kind: Kind::Add,
            operand,
        },
        address: 0,
        times: 1,
    }
}

/// An edit of each kind, each of which changes the project of the file.
pub(crate) const EDITS: [Edit; 9] = [
    Edit::Entry {
        proc: 0,
        index: 1,
        entry: ScriptEntry::Fence,
    },
    Edit::Cut { proc: 1, length: 0 },
    Edit::Word {
        address: 300,
        word: 5,
    },
    Edit::Page {
        page: 0,
        amount: 1,
        base: 0,
    },
    Edit::Depth {
        queue: Depths::LowForward,
        depth: 5,
    },
    Edit::WaitDepth(3),
    Edit::Combine {
        stage: 0,
        on: false,
    },
    Edit::Window(2),
    Edit::Horizon(7),
];

pub(crate) fn made(alloc: Global) -> bool {
    let Some(Some(new)) = again!(Project::new(alloc, 2, 5)) else {
        return false;
    };
    is_of(&Some(new), 2, 5) && is_of(&again!(Project::built_in(alloc)), 0, 8)
}

/// Whether it is a project of this size, and an owner more gives the same.
fn is_of(project: &Option<Project>, k: u32, horizon: u32) -> bool {
    match project {
        Some(project) => match again!(project.share()) {
            Some(shared) => shared.k() == k && shared.horizon() == horizon && shared.same(project),
            None => false,
        },
        None => false,
    }
}

/// The edited project, where something is changed.
fn next(project: &Project, edit: Edit) -> Option<Project> {
    match again!(project.apply(edit)) {
        Some((next, changed)) if !changed.slots.is_empty() || changed.horizon.is_some() => {
            Some(next)
        }
        _ => None,
    }
}

pub(crate) fn edited(alloc: Global) -> bool {
    let Some(mut project) = project(alloc) else {
        return false;
    };
    for edit in EDITS {
        match next(&project, edit) {
            Some(next) => project = next,
            None => return false,
        }
    }
    project.length(0) == 2
        && project.length(1) == 0
        && project.word(300) == 5
        && project.wait() == 3
        && project.window() == 2
        && project.horizon() == 7
}

pub(crate) fn read(alloc: Global) -> bool {
    match project(alloc) {
        Some(project) => {
            project.entry(1, 0) == Some(add(2)) && project.word(0) == 10 && project.combine(0)
        }
        None => false,
    }
}

/// What is written is read as the project.
pub(crate) fn written(alloc: Global) -> bool {
    match project(alloc) {
        Some(project) => match again!(write_project(alloc, &project)) {
            Some(bytes) => is_file_of(alloc, &bytes, &project),
            None => false,
        },
        None => false,
    }
}

/// A large project, whose script is drawn, is written, and read as itself.
pub(crate) fn large(alloc: Global) -> bool {
    let Some(Some(blank)) = again!(Project::of_scale(alloc, Scale::Large, 0, 2_001)) else {
        return false;
    };
    match project_of(alloc, DRAWN) {
        Some(project) => project.horizon() == blank.horizon() && is_written(alloc, &project),
        None => false,
    }
}

/// Whether what is written of a project with a script is read as the project.
fn is_written(alloc: Global, project: &Project) -> bool {
    match again!(write_project(alloc, project)) {
        Some(bytes) => project.length(0) > 0 && is_file_of(alloc, &bytes, project),
        None => false,
    }
}

/// Whether a file is read as this project.
fn is_file_of(alloc: Global, bytes: &[u8], project: &Project) -> bool {
    match again!(read_project(alloc, bytes)) {
        Some(back) => back.same(project),
        None => false,
    }
}

pub(crate) fn placed(alloc: Global) -> bool {
    match again!(fault_place(alloc, WRONG.as_bytes())) {
        Some(Some(line)) => line.as_str() == TOLD,
        _ => false,
    }
}

pub(crate) fn simulated(alloc: Global) -> bool {
    let Some(project) = project(alloc) else {
        return false;
    };
    match again!(from_scratch(alloc, &project)) {
        Some(rows) => rows.len() == 7 && rows.iter().all(|row| row.len() == 6),
        None => false,
    }
}

/// Whether it is the order of the references 0.0 and 1.0.
pub(crate) fn is_order(ordered: &Ordered) -> bool {
    match ordered {
        Ordered::Order(tags) => match tags.as_slice() {
            [first, second] => (first.proc, second.proc) == (0, 1),
            _ => false,
        },
        _ => false,
    }
}

pub(crate) fn ordered(alloc: Global) -> bool {
    match project(alloc) {
        Some(project) => match order(alloc, &project, 0) {
            Ordered::Memory => is_order(&order(alloc, &project, 0)),
            ordered => is_order(&ordered),
        },
        None => false,
    }
}
