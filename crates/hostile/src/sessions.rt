//! The base project, and a session on it.
ghost use Rattle.std.specs.Prelude.{◌<◌, ◌≤◌};

use bench_core::Bench;
use project_book::Project;
use project_file::read_project;
use shared_bench::{Pass, open};
use std::alloc::Global;

/// The base project with each of its keys: two processors and the horizon 10; page 0 on module 0, page 1 on module 1; word 0
/// is 10.
pub(crate) const BASE: &str = "format = 1
k = 1
horizon = 10
window = 1
combine = [false]
[depths]
low_forward = 4
low_reverse = 4
comb_forward = 4
comb_reverse = 8
module = 4
wait = 4
[[page]]
number = 0
amount = 0
base = 0
[[page]]
number = 1
amount = 0
base = 1
[[word]]
address = 0
value = 10
[[script]]
processor = 0
entries = []
[[script]]
processor = 1
entries = []
";

/// The lines of example 18.
pub(crate) const LINES: &[u8] = b"entry 0 0 sync add 0 1
entry 1 0 sync add 0 2
reply 1 0
combine 0 on
reply 1 0
memory 0 8
counter served all 0 8
place 300
";

/// Their answers, at the base project with the horizon 8.
pub(crate) const ANSWERS: &[u8] = b"ok 1
ok 2
ok 2 at 7 word 11
ok 3
ok 3 at 6 word 11
ok 3 13
ok 3 1
ok 3 1:300
";

/// The same with the horizon 8, and with word 0 at 11.
const SHORT: &str = "format = 1
k = 1
horizon = 8
page = [{number = 0, amount = 0, base = 0}, {number = 1, amount = 0, base = 1}]
word = [{address = 0, value = 10}]
";

const OTHER: &str = "format = 1
k = 1
horizon = 10
page = [{number = 0, amount = 0, base = 0}, {number = 1, amount = 0, base = 1}]
word = [{address = 0, value = 11}]
";

/// The project of a file.
fn project_of(alloc: Global, file: &str) -> Option<Project> {
    match read_project(alloc, file.as_bytes()) {
        Ok(project) => Some(project),
        Err(_) => None,
    }
}

/// The base project.
pub(crate) fn base(alloc: Global) -> Option<Project> {
    project_of(alloc, BASE)
}

/// The base project with word 0 at 11.
pub(crate) fn other(alloc: Global) -> Option<Project> {
    project_of(alloc, OTHER)
}

/// A bench of a project, with no cell computed. It stands in a box, since each way out of a function costs its proof
/// something for every field that it lets go.
pub(crate) fn bench_of(alloc: Global, project: Project, clock: u64) -> Option<Box<Bench>> {
    let bench = Bench::new(alloc, project, clock).ok()?;
    Box::new(alloc, bench).ok()
}

/// A bench of the base project.
pub(crate) fn fresh(alloc: Global) -> Option<Box<Bench>> {
    let project = base(alloc)?;
    bench_of(alloc, project, 0)
}

/// A pass to a fresh bench of a project, with so many seats.
pub(crate) fn pass_to(alloc: Global, project: Project, clock: u64, seats: u32) -> Option<Pass>
    requires { (0 < seats) × (seats ≤ 64) }
{
    let bench = bench_of(alloc, project, clock)?;
    open(alloc, Box::into_inner(bench), seats).ok()
}

/// A bench for the session.
pub(crate) fn desk(alloc: Global) -> Option<Box<Bench>> {
    let project = project_of(alloc, SHORT)?;
    bench_of(alloc, project, 0)
}

/// How many lines end in these bytes.
pub(crate) fn lines_in(bytes: &[u8]) -> usize {
    let mut lines = 0usize;
    for byte in bytes {
        if *byte == b'\n' {
            lines = lines.saturating_add(1);
        }
    }
    lines
}

/// How many bytes so many lines have, and the text where it has fewer.
pub(crate) fn bytes_of(text: &[u8], lines: usize) -> usize {
    let mut ended = 0usize;
    for (place, byte) in text.iter().enumerate() {
        if ended == lines {
            return place;
        }
        if *byte == b'\n' {
            ended = ended.saturating_add(1);
        }
    }
    text.len()
}

/// What is left behind so many lines.
pub(crate) fn after_lines(text: &[u8], lines: usize) -> &[u8] {
    let place = bytes_of(text, lines).min(text.len());
    text.split_at(place).1
}

/// So many of the first lines.
pub(crate) fn first_lines(text: &[u8], lines: usize) -> &[u8] {
    let place = bytes_of(text, lines).min(text.len());
    text.split_at(place).0
}
