//! Examples 12.1 to 12.3, at the base project.
use crate::benches::{are_made, bench_of, is_simulated, settles};
use crate::runs::{holds, room};
use bench_shell::{RunFault, run};
use omega_net::ScriptEntry;
use project_book::Edit;
use std::alloc::Global;
use std::thread::Threads;

/// Two processors and the horizon 10; page 0 on module 0, page 1 on module 1; word 0 is 10: 66 cells.
const BASE: &str = "format = 1
k = 1
horizon = 10
page = [{number = 0, amount = 0, base = 0}, {number = 1, amount = 0, base = 1}]
word = [{address = 0, value = 10}]
";

/// 12.1: what two calls of `settle` computed adds up to all cells, and then every answer is that of the simulation.
pub(crate) fn settled<R: Threads + Sync>(rt: &R, alloc: Global) -> bool {
    match bench_of(alloc, BASE) {
        Some(mut bench) => settles(&mut bench) == Some(66) && is_simulated(rt, alloc, &mut bench),
        None => false,
    }
}

const EDITS: [Edit; 4] = [
    Edit::Word {
        address: 300,
        word: 5,
    },
    Edit::Entry {
        proc: 0,
        index: 0,
        entry: ScriptEntry::Fence,
    },
    Edit::Window(2),
    Edit::Horizon(12),
];

/// 12.2: a refused edit leaves version, journal, clock and the number of due cells, and is then accepted as the next version.
pub(crate) fn edited(alloc: Global) -> bool {
    let Some(mut bench) = bench_of(alloc, BASE) else {
        return false;
    };
    settles(&mut bench) == Some(66) && are_made(&mut bench, &EDITS)
}

/// The lines of example 18, which begin with the horizon here.
const LINES: &[u8] = b"horizon 8
entry 0 0 sync add 0 1
entry 1 0 sync add 0 2
reply 1 0
combine 0 on
reply 1 0
memory 0 8
counter served all 0 8
place 300
";

const ANSWERS: &[u8] = b"ok 1
ok 2
ok 3
ok 3 at 7 word 11
ok 4
ok 4 at 6 word 11
ok 4 13
ok 4 1
ok 4 1:300
";

/// 12.3: all of the answers, or a beginning of them with want of memory told.
pub(crate) fn answered<R: Threads + Sync>(rt: &R, alloc: Global) -> bool {
    let (Some(mut bench), Some(mut writer)) = (bench_of(alloc, BASE), room(alloc)) else {
        return false;
    };
    let mut reader = LINES;
    let ended = run(rt, alloc, &mut reader, &mut writer, &mut *bench);
    holds(
        ended == Ok(()),
        ended == Err(RunFault::Memory),
        &writer,
        ANSWERS,
    )
}
