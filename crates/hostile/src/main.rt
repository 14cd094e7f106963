//! Tries the workbench with what it must stand: readers and writers that fail, damaged project files, and results that are
//! lost, doubled, late or foreign.
//!
//! Each line names what was tried, and how often, and says `held` where each answer was the one that was worked out, and what
//! stood afterwards answered on; behind them stand the statuses with which the program ends for other causes than its input's
//! end, and the last of these is this program's own. `tests/hostile` does the same to the program from outside.
#![tactic(auto)]

mod benches;
mod claims;
mod ends;
mod files;
mod gates;
mod reading;
mod sessions;
mod stories;
mod turns;
mod writing;

use std::io::Print;
use std::process::ExitCode;
use std::sync::Wait;
use std::thread::Threads;

fn main(rt: HostRuntime) -> ExitCode {
    let alloc = rt.alloc();
    let mut held = true;
    held &= tell(
        &rt,
        "a reader of pieces of each length",
        reading::in_pieces(&rt, alloc),
    );
    held &= tell(
        &rt,
        "a reader that fails at each call",
        reading::failing(&rt, alloc),
    );
    held &= tell(&rt, "a bound at each read", reading::bounded(&rt, alloc));
    held &= tell(
        &rt,
        "13.3: a writer that fails at each call",
        writing::failing(&rt, alloc),
    );
    held &= tell(
        &rt,
        "13.3: a writer of one byte a call that fails at each",
        writing::slow(&rt, alloc),
    );
    held &= tell(
        &rt,
        "a writer that takes none at each call",
        writing::taking_none(&rt, alloc),
    );
    held &= tell(
        &rt,
        "a file whose reader fails at each call",
        files::failing(alloc),
    );
    held &= tell(&rt, "a file without an end", files::growing(alloc));
    held &= tell(&rt, "13.4: a file cut after each byte", files::cut(alloc));
    held &= tell(
        &rt,
        "a file of format 3 cut after each byte",
        files::large_cut(alloc),
    );
    held &= tell(
        &rt,
        "files with each byte at 0 and at 255",
        files::damaged(alloc),
    );
    held &= tell(
        &rt,
        "13.4: a file of one byte, of 100,000 signs, of keys in one another",
        files::deep(alloc),
    );
    held &= tell(&rt, "claims dropped", claims::dropped(&rt, alloc));
    held &= tell(&rt, "results given twice", claims::twice(&rt, alloc));
    held &= tell(
        &rt,
        "21: results given to another bench",
        claims::elsewhere(&rt, alloc),
    );
    held &= tell(
        &rt,
        "12: results held over edits",
        claims::over_edits(&rt, alloc),
    );
    held &= tell(
        &rt,
        "13: results held over horizons",
        claims::over_horizons(&rt, alloc),
    );
    held &= tell(
        &rt,
        "12, 13, 14, 20, 21: passes in two threads",
        turns::played(&rt, alloc),
    );
    held &= tell(
        &rt,
        "14.3: workers that a gate holds",
        gates::held(&rt, alloc),
    );
    let end = ends::played(&rt, &mut rt.reader());
    if held { end } else { ExitCode::from(1) }
}

/// Says how often something was tried, where it held, and gives whether it did.
fn tell<R: Print>(rt: &R, name: &str, tried: Option<u32>) -> bool {
    match tried {
        Some(times) => println!(rt; "{name}: {times} held").is_ok(),
        None => {
            let _ = println!(rt; "{name}: BROKE");
            false
        }
    }
}
