//! What the parts of the workbench cost.
//!
//! `benchmarks` measures every group of rows, small enough for a test; `benchmarks loads K H` what a fresh settling, the first
//! counter of a settled bench, edits, answers and memory cost, each row beside the plain simulation; `benchmarks workers K H`
//! how many cells workers fill in a second, and what the answers to edits take beside them; `benchmarks waves K H` what
//! settling by waves costs. Behind the numbers may stand the loads that are to be measured: `hot`, `quiet`, `uniform`, `mixed`;
//! else all are. Standard output gets one line of what was computed, which hangs on nothing but the words given; standard error
//! gets the figures, a row each.
//!
//! A further group of rows is a module with a call that takes the runtime, the loads and the group's numbers, writes its rows,
//! and returns its part of the line; [`Group`] gets its word.
#![tactic(auto)]

mod answers;
mod benches;
mod clock;
mod crew;
mod edits;
mod filling;
mod load;
mod loads;
mod scratch;
mod waves;
mod workers;

use anyhow::Result;
use crew::Hall;
use line_words::number;
use load::{LOADS, Load};
use page_map::MAX_K;
use project_book::MAX_HORIZON;
use std::env;
use std::fmt::Display;
use std::process::ExitCode;

/// The words are none of those above.
const WRONG_WORDS: u8 = 2;

/// The clock, the terminal or the memory failed.
const FAILED: u8 = 1;

/// How often `workers` makes each edit and takes it back.
const PAIRS: u32 = 4;

/// A group of rows.
#[derive(Clone, Copy)]
enum Group {
    Loads,
    Workers,
    Waves,
}

/// What is to be measured.
#[derive(Drop)]
enum Asked {
    Everything,
    Some {
        group: Group,
        k: u32,
        horizon: u32,
        loads: Vec<Load>,
    },
}

fn main(rt: HostRuntime) -> ExitCode {
    let asked = match words(&rt) {
        Ok(Some(asked)) => asked,
        Ok(None) => {
            let _ = eprintln!(rt;
                "usage: benchmarks [loads|workers|waves K H [hot] [quiet] [uniform] [mixed]], K from 1 to {MAX_K}, H to {MAX_HORIZON}"
            );
            return ExitCode::from(WRONG_WORDS);
        }
        Err(error) => return failed(&rt, error),
    };
    match measure(&rt, &rt, asked) {
        Ok(()) => ExitCode::from(0),
        Err(error) => failed(&rt, error),
    }
}

fn failed(rt: &HostRuntime, error: anyhow::Error) -> ExitCode {
    let _ = eprintln!(rt; "benchmarks: {error}");
    ExitCode::from(FAILED)
}

/// What the program's words ask for; None where they say nothing that there is.
fn words(rt: &HostRuntime) -> Result<Option<Asked>> {
    let mut words = env::args(rt)?;
    words.next();
    let Some(group) = words.next() else {
        return Ok(Some(Asked::Everything));
    };
    let (Some(k), Some(horizon)) = (words.next(), words.next()) else {
        return Ok(None);
    };
    let Some((group, k, horizon)) = sized(group.as_str(), k.as_str(), horizon.as_str()) else {
        return Ok(None);
    };
    let mut loads = Vec::new(rt.alloc());
    for word in words {
        match Load::named(word.as_str()) {
            Some(load) => loads.push(load)?,
            None => return Ok(None),
        }
    }
    if loads.is_empty() {
        loads.extend_from_slice(&LOADS)?;
    }
    Ok(Some(Asked::Some {
        group,
        k,
        horizon,
        loads,
    }))
}

/// A group, and the k and the horizon of its machine.
fn sized(group: &str, k: &str, horizon: &str) -> Option<(Group, u32, u32)> {
    let group = match group {
        "loads" => Group::Loads,
        "workers" => Group::Workers,
        "waves" => Group::Waves,
        _ => return None,
    };
    let (k, horizon) = (number(k.as_bytes())?, number(horizon.as_bytes())?);
    if k == 0 || k > MAX_K || horizon > MAX_HORIZON {
        return None;
    }
    Some((group, k, horizon))
}

/// Writes what came of it.
fn told<D: Display + Drop>(rt: &HostRuntime, came: Result<D>) -> Result<()> {
    let came = came?;
    println!(rt; "{came}")?;
    Ok(())
}

fn measure<H: Hall>(rt: &HostRuntime, host: &H, asked: Asked) -> Result<()> {
    let Asked::Some {
        group,
        k,
        horizon,
        loads,
    } = asked
    else {
        return everything(rt, host);
    };
    match group {
        Group::Loads => told(rt, loads::measure(rt, host, &loads, k, horizon)),
        Group::Workers => told(rt, workers::measure(rt, host, &loads, k, horizon, PAIRS)),
        Group::Waves => told(rt, waves::measure(rt, host, &loads, k, horizon)),
    }
}

/// Every group of rows, small enough for a test.
fn everything<H: Hall>(rt: &HostRuntime, host: &H) -> Result<()> {
    let loads = loads::measure(rt, host, &LOADS, 1, 8)?;
    let waves = waves::measure(rt, host, &LOADS, 1, 8)?;
    let workers = workers::measure(rt, host, &[Load::Mixed], 1, 8, 1)?;
    println!(rt; "{loads}; {waves}; {workers}")?;
    Ok(())
}
