//! Workers: the cells that they fill in a second, and what the answers to edits take beside them.
use crate::answers::{Plan, with_workers};
use crate::crew::{Hall, cells_of, last_word};
use crate::filling::filled;
use crate::load::{Load, loaded};
use anyhow::Result;
use std::fmt;

/// What came of a load: the cells of a fresh bench, and how many edits beside workers were answered.
#[derive(Clone, Copy)]
struct Told {
    load: Load,
    cells: u64,
    answers: u64,
}

impl fmt::Display for Told {
    fn fmt<W: fmt::Write>(&self, f: &mut fmt::Formatter<W>) -> fmt::Result {
        let Told {
            load,
            cells,
            answers,
        } = self;
        write!(
            f,
            "{load}: {cells} cells at first, {answers} edits answered"
        )
    }
}

/// What came of all loads.
#[derive(Drop)]
pub struct All {
    k: u32,
    horizon: u32,
    told: Vec<Told>,
}

impl fmt::Display for All {
    fn fmt<W: fmt::Write>(&self, f: &mut fmt::Formatter<W>) -> fmt::Result {
        write!(f, "workers k {} horizon {}", self.k, self.horizon)?;
        for told in &self.told {
            write!(f, "; {told}")?;
        }
        Ok(())
    }
}

/// Measures each of the loads on 2^k processors. Each kind of edit is made and taken back so often, with an answer each time.
pub fn measure<H: Hall>(
    rt: &HostRuntime,
    host: &H,
    loads: &[Load],
    k: u32,
    horizon: u32,
    pairs: u32,
) -> Result<All> {
    let mut told = Vec::new(rt.alloc());
    for load in loads {
        told.push(one_load(rt, host, *load, k, horizon, pairs)?)?;
    }
    Ok(All { k, horizon, told })
}

fn one_load<H: Hall>(
    rt: &HostRuntime,
    host: &H,
    load: Load,
    k: u32,
    horizon: u32,
    pairs: u32,
) -> Result<Told> {
    let project = loaded(rt.alloc(), load, k, horizon)?;
    filled(rt, host, load, &project)?;
    let times = pairs.saturating_mul(2);
    let mut answers = 0u64;
    for workers in [1, 4] {
        let plan = Plan {
            load,
            k,
            workers,
            times,
            query: last_word(&project),
        };
        answers = answers.saturating_add(with_workers(rt, host, &project, plan)?);
    }
    Ok(Told {
        load,
        cells: cells_of(&project),
        answers,
    })
}
