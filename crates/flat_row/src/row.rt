//! The present row of the whole machine.
ghost use Rattle.std.specs.Prelude.{◌≡◌, IfOk, replicate};
ghost use Rattle.omega_net.specs.Numbers.{lines};
ghost use Rattle.ref_proc.specs.RefProc.{proc_start};
ghost use Rattle.machine_cells.specs.Run.{first_states};
ghost use Rattle.flat_row.specs.Row.{first_buffers};

use crate::acting::Replies;
use crate::side::Side;
use crate::waits::Waits;
use crate::words::first_words;
use grid_law::NoMemory;
use mem_module::Words;
use omega_net::{Net, Reply, Shape};
use project_book::Project;
use ref_proc::ProcState;
use std::alloc::Global;
use std::marker::Model;

/// The states of all components at a cycle, by levels of queues and sets of labels.
pub struct Row {
    pub(crate) shape: Shape,
    pub(crate) low: Side,
    pub(crate) comb: Side,
    pub(crate) waits: Vec<Waits>,
    /// What processors are, but for what they show.
    pub(crate) procs: Vec<ProcState>,
    pub(crate) words: Vec<Words>,
    pub(crate) module_turns: u64,
    pub(crate) served: u64,
    /// The processors that stay as they are until a reply comes or what they show leaves.
    pub(crate) rests: u64,
    /// What modules answer in a step and what processors receive in it. Between two steps it means nothing.
    pub(crate) low_answers: [Reply; 64],
    pub(crate) comb_answers: [Reply; 64],
    pub(crate) low_got: Replies,
    pub(crate) comb_got: Replies,
}

// Not derived: whoever drops a row calls this, and proves nothing of its parts anew.
impl Drop for Row {
    fn drop(self) {
        let Row {
            shape: _,
            low,
            comb,
            waits,
            procs,
            words,
            module_turns: _,
            served: _,
            rests: _,
            low_answers: _,
            comb_answers: _,
            low_got: _,
            comb_got: _,
        } = self;
        drop(low);
        drop(comb);
        drop(waits);
        drop(procs);
        drop(words);
    }
}

impl Model for Row {
    ghost use Rattle.flat_row.specs.Row.{Arrays, IsRow};

    ghost Value = { Arrays };

    ghost view = { λ r. record { k = r.shape; low = r.low; comb = r.comb; buffers = r.waits.items; procs = r.procs.items; words = r.words.items; module_turns = r.module_turns; served = r.served; rests = r.rests } };

    ghost invariant = { λ r. IsRow (record { k = r.shape; low = r.low; comb = r.comb; buffers = r.waits.items; procs = r.procs.items; words = r.words.items; module_turns = r.module_turns; served = r.served; rests = r.rests }) };
}

impl Row {
    ghost use Rattle.flat_row.specs.Row.{IsRow, IsRowOf, first_row, states_of};

    /// The row of cycle 0.
    ///
    /// # Errors
    ///
    /// Where a growth was refused. What was taken is given back.
    pub fn start(alloc: Global, project: &Project) -> Result<Row, NoMemory>
        ensures states { IfOk result (λ row. states_of row ≡ first_states project.now) }
        ensures of { IfOk result (λ row. IsRowOf project.now row) }
    {
        let row = Row::first(alloc, project)?;
        Ok(row)
    }

    /// The arrays are as long as they should be, and no processor shows two requests. This is so of every row, and no work is done.
    pub(crate) fn is_row(&self)
        ensures { IsRow self.now }
    {
        let _shape = self.shape;
    }

    fn first(alloc: Global, project: &Project) -> Result<Row, NoMemory>
        ensures { IfOk result (λ row. row ≡ first_row project.now) }
    {
        project.is_project();
        let shape = project.shape();
        let low = Side::new(alloc, project, Net::Low)?;
        let comb = Side::new(alloc, project, Net::Comb)?;
        let waits = first_waits(alloc, shape)?;
        let procs = first_procs(alloc, shape)?;
        let words = first_words(alloc, project)?;
        Ok(Row {
            shape,
            low,
            comb,
            waits,
            procs,
            words,
            module_turns: 0,
            served: 0,
            rests: 0,
            low_answers: [Reply::default(); 64],
            comb_answers: [Reply::default(); 64],
            low_got: Replies::none(),
            comb_got: Replies::none(),
        })
    }
}

/// What the combining switches hold beside their queues at cycle 0, by stage.
fn first_waits(alloc: Global, shape: Shape) -> Result<Vec<Waits>, NoMemory>
    ensures { IfOk result (λ waits. waits.items ≡ replicate shape (first_buffers shape)) }
{
    let stages = shape.k();
    let mut waits = Vec::with_capacity(alloc, stages as usize)?;
    for _s in 0..stages {
        let one = Waits::new(alloc, shape)?;
        waits.push(one)?;
    }
    Ok(waits)
}

/// The processors at cycle 0.
fn first_procs(alloc: Global, shape: Shape) -> Result<Vec<ProcState>, NoMemory>
    ensures { IfOk result (λ procs. procs.items ≡ replicate (lines shape) proc_start) }
{
    let lines = shape.lines();
    let mut procs = Vec::with_capacity(alloc, lines as usize)?;
    for _p in 0..lines {
        procs.push(ProcState::start())?;
    }
    Ok(procs)
}
