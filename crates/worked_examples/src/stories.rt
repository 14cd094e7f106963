//! What is done to a bench step by step, and what comes of it.
use bench_core::Bench;
use cell_table::{Cell, Claim, Given, SettleFault};
use machine_cells::Rp3;
use project_book::{Edit, Project};
use std::alloc::Global;
use std::test::Fail;

/// What is done to a bench.
#[derive(Clone, Copy, Debug)]
pub(crate) enum Step {
    Edit(Edit),
    Settle,
    /// Claims this very cell, and holds the claim.
    Claim { component: u32, cycle: u32 },
    /// Computes the claim that was held last, and gives the result.
    Give,
}

/// What comes of it.
#[derive(Clone, Copy, PartialEq, Eq, Debug)]
pub(crate) enum Came {
    /// An edit was accepted.
    Version(u32),
    /// An edit was refused, by this number.
    Refused(u8),
    /// So many cells were computed, and none is due.
    Settled(u64),
    /// So many cells were computed, and the clock is at its last value.
    Stopped(u64),
    Claimed,
    /// Another cell would have been claimed, or none.
    NotClaimed,
    Gone,
    NotDue,
    Overtaken,
    Foreign,
    /// A result for this cell came back, since the clock is at its last value.
    ClockSpent { component: u32, cycle: u32 },
    Stored { changed: bool },
    /// A growth was refused, or no claim is held.
    Nothing,
}

/// Steps, each with what comes of it.
pub(crate) type Story<'a> = &'a [(Step, Came)];

/// A bench, and the claims that are held.
#[derive(Drop)]
pub(crate) struct Stage {
    pub bench: Bench,
    claims: Vec<Claim<Rp3>>,
}

/// The place in a story of the first step of which something else came, with what came, at a fresh bench
/// of a project with its clock at this value.
pub(crate) fn surprise(
    alloc: Global,
    project: Project,
    clock: u64,
    story: Story,
) -> Result<Option<(usize, Came)>, Fail> {
    let mut stage = Stage::opened(alloc, project, clock)?;
    stage.surprise(story)
}

impl Stage {
    /// A bench of a project, with its clock at this value. It stands in a box, since each way out of a
    /// function costs its proof something for every field that it lets go.
    pub(crate) fn opened(alloc: Global, project: Project, clock: u64) -> Result<Box<Stage>, Fail> {
        let bench = Bench::new(alloc, project, clock).ok().ok_or("no memory")?;
        let claims = Vec::new(alloc);
        Ok(Box::new(alloc, Stage { bench, claims })?)
    }

    /// A settled bench of a project.
    pub(crate) fn settled(alloc: Global, project: Project) -> Result<Box<Stage>, Fail> {
        let mut stage = Stage::opened(alloc, project, 0)?;
        stage.play(Step::Settle)?;
        Ok(stage)
    }

    /// The place in the story of the first step of which something else came, with what came.
    pub(crate) fn surprise(&mut self, story: Story) -> Result<Option<(usize, Came)>, Fail> {
        for (place, (step, want)) in story.iter().enumerate() {
            let came = self.play(*step)?;
            if came != *want {
                return Ok(Some((place, came)));
            }
        }
        Ok(None)
    }

    /// What comes of a step.
    pub(crate) fn play(&mut self, step: Step) -> Result<Came, Fail> {
        match step {
            Step::Edit(edit) => Ok(edited(&mut self.bench, edit)),
            Step::Settle => Ok(settled(&mut self.bench)),
            Step::Claim { component, cycle } => self.claim(Cell { cycle, component }),
            Step::Give => match self.claims.pop() {
                Some(claim) => Ok(given(&mut self.bench, claim)),
                None => Ok(Came::Nothing),
            },
        }
    }

    fn claim(&mut self, cell: Cell) -> Result<Came, Fail> {
        match claim_of(&self.bench, cell)? {
            Some(claim) => {
                self.claims.push(claim)?;
                Ok(Came::Claimed)
            }
            None => Ok(Came::NotClaimed),
        }
    }
}

/// The claim of this very cell, if it is due and can be computed.
pub(crate) fn claim_of(bench: &Bench, cell: Cell) -> Result<Option<Claim<Rp3>>, Fail> {
    match bench.claim(cell)? {
        Some(claim) if claim.cell() == cell => Ok(Some(claim)),
        _ => Ok(None),
    }
}

fn edited(bench: &mut Bench, edit: Edit) -> Came {
    match bench.edit(0, edit) {
        Ok(version) => Came::Version(version),
        Err(fault) => Came::Refused(fault.number()),
    }
}

fn settled(bench: &mut Bench) -> Came {
    match bench.settle() {
        Ok(settled) => Came::Settled(settled.computed),
        Err(SettleFault::ClockSpent { computed }) => Came::Stopped(computed),
        Err(SettleFault::Memory { .. }) => Came::Nothing,
    }
}

/// What comes of a claim that is computed and given.
pub(crate) fn given(bench: &mut Bench, claim: Claim<Rp3>) -> Came {
    let Ok(done) = claim.compute() else {
        return Came::Nothing;
    };
    match bench.give(done) {
        Given::Gone => Came::Gone,
        Given::NotDue => Came::NotDue,
        Given::Overtaken => Came::Overtaken,
        Given::Foreign => Came::Foreign,
        Given::ClockSpent(done) => {
            let Cell { cycle, component } = done.cell();
            Came::ClockSpent { component, cycle }
        }
        // A growth was refused.
        Given::Memory(_) => Came::Nothing,
        Given::Stored { changed } => Came::Stored { changed },
    }
}
