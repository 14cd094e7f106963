//! What the plain simulation of a project shows.
use crate::setups::Setup;
use machine_cells::{MachineState, from_scratch};
use std::alloc::Global;
use std::fmt;
use std::sync::Arc;
use std::test::Fail;

/// The states of a run, by cycle and component.
type Rows<'a> = &'a [Vec<Arc<MachineState>>];

/// The run of a machine in which page 0 stands whole in module 0. Its text has the replies that each
/// processor received, as CYCLE:WORD, then how many references were issued, requests served and requests
/// combined over all cells, and word 0 at the last cycle.
#[derive(Drop)]
pub(crate) struct Run {
    processors: usize,
    rows: Vec<Vec<Arc<MachineState>>>,
}

impl Run {
    pub(crate) fn of(alloc: Global, setup: &Setup) -> Result<Run, Fail> {
        let project = setup.project(alloc)?;
        Ok(Run {
            processors: project.processors() as usize,
            rows: from_scratch(alloc, &project)?,
        })
    }

    /// A component's state at a cycle.
    pub(crate) fn state(&self, component: usize, cycle: usize) -> Option<&MachineState> {
        held(self.rows.get(cycle)?, component)
    }

    /// The output queues of a low switch.
    pub(crate) fn queues(&self, switch: usize) -> Queues<'_> {
        Queues {
            rows: &self.rows,
            switch,
        }
    }

    pub(crate) fn counts(&self) -> Counts {
        Counts::over(&self.rows)
    }

    /// How many replies the processors received.
    pub(crate) fn answers(&self) -> usize {
        let mut answers: usize = 0;
        for row in &self.rows {
            for state in row {
                if let MachineState::Proc(s) = &**state {
                    answers = answers.saturating_add(s.got.iter().flatten().count());
                }
            }
        }
        answers
    }

    pub(crate) fn last_word(&self) -> Option<u32> {
        match held(self.rows.last()?, self.processors)? {
            MachineState::Module(module) => Some(module.word(0)),
            _ => None,
        }
    }
}

impl fmt::Display for Run {
    fn fmt<W: fmt::Write>(&self, f: &mut fmt::Formatter<W>) -> fmt::Result {
        for proc in 0..self.processors {
            let replies = Replies {
                rows: &self.rows,
                proc,
            };
            write!(f, "p{proc}{replies}, ")?;
        }
        let counts = self.counts();
        let word = self.last_word().unwrap_or(0);
        write!(f, "{counts}, word {word}")
    }
}

/// The state of a component among those of a cycle.
fn held(row: &[Arc<MachineState>], component: usize) -> Option<&MachineState> {
    match row.get(component) {
        Some(state) => Some(state),
        None => None,
    }
}

/// The replies that a processor received.
#[derive(Clone, Copy)]
struct Replies<'a> {
    rows: Rows<'a>,
    proc: usize,
}

impl fmt::Display for Replies<'_> {
    fn fmt<W: fmt::Write>(&self, f: &mut fmt::Formatter<W>) -> fmt::Result {
        for (cycle, row) in self.rows.iter().enumerate() {
            if let Some(MachineState::Proc(state)) = held(row, self.proc) {
                for reply in state.got.iter().flatten() {
                    write!(f, " {cycle}:{}", reply.word)?;
                }
            }
        }
        Ok(())
    }
}

/// How many references were issued, requests served and requests combined.
#[derive(Clone, Copy)]
pub(crate) struct Counts {
    issued: u64,
    pub served: u64,
    combined: u64,
}

impl Counts {
    /// The counts over all cells.
    fn over(rows: Rows) -> Counts {
        let mut counts = Counts {
            issued: 0,
            served: 0,
            combined: 0,
        };
        for row in rows {
            for state in row {
                counts.add(state);
            }
        }
        counts
    }

    fn add(&mut self, state: &MachineState) {
        match state {
            MachineState::Proc(s) if s.sent => self.issued = self.issued.saturating_add(1),
            MachineState::Module(s) if s.served => self.served = self.served.saturating_add(1),
            MachineState::Comb(s) => {
                self.combined = self.combined.saturating_add(u64::from(s.combined));
            }
            _ => {}
        }
    }
}

impl fmt::Display for Counts {
    fn fmt<W: fmt::Write>(&self, f: &mut fmt::Formatter<W>) -> fmt::Result {
        let Counts {
            issued,
            served,
            combined,
        } = self;
        write!(f, "issued {issued}, served {served}, combined {combined}")
    }
}

/// The output queues of a low switch. Their text has a line for each of the two: its length at each cycle.
#[derive(Clone, Copy)]
pub(crate) struct Queues<'a> {
    rows: Rows<'a>,
    switch: usize,
}

impl fmt::Display for Queues<'_> {
    fn fmt<W: fmt::Write>(&self, f: &mut fmt::Formatter<W>) -> fmt::Result {
        for output in 0..2 {
            write!(f, "{}.{output}:", self.switch)?;
            self.write_lengths(f, output)?;
            f.write_str("\n")?;
        }
        Ok(())
    }
}

impl Queues<'_> {
    fn write_lengths<W: fmt::Write>(
        &self,
        f: &mut fmt::Formatter<W>,
        output: usize,
    ) -> fmt::Result {
        for row in self.rows {
            if let Some(MachineState::Low(state)) = held(row, self.switch) {
                if let Some(queue) = state.fwd.get(output) {
                    write!(f, " {}", queue.len())?;
                }
            }
        }
        Ok(())
    }
}
