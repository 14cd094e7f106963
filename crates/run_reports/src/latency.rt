//! How long the references of a run took that meet a condition.
ghost use Rattle.std.specs.Prelude.{◌≡◌, ◌≤◌, ◌<◌, ◌+◌, ◌^◌, ℕ, IfOk, is_none, length, replicate, slice_index, sum, Some};
ghost use Rattle.std.specs.List.{All};
ghost use Rattle.run_reports.specs.Latencies.{is_latency, latency, one_if, AreCounted, AreFew, AreLatencies, IsWithin};

use crate::{Condition, Reference, meets, references};
use grid_law::NoMemory;
use project_book::Project;
use std::alloc::{AllocError, Global};

/// How many references have each latency.
#[derive(Drop)]
pub struct Latencies {
    /// At place d the number of those that took d cycles, from 0 up to the horizon.
    pub histogram: Vec<u64>,
    /// The number of those that no state up to the horizon shows a reply to.
    pub unanswered: u64,
}

/// The cycles from the state that shows a reference issued to the one that shows its reply, where one does.
fn latency(reference: &Reference) -> Option<u32>
    ensures { result ≡ latency reference.now }
{
    match reference.answered {
        Some(cycle) => Some(cycle.saturating_sub(reference.issued)),
        None => None,
    }
}

impl Latencies {
    /// None up to a longest one.
    fn new(alloc: Global, longest: u32) -> Result<Latencies, AllocError>
        ensures histogram { IfOk result (λ l. l.histogram.items ≡ replicate (longest + 1) 0) }
        ensures unanswered { IfOk result (λ l. l.unanswered ≡ 0) }
    {
        let mut histogram = Vec::new(alloc);
        for _latency in 0..u64::from(longest) + 1 {
            histogram.push(0)?;
        }
        Ok(Latencies {
            histogram,
            unanswered: 0,
        })
    }

    /// Counts a reference.
    fn count(&mut self, latency: Option<u32>)
        requires few { sum self.old.histogram.items + self.old.unanswered + 1 < 2 ^ 64 }
        requires within { (d : ℕ) → latency ≡ Some d → d < length self.old.histogram.items }
        ensures many { length self.new.histogram.items ≡ length self.old.histogram.items }
        ensures each { (d : ℕ) → d < length self.old.histogram.items → slice_index self.new.histogram.items d ≡ slice_index self.old.histogram.items d + one_if (is_latency d latency) }
        ensures unanswered { self.new.unanswered ≡ self.old.unanswered + one_if (is_none latency) }
        ensures all { sum self.new.histogram.items + self.new.unanswered ≡ sum self.old.histogram.items + self.old.unanswered + 1 }
    {
        match latency {
            Some(latency) => self.histogram[latency as usize] += 1,
            None => self.unanswered += 1,
        }
    }
}

/// The latencies up to a longest one of those of some references that meet a condition.
#[tactic(auto, using(crate::proofs::Tallying::fits))]
fn counted(
    alloc: Global,
    condition: &Condition,
    longest: u32,
    references: &[Reference],
) -> Result<Latencies, AllocError>
    requires { All (IsWithin longest) references.now }
    ensures { IfOk result (AreCounted condition.now longest references.now) }
{
    let mut latencies = Latencies::new(alloc, longest)?;
    for reference in references {
        if meets(condition, reference) {
            latencies.count(latency(reference));
        }
    }
    Ok(latencies)
}

/// How long those references took that meet a condition, in the run of a project. It simulates the project from cycle 0 to its
/// horizon, and keeps no state of it.
///
/// # Errors
///
/// Where a growth was refused. What was taken is given back.
pub fn latencies_of(
    alloc: Global,
    project: &Project,
    condition: &Condition,
) -> Result<Latencies, NoMemory>
    ensures latencies { IfOk result (AreLatencies project.now condition.now) }
    ensures few { IfOk result AreFew }
{
    project.is_project();
    let references = references(alloc, project)?;
    let latencies = counted(alloc, condition, project.horizon(), references.as_slice())?;
    Ok(latencies)
}
