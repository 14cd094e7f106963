//! The table of `load`.
ghost use Rattle.std.specs.Prelude.{◌≡◌, ◌≤◌, ◌*◌, ◌/◌, ◌^◌, IfOk, Some, max, string_bytes};
ghost use Rattle.experiments.specs.Traffic.{middle};
ghost use Rattle.lab_tasks.specs.LoadTables.{accepted_of, accepted_text, cycles_of, hundredths_text, latency_text, load_row, offer_text, waited_text};
ghost use Rattle.lab_tasks.specs.Tables.{table_text};

use crate::tables::{Machine, Thousandths, network, processors_of};
use experiments::Offer;
use std::alloc::{AllocError, Global};
use std::fmt;
use std::fmt::Write;

/// What came of an offered load's run, from a cycle on to its last one.
#[derive(Clone, Copy)]
pub(crate) struct LoadPoint {
    pub offer: Offer,
    /// The first cycle that is counted.
    pub first: u32,
    /// How many references were answered from then on.
    pub answered: u32,
    /// Of those that were issued from then on up to the middle of what is counted: how many have a reply, how many none, and
    /// the mean of their latencies in hundredths of a cycle.
    pub replies: u64,
    pub unanswered: u64,
    pub mean: Option<u64>,
}

/// The first row of the table.
pub(crate) const LOAD_HEADER: &str =
    "network,processors,combining,hot_percent,offered,seed,first_cycle,cycles,answered,accepted,issued_to,replies,unanswered,mean_latency\n";

/// So many in some cycles are in one cycle, in thousandths.
fn in_a_cycle(number: u32, cycles: u64) -> u64
    ensures { result ≡ number * 1000 / max cycles 1 }
{
    u64::from(number) * 1000 / cycles.max(1)
}

impl LoadPoint {
    /// How many cycles are counted.
    pub fn cycles(&self) -> u64
        ensures cycles { result ≡ cycles_of self.now }
        ensures few { result ≤ 2 ^ 32 }
    {
        (u64::from(self.offer.load.cycles) + 1).saturating_sub(u64::from(self.first))
    }

    /// How many references a processor was answered in a cycle, in thousandths.
    pub fn accepted(&self) -> u64
        ensures { result ≡ accepted_of self.now }
    {
        in_a_cycle(self.answered, self.cycles()) / processors_of(self.offer.load.k)
    }

    /// The last cycle of whose references it is counted how long they take.
    fn middle(&self) -> u64
        ensures { result ≡ middle self.now.first self.now.offer.load.cycles }
    {
        (u64::from(self.first) + u64::from(self.offer.load.cycles)) / 2
    }
}

/// A number with two places behind its point.
#[derive(Clone, Copy)]
struct Hundredths(u64);

impl fmt::Display for Hundredths {
    ghost output = { λ n. Some (hundredths_text n.0) };

    fn fmt<W: fmt::Write>(&self, f: &mut fmt::Formatter<W>) -> fmt::Result {
        let whole = self.0 / 100;
        let (tenths, last) = (self.0 / 10 % 10, self.0 % 10);
        write!(f, "{whole}.{tenths}{last}")
    }
}

/// A mean, and nothing where there is none.
#[derive(Clone, Copy)]
struct Latency(Option<u64>);

impl fmt::Display for Latency {
    ghost output = { λ m. Some (latency_text m.0) };

    #[tactic(auto, unfolding(crate::specs::LoadTables::latency_text))]
    fn fmt<W: fmt::Write>(&self, f: &mut fmt::Formatter<W>) -> fmt::Result {
        match self.0 {
            None => Ok(()),
            Some(mean) => {
                let mean = Hundredths(mean);
                write!(f, "{mean}")
            }
        }
    }
}

/// Which run it is.
#[derive(Clone, Copy)]
struct Run(Offer);

impl fmt::Display for Run {
    ghost output = { λ r. Some (offer_text r.0) };

    fn fmt<W: fmt::Write>(&self, f: &mut fmt::Formatter<W>) -> fmt::Result {
        let network = network(self.0.load.sync);
        let machine = Machine(self.0.load);
        let offered = Thousandths(u64::from(self.0.rate) * 10);
        let seed = self.0.load.seed;
        write!(f, "{network},{machine},{offered},{seed}")
    }
}

/// What is accepted.
#[derive(Clone, Copy)]
struct Accepted(LoadPoint);

impl fmt::Display for Accepted {
    ghost output = { λ p. Some (accepted_text p.0) };

    fn fmt<W: fmt::Write>(&self, f: &mut fmt::Formatter<W>) -> fmt::Result {
        let (first, answered) = (self.0.first, self.0.answered);
        let cycles = self.0.cycles();
        let accepted = Thousandths(self.0.accepted());
        write!(f, "{first},{cycles},{answered},{accepted}")
    }
}

/// How long references take.
#[derive(Clone, Copy)]
struct Waited(LoadPoint);

impl fmt::Display for Waited {
    ghost output = { λ p. Some (waited_text p.0) };

    fn fmt<W: fmt::Write>(&self, f: &mut fmt::Formatter<W>) -> fmt::Result {
        let middle = self.0.middle();
        let (replies, unanswered) = (self.0.replies, self.0.unanswered);
        let mean = Latency(self.0.mean);
        write!(f, "{middle},{replies},{unanswered},{mean}")
    }
}

impl fmt::Display for LoadPoint {
    ghost output = { λ p. Some (load_row p) };

    fn fmt<W: fmt::Write>(&self, f: &mut fmt::Formatter<W>) -> fmt::Result {
        let run = Run(self.offer);
        let accepted = Accepted(*self);
        let waited = Waited(*self);
        write!(f, "{run},{accepted},{waited}")
    }
}

/// The table of the points.
pub(crate) fn load_table(alloc: Global, points: &[LoadPoint]) -> Result<String, AllocError>
    ensures { IfOk result (λ text. string_bytes text ≡ table_text LOAD_HEADER.now load_row points.now) }
{
    let mut text = String::from_str(alloc, LOAD_HEADER)?;
    for point in points {
        writeln!(text, "{point}")?;
    }
    Ok(text)
}
