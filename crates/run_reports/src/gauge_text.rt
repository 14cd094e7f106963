//! Gauges as text, and by it.
ghost use Rattle.std.specs.Prelude.{◌≡◌, ◌++◌, IfOk, OnOk, bytes_eq, map};
ghost use Rattle.std.specs.List.{find, flat_map};
ghost use Rattle.omega_net.specs.Numbers.{components};
ghost use Rattle.omega_net.specs.Wires.{below};
ghost use Rattle.run_reports.specs.declared.gauge.Gauge.TheVariants.{CountedAt, Length};
ghost use Rattle.run_reports.specs.GaugeTexts.{gauge_named, gauge_text, gauges, gauges_of, stage_gauges};

use crate::full_queues::{PartQueue, queues};
use crate::gauge::Gauge;
use crate::trace_report::Place;
use monitor_sums::Counter;
use omega_net::{Net, Shape};
use std::alloc::{AllocError, Global};
use std::fmt;

/// A gauge of a machine, under its name.
#[derive(Clone, Copy)]
pub(crate) struct GaugeName {
    pub(crate) shape: Shape,
    pub(crate) gauge: Gauge,
}

/// `COUNTER`, `COUNTER PLACE`, `queue PLACE PART`, `stage NET S` or `busy NET S`.
impl fmt::Display for GaugeName {
    ghost use Rattle.std.specs.Prelude.{Some};

    ghost output = { λ n. Some (gauge_text n.shape n.gauge) };

    fn fmt<W: fmt::Write>(&self, f: &mut fmt::Formatter<W>) -> fmt::Result {
        match self.gauge {
            Gauge::Counted(counter) => write!(f, "{counter}"),
            Gauge::CountedAt { counter, place } => {
                let place = Place(self.shape.component(place));
                write!(f, "{counter} {place}")
            }
            Gauge::Length(queue) => {
                let place = Place(self.shape.component(queue.place));
                let part = queue.part;
                write!(f, "queue {place} {part}")
            }
            Gauge::Held {
                net: Net::Low,
                stage,
            } => write!(f, "stage low {stage}"),
            Gauge::Held {
                net: Net::Comb,
                stage,
            } => write!(f, "stage comb {stage}"),
            Gauge::Busy {
                net: Net::Low,
                stage,
            } => write!(f, "busy low {stage}"),
            Gauge::Busy {
                net: Net::Comb,
                stage,
            } => write!(f, "busy comb {stage}"),
        }
    }
}

/// Adds what a counter counts of each component.
fn add_places(all: &mut Vec<Gauge>, shape: Shape, counter: Counter) -> Result<(), AllocError>
    ensures { OnOk result (all.new.items ≡ all.old.items ++ map (CountedAt counter) (below (components shape))) }
{
    for place in 0..shape.components() {
        all.push(Gauge::CountedAt { counter, place })?;
    }
    Ok(())
}

/// Adds what a counter counts, of all components and of each one.
fn add_counter(all: &mut Vec<Gauge>, shape: Shape, counter: Counter) -> Result<(), AllocError>
    ensures { OnOk result (all.new.items ≡ all.old.items ++ gauges_of shape counter) }
{
    all.push(Gauge::Counted(counter))?;
    add_places(all, shape, counter)
}

/// Adds what some counters count.
fn add_counters(all: &mut Vec<Gauge>, shape: Shape, counters: &[Counter]) -> Result<(), AllocError>
    ensures { OnOk result (all.new.items ≡ all.old.items ++ flat_map (gauges_of shape) counters.now) }
{
    for counter in counters {
        add_counter(all, shape, *counter)?;
    }
    Ok(())
}

/// Adds the lengths of some queues.
fn add_lengths(all: &mut Vec<Gauge>, queues: &[PartQueue]) -> Result<(), AllocError>
    ensures { OnOk result (all.new.items ≡ all.old.items ++ map Length queues.now) }
{
    for queue in queues {
        all.push(Gauge::Length(*queue))?;
    }
    Ok(())
}

/// Adds the gauges of a stage.
fn add_stage(all: &mut Vec<Gauge>, net: Net, stage: u32) -> Result<(), AllocError>
    ensures { OnOk result (all.new.items ≡ all.old.items ++ stage_gauges net stage) }
{
    all.push(Gauge::Held { net, stage })?;
    all.push(Gauge::Busy { net, stage })?;
    Ok(())
}

/// Adds the gauges of the stages of a network.
fn add_stages(all: &mut Vec<Gauge>, shape: Shape, net: Net) -> Result<(), AllocError>
    ensures { OnOk result (all.new.items ≡ all.old.items ++ flat_map (stage_gauges net) (below shape)) }
{
    for stage in 0..shape.k() {
        add_stage(all, net, stage)?;
    }
    Ok(())
}

/// All gauges of a machine.
fn gauges(alloc: Global, shape: Shape) -> Result<Vec<Gauge>, AllocError>
    ensures { IfOk result (λ v. v.items ≡ gauges shape) }
{
    let mut all = Vec::new(alloc);
    add_counters(&mut all, shape, &Counter::ALL)?;
    let queues = queues(alloc, shape)?;
    add_lengths(&mut all, queues.as_slice())?;
    add_stages(&mut all, shape, Net::Low)?;
    add_stages(&mut all, shape, Net::Comb)?;
    Ok(all)
}

/// Whether a word is the text of a gauge.
fn is_named(alloc: Global, shape: Shape, gauge: Gauge, word: &[u8]) -> Result<bool, AllocError>
    ensures { IfOk result (λ named. named ≡ bytes_eq (gauge_text shape gauge) word.now) }
{
    let name = GaugeName { shape, gauge };
    let text = format!(in alloc; "{name}")?;
    Ok(text.as_bytes() == word)
}

/// The first of some gauges whose text a word is.
fn find_named(
    alloc: Global,
    shape: Shape,
    all: &[Gauge],
    word: &[u8],
) -> Result<Option<Gauge>, AllocError>
    ensures { IfOk result (λ gauge. gauge ≡ find (λ g. bytes_eq (gauge_text shape g) word.now) all.now) }
{
    for gauge in all {
        if is_named(alloc, shape, *gauge, word)? {
            return Ok(Some(*gauge));
        }
    }
    Ok(None)
}

/// The gauge of a machine whose text a word is, as `served m0` or `queue c0.1 f0`; None where there is none. It compares the word
/// with the texts of all gauges.
///
/// # Errors
///
/// Where a growth was refused. What was taken is given back.
pub fn gauge_named(alloc: Global, shape: Shape, word: &[u8]) -> Result<Option<Gauge>, AllocError>
    ensures { IfOk result (λ gauge. gauge ≡ gauge_named shape word.now) }
{
    let all = gauges(alloc, shape)?;
    find_named(alloc, shape, all.as_slice(), word)
}
