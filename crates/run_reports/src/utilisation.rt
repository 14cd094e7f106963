//! How busy the stages of the networks and the modules were in the cycles of a window.
ghost use Rattle.std.specs.Prelude.{◌≡◌, ◌≤◌, ◌+◌, ◌++◌, IfOk, OnOk, map, string_bytes};
ghost use Rattle.std.specs.List.{flat_map};
ghost use Rattle.omega_net.specs.Numbers.{lines};
ghost use Rattle.omega_net.specs.Wires.{below};
ghost use Rattle.machine_cells.specs.Run.{run};
ghost use Rattle.machine_cells.specs.Runs.{state_in};
ghost use Rattle.run_reports.specs.declared.gauge.Gauge.TheVariants.{Busy};
ghost use Rattle.run_reports.specs.Utilisation.{busy_gauges, busy_head, busy_row, busy_rows, busy_text, most_shown, percent_text, served_by};

use crate::Window;
use crate::gauge::Gauge;
use crate::gauge_text::GaugeName;
use crate::runner::Runner;
use crate::series::{GaugeSum, bin_sums};
use grid_law::NoMemory;
use monitor_sums::Counter;
use omega_net::{Net, Shape};
use project_book::Project;
use std::alloc::{AllocError, Global};
use std::fmt;
use std::fmt::Write;

/// Adds for each stage of a network how many of its output queues hold a message.
fn add_stages(all: &mut Vec<Gauge>, shape: Shape, net: Net) -> Result<(), AllocError>
    ensures { OnOk result (all.new.items ≡ all.old.items ++ map (Busy net) (below shape)) }
{
    for stage in 0..shape.k() {
        all.push(Gauge::Busy { net, stage })?;
    }
    Ok(())
}

/// Adds for each module the requests that it serves.
fn add_modules(all: &mut Vec<Gauge>, shape: Shape) -> Result<(), AllocError>
    ensures { OnOk result (all.new.items ≡ all.old.items ++ map (served_by shape) (below (lines shape))) }
{
    for module in 0..shape.lines() {
        all.push(Gauge::CountedAt {
            counter: Counter::Served,
            place: shape.lines() + module,
        })?;
    }
    Ok(())
}

/// What says how busy a machine is.
fn busy_gauges(alloc: Global, shape: Shape) -> Result<Vec<Gauge>, AllocError>
    ensures { IfOk result (λ v. v.items ≡ busy_gauges shape) }
{
    let mut all = Vec::new(alloc);
    add_stages(&mut all, shape, Net::Low)?;
    add_stages(&mut all, shape, Net::Comb)?;
    add_modules(&mut all, shape)?;
    Ok(all)
}

/// The most that such a gauge shows in a cycle.
fn most_shown(shape: Shape, gauge: Gauge) -> u32
    ensures { result ≡ most_shown shape gauge }
{
    match gauge {
        Gauge::Busy { .. } => shape.lines(),
        Gauge::Counted(_) | Gauge::CountedAt { .. } | Gauge::Length(_) | Gauge::Held { .. } => 1,
    }
}

/// How many a part is of a hundred of a whole, with two places behind its point, to the nearest hundredth, half ones upwards.
#[derive(Clone, Copy)]
struct Percent {
    part: u64,
    whole: u64,
}

impl fmt::Display for Percent {
    ghost use Rattle.std.specs.Prelude.{Some};

    ghost output = { λ p. Some (percent_text p.part p.whole) };

    fn fmt<W: fmt::Write>(&self, f: &mut fmt::Formatter<W>) -> fmt::Result {
        let (part, whole) = (u128::from(self.part), u128::from(self.whole));
        if whole == 0 {
            return write!(f, "none");
        }
        let hundredths = (200 * (100 * part) + whole) / (2 * whole);
        let units = hundredths / 100;
        let (tenths, last) = (hundredths / 10 % 10, hundredths % 10);
        write!(f, "{units}.{tenths}{last}")
    }
}

/// Adds the row of a gauge with its sum over so many cycles.
fn add_row(text: &mut String, shape: Shape, cycles: u32, sum: &GaugeSum) -> Result<(), AllocError>
    ensures { OnOk result (string_bytes text.new ≡ string_bytes text.old ++ busy_row shape cycles sum.now.gauge sum.now.sum) }
{
    let gauge = sum.gauge;
    let name = GaugeName { shape, gauge };
    let percent = Percent {
        part: sum.sum,
        whole: u64::from(cycles) * u64::from(most_shown(shape, gauge)),
    };
    write!(text, "{name},{},{percent}\n", sum.sum)
}

/// Adds the rows of some gauges with their sums.
fn add_rows(
    text: &mut String,
    shape: Shape,
    cycles: u32,
    sums: &[GaugeSum],
) -> Result<(), AllocError>
    ensures { OnOk result (string_bytes text.new ≡ string_bytes text.old ++ flat_map (λ s. busy_row shape cycles s.gauge s.sum) sums.now) }
{
    for sum in sums {
        add_row(text, shape, cycles, sum)?;
    }
    Ok(())
}

/// Adds which cycles they are.
fn add_head(text: &mut String, window: Window) -> Result<(), AllocError>
    ensures { OnOk result (string_bytes text.new ≡ string_bytes text.old ++ busy_head window) }
{
    let (from, to) = (window.from, window.to);
    write!(text, "cycles {from} to {to}\n")
}

/// Adds the rows of all stages and modules.
fn add_busy(
    alloc: Global,
    text: &mut String,
    project: &Project,
    window: Window,
) -> Result<(), NoMemory>
    requires forward { window.from ≤ window.to }
    requires within { window.to ≤ project.now.horizon }
    ensures { OnOk result (string_bytes text.new ≡ string_bytes text.old ++ busy_rows project.now.k (state_in (run project.now)) window) }
{
    project.is_project();
    let shape = project.shape();
    let cycles = window.to + 1 - window.from;
    let gauges = busy_gauges(alloc, shape)?;
    let mut runner = Runner::start(alloc, project)?;
    let sums = bin_sums(
        alloc,
        project,
        &mut runner,
        gauges.as_slice(),
        window.from,
        cycles,
    )?;
    add_rows(text, shape, cycles, sums.as_slice())?;
    Ok(())
}

/// The report of how busy the stages and the modules were in the cycles of a window: a table with a row for each stage of each
/// network, with the sum over the cycles of how many of its output queues held a message, and for each module, with the
/// requests that it served; behind the sum stands how much it is of a hundred of the most that it could be. It simulates the
/// project from cycle 0, and keeps no state of it.
///
/// # Errors
///
/// Where a growth was refused. What was taken is given back.
pub fn busy_text(alloc: Global, project: &Project, window: Window) -> Result<String, NoMemory>
    requires forward { window.from ≤ window.to }
    requires within { window.to ≤ project.now.horizon }
    ensures { IfOk result (λ text. string_bytes text ≡ busy_text project.now.k (state_in (run project.now)) window) }
{
    let mut text = String::new(alloc);
    add_head(&mut text, window)?;
    write!(text, "\ngauge,sum,percent\n")?;
    add_busy(alloc, &mut text, project, window)?;
    Ok(text)
}
