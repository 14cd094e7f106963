//! What gauges show in the cycles of a window, by bins, as a table.
ghost use Rattle.std.specs.Prelude.{◌≡◌, ◌<◌, ◌≤◌, ◌+◌, ◌-◌, ◌^◌, ◌++◌, IfOk, OnOk, codes, decimal, map, min, slice_get, string_bytes};
ghost use Rattle.std.specs.List.{flat_map};
ghost use Rattle.machine_cells.specs.Run.{run};
ghost use Rattle.machine_cells.specs.Runs.{state_in};
ghost use Rattle.flat_row.specs.Row.{states_of};
ghost use Rattle.run_reports.specs.GaugeTexts.{gauge_text};
ghost use Rattle.run_reports.specs.Runners.{IsAt};
ghost use Rattle.run_reports.specs.Series.{bin_of, bin_row, bins_in, name_row, series, series_text, start_of};
ghost use Rattle.run_reports.specs.Summing.{summed, unsummed, with_states};

use crate::Window;
use crate::full_queues::states_now;
use crate::gauge::{Gauge, gauge_at};
use crate::gauge_text::GaugeName;
use crate::runner::Runner;
use grid_law::NoMemory;
use machine_cells::MachineState;
use omega_net::Shape;
use project_book::Project;
use std::alloc::{AllocError, Global};
use std::fmt::Write;
use std::marker::Model;

/// The cycles of a window, in bins of so many each; the last bin has fewer where the window ends in it.
#[derive(Clone, Copy, PartialEq, Eq, Debug)]
pub struct Bins {
    pub window: Window,
    pub size: u32,
}

/// A gauge, and its sum over some cycles.
#[derive(Clone, Copy)]
pub(crate) struct GaugeSum {
    pub(crate) gauge: Gauge,
    pub(crate) sum: u64,
}

/// What gauges add up to over the cycles of a bin, in turn. Contracts see the list.
#[derive(Drop)]
pub struct Sums {
    sums: Vec<u64>,
}

impl Model for Sums {
    ghost use Rattle.std.specs.Prelude.{ℕ, List};

    ghost Value = { List ℕ };

    ghost view = { λ s. s.sums.items };
}

impl Sums {
    /// The sums of the gauges, in their order.
    pub fn as_slice(&self) -> &[u64]
        ensures { result.now ≡ self.now }
    {
        &self.sums
    }
}

/// How many bins there are.
fn bins_in(bins: Bins) -> u32
    requires size { 0 < bins.size }
    requires forward { bins.window.from ≤ bins.window.to }
    requires small { bins.window.to < 2 ^ 31 }
    ensures { result ≡ bins_in bins }
{
    (bins.window.to - bins.window.from) / bins.size + 1
}

/// Where a bin begins.
fn start_of(bins: Bins, number: u32) -> u32
    requires there { number < bins_in bins }
    requires size { 0 < bins.size }
    requires forward { bins.window.from ≤ bins.window.to }
    ensures value { result ≡ start_of bins number }
    ensures within { result ≤ bins.window.to }
{
    bins.window.from + number * bins.size
}

/// How many cycles the bin has that begins at this one.
fn cycles_from(bins: Bins, first: u32) -> u32
    requires within { first ≤ bins.window.to }
    requires small { bins.window.to < 2 ^ 31 }
    ensures { result ≡ min bins.size (bins.window.to + 1 - first) }
{
    bins.size.min(bins.window.to + 1 - first)
}

/// These gauges, of which nothing is summed yet.
fn unsummed(alloc: Global, gauges: &[Gauge]) -> Result<Vec<GaugeSum>, AllocError>
    ensures { IfOk result (λ v. v.items ≡ map unsummed gauges.now) }
{
    let mut all = Vec::with_capacity(alloc, gauges.len())?;
    for gauge in gauges {
        all.push(GaugeSum {
            gauge: *gauge,
            sum: 0,
        })?;
    }
    Ok(all)
}

/// The sum of a gauge, with what these states of a cycle show.
#[tactic(auto, unfolding(crate::specs::Summing::with_states))]
fn with_states(before: GaugeSum, shape: Shape, states: &[MachineState]) -> GaugeSum
    ensures { result ≡ with_states shape (slice_get states.now) before }
{
    let shown = gauge_at(shape, before.gauge, states);
    GaugeSum {
        sum: before.sum.saturating_add(shown),
        ..before
    }
}

/// These sums, with what the states of the present cycle show.
fn add_cycle(
    alloc: Global,
    shape: Shape,
    runner: &Runner,
    before: &[GaugeSum],
) -> Result<Vec<GaugeSum>, NoMemory>
    ensures { IfOk result (λ v. v.items ≡ map (with_states shape (slice_get (states_of runner.now.row))) before.now) }
{
    let states = states_now(alloc, runner)?;
    let mut all = Vec::with_capacity(alloc, before.len())?;
    for sum in before {
        all.push(with_states(*sum, shape, states.as_slice()))?;
    }
    Ok(all)
}

/// Goes on to a cycle, which is within the horizon.
pub(crate) fn advance(runner: &mut Runner, project: &Project, cycle: u32) -> Result<(), NoMemory>
    requires at { IsAt project.now runner.old }
    requires behind { runner.old.cycle ≤ cycle }
    requires within { cycle ≤ project.now.horizon }
    ensures at { OnOk result (IsAt project.now runner.new) }
    ensures there { OnOk result (runner.new.cycle ≡ cycle) }
{
    for _cycle in runner.cycle..cycle {
        runner.step(project)?;
    }
    Ok(())
}

/// The sums over so many cycles from one on.
pub(crate) fn bin_sums(
    alloc: Global,
    project: &Project,
    runner: &mut Runner,
    gauges: &[Gauge],
    first: u32,
    cycles: u32,
) -> Result<Vec<GaugeSum>, NoMemory>
    requires at { IsAt project.now runner.old }
    requires behind { runner.old.cycle ≤ first }
    requires within { first + cycles ≤ project.now.horizon + 1 }
    ensures at { OnOk result (IsAt project.now runner.new) }
    ensures passed { OnOk result (runner.new.cycle ≤ first + cycles) }
    ensures sums { IfOk result (λ v. v.items ≡ map (summed project.now.k (state_in (run project.now)) first cycles) gauges.now) }
{
    project.is_project();
    let shape = project.shape();
    let mut sums = unsummed(alloc, gauges)?;
    for passed in 0..cycles {
        advance(runner, project, first + passed)?;
        sums = add_cycle(alloc, shape, runner, sums.as_slice())?;
    }
    Ok(sums)
}

/// Adds the names of gauges, each behind a comma.
fn add_names(text: &mut String, shape: Shape, gauges: &[Gauge]) -> Result<(), AllocError>
    ensures { OnOk result (string_bytes text.new ≡ string_bytes text.old ++ flat_map (λ gauge. codes "," ++ gauge_text shape gauge) gauges.now) }
{
    for gauge in gauges {
        let name = GaugeName {
            shape,
            gauge: *gauge,
        };
        write!(text, ",{name}")?;
    }
    Ok(())
}

/// Adds the row of the gauges' names.
fn add_name_row(text: &mut String, shape: Shape, gauges: &[Gauge]) -> Result<(), AllocError>
    ensures { OnOk result (string_bytes text.new ≡ string_bytes text.old ++ name_row shape gauges.now) }
{
    write!(text, "cycle")?;
    add_names(text, shape, gauges)?;
    write!(text, "\n")
}

/// These sums alone.
fn sums_alone(alloc: Global, sums: &[GaugeSum]) -> Result<Sums, AllocError>
    ensures { IfOk result (λ alone. alone ≡ map (λ s. s.sum) sums.now) }
{
    let mut alone = Vec::with_capacity(alloc, sums.len())?;
    for sum in sums {
        alone.push(sum.sum)?;
    }
    Ok(Sums { sums: alone })
}

/// A bin: its first cycle, and the sums over its cycles.
fn bin_at(
    alloc: Global,
    project: &Project,
    runner: &mut Runner,
    gauges: &[Gauge],
    bins: Bins,
    number: u32,
) -> Result<(u32, Sums), NoMemory>
    requires at { IsAt project.now runner.old }
    requires behind { runner.old.cycle ≤ start_of bins number }
    requires there { number < bins_in bins }
    requires size { 0 < bins.size }
    requires forward { bins.window.from ≤ bins.window.to }
    requires within { bins.window.to ≤ project.now.horizon }
    ensures at { OnOk result (IsAt project.now runner.new) }
    ensures behind { OnOk result (runner.new.cycle ≤ start_of bins (number + 1)) }
    ensures bin { IfOk result (λ bin. bin ≡ bin_of project.now.k (state_in (run project.now)) gauges.now bins number) }
{
    project.is_project();
    let first = start_of(bins, number);
    let cycles = cycles_from(bins, first);
    let sums = bin_sums(alloc, project, runner, gauges, first, cycles)?;
    let alone = sums_alone(alloc, sums.as_slice())?;
    Ok((first, alone))
}

/// What gauges show in the cycles of a window: for each bin of cycles its first cycle, and for each gauge its sum over them. It
/// simulates the project from cycle 0, and keeps no state of it.
///
/// # Errors
///
/// Where a growth was refused. What was taken is given back.
pub fn series_sums(
    alloc: Global,
    project: &Project,
    gauges: &[Gauge],
    bins: Bins,
) -> Result<Vec<(u32, Sums)>, NoMemory>
    requires size { 0 < bins.size }
    requires forward { bins.window.from ≤ bins.window.to }
    requires within { bins.window.to ≤ project.now.horizon }
    ensures { IfOk result (λ v. v.items ≡ series project.now.k (state_in (run project.now)) gauges.now bins) }
{
    project.is_project();
    let mut runner = Runner::start(alloc, project)?;
    let mut all = Vec::new(alloc);
    for number in 0..bins_in(bins) {
        all.push(bin_at(alloc, project, &mut runner, gauges, bins, number)?)?;
    }
    Ok(all)
}

/// Adds sums, each behind a comma.
fn add_sums(text: &mut String, sums: &[u64]) -> Result<(), AllocError>
    ensures { OnOk result (string_bytes text.new ≡ string_bytes text.old ++ flat_map (λ s. codes "," ++ decimal s) sums.now) }
{
    for sum in sums {
        write!(text, ",{sum}")?;
    }
    Ok(())
}

/// Adds the row of a bin.
fn add_bin_row(text: &mut String, bin: &(u32, Sums)) -> Result<(), AllocError>
    ensures { OnOk result (string_bytes text.new ≡ string_bytes text.old ++ bin_row bin.now) }
{
    let first = bin.0;
    write!(text, "{first}")?;
    add_sums(text, bin.1.as_slice())?;
    write!(text, "\n")
}

/// Adds the rows of some bins.
fn add_bin_rows(text: &mut String, bins: &[(u32, Sums)]) -> Result<(), AllocError>
    ensures { OnOk result (string_bytes text.new ≡ string_bytes text.old ++ flat_map bin_row bins.now) }
{
    for bin in bins {
        add_bin_row(text, bin)?;
    }
    Ok(())
}

/// The table of bins: a row of the gauges' names, and a row for each bin, with its first cycle and its sums.
///
/// # Errors
///
/// Where a growth was refused.
pub fn series_table(
    alloc: Global,
    shape: Shape,
    gauges: &[Gauge],
    bins: &[(u32, Sums)],
) -> Result<String, AllocError>
    ensures { IfOk result (λ text. string_bytes text ≡ name_row shape gauges.now ++ flat_map bin_row bins.now) }
{
    let mut text = String::new(alloc);
    add_name_row(&mut text, shape, gauges)?;
    add_bin_rows(&mut text, bins)?;
    Ok(text)
}

/// The table of what gauges show in the cycles of a window: a row for each bin of cycles, with its first cycle, and for each
/// gauge its sum over them. It simulates the project from cycle 0, and keeps no state of it.
///
/// # Errors
///
/// Where a growth was refused. What was taken is given back.
pub fn series_text(
    alloc: Global,
    project: &Project,
    gauges: &[Gauge],
    bins: Bins,
) -> Result<String, NoMemory>
    requires size { 0 < bins.size }
    requires forward { bins.window.from ≤ bins.window.to }
    requires within { bins.window.to ≤ project.now.horizon }
    ensures { IfOk result (λ text. string_bytes text ≡ series_text project.now.k (state_in (run project.now)) gauges.now bins) }
{
    let all = series_sums(alloc, project, gauges, bins)?;
    Ok(series_table(alloc, project.shape(), gauges, all.as_slice())?)
}
