//! Full queues as text.
ghost use Rattle.std.specs.Prelude.{◌≡◌, ◌++◌, ◌≤◌, IfOk, OnOk, string_bytes};
ghost use Rattle.std.specs.List.{flat_map};
ghost use Rattle.project_book.specs.Limits.{max_horizon};
ghost use Rattle.run_reports.specs.FullTexts.{counted_text, full_row, full_rows, full_text, is_cycle, part_text, were_full};

use crate::trace_report::Place;
use crate::{FirstFull, Part};
use omega_net::{Net, Shape};
use std::alloc::{AllocError, Global};
use std::fmt;
use std::fmt::Write;

/// `fO`, `rI`, `qN`, `aN` or `wait`: as the component's state has it.
impl fmt::Display for Part {
    ghost use Rattle.std.specs.Prelude.{Some};

    ghost output = { λ part. Some (part_text part) };

    fn fmt<W: fmt::Write>(&self, f: &mut fmt::Formatter<W>) -> fmt::Result {
        match *self {
            Part::Forward(output) => write!(f, "f{output}"),
            Part::Reverse(input) => write!(f, "r{input}"),
            Part::Requests(Net::Low) => write!(f, "q0"),
            Part::Requests(Net::Comb) => write!(f, "q1"),
            Part::Replies(Net::Low) => write!(f, "a0"),
            Part::Replies(Net::Comb) => write!(f, "a1"),
            Part::Wait => write!(f, "wait"),
        }
    }
}

/// Whether a cycle is this one.
fn is_cycle(cycle: u32, first: Option<u32>) -> bool
    ensures { result ≡ is_cycle cycle first }
{
    match first {
        Some(first) => first == cycle,
        None => false,
    }
}

/// Adds the row of a queue, where it was first full at a cycle.
fn add_row(text: &mut String, shape: Shape, cycle: u32, first: &FirstFull) -> Result<(), AllocError>
    ensures { OnOk result (string_bytes text.new ≡ string_bytes text.old ++ full_row shape cycle first.now) }
{
    if is_cycle(cycle, first.cycle) {
        let place = Place(shape.component(first.queue.place));
        let part = first.queue.part;
        write!(text, "{cycle},{place},{part}\n")?;
    }
    Ok(())
}

/// Adds the rows of the queues that were first full at a cycle.
fn add_rows(
    text: &mut String,
    shape: Shape,
    cycle: u32,
    firsts: &[FirstFull],
) -> Result<(), AllocError>
    ensures { OnOk result (string_bytes text.new ≡ string_bytes text.old ++ flat_map (full_row shape cycle) firsts.now) }
{
    for first in firsts {
        add_row(text, shape, cycle, first)?;
    }
    Ok(())
}

/// Adds the rows of all cycles up to a last one.
fn add_all_rows(
    text: &mut String,
    shape: Shape,
    last: u32,
    firsts: &[FirstFull],
) -> Result<(), AllocError>
    requires { last ≤ max_horizon }
    ensures { OnOk result (string_bytes text.new ≡ string_bytes text.old ++ full_rows shape last firsts.now) }
{
    for cycle in 0..last + 1 {
        add_rows(text, shape, cycle, firsts)?;
    }
    Ok(())
}

/// How many queues were full.
fn were_full(firsts: &[FirstFull]) -> usize
    ensures { result ≡ were_full firsts.now }
{
    firsts.iter().filter(|first| first.cycle.is_some()).count()
}

/// Adds how many queues were full, and how many there are.
fn add_counts(text: &mut String, firsts: &[FirstFull]) -> Result<(), AllocError>
    ensures { OnOk result (string_bytes text.new ≡ string_bytes text.old ++ counted_text firsts.now) }
{
    let (full, all) = (were_full(firsts), firsts.len());
    write!(text, "full {full} of {all}\n")
}

/// The report of full queues: how many were full up to a last cycle, and behind an empty line a table with a row for each of
/// them, by the cycle at which they first were.
///
/// # Errors
///
/// Where a growth was refused. What was taken is given back.
pub fn full_text(
    alloc: Global,
    shape: Shape,
    last: u32,
    firsts: &[FirstFull],
) -> Result<String, AllocError>
    requires { last ≤ max_horizon }
    ensures { IfOk result (λ text. string_bytes text ≡ full_text shape last firsts.now) }
{
    let mut text = String::new(alloc);
    add_counts(&mut text, firsts)?;
    write!(text, "\ncycle,component,queue\n")?;
    add_all_rows(&mut text, shape, last, firsts)?;
    Ok(text)
}
