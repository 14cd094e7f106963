//! What the plain simulation answers to queries, looked up in its states.
use machine_cells::MachineState;
use run_queries::{has_sent, word_got};
use std::alloc::Global;
use std::fmt;
use std::sync::Arc;
use std::test::Fail;

/// The states of a run of four processors, by cycle and component.
type Rows<'a> = &'a [Vec<Arc<MachineState>>];

/// How many references each of the four processors is asked for.
const ASKED: u32 = 8;

/// Asks for replies, for counts over the whole run up to cycle 20, and for the lengths of the low network's queues.
pub(crate) fn questions(alloc: Global) -> Result<String, Fail> {
    let mut lines = String::new(alloc);
    for proc in 0..4 {
        for issue in 0..ASKED {
            lines.push_str(format!(in alloc; "reply {proc} {issue}\n")?.as_str())?;
        }
    }
    for name in ["issued", "answered", "served", "combined"] {
        lines.push_str(format!(in alloc; "counter {name} all 0 20\n")?.as_str())?;
    }
    lines.push_str("profile low 0\nprofile low 1\n")?;
    Ok(lines)
}

/// The lines that answer them at version 1.
pub(crate) fn answers(alloc: Global, rows: Rows) -> Result<String, Fail> {
    let mut lines = String::new(alloc);
    for proc in 0..4 {
        for issue in 0..ASKED {
            let reply = Reply { rows, proc, issue };
            lines.push_str(format!(in alloc; "{reply}\n")?.as_str())?;
        }
    }
    for what in [What::Issued, What::Answered, What::Served, What::Combined] {
        let count = count(rows, what);
        lines.push_str(format!(in alloc; "ok 1 {count}\n")?.as_str())?;
    }
    // The low switches of stage 0 are the components 8 and 9, those of stage 1 are 10 and 11.
    for first in [8, 10] {
        let lengths = Lengths { rows, first };
        lines.push_str(format!(in alloc; "ok 1{lengths}\n")?.as_str())?;
    }
    Ok(lines)
}

/// The state of a component among those of a cycle.
fn held(row: &[Arc<MachineState>], component: usize) -> Option<&MachineState> {
    match row.get(component) {
        Some(state) => Some(state),
        None => None,
    }
}

/// The reply to a processor's reference of that issue number. It prints as an answer line.
#[derive(Clone, Copy)]
struct Reply<'a> {
    rows: Rows<'a>,
    proc: usize,
    issue: u32,
}

impl Reply<'_> {
    /// How many references the processor issued.
    fn issued(&self) -> u32 {
        let mut issued = 0u32;
        for row in self.rows {
            if has_sent(held(row, self.proc)) {
                issued = issued.saturating_add(1);
            }
        }
        issued
    }
}

impl fmt::Display for Reply<'_> {
    fn fmt<W: fmt::Write>(&self, f: &mut fmt::Formatter<W>) -> fmt::Result {
        if self.issue >= self.issued() {
            return f.write_str("bad 4");
        }
        for (cycle, row) in self.rows.iter().enumerate() {
            if let Some(word) = word_got(held(row, self.proc), self.issue) {
                return write!(f, "ok 1 at {cycle} word {word}");
            }
        }
        f.write_str("ok 1 none")
    }
}

/// What is counted.
#[derive(Clone, Copy)]
enum What {
    Issued,
    Answered,
    Served,
    Combined,
}

fn count(rows: Rows, what: What) -> usize {
    let mut total = 0usize;
    for row in rows {
        for state in row {
            total = total.saturating_add(count_in(state, what));
        }
    }
    total
}

fn count_in(state: &MachineState, what: What) -> usize {
    match (what, state) {
        (What::Issued, MachineState::Proc(proc)) => usize::from(proc.sent),
        (What::Answered, MachineState::Proc(proc)) => proc.got.iter().flatten().count(),
        (What::Served, MachineState::Module(holder)) => usize::from(holder.served),
        (What::Combined, MachineState::Comb(switch)) => usize::from(switch.combined),
        _ => 0,
    }
}

/// How often the output queues of two low switches had each length. Each number prints behind a space.
#[derive(Clone, Copy)]
struct Lengths<'a> {
    rows: Rows<'a>,
    first: usize,
}

impl Lengths<'_> {
    fn times(&self, length: usize) -> usize {
        let mut times = 0usize;
        for row in self.rows {
            for state in row.iter().skip(self.first).take(2) {
                if let MachineState::Low(switch) = &**state {
                    let equal = switch.fwd.iter().filter(|queue| queue.len() == length);
                    times = times.saturating_add(equal.count());
                }
            }
        }
        times
    }
}

impl fmt::Display for Lengths<'_> {
    fn fmt<W: fmt::Write>(&self, f: &mut fmt::Formatter<W>) -> fmt::Result {
        for length in 0..17 {
            write!(f, " {}", self.times(length))?;
        }
        Ok(())
    }
}
