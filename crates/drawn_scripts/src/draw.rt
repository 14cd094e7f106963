//! What a processor offers, and when.
ghost use Rattle.std.specs.Prelude.{◌≡◌, ◌≤◌, ◌+◌, ◌*◌, ◌++◌, All, IfOk, OnOk, length};
ghost use Rattle.project_book.specs.Limits.{max_times};
ghost use Rattle.project_book.specs.Scripts.{IsEntry, IsScript};
ghost use Rattle.drawn_scripts.specs.Draws.{IsDraw, gap, idle, script_drawn};

use crate::Mix;
use project_book::{MAX_TIMES, SCRIPT_ENTRIES, ScriptEntry};
use rand_pcg::Pcg32;
use rand_pcg::rand_core::utils::NextWord;
use std::alloc::{AllocError, Global};

/// How many references a script has at most, since an idle may stand before each.
pub const MOST_REFERENCES: u32 = SCRIPT_ENTRIES / 2;

/// The stream of the first processor's offers; those of references are below it.
const OFFERS: u64 = 64;

/// What processors offer.
#[derive(Clone, Copy, PartialEq, Eq, Debug)]
pub struct Draw {
    pub mix: Mix,
    /// In how many of a hundred cycles a processor offers a reference.
    pub rate: u32,
    /// How many it offers in all.
    pub references: u32,
    pub seed: u64,
}

impl Draw {
    /// A processor's script: its references, drawn from the seed by the stream of the processor's number, each behind an idle
    /// of the cycles in which none is offered, 1,000 at most. These are drawn by a stream of their own, so that a processor has
    /// the same references at each rate.
    ///
    /// # Errors
    ///
    /// Where a growth was refused. What was taken is given back.
    pub fn script(self, alloc: Global, proc: u32) -> Result<Vec<ScriptEntry>, AllocError>
        requires { IsDraw self }
        ensures script { IfOk result (λ es. IsScript es.items) }
        ensures drawn { IfOk result (λ es. es.items ≡ script_drawn self proc) }
    {
        let mut generator = Pcg32::new(self.seed, u64::from(proc));
        let mut offers = Pcg32::new(self.seed, OFFERS + u64::from(proc));
        let mut entries = Vec::new(alloc);
        'offered: for nth in 0..self.references {
            let _nth = nth;
            let turns = gap(&mut offers, self.rate);
            push_idle(&mut entries, turns)?;
            let reference = self.mix.next(&mut generator);
            entries.push(reference)?;
        }
        Ok(entries)
    }
}

/// How many cycles pass before one in which a reference is offered, 1,000 at most, each told by the next number of a generator.
fn gap(offers: &mut Pcg32, rate: u32) -> u32
    ensures gap { (result, offers.new) ≡ gap rate max_times offers.old }
    ensures few { result ≤ max_times }
{
    let mut cycles = 0;
    'cycles: while cycles < MAX_TIMES {
        let number = offers.next_word();
        if number % 100 < rate {
            return cycles;
        }
        cycles += 1;
    }
    cycles
}

/// An idle of so many turns, where there are some.
fn push_idle(entries: &mut Vec<ScriptEntry>, turns: u32) -> Result<(), AllocError>
    requires few { turns ≤ max_times }
    requires entries { All IsEntry entries.old.items }
    ensures idle { OnOk result (entries.new.items ≡ entries.old.items ++ idle turns) }
    ensures entries { OnOk result (All IsEntry entries.new.items) }
    ensures count { OnOk result (length entries.new.items ≤ length entries.old.items + 1) }
{
    if turns == 0 {
        return Ok(());
    }
    entries.push(ScriptEntry::Idle(turns))?;
    Ok(())
}
