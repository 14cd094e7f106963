//! What a run drives.
ghost use Rattle.std.specs.Prelude.{◌≡◌, ℕ, ◌+◌, ◌≤◌, IfOk, OnOk, OnErr, Err};
ghost use Rattle.page_map.specs.Limits.{max_k};

use bench_core::Told;
use project_book::{Edit, EditFault};
use run_queries::Query;
use std::thread::Threads;

/// What takes edits and is asked. Others may edit beside it.
pub trait Desk {
    ghost use Rattle.std.specs.Thread.{IsSync};
    ghost use Rattle.bench_shell.specs.Store.{Store, version_in, edited_store, EditGives, Tells, IsToldAt};

    /// The project and the journal, where nobody else has edited.
    ghost store: { Self → Store };

    /// The version at the opening, from which this desk's own edits are counted.
    ghost opening: { Self → ℕ };

    /// Nobody else has edited, as far as the desk has seen.
    ghost is_alone: { Self → Type 0 };

    /// The clock behind the desk is at its last value, so that no edit and no new state is taken any more.
    ghost clock_is_spent: { Self → Type 0 };

    /// The k of the machine, and the version at the opening.
    fn opened(&self) -> (u32, u32)
        ensures both { result ≡ ((store self.now).project.k, opening self.now) }
        ensures small { result.0 ≤ max_k };

    /// Makes an edit: the new version, or why it was refused. Then project and journal are as before.
    ///
    /// # Errors
    ///
    /// Why the edit is refused; want of memory where nothing else refuses it, the clock included. Project and journal are as
    /// before.
    fn edit(&mut self, edit: Edit) -> Result<u32, EditFault>
        ensures earlier { is_alone self.new → is_alone self.old }
        ensures gives { is_alone self.new → EditGives (store self.old) edit result (store self.new) }
        // A version that is one more than the edits of this desk alone says that there are no others.
        ensures alone { IfOk result (λ v. v ≡ version_in (store self.old) + 1 → is_alone self.new) }
        // Whoever else edits, the desk's own edits are those that it accepted.
        ensures made { OnOk result (store self.new ≡ edited_store (store self.old) edit) }
        ensures kept { OnErr result (store self.new ≡ store self.old) }
        ensures spent { result ≡ Err EditFault.ClockSpent → clock_is_spent self.new }
        ensures wants { result ≡ Err EditFault.Memory → ¬ clock_is_spent self.new };

    /// Brings the run up to date as far as the answer looks, and answers a question about it. Threads may take part. Project
    /// and journal stay as they are, and the cells that were stored stay stored, whatever it answers. A desk may leave cells
    /// due behind the last cycle that was asked for.
    fn ask<T: Threads + Sync>(&mut self, rt: &T, query: Query) -> Told
        // Calls of a trait have such bounds by a clause alone.
        requires { IsSync T.row }
        ensures earlier { is_alone self.new → is_alone self.old }
        ensures told { is_alone self.new → Tells (store self.old) query result }
        // So does an answer at the version of the edits of this desk alone.
        ensures alone { IsToldAt (version_in (store self.old)) result → is_alone self.new }
        ensures spent { result ≡ Told.ClockSpent → clock_is_spent self.new }
        ensures same { store self.new ≡ store self.old };
}
