//! Looking up replies, states and words.
ghost use Rattle.std.specs.Prelude.{◌≡◌, ◌<◌, ◌≤◌, ◌*◌, suc, Option, is_some, true, nat_lt, if◌then◌else◌};
ghost use Rattle.machine_cells.specs.declared.state.MachineState.{MachineState as State};
ghost use Rattle.omega_net.specs.Numbers.{components};
ghost use Rattle.page_map.specs.Limits.{address_count};
ghost use Rattle.run_queries.specs.Answers.{has_sent, issued, first_reply, word_in, found_in};
ghost use Rattle.run_queries.specs.declared.query.Query.TheVariants.{Reply as ReplyTo, State as StateOf, Memory as MemoryAt};
ghost use Rattle.bench_core.specs.Shown.{project_of, version_of, held};
ghost use Rattle.bench_core.specs.Asks.{TellsAs};
ghost use Rattle.bench_core.specs.Seeking.{replied_in};
ghost use Rattle.bench_core.specs.Worded.{AreWordsOf};

use super::Bench;
use crate::Asked;
use crate::words::{has_sent_by, word_got_by};
use cell_table::Cell;
use grid_law::NoMemory;
use run_queries::{Body, Received, SharedState};

/// How many references a processor issued in the last steps of so many cycles with the state of these words.
fn sent_in(words: &[u64], cycles: u32) -> u32
    ensures sent { (held : Option State) → AreWordsOf words.now held → result ≡ (if has_sent held then cycles else 0) }
    ensures most { result ≤ cycles }
{
    if has_sent_by(words) { cycles } else { 0 }
}

impl Bench {
    /// The words of the state that a cell holds; none where it holds none.
    fn words(&self, cell: Cell) -> &[u64]
        ensures { AreWordsOf result.now (held self.now.table cell.cycle cell.component) }
    {
        self.table.words(cell)
    }

    /// The word in a row of a module's state that a cell holds; 0 where it holds none.
    fn word_held(&self, cell: Cell, row: u16) -> u32
        ensures { result ≡ word_in (held self.now.table cell.cycle cell.component) row }
    {
        if self.words(cell).is_empty() {
            return 0;
        }
        match self.table.memory(cell) {
            Some(memory) => memory.word(row),
            None => 0,
        }
    }

    /// Whether a processor issued so many references and one more by a cycle. The stretches of its equal
    /// states are looked at from cycle 0 on, each once, until it is known.
    fn has_issued(&self, proc: u32, issue: u32, last: u32) -> bool
        requires proc { proc < components (project_of self.now).k }
        requires within { last ≤ (project_of self.now).horizon }
        ensures { result ≡ nat_lt issue (issued (λ t. held self.now.table t proc) (suc last)) }
    {
        self.is_bench();
        let component = proc;
        let mut count = 0;
        let mut cycle = 0;
        while cycle <= last && count <= issue {
            let cell = Cell { cycle, component };
            let to = self.table.stands_to(cell);
            let end = to.min(last + 1);
            count += sent_in(self.words(cell), end - cycle);
            cycle = end;
        }
        count > issue
    }

    /// The first reply that a processor received for an issue number, by a cycle. The stretches of its equal
    /// states are looked at from cycle 0 on, each once, up to that one.
    fn first_reply(&self, proc: u32, issue: u32, last: u32) -> Option<Received>
        requires proc { proc < components (project_of self.now).k }
        requires within { last ≤ (project_of self.now).horizon }
        ensures { result ≡ first_reply (λ t. held self.now.table t proc) issue (suc last) }
    {
        self.is_bench();
        let component = proc;
        let mut cycle = 0;
        while cycle <= last {
            let cell = Cell { cycle, component };
            let end = self.table.stands_to(cell);
            match word_got_by(self.words(cell), issue) {
                Some(word) => return Some(Received { cycle, word }),
                None => cycle = end.min(last + 1),
            }
        }
        None
    }

    /// What the states held up to a cycle tell of a reference: its reply, once it was issued and answered.
    pub(super) fn replied_by(&self, proc: u32, issue: u32, last: u32) -> Option<Received>
        requires proc { proc < components (project_of self.now).k }
        requires within { last ≤ (project_of self.now).horizon }
        ensures { result ≡ replied_in (λ t. held self.now.table t proc) issue (suc last) }
    {
        if self.has_issued(proc, issue, last) {
            self.first_reply(proc, issue, last)
        } else {
            None
        }
    }

    /// What the states held say to a query of a reply.
    pub(super) fn reply(&self, proc: u32, issue: u32) -> Asked
        requires { proc < components (project_of self.now).k }
        ensures { TellsAs (version_of self.now) (found_in (held self.now.table) (project_of self.now) (ReplyTo proc issue)) result }
    {
        let horizon = self.project().horizon();
        if !self.has_issued(proc, issue, horizon) {
            return Asked::BadQuery(4);
        }
        self.answered(Body::Reply(self.first_reply(proc, issue, horizon)))
    }

    /// What the state held says to a query of a state, which is there.
    pub(super) fn state(&self, component: u32, cycle: u32) -> Asked
        requires { is_some (held self.now.table cycle component) ≡ true }
        ensures { TellsAs (version_of self.now) (found_in (held self.now.table) (project_of self.now) (StateOf component cycle)) result }
    {
        match self.table.shared(Cell { cycle, component }) {
            Ok(Some(state)) => self.answered(Body::State(SharedState::new(state))),
            Ok(None) => unreachable!(),
            Err(NoMemory) => Asked::Memory,
        }
    }

    /// What the module's state that is held says to a query of a word.
    pub(super) fn word(&self, address: u32, cycle: u32) -> Asked
        requires { address < address_count }
        ensures { TellsAs (version_of self.now) (found_in (held self.now.table) (project_of self.now) (MemoryAt address cycle)) result }
    {
        let cell = self.module_cell(address, cycle);
        self.answered(Body::Word(self.word_held(cell, self.place(address).row)))
    }
}
