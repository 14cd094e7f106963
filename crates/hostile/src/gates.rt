//! Workers whose gates hold a result while another pass goes on.
use crate::benches::{tells_simulated, word};
use crate::sessions::{base, pass_to};
use crate::stories::{Host, word_told};
use crate::turns::Board;
use bench_core::Told;
use cell_table::Cell;
use omega_net::ScriptEntry;
use project_book::Edit;
use run_queries::Query;
use shared_bench::Pass;
use std::alloc::Global;
use std::sync::Arc;
use std::thread;
use wave_workers::{Gate, WorkFault, Worked, work};

/// The worker has claimed its cell.
const CLAIMED: u64 = 1;

/// The other pass has done what it was to.
const EDITED: u64 = 2;

/// Says that its cell was claimed, and holds the result until the other pass is ready.
#[derive(Drop)]
struct Holding {
    board: Arc<Board, Global>,
}

impl Gate for Holding {
    fn go_on(&mut self, _turn: u64) -> bool {
        true
    }

    fn claimed(&mut self, _cell: Cell) {
        self.board.tell(CLAIMED);
    }

    fn computed(&mut self, _cell: Cell) {
        self.board.sees(EDITED);
    }
}

/// What a pass does while a worker holds its result.
#[derive(Clone, Copy)]
enum Beside {
    Edit(Edit),
    Edits(Edit, Edit),
    Settles,
}

/// A first edit, what is done while the result is held, how many results are stored then, and the word of address 300 at
/// cycle 0 in the end, behind its version.
type Case = (Edit, Beside, u64, (u32, u32));

const FENCE: Edit = Edit::Entry {
    proc: 1,
    index: 0,
    entry: ScriptEntry::Fence,
};

/// The first is example 14.3: the word is another one before the result is given. In the others it is set away and back; a
/// script changes that no module reads; the bench is settled meanwhile; the result's cycle is cut off, cut off and back, or
/// stays while another goes.
fn stories() -> [Case; 7] {
    let (five, six) = (word(300, 5), word(300, 6));
    let (back, cut) = (Edit::Horizon(12), Edit::Horizon(10));
    [
        (five, Beside::Edit(six), 0, (2, 6)),
        (five, Beside::Edits(six, five), 0, (3, 5)),
        (five, Beside::Edit(FENCE), 1, (2, 5)),
        (five, Beside::Settles, 0, (1, 5)),
        (back, Beside::Edit(cut), 0, (2, 0)),
        (back, Beside::Edits(cut, back), 0, (3, 0)),
        (back, Beside::Edit(Edit::Horizon(11)), 1, (2, 0)),
    ]
}

/// How often each is played.
const TIMES: u32 = 20;

/// Each so often: one result is given, and so many are stored.
pub(crate) fn held<R: Host + Send + Copy + 'static>(rt: &R, alloc: Global) -> Option<u32> {
    let mut held = 0u32;
    for _ in 0..TIMES {
        for case in stories() {
            if !holds(rt, alloc, case)? {
                return None;
            }
            held = held.saturating_add(1);
        }
    }
    Some(held)
}

/// The word of address 300 at cycle 0, and the version.
fn asked<R: Host>(rt: &R, pass: &mut Pass) -> Option<(u32, u32)> {
    let query = Query::Memory {
        address: 300,
        cycle: 0,
    };
    word_told(pass.ask(rt, query))
}

/// The state of processor 0 at the last cycle of the base project.
const LAST_STATE: Query = Query::State {
    component: 0,
    cycle: 10,
};

/// Settles the whole run, by a question about its end.
fn settles<R: Host>(rt: &R, pass: &mut Pass) -> bool {
    matches!(pass.ask(rt, LAST_STATE), Told::Answer { .. })
}

/// Does what is to be done once the worker has claimed, and lets it go on.
fn goes_beside<R: Host>(rt: &R, pass: &mut Pass, beside: Beside, board: &Board) -> bool {
    let was_claimed = board.sees(CLAIMED);
    let mut done = was_claimed;
    match beside {
        Beside::Edit(edit) => done = pass.edit(rt, edit).is_ok() && done,
        Beside::Edits(one, other) => {
            done = pass.edit(rt, one).is_ok() && done;
            done = pass.edit(rt, other).is_ok() && done;
        }
        Beside::Settles => done = settles(rt, pass) && done,
    }
    board.tell(EDITED);
    done
}

/// A pass to a settled bench of the base project, to which an edit was made, and another for a worker.
fn opened<R: Host>(rt: &R, alloc: Global, first: Edit) -> Option<(Pass, Pass)> {
    let project = base(alloc)?;
    let mut pass = pass_to(alloc, project, 0, 3)?;
    if !settles(rt, &mut pass) || pass.edit(rt, first).is_err() {
        return None;
    }
    match pass.split() {
        Ok(theirs) => Some((pass, theirs)),
        Err(_) => None,
    }
}

/// A board, with a gate that looks at it.
fn gated(alloc: Global) -> Option<(Arc<Board, Global>, Vec<Holding>)> {
    let board = Arc::new(alloc, Board::new()).ok()?;
    let gate = Holding {
        board: Arc::try_clone(&board).ok()?,
    };
    match vec![in alloc; gate] {
        Ok(gates) => Some((board, gates)),
        Err(_) => None,
    }
}

/// Whether one turn of a worker, which holds its result meanwhile, comes to what it must, and each answer is then that of the
/// plain simulation.
fn holds<R: Host + Send + Copy + 'static>(rt: &R, alloc: Global, case: Case) -> Option<bool> {
    let (first, beside, stored, told) = case;
    let (board, gates) = gated(alloc)?;
    let (mut pass, theirs) = opened(rt, alloc, first)?;
    let (came, done) = thread::join(
        rt,
        move || came_of(work(rt, theirs, gates, 1)),
        || goes_beside(rt, &mut pass, beside, &board),
    );
    let is_told = asked(rt, &mut pass) == Some(told);
    Some(done && is_told && came == (1, stored, None) && tells_simulated(rt, alloc, &mut pass))
}

/// How many results were given and stored, and the fault.
fn came_of(worked: Worked) -> (u64, u64, Option<WorkFault>) {
    (worked.given, worked.stored, worked.fault)
}
