//! The gates of two workers that meet, or of two pieces of a wave; gates that count, and that stop a worker.
use cell_table::Cell;
use std::alloc::{AllocError, Global};
use std::sync::Arc;
use std::sync::atomic::{AtomicU64, Ordering};
use std::test::Fail;
use std::thread;
use wave_workers::Gate;

/// How often a gate looks for the other at most.
const MOST_LOOKS: u64 = 100_000_000;

/// What two gates report.
#[derive(Drop)]
pub(super) struct Board {
    first: Reports,
    second: Reports,
}

/// What a gate has reported: the component of its first claim, where that was at cycle 0, and whether it has computed a
/// cell.
#[derive(Drop)]
struct Reports {
    claimed: AtomicU64,
    computed: AtomicU64,
}

/// No component that there is.
const NONE: u64 = u64::MAX;

impl Reports {
    fn new() -> Reports {
        Reports {
            claimed: AtomicU64::new(NONE),
            computed: AtomicU64::new(0),
        }
    }

    fn has_computed(&self) -> bool {
        self.computed.load(Ordering::SeqCst) != 0
    }
}

impl Board {
    pub(super) fn new() -> Board {
        Board {
            first: Reports::new(),
            second: Reports::new(),
        }
    }

    pub(super) fn both_met(&self) -> bool {
        self.first.has_computed() && self.second.has_computed()
    }

    /// The components whose first cells they claimed.
    pub(super) fn first_cells(&self) -> (u64, u64) {
        (
            self.first.claimed.load(Ordering::SeqCst),
            self.second.claimed.load(Ordering::SeqCst),
        )
    }
}

/// The gate of the first or the second worker. The first reports what it has computed only once the second has.
#[derive(Drop)]
pub(super) struct Meeting {
    board: Arc<Board, Global>,
    is_first: bool,
}

impl Meeting {
    /// The gates of both.
    pub(super) fn both(alloc: Global, board: &Arc<Board, Global>) -> Result<Vec<Meeting>, Fail> {
        let mut gates = Vec::new(alloc);
        for is_first in [true, false] {
            let board = Arc::try_clone(board)?;
            gates.push(Meeting { board, is_first })?;
        }
        Ok(gates)
    }

    fn own(&self) -> &Reports {
        if self.is_first {
            &self.board.first
        } else {
            &self.board.second
        }
    }

    /// Whether the second has computed a cell, looked for often.
    fn sees_second(&self) -> bool {
        for _ in 0..MOST_LOOKS {
            if self.board.second.has_computed() {
                return true;
            }
            thread::yield_now();
        }
        false
    }
}

impl Gate for Meeting {
    fn go_on(&mut self, _turn: u64) -> bool {
        true
    }

    fn claimed(&mut self, cell: Cell) {
        let claimed = &self.own().claimed;
        if cell.cycle == 0 && claimed.load(Ordering::SeqCst) == NONE {
            claimed.store(u64::from(cell.component), Ordering::SeqCst);
        }
    }

    fn computed(&mut self, _cell: Cell) {
        if !self.is_first || self.sees_second() {
            self.own().computed.store(1, Ordering::SeqCst);
        }
    }
}

/// A gate that counts what its piece has computed.
#[derive(Drop)]
pub(super) struct Counting {
    turns: Arc<AtomicU64, Global>,
}

impl Counting {
    pub(super) fn new(alloc: Global) -> Result<Counting, AllocError> {
        let turns = Arc::new(alloc, AtomicU64::new(0))?;
        Ok(Counting { turns })
    }

    /// Another gate with the same count.
    pub(super) fn again(&self) -> Result<Counting, AllocError> {
        let turns = Arc::try_clone(&self.turns)?;
        Ok(Counting { turns })
    }

    pub(super) fn turns(&self) -> u64 {
        self.turns.load(Ordering::SeqCst)
    }
}

impl Gate for Counting {
    fn go_on(&mut self, _turn: u64) -> bool {
        true
    }

    fn claimed(&mut self, _cell: Cell) {}

    fn computed(&mut self, _cell: Cell) {
        self.turns.fetch_add(1, Ordering::SeqCst);
    }
}

/// A gate that stops its worker at a turn, or where a turn isn't the next one.
#[derive(Drop)]
pub(super) struct Stopping {
    stop: u64,
    next: u64,
}

impl Stopping {
    pub(super) fn at(stop: u64) -> Stopping {
        Stopping { stop, next: 0 }
    }
}

impl Gate for Stopping {
    fn go_on(&mut self, turn: u64) -> bool {
        let is_next = turn == self.next && turn < self.stop;
        self.next = turn.saturating_add(1);
        is_next
    }

    fn claimed(&mut self, _cell: Cell) {}

    fn computed(&mut self, _cell: Cell) {}
}
