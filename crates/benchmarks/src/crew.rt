//! The workers of a bench that is measured, and the passes of those who edit and ask beside them.
use crate::benches::{opened, shared};
use anyhow::{Error, Result};
use bench_core::Told;
use cell_table::Cell;
use project_book::Project;
use run_queries::Query;
use shared_bench::Pass;
use std::alloc::{AllocError, Global};
use std::sync::atomic::{AtomicU64, Ordering};
use std::sync::{Arc, Wait};
use std::thread;
use std::thread::Threads;
use std::time::Clock;
use wave_workers::{Gate, attend};

/// How many seats a bench has: for four workers, for who starts them, and for who edits.
const SEATS: u32 = 6;

/// What lets workers run: a handle that each thread takes with it.
pub trait Hall: Threads + Wait + Clock + Sync + Send + Copy + Drop + 'static {}

impl<H: Threads + Wait + Clock + Sync + Send + Copy + Drop + 'static> Hall for H {}

/// What workers do, counted.
#[derive(Drop)]
pub struct Board {
    /// How many cells were computed.
    computed: AtomicU64,
    /// How many are to be: workers stop there.
    wanted: AtomicU64,
    /// Whether all workers have ended.
    left: AtomicU64,
}

/// The gate of a worker.
#[derive(Drop)]
pub struct Counting {
    board: Arc<Board, Global>,
}

impl Gate for Counting {
    fn go_on(&mut self, _turn: u64) -> bool {
        self.board.computed.load(Ordering::SeqCst) < self.board.wanted.load(Ordering::SeqCst)
    }

    fn claimed(&mut self, _cell: Cell) {}

    fn computed(&mut self, _cell: Cell) {
        self.board.computed.fetch_add(1, Ordering::SeqCst);
    }
}

/// Nothing was computed yet.
pub fn new_board(alloc: Global, wanted: u64) -> Result<Arc<Board, Global>, AllocError> {
    let board = Board {
        computed: AtomicU64::new(0),
        wanted: AtomicU64::new(wanted),
        left: AtomicU64::new(0),
    };
    Ok(Arc::new(alloc, board)?)
}

/// So many gates.
pub fn gates(
    alloc: Global,
    board: &Arc<Board, Global>,
    count: u32,
) -> Result<Vec<Counting>, AllocError> {
    let mut gates = Vec::new(alloc);
    for _ in 0..count {
        gates.push(Counting {
            board: Arc::try_clone(board)?,
        })?;
    }
    Ok(gates)
}

/// Ends the workers, and wakes them until they have ended.
pub fn end(board: &Board, pass: &Pass) {
    board.wanted.store(0, Ordering::SeqCst);
    for _ in 0..u64::MAX {
        if board.left.load(Ordering::SeqCst) != 0 {
            return;
        }
        pass.wake_all();
        thread::yield_now();
    }
}

/// Works until the gates end it.
pub fn attended<H: Hall>(host: &H, pass: Pass, gates: Vec<Counting>, board: &Board) {
    attend(host, pass, gates);
    board.left.store(1, Ordering::SeqCst);
}

/// A pass to a fresh bench.
pub fn fresh_pass(alloc: Global, project: &Project) -> Result<Pass> {
    let bench = opened(alloc, project.share()?)?;
    shared(alloc, bench, SEATS)
}

/// A question that waits for every cell: a word at the last cycle.
pub fn last_word(project: &Project) -> Query {
    Query::Memory {
        address: 0,
        cycle: project.horizon(),
    }
}

/// How many cells a project's run has.
pub fn cells_of(project: &Project) -> u64 {
    let cycles = u64::from(project.horizon()).saturating_add(1);
    u64::from(project.shape().components()).saturating_mul(cycles)
}

/// Asks, and waits for the answer.
pub fn answered<H: Hall>(pass: &mut Pass, host: &H, query: Query) -> Result<()> {
    match pass.ask(host, query) {
        Told::Answer { .. } => Ok(()),
        _ => Err(Error::msg("no answer")),
    }
}
