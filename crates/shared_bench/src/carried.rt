//! A bench behind a pointer, and what is done with it in a turn.
ghost use Rattle.std.specs.Prelude.{◌≡◌, ◌+◌, ◌<◌, ◌≤◌, ◌↔◌, ◌++◌, ◌∷◌, [], List, min, length, true, false, All, IfOk, IfErr, OnOk, IsTrue, MatchOption, Ok, Err, vec_len, vec_capacity};
ghost use Rattle.cell_table.specs.Claims.{Claimed, NoneDue};
ghost use Rattle.cell_table.specs.Gives.{GivesAs};
ghost use Rattle.cell_table.specs.Settling.{IsClockSpent};
ghost use Rattle.machine_cells.specs.declared.state.MachineState.{MachineState as CellState};
ghost use Rattle.machine_cells.specs.GridRules.{rp3_rules};
ghost use Rattle.project_book.specs.Project.{Project as ProjectValue};
ghost use Rattle.project_book.specs.Edits.{accepts, edited};
ghost use Rattle.bench_core.specs.Shown.{project_of, version_of};
ghost use Rattle.bench_core.specs.Asks.{AsksAs};
ghost use Rattle.bench_core.specs.Stands.{HasHistory};
ghost use Rattle.shared_bench.specs.Rule.{spent_of};
ghost use Rattle.shared_bench.specs.Legal.{noted};
ghost use Rattle.bench_core.specs.Told.{TellsAt, TellsAsked};
ghost use Rattle.bench_core.specs.Answering.{SettlesAs};
ghost use Rattle.shared_bench.specs.Answers.{ClaimsAs, EditsAs, IsGivenSpent};
ghost use Rattle.shared_bench.specs.Slices.{slice_end, IsNextSlice, SlicesAs};
ghost use Rattle.shared_bench.specs.Lots.{NoneInRow, IsClaimInRow, GoesOn, ClaimsLot, GivesLot};

use bench_core::{Asked, Bench, Told};
use cell_table::{Cell, Claim, Done, Given, SettleFault};
use grid_law::NoMemory;
use machine_cells::Rp3;
use project_book::{Edit, EditFault, Project};
use run_queries::Query;
use std::marker::Model;
use std::thread::Threads;

/// The last cycle of a slice of so many cells that begins at this cycle.
#[tactic(auto, using(crate::proofs::Slices::some_component))]
fn slice_end(project: &Project, cycle: u32, cells: u32) -> u32
    ensures { result ≡ slice_end project.now cells cycle }
{
    let cycles = cells / project.shape().components();
    let last = cycle.saturating_add(cycles.saturating_sub(1));
    last.min(project.horizon())
}

/// Whether a cell is of that one's cycle, and at or after it.
fn is_behind(from: Cell, cell: Cell) -> bool
    ensures { IsTrue result ↔ ((cell.cycle ≡ from.cycle) × (from.component ≤ cell.component)) }
{
    cell.cycle == from.cycle && from.component <= cell.component
}

/// How many cells are claimed in one turn at most.
const MOST: u32 = 64;

/// A bench on the heap, so that a turn moves one pointer. Contracts see the bench.
#[derive(Drop)]
pub struct Carried {
    pub bench: Box<Bench>,
}

impl Model for Carried {
    ghost use Rattle.bench_core.specs.Shown.{Shown};

    ghost Value = { Shown };

    ghost view = { λ c. c.bench.value };
}

impl Carried {
    /// Some list of events is behind the bench. No work is done.
    pub fn history(&self)
        ensures { HasHistory self.now }
    {
        self.bench.is_bench();
    }

    /// Settles the bench as far as the answer looks, and answers it.
    #[tactic(auto, using(crate::proofs::Benches::spent_is, crate::proofs::Benches::is_spent))]
    pub fn ask<R: Threads + Sync>(&mut self, rt: &R, query: Query) -> Told
        ensures journal { self.new.journal ≡ self.old.journal }
        ensures project { project_of self.new ≡ project_of self.old }
        ensures kept { spent_of self.old ≡ true → spent_of self.new ≡ true }
        ensures told { TellsAt (project_of self.new) (version_of self.new) query result }
        ensures spent { result ≡ Told.ClockSpent → spent_of self.new ≡ true }
        ensures settles { SettlesAs query result self.old self.new }
        ensures asks { TellsAsked self.new query result }
    {
        self.bench.answer(rt, query)
    }

    /// Asks the bench as it is.
    pub fn look<R: Threads + Sync>(&mut self, rt: &R, query: Query) -> Asked
        ensures asks { AsksAs self.old query result }
        ensures unchanged { self.new ≡ self.old }
    {
        self.bench.ask(rt, query)
    }

    /// A claim of the first cell at or after `from`.
    ///
    /// # Errors
    ///
    /// Where a growth was refused. The bench is as before.
    pub fn claim(&self, from: Cell) -> Result<Option<Claim<Rp3>>, NoMemory>
        ensures { ClaimsAs self.now from result }
    {
        self.bench.claim(from)
    }

    /// Whether a cell of that cycle is due, at or after that component.
    #[tactic(auto, using(crate::proofs::Lots::none_due_in_row, crate::proofs::Lots::due_elsewhere))]
    fn is_row_due(&self, from: Cell) -> bool
        ensures { result ≡ false → NoneInRow self.now from.cycle from.component }
    {
        match self.bench.cells().next_due(from) {
            Some(due) => due.cycle == from.cycle,
            None => false,
        }
    }

    /// A claim of the first cell of that cycle, at or after that component, that can be claimed.
    ///
    /// # Errors
    ///
    /// As `claim`.
    #[tactic(auto, using(crate::proofs::Lots::none_due_at_all))]
    fn claim_in_row(&self, from: Cell) -> Result<Option<Claim<Rp3>>, NoMemory>
        ensures { IfOk result (λ r. MatchOption r
            (NoneInRow self.now from.cycle from.component)
            (IsClaimInRow self.now from.cycle from.component)) }
    {
        if !self.is_row_due(from) {
            return Ok(None);
        }
        match self.claim(from) {
            Ok(Some(claim)) => {
                if is_behind(from, claim.cell()) {
                    Ok(Some(claim))
                } else {
                    Ok(None)
                }
            }
            Ok(None) => Ok(None),
            Err(error) => Err(error),
        }
    }

    /// The place behind a cell in its cycle.
    fn behind(&self, cell: Cell) -> Cell
        requires { cell.component < rp3_rules.components (project_of self.now) }
        ensures cycle { result.cycle ≡ cell.cycle }
        ensures component { result.component ≡ cell.component + 1 }
    {
        // The number of a component is below this one, so that of the next fits.
        let _count = self.bench.project().shape().components();
        Cell {
            cycle: cell.cycle,
            component: cell.component + 1,
        }
    }

    /// Adds claims of at most so many cells of that cycle, from that component on.
    ///
    /// # Errors
    ///
    /// As `claim`.
    #[tactic(auto, using(crate::proofs::Lots::claims_begin, crate::proofs::Lots::claims_go, crate::proofs::Lots::claims_end, crate::proofs::Lots::claims_full))]
    fn claim_on(&self, claims: &mut Vec<Claim<Rp3>>, from: Cell, most: u32) -> Result<(), NoMemory>
        requires { vec_len claims.old + most ≤ vec_capacity claims.old }
        ensures { OnOk result ((more : List (Claimed CellState ProjectValue)) × (claims.new.items ≡ claims.old.items ++ more) × GoesOn self.now from.cycle from.component most more) }
    {
        let mut from = from;
        for _count in 0..most {
            match self.claim_in_row(from) {
                Ok(Some(claim)) => {
                    from = self.behind(claim.cell());
                    claims.push_reserved(claim);
                }
                Ok(None) => return Ok(()),
                Err(error) => return Err(error),
            }
        }
        Ok(())
    }

    /// Claims of at most so many cells of one cycle, and of 64, the first at or after `from`.
    ///
    /// # Errors
    ///
    /// Where a growth was refused. The bench is as before.
    #[tactic(auto, using(crate::proofs::Lots::round_there, crate::proofs::Lots::lot_none, crate::proofs::Lots::lot_made))]
    pub fn claim_many(&self, from: Cell, most: u32) -> Result<Vec<Claim<Rp3>>, NoMemory>
        ensures { IfOk result (λ claims. ClaimsLot self.now from (min most 64) claims.items) }
    {
        let most = most.min(MOST);
        let mut claims = Vec::with_capacity(*Box::allocator(&self.bench), most as usize)?;
        if most == 0 {
            return Ok(claims);
        }
        match self.claim(from) {
            Ok(Some(claim)) => {
                let next = self.behind(claim.cell());
                claims.push_reserved(claim);
                self.claim_on(&mut claims, next, most - 1)?;
                Ok(claims)
            }
            Ok(None) => Ok(claims),
            Err(error) => Err(error),
        }
    }

    /// Gives results back, one after another. Their answers replace what the buffer held, in the same order.
    #[tactic(auto, using(crate::proofs::Lots::given_begin))]
    pub fn give_many(&mut self, lot: Vec<Done<Rp3>>, answers: &mut Vec<Given<Done<Rp3>>>)
        requires { vec_len lot ≤ vec_capacity answers.old }
        ensures gives { GivesLot self.old lot.items answers.new.items self.new }
        ensures room { vec_capacity answers.new ≡ vec_capacity answers.old }
        ensures journal { self.new.journal ≡ self.old.journal }
        ensures project { project_of self.new ≡ project_of self.old }
        ensures kept { spent_of self.old ≡ true → spent_of self.new ≡ true }
        ensures spent { All (λ given. IsGivenSpent given → spent_of self.new ≡ true) answers.new.items }
        ensures history { HasHistory self.new }
    {
        self.history();
        answers.clear();
        for done in lot {
            let given = self.give(done);
            answers.push_reserved(given);
        }
    }

    /// Gives a result back.
    pub fn give(&mut self, done: Done<Rp3>) -> Given<Done<Rp3>>
        ensures gives { GivesAs rp3_rules self.old.table done result self.new.table }
        ensures journal { self.new.journal ≡ self.old.journal }
        ensures project { project_of self.new ≡ project_of self.old }
        ensures kept { spent_of self.old ≡ true → spent_of self.new ≡ true }
        ensures spent { IsGivenSpent result → spent_of self.new ≡ true }
        ensures history { HasHistory self.new }
    {
        let given = self.bench.give(done);
        self.bench.is_bench();
        given
    }

    /// The last cycle of the next slice, of so many cells; none where no cell is due. No cell is looked at.
    #[tactic(auto, using(crate::proofs::Slices::none_due, crate::proofs::Slices::next_slice))]
    fn next_slice(&self, cells: u32) -> Option<u32>
        ensures { MatchOption result (NoneDue rp3_rules self.now.table) (IsNextSlice self.now cells) }
    {
        let from = Cell {
            cycle: 0,
            component: 0,
        };
        match self.bench.cells().next_due(from) {
            Some(first) => Some(slice_end(self.bench.project(), first.cycle, cells)),
            None => None,
        }
    }

    /// Settles the next slice, of so many cells, up to the cycle that is told; none where no cell is due.
    ///
    /// # Errors
    ///
    /// As `Bench::settle_to`. What was settled stays so.
    #[tactic(auto, using(crate::proofs::Benches::spent_is, crate::proofs::Benches::is_spent))]
    pub fn settle_some(&mut self, cells: u32) -> Result<Option<u32>, SettleFault>
        ensures journal { self.new.journal ≡ self.old.journal }
        ensures project { project_of self.new ≡ project_of self.old }
        ensures kept { spent_of self.old ≡ true → spent_of self.new ≡ true }
        ensures slices { SlicesAs self.old cells result self.new }
        ensures spent { IfErr result (λ f. IsClockSpent f → spent_of self.new ≡ true) }
    {
        let last = match self.next_slice(cells) {
            Some(last) => last,
            None => return Ok(None),
        };
        match self.bench.settle_to(last) {
            Ok(_) => Ok(Some(last)),
            Err(fault) => Err(fault),
        }
    }

    /// Edits in the author's name.
    ///
    /// # Errors
    ///
    /// Why the edit is refused. The bench is as before.
    pub fn edit(&mut self, author: u32, edit: Edit) -> Result<u32, EditFault>
        ensures journal { IfOk result (λ v. self.new.journal ≡ self.old.journal ++ noted author edit ∷ []) }
        ensures project { IfOk result (λ v. project_of self.new ≡ edited (project_of self.old) edit) }
        ensures version { IfOk result (λ v. v ≡ length self.new.journal) }
        ensures accepted { IfOk result (λ v. accepts (project_of self.old) (version_of self.old) edit ≡ Ok tt) }
        ensures clock { IfOk result (λ v. spent_of self.old ≡ false) }
        ensures err { IfErr result (λ f. self.new ≡ self.old) }
        ensures edits { EditsAs self.old author edit result self.new }
        ensures short { length self.new.journal ≤ 65535 }
        ensures history { HasHistory self.new }
    {
        let made = self.bench.edit(author, edit);
        self.bench.is_bench();
        made
    }

    /// Its version, and its project with further owners.
    ///
    /// # Errors
    ///
    /// At 2^63 - 1 owners. Nothing is changed.
    pub fn project(&self) -> Result<(u32, Project), NoMemory>
        ensures { IfOk result (λ r. (r.0 ≡ version_of self.now) × (r.1 ≡ project_of self.now)) }
    {
        match self.bench.project().share() {
            Ok(project) => Ok((self.bench.version(), project)),
            Err(error) => Err(error),
        }
    }

    /// The bench itself.
    pub fn open(self) -> Bench
        ensures { result ≡ self }
    {
        Box::into_inner(self.bench)
    }
}
