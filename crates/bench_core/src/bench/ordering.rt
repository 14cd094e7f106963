//! Serial orders.
ghost use Rattle.std.specs.Prelude.{◌≡◌, None};
ghost use Rattle.serial_order.specs.Answers.{AnswersOrder, AnswerExplains, AnswerIsTimely};
ghost use Rattle.run_queries.specs.Queries.{bad_query};
ghost use Rattle.run_queries.specs.declared.query.Query.TheVariants.{Order as OrderOf};
ghost use Rattle.bench_core.specs.Shown.{project_of, held};
ghost use Rattle.bench_core.specs.Asks.{TellsRun};

use super::Bench;
use crate::Asked;
use cell_table::{Cell, Table};
use grid_law::NoMemory;
use machine_cells::Rp3;
use omega_net::{Net, Request, Tag};
use run_queries::Body;
use serial_order::{Ordered, States, order, order_in, second_of, served_by};

/// The states that a table holds.
#[derive(Clone, Copy)]
pub(super) struct Cells<'a> {
    pub(super) table: &'a Table<Rp3>,
}

impl<'a> States for Cells<'a> {
    ghost at = { λ s t c. held s.table.now t c };

    fn served(
        &self,
        cycle: u32,
        component: u32,
        depth: u32,
    ) -> Result<Option<(Net, Request)>, NoMemory> {
        match self.table.shared(Cell { cycle, component })? {
            Some(state) => Ok(served_by(Some(&*state), depth)),
            None => Ok(served_by(None, depth)),
        }
    }

    fn second(&self, cycle: u32, component: u32, tag: Tag) -> Result<Option<Tag>, NoMemory> {
        match self.table.shared(Cell { cycle, component })? {
            Some(state) => Ok(second_of(Some(&*state), tag)),
            None => Ok(second_of(None, tag)),
        }
    }
}

impl Bench {
    /// The references to the word of an address, in their serial order, in the run of the project as it stands: what
    /// `serial_order` answers for that project. BadAddress exactly from 16,384 on; Memory only below; NoOrder never.
    ///
    /// Where no cell up to the horizon is due, it looks at the states held, a few in each cycle; else it simulates the
    /// project from cycle 0, and nothing of the bench is changed.
    pub fn order(&self, address: u32) -> Ordered
        ensures order { AnswersOrder (project_of self.now) address result }
        ensures explains { AnswerExplains (project_of self.now) address result }
        ensures timely { AnswerIsTimely (project_of self.now) address result }
    {
        let alloc = *self.journal.allocator();
        if self.pending_to(self.project().horizon()) == 0 {
            let cells = Cells { table: &self.table };
            return order_in(alloc, self.project(), &cells, address);
        }
        order(alloc, self.project(), address)
    }

    /// What the run says to a query of an order.
    #[tactic(auto, using(crate::proofs::Looking::order_listed, crate::proofs::Looking::order_there))]
    pub(super) fn listed(&self, address: u32) -> Asked
        requires { bad_query (project_of self.now) (OrderOf address) ≡ None }
        ensures { TellsRun self.now (OrderOf address) result }
    {
        match self.order(address) {
            Ordered::Order(tags) => self.answered(Body::Order(tags)),
            Ordered::NoOrder | Ordered::BadAddress => unreachable!(),
            Ordered::Memory => Asked::Memory,
        }
    }
}
