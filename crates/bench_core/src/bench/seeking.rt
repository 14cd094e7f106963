//! Seeking a reply: the run is settled slice by slice, until the reply is there.
ghost use Rattle.std.specs.Prelude.{◌≡◌, ◌-◌, ◌^◌, ◌<◌, ◌≤◌, IfOk, IfErr, IfNone};
ghost use Rattle.cell_table.specs.Settling.{IsClockSpent};
ghost use Rattle.omega_net.specs.Numbers.{components};
ghost use Rattle.run_queries.specs.declared.query.Query.TheVariants.{Reply as ReplyTo};
ghost use Rattle.bench_core.specs.Later.{IsLater};
ghost use Rattle.bench_core.specs.Shown.{project_of};
ghost use Rattle.bench_core.specs.Asks.{pending, HoldsRunTo};
ghost use Rattle.bench_core.specs.Seeking.{begins_at, SeeksAs};

use super::Bench;
use cell_table::SettleFault;
use run_queries::Received;

/// How far a reply is sought first that no state held tells.
const FIRST_SLICE: u32 = 15;

impl Bench {
    /// How far to look first for a reply: to the cycle at which the states held tell it, which need not be those of the run,
    /// else to `FIRST_SLICE`, or to the horizon.
    pub(super) fn begins_at(&self, proc: u32, issue: u32) -> u32
        requires proc { proc < components (project_of self.now).k }
        ensures is { result ≡ begins_at self.now proc issue }
        ensures within { result ≤ (project_of self.now).horizon }
    {
        let horizon = self.project().horizon();
        match self.replied_by(proc, issue, horizon) {
            Some(received) => received.cycle,
            None => FIRST_SLICE.min(horizon),
        }
    }

    /// Settles up to a cycle, and further, each time about twice as far, until the states tell the reply to a reference or
    /// the run is settled: the reply, or none where the run doesn't tell it.
    ///
    /// # Errors
    ///
    /// As `settle_to`.
    pub(super) fn seek(
        &mut self,
        proc: u32,
        issue: u32,
        last: u32,
    ) -> Result<Option<Received>, SettleFault>
        requires proc { proc < components (project_of self.old).k }
        requires within { last ≤ (project_of self.old).horizon }
        ensures seeks { SeeksAs proc issue last self.old self.new result }
        ensures ready { IfOk result (λ o. IfNone o (pending self.new (ReplyTo proc issue) ≡ 0)) }
        ensures there { IfOk result (λ o. IfNone o (HoldsRunTo self.new (project_of self.new).horizon)) }
        ensures later { IsLater self.old self.new }
        ensures spent { IfErr result (λ f. IsClockSpent f → self.new.table.clock ≡ 2 ^ 64 - 1) }
    {
        match self.settle_to(last) {
            Ok(_) => {}
            Err(fault) => return Err(fault),
        }
        self.is_bench();
        if let Some(received) = self.replied_by(proc, issue, last) {
            return Ok(Some(received));
        }
        let horizon = self.project().horizon();
        if last == horizon {
            return Ok(None);
        }
        self.seek(
            proc,
            issue,
            last.saturating_mul(2).saturating_add(1).min(horizon),
        )
    }
}
