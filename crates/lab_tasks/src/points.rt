//! The points that `rates` and `delays` measure.
ghost use Rattle.std.specs.Prelude.{◌≡◌, ◌++◌, ◌<◌, ◌≤◌, ◌^◌, IfOk, OnOk};
ghost use Rattle.page_map.specs.Limits.{max_k};
ghost use Rattle.lab_tasks.specs.Points.{share_loads, seeded, seeded_loads, rate_loads, delay_loads};

use crate::plan::CurvePlan;
use experiments::Load;
use std::alloc::{AllocError, Global};

/// Adds a load for each share.
fn add_shares(
    loads: &mut Vec<Load>,
    plan: &CurvePlan,
    k: u32,
    sync: bool,
    combine: bool,
) -> Result<(), AllocError>
    ensures { OnOk result (loads.new.items ≡ loads.old.items ++ share_loads plan.now k sync combine) }
{
    for hot in plan.hot.as_slice() {
        loads.push(Load {
            k,
            hot: *hot,
            seed: u64::from(plan.seed),
            cycles: plan.cycles,
            sync,
            combine,
        })?;
    }
    Ok(())
}

/// Adds a load with each of so many seeds, from its own on.
fn add_seeds(loads: &mut Vec<Load>, load: Load, seeds: u32) -> Result<(), AllocError>
    requires { load.seed < 2 ^ 32 }
    ensures { OnOk result (loads.new.items ≡ loads.old.items ++ seeded load seeds) }
{
    for nth in 0..seeds {
        loads.push(Load {
            seed: load.seed + u64::from(nth),
            ..load
        })?;
    }
    Ok(())
}

/// Adds a load for each share with each seed.
fn add_seeded(
    loads: &mut Vec<Load>,
    plan: &CurvePlan,
    k: u32,
    combine: bool,
) -> Result<(), AllocError>
    ensures { OnOk result (loads.new.items ≡ loads.old.items ++ seeded_loads plan.now k combine) }
{
    for hot in plan.hot.as_slice() {
        let load = Load {
            k,
            hot: *hot,
            seed: u64::from(plan.seed),
            cycles: plan.cycles,
            sync: true,
            combine,
        };
        add_seeds(loads, load, plan.seeds)?;
    }
    Ok(())
}

/// The loads of `rates`: by the number of processors, then without combining and with it, then by share, then by seed.
#[tactic(auto, using(crate::proofs::Listing::flat_next))]
pub(crate) fn rate_loads(alloc: Global, plan: &CurvePlan) -> Result<Vec<Load>, AllocError>
    requires { plan.now.k ≤ max_k }
    ensures { IfOk result (λ v. v.items ≡ rate_loads plan.now) }
{
    let mut loads = Vec::new(alloc);
    for k in 0..plan.k + 1 {
        add_seeded(&mut loads, plan, k, false)?;
        add_seeded(&mut loads, plan, k, true)?;
    }
    Ok(loads)
}

/// The loads of `delays`: the low network, the combining one without combining and with it, each by share.
pub(crate) fn delay_loads(alloc: Global, plan: &CurvePlan) -> Result<Vec<Load>, AllocError>
    ensures { IfOk result (λ v. v.items ≡ delay_loads plan.now) }
{
    let mut loads = Vec::new(alloc);
    add_shares(&mut loads, plan, plan.k, false, false)?;
    add_shares(&mut loads, plan, plan.k, true, false)?;
    add_shares(&mut loads, plan, plan.k, true, true)?;
    Ok(loads)
}
