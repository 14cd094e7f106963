//! Which offered loads `load` measures.
ghost use Rattle.std.specs.Prelude.{◌≡◌, ◌+◌, ◌-◌, ◌*◌, ◌/◌, ◌++◌, ◌<◌, ◌≤◌, ◌^◌, IfErr, IfOk, OnOk, Some, codes, length, unwrap_or};
ghost use Rattle.page_map.specs.Limits.{max_k};
ghost use Rattle.lab_tasks.specs.LoadPlans.{load_of, offers_of, rate_at, rate_count, rate_offers, seeded_offers, share_offers, shares_text, IsLoadPlan, IsNoLoadPlan, IsNoSpan, IsSpan};
ghost use Rattle.lab_tasks.specs.Numbers.{AreNoShares, AreShares};
ghost use Rattle.lab_tasks.specs.Words.{text_of};

use crate::end::{End, Reason};
use crate::numbers::range_in;
use crate::plan::{MOST_SEEDS, number_at, shares_at};
use crate::words::LoadWords;
use experiments::{Load, MOST_CYCLES, Offer, USUAL_CYCLES};
use page_map::MAX_K;
use std::alloc::{AllocError, Global};

/// What `load` measures.
#[derive(Drop)]
pub(crate) struct LoadPlan {
    /// There are 2^k processors.
    pub k: u32,
    /// How many of a hundred references are hot.
    pub hot: Vec<u32>,
    /// The first rate, the last one at most, and the step between them: in how many of a hundred cycles a reference is offered.
    pub from: u32,
    pub to: u32,
    pub step: u32,
    pub cycles: u32,
    pub seed: u32,
    /// How many seeds, from that one on.
    pub seeds: u32,
}

/// The first and the last rate at `--rate`.
fn span_at<'a>(word: Option<&'a str>) -> Result<(u32, u32), End<'a>>
    ensures span { IfOk result (IsSpan (text_of word.entry)) }
    ensures few { IfOk result (λ span. (span.0 ≤ span.1) × (span.1 ≤ 100)) }
    ensures none { IfErr result (IsNoSpan (text_of word.entry)) }
{
    let Some(word) = word else {
        return Ok((5, 100));
    };
    let refused = |reason: Reason| End::Word {
        option: "--rate",
        word,
        reason,
    };
    let Some((from, to)) = range_in(word.as_bytes()) else {
        return Err(refused(Reason::Form("two numbers, as 5..100")));
    };
    if from < 1 || to > 100 {
        return Err(refused(Reason::Within(1, 100)));
    }
    if to < from {
        return Err(refused(Reason::Backwards));
    }
    Ok((from, to))
}

/// The shares at `--hot`: none is hot without a word.
fn load_shares<'a>(alloc: Global, words: &LoadWords<'a>) -> Result<Vec<u32>, End<'a>>
    ensures shares { IfOk result (λ v. AreShares (shares_text words.now) v.items) }
    ensures few { IfOk result (λ v. length v.items ≤ 7) }
    ensures none { IfErr result (AreNoShares (shares_text words.now)) }
{
    shares_at(alloc, Some(words.curves.hot.unwrap_or("0")))
}

/// What is to be measured.
pub(crate) fn load_plan<'a>(alloc: Global, words: &LoadWords<'a>) -> Result<LoadPlan, End<'a>>
    ensures told { IfOk result (IsLoadPlan words.now) }
    ensures refused { IfErr result (IsNoLoadPlan words.now) }
    ensures small { IfOk result (λ plan. plan.k ≤ max_k) }
    ensures few { IfOk result (λ plan. length plan.hot.items ≤ 7) }
    ensures span { IfOk result (λ plan. (plan.from ≤ plan.to) × (plan.to ≤ 100)) }
    ensures step { IfOk result (λ plan. (1 ≤ plan.step) × (plan.step ≤ 100)) }
    ensures seeds { IfOk result (λ plan. plan.seeds ≤ 20) }
{
    let k = number_at("--k", words.curves.k, MAX_K, 1, MAX_K)?;
    let hot = load_shares(alloc, words)?;
    let span = span_at(words.rate)?;
    let step = number_at("--step", words.step, 5, 1, 100)?;
    let cycles = number_at(
        "--cycles",
        words.curves.cycles,
        USUAL_CYCLES,
        2,
        MOST_CYCLES,
    )?;
    let seed = number_at("--seed", words.curves.seed, 1, 0, u32::MAX)?;
    let seeds = number_at("--seeds", words.curves.seeds, 5, 1, MOST_SEEDS)?;
    Ok(LoadPlan {
        k,
        hot,
        from: span.0,
        to: span.1,
        step,
        cycles,
        seed,
        seeds,
    })
}

impl LoadPlan {
    /// How many rates are measured.
    pub fn rate_count(&self) -> u32
        requires span { self.now.to ≤ 100 }
        requires step { 1 ≤ self.now.step }
        ensures count { result ≡ rate_count self.now }
        ensures few { result ≤ 101 }
    {
        self.to.saturating_sub(self.from) / self.step + 1
    }

    /// The rate at a place.
    pub fn rate_at(&self, place: u32) -> u32
        requires from { self.now.from ≤ 100 }
        requires step { self.now.step ≤ 100 }
        requires place { place ≤ 101 }
        ensures rate { result ≡ rate_at self.now place }
        ensures few { result ≤ 10200 }
    {
        self.from + place * self.step
    }
}

/// A load of the plan.
fn load_of(plan: &LoadPlan, sync: bool, combine: bool, hot: u32) -> Load
    ensures load { result ≡ load_of plan.now sync combine hot }
    ensures seed { result.seed < 2 ^ 32 }
{
    Load {
        k: plan.k,
        hot,
        seed: u64::from(plan.seed),
        cycles: plan.cycles,
        sync,
        combine,
    }
}

/// Adds a load at a rate with each of so many seeds.
fn add_seeded(offers: &mut Vec<Offer>, load: Load, seeds: u32, rate: u32) -> Result<(), AllocError>
    requires { load.seed < 2 ^ 32 }
    ensures { OnOk result (offers.new.items ≡ offers.old.items ++ seeded_offers load seeds rate) }
{
    for nth in 0..seeds {
        let seed = load.seed + u64::from(nth);
        offers.push(Offer {
            load: Load { seed, ..load },
            rate,
        })?;
    }
    Ok(())
}

/// Adds a load at each rate.
#[tactic(auto, using(crate::proofs::Listing::flat_next))]
fn add_rates(offers: &mut Vec<Offer>, plan: &LoadPlan, load: Load) -> Result<(), AllocError>
    requires seed { load.seed < 2 ^ 32 }
    requires span { (plan.now.from ≤ plan.now.to) × (plan.now.to ≤ 100) }
    requires step { (1 ≤ plan.now.step) × (plan.now.step ≤ 100) }
    ensures { OnOk result (offers.new.items ≡ offers.old.items ++ rate_offers plan.now load) }
{
    for place in 0..plan.rate_count() {
        add_seeded(offers, load, plan.seeds, plan.rate_at(place))?;
    }
    Ok(())
}

/// Adds the loads with a share.
fn add_share(offers: &mut Vec<Offer>, plan: &LoadPlan, hot: u32) -> Result<(), AllocError>
    requires span { (plan.now.from ≤ plan.now.to) × (plan.now.to ≤ 100) }
    requires step { (1 ≤ plan.now.step) × (plan.now.step ≤ 100) }
    ensures { OnOk result (offers.new.items ≡ offers.old.items ++ share_offers plan.now hot) }
{
    add_rates(offers, plan, load_of(plan, false, false, hot))?;
    add_rates(offers, plan, load_of(plan, true, false, hot))?;
    add_rates(offers, plan, load_of(plan, true, true, hot))?;
    Ok(())
}

/// The loads: by the share of hot references, then the low network and the combining one without and with combining, then by
/// rate, then by seed.
pub(crate) fn offers_of(alloc: Global, plan: &LoadPlan) -> Result<Vec<Offer>, AllocError>
    requires span { (plan.now.from ≤ plan.now.to) × (plan.now.to ≤ 100) }
    requires step { (1 ≤ plan.now.step) × (plan.now.step ≤ 100) }
    ensures { IfOk result (λ v. v.items ≡ offers_of plan.now) }
{
    let mut offers = Vec::new(alloc);
    for hot in plan.hot.as_slice() {
        add_share(&mut offers, plan, *hot)?;
    }
    Ok(offers)
}
