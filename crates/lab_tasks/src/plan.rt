//! The numbers that the words of `map`, `rates` and `delays` give.
ghost use Rattle.std.specs.Prelude.{◌≡◌, ◌<◌, ◌≤◌, IfErr, IfOk, Some, length};
ghost use Rattle.omega_net.specs.Numbers.{lines};
ghost use Rattle.page_map.specs.Limits.{max_k};
ghost use Rattle.lab_tasks.specs.Numbers.{AreNoShares, AreShares, are_hundredths, IsTold, IsUntold};
ghost use Rattle.lab_tasks.specs.MapRows.{over_of, way_of, IsNoOver, IsNoWay, IsNotTaken, IsTaken};
ghost use Rattle.lab_tasks.specs.Plans.{measure_of, net_of, IsCurves, IsFrom, IsMap, IsModule, IsNoCurve, IsNoMap, IsNoMeasure, IsNoNet, IsNoWindow, IsTo};
ghost use Rattle.lab_tasks.specs.Words.{text_of};

use crate::end::{End, Reason};
use crate::map_rows::{Over, Way, over_at, refuse_module, way_at};
use crate::numbers::list_in;
use crate::words::{CurveWords, MapWords};
use experiments::{MOST_CYCLES, USUAL_CYCLES, Window};
use line_words::number;
use omega_net::{Net, Shape};
use page_map::MAX_K;
use project_book::Project;
use std::alloc::Global;

/// The number at an option, which has to be within two others; without a word a usual one.
pub(crate) fn number_at<'a>(
    option: &'static str,
    word: Option<&'a str>,
    usual: u32,
    least: u32,
    most: u32,
) -> Result<u32, End<'a>>
    ensures told { IfOk result (IsTold (text_of word.entry) usual least most) }
    ensures untold { IfErr result (IsUntold option.now (text_of word.entry) least most) }
    ensures most { usual ≤ most → IfOk result (λ n. n ≤ most) }
{
    let Some(word) = word else {
        return Ok(usual);
    };
    match number(word.as_bytes()) {
        None => Err(End::Word {
            option,
            word,
            reason: Reason::Form("a number"),
        }),
        Some(value) if value < least || value > most => Err(End::Word {
            option,
            word,
            reason: Reason::Within(least, most),
        }),
        Some(value) => Ok(value),
    }
}

/// What `map` draws.
#[derive(Clone, Copy)]
pub(crate) struct MapPlan {
    pub net: Net,
    pub way: Way,
    pub over: Over,
    /// Of one tree alone.
    pub module: u32,
    pub window: Window,
}

/// The network at `--net`.
fn net_at<'a>(word: Option<&'a str>) -> Result<Net, End<'a>>
    ensures net { IfOk result (λ net. net_of (text_of word.entry) ≡ Some net) }
    ensures none { IfErr result (IsNoNet (text_of word.entry)) }
{
    match word {
        None | Some("low") => Ok(Net::Low),
        Some("comb") => Ok(Net::Comb),
        Some(word) => Err(End::Word {
            option: "--net",
            word,
            reason: Reason::Form("low or comb"),
        }),
    }
}

/// A module of a machine, and the cycles of a window up to a horizon.
fn place_at<'a>(words: &MapWords<'a>, shape: Shape, horizon: u32) -> Result<(u32, Window), End<'a>>
    ensures number { IfOk result (λ p. IsModule shape words.now p.0) }
    ensures from { IfOk result (λ p. IsFrom horizon words.now p.1.from) }
    ensures to { IfOk result (λ p. IsTo horizon words.now p.1.to) }
    ensures refused { IfErr result (IsNoWindow shape horizon words.now) }
    ensures there { IfOk result (λ p. p.0 < lines shape) }
    ensures window { IfOk result (λ p. p.1.from ≤ p.1.to) }
    ensures within { IfOk result (λ p. p.1.to ≤ horizon) }
{
    let most = shape.lines().saturating_sub(1);
    let module = number_at("--module", words.module, 0, 0, most)?;
    let from = number_at("--from", words.from, 0, 0, horizon)?;
    let to = number_at("--to", words.to, horizon, 0, horizon)?;
    if to < from {
        return Err(End::Word {
            option: "--to",
            word: words.to.unwrap_or(""),
            reason: Reason::Backwards,
        });
    }
    Ok((module, Window { from, to }))
}

/// What is to be drawn of a machine's run up to a horizon: a module that it has, and cycles up to then.
pub(crate) fn map_plan<'a>(
    words: &MapWords<'a>,
    shape: Shape,
    horizon: u32,
) -> Result<MapPlan, End<'a>>
    ensures told { IfOk result (IsMap shape horizon words.now) }
    ensures refused { IfErr result (IsNoMap shape horizon words.now) }
    ensures there { IfOk result (λ plan. plan.«module» < lines shape) }
    ensures window { IfOk result (λ plan. plan.window.from ≤ plan.window.to) }
    ensures within { IfOk result (λ plan. plan.window.to ≤ horizon) }
{
    let net = net_at(words.net)?;
    let way = way_at(words.dir)?;
    let over = over_at(words.queues)?;
    refuse_module(over, words.module)?;
    let place = place_at(words, shape, horizon)?;
    Ok(MapPlan {
        net,
        way,
        over,
        module: place.0,
        window: place.1,
    })
}

/// What of a run is drawn.
#[derive(Clone, Copy, PartialEq, Eq)]
pub(crate) enum Measure {
    /// The references that were answered.
    Answered,
    /// The requests that modules served: what combines on its way is served as one.
    Served,
}

/// What of a run is named at `--of`.
fn measure_at<'a>(word: Option<&'a str>) -> Result<Measure, End<'a>>
    ensures of { IfOk result (λ of. measure_of (text_of word.entry) ≡ Some of) }
    ensures none { IfErr result (IsNoMeasure (text_of word.entry)) }
{
    match word {
        None | Some("answered") => Ok(Measure::Answered),
        Some("served") => Ok(Measure::Served),
        Some(word) => Err(End::Word {
            option: "--of",
            word,
            reason: Reason::Form("answered or served"),
        }),
    }
}

/// What `rates` and `delays` measure.
#[derive(Drop)]
pub(crate) struct CurvePlan {
    /// 2^k processors at most.
    pub k: u32,
    /// How many of a hundred references are hot, for each curve or point.
    pub hot: Vec<u32>,
    pub cycles: u32,
    pub seed: u32,
    /// Of `rates` alone: how many seeds, from that one on, and what is drawn.
    pub seeds: u32,
    pub of: Measure,
}

/// The shares that are measured where none are given.
const USUAL_SHARES: [u32; 7] = [0, 1, 2, 4, 8, 16, 32];

/// How many seeds `rates` and `load` may measure with.
pub(crate) const MOST_SEEDS: u32 = 20;

/// Whether no share is more than the whole.
fn are_hundredths(shares: &[u32]) -> bool
    ensures { result ≡ are_hundredths shares.now }
{
    shares.iter().all(|share| *share <= 100)
}

/// The shares at `--hot`.
pub(crate) fn shares_at<'a>(alloc: Global, word: Option<&'a str>) -> Result<Vec<u32>, End<'a>>
    ensures shares { IfOk result (λ v. AreShares (text_of word.entry) v.items) }
    ensures few { IfOk result (λ v. length v.items ≤ 7) }
    ensures none { IfErr result (AreNoShares (text_of word.entry)) }
{
    let Some(word) = word else {
        return Ok(USUAL_SHARES.to_vec(alloc)?);
    };
    let refused = |reason: Reason| End::Word {
        option: "--hot",
        word,
        reason,
    };
    let Some(shares) = list_in(alloc, word.as_bytes())? else {
        return Err(refused(Reason::Form("numbers with commas between")));
    };
    if shares.len() > USUAL_SHARES.len() {
        return Err(refused(Reason::Form("up to seven numbers")));
    }
    if !are_hundredths(shares.as_slice()) {
        return Err(refused(Reason::Within(0, 100)));
    }
    Ok(shares)
}

/// What is to be measured.
pub(crate) fn curve_plan<'a>(alloc: Global, words: &CurveWords<'a>) -> Result<CurvePlan, End<'a>>
    ensures told { IfOk result (IsCurves words.now) }
    ensures refused { IfErr result (IsNoCurve words.now) }
    ensures small { IfOk result (λ plan. plan.k ≤ max_k) }
    ensures few { IfOk result (λ plan. length plan.hot.items ≤ 7) }
{
    let k = number_at("--k", words.k, MAX_K, 1, MAX_K)?;
    let hot = shares_at(alloc, words.hot)?;
    let cycles = number_at("--cycles", words.cycles, USUAL_CYCLES, 2, MOST_CYCLES)?;
    let seed = number_at("--seed", words.seed, 1, 0, u32::MAX)?;
    let seeds = number_at("--seeds", words.seeds, 5, 1, MOST_SEEDS)?;
    let of = measure_at(words.of)?;
    Ok(CurvePlan {
        k,
        hot,
        cycles,
        seed,
        seeds,
        of,
    })
}
