//! How long the references of a run took.
ghost use Rattle.std.specs.Prelude.{◌≡◌, ◌-◌, ◌&&◌, IfErr, IfOk, IsOkUnless, OnOk, codes, false, string_bytes};
ghost use Rattle.lab_tasks.specs.Latencies.{IsBelow, IsBoth, IsCondition, IsDrawn, IsHeat, IsNetwork, IsNoCondition, IsNoNetwork, IsNotBelow, IsProcessor, IsReport};
ghost use Rattle.lab_tasks.specs.Numbers.{IsUntold};
ghost use Rattle.lab_tasks.specs.Words.{text_of};
ghost use Rattle.omega_net.specs.Numbers.{lines};

use crate::cycles::cycles_at;
use crate::end::{End, Reason};
use crate::hot::hottest_word;
use crate::plan::number_at;
use line_words::number;
use omega_net::Net;
use page_map::{ADDRESSES, PAGES};
use project_book::Project;
use report_pictures::latency_picture;
use run_reports::{Condition, Heat, Window, latencies_of, latency_text};
use std::alloc::Global;

/// What `latency` is told.
#[derive(Clone, Copy)]
pub struct LatencyWords<'a> {
    pub file: &'a str,
    pub processor: Option<&'a str>,
    pub network: Option<&'a str>,
    pub address: Option<&'a str>,
    pub page: Option<&'a str>,
    pub hot: bool,
    pub cold: bool,
    pub from: Option<&'a str>,
    pub to: Option<&'a str>,
}

/// The processor at `--processor`, if there is a word.
fn processor_at<'a>(word: Option<&'a str>, project: &Project) -> Result<Option<u32>, End<'a>>
    ensures told { IfOk result (IsProcessor project.now (text_of word.entry)) }
    ensures untold { IfErr result (IsUntold (codes "--processor") (text_of word.entry) 0 (lines project.now.k - 1)) }
{
    if word.is_none() {
        return Ok(None);
    }
    let most = project.processors().saturating_sub(1);
    let proc = number_at("--processor", word, 0, 0, most)?;
    Ok(Some(proc))
}

/// The network at `--network`, if there is a word.
fn network_at<'a>(word: Option<&'a str>) -> Result<Option<Net>, End<'a>>
    ensures net { IfOk result (IsNetwork (text_of word.entry)) }
    ensures none { IfErr result (IsNoNetwork (text_of word.entry)) }
{
    match word {
        None => Ok(None),
        Some("low") => Ok(Some(Net::Low)),
        Some("comb") => Ok(Some(Net::Comb)),
        Some(word) => Err(End::Word {
            option: "--network",
            word,
            reason: Reason::Form("low or comb"),
        }),
    }
}

/// The number at an option, if there is a word: one below a count that all machines have.
fn below_at<'a>(
    option: &'static str,
    word: Option<&'a str>,
    count: u32,
    wanted: &'static str,
) -> Result<Option<u32>, End<'a>>
    ensures told { IfOk result (IsBelow count (text_of word.entry)) }
    ensures untold { IfErr result (IsNotBelow option.now count wanted.now (text_of word.entry)) }
{
    let Some(word) = word else {
        return Ok(None);
    };
    match number(word.as_bytes()) {
        Some(value) if value < count => Ok(Some(value)),
        _ => Err(End::Word {
            option,
            word,
            reason: Reason::Form(wanted),
        }),
    }
}

/// What an address and a page at their options have to be.
const ADDRESS: &str = "an address from 0 to 16383";

const PAGE: &str = "a page from 0 to 63";

/// Refuses `--hot` beside `--cold`.
fn refuse_both<'a>(words: &LatencyWords<'a>) -> Result<(), End<'a>>
    ensures one { OnOk result ((words.now.hot && words.now.cold) ≡ false) }
    ensures both { IfErr result (IsBoth words.now) }
{
    if words.hot && words.cold {
        return Err(End::Word {
            option: "--hot",
            word: "--cold",
            reason: Reason::Form("to be given too"),
        });
    }
    Ok(())
}

/// The condition that the words name, but for the hot word.
pub(crate) fn condition<'a>(
    words: &LatencyWords<'a>,
    project: &Project,
) -> Result<Condition, End<'a>>
    ensures told { IfOk result (IsCondition project.now words.now) }
    ensures refused { IfErr result (IsNoCondition project.now words.now) }
{
    let proc = processor_at(words.processor, project)?;
    let net = network_at(words.network)?;
    let address = below_at("--address", words.address, ADDRESSES, ADDRESS)?;
    let page = below_at("--page", words.page, PAGES, PAGE)?;
    let cycles = cycles_at(words.from, words.to, project)?;
    refuse_both(words)?;
    let (from, to) = cycles;
    Ok(Condition {
        proc,
        net,
        page,
        address,
        hot: None,
        window: Some(Window { from, to }),
    })
}

/// The hot word where it is asked for, or all others are.
pub(crate) fn heat<'a>(
    alloc: Global,
    is_hot: bool,
    is_cold: bool,
    project: &Project,
) -> Result<Option<Heat>, End<'a>>
    ensures heat { IfOk result (IsHeat project.now is_hot is_cold) }
    ensures memory { IsOkUnless result End.Memory }
{
    if !is_hot && !is_cold {
        return Ok(None);
    }
    let word = hottest_word(alloc, project)?.unwrap_or(0);
    Ok(Some(if is_hot {
        Heat::Hot(word)
    } else {
        Heat::Cold(word)
    }))
}

/// The report of the latencies of the references that meet a condition, and are to the hot word as the words ask for it.
pub(crate) fn report<'a>(
    alloc: Global,
    words: &LatencyWords<'_>,
    project: &Project,
    condition: &Condition,
) -> Result<String, End<'a>>
    ensures text { IfOk result (λ text. IsReport words.now project.now condition.now (string_bytes text)) }
    ensures memory { IsOkUnless result End.Memory }
{
    let hot = heat(alloc, words.hot, words.cold, project)?;
    let condition = Condition { hot, ..*condition };
    let latencies = latencies_of(alloc, project, &condition)?;
    Ok(latency_text(alloc, &latencies)?)
}

/// The histogram of the latencies of the references of a file's run that meet a condition, and are to the hot word as the words
/// ask for it.
pub(crate) fn drawn<'a>(
    alloc: Global,
    words: &LatencyWords<'_>,
    project: &Project,
    condition: &Condition,
) -> Result<String, End<'a>>
    ensures text { IfOk result (λ text. IsDrawn words.now project.now condition.now (string_bytes text)) }
    ensures memory { IsOkUnless result End.Memory }
{
    let hot = heat(alloc, words.hot, words.cold, project)?;
    let condition = Condition { hot, ..*condition };
    let latencies = latencies_of(alloc, project, &condition)?;
    Ok(latency_picture(alloc, words.file, &condition, &latencies)?)
}
