//! What a run shows, cycle by cycle or by bins of cycles.
ghost use Rattle.std.specs.Prelude.{◌≡◌, ◌≤◌, ◌<◌, ◌++◌, IfErr, IfOk, map, string_bytes};
ghost use Rattle.std.specs.List.{flat_map, AllZip};
ghost use Rattle.run_reports.specs.Series.{bin_row, name_row};
ghost use Rattle.report_pictures.specs.SeriesPictures.{IsSeriesPicture};
ghost use Rattle.lab_tasks.specs.Gauged.{AreBins, AreNoBins, AreNoGauges, AreSeriesTexts, IsGauge, IsNoSeriesText, IsWanted, RefusesGauge};
ghost use Rattle.lab_tasks.specs.SweepTables.{OrMemory};
ghost use Rattle.lab_tasks.specs.Words.{text_of, texts_of};

use crate::end::{End, Reason};
use crate::plan::number_at;
use omega_net::Shape;
use project_book::Project;
use report_pictures::series_picture;
use run_reports::{Bins, Gauge, Sums, Window, gauge_named, series_sums, series_table};
use std::alloc::{AllocError, Global};

/// What `series` is told.
#[derive(Drop)]
pub struct SeriesWords<'a> {
    pub file: &'a str,
    pub gauges: Vec<&'a str>,
    pub from: Option<&'a str>,
    pub to: Option<&'a str>,
    pub bin: Option<&'a str>,
    pub csv: Option<&'a str>,
    pub out: Option<&'a str>,
}

/// What a word at `--of` has to be.
const GAUGE: &str =
    "a gauge of this machine, as 'waiting', 'served m0', 'queue c0.0 f0', 'stage low 0' or 'busy comb 0'";

/// The gauge of a word.
fn gauge_in<'a>(alloc: Global, shape: Shape, word: &'a str) -> Result<Gauge, End<'a>>
    ensures named { IfOk result (IsGauge shape word.entry.now) }
    ensures refused { IfErr result (OrMemory (RefusesGauge shape word.entry.now)) }
{
    let named = match gauge_named(alloc, shape, word.as_bytes()) {
        Ok(named) => named,
        Err(_) => return Err(End::Memory),
    };
    match named {
        Some(gauge) => Ok(gauge),
        None => Err(End::Word {
            option: "--of",
            word,
            reason: Reason::Form(GAUGE),
        }),
    }
}

/// The gauges of the words, in turn.
fn all_gauges<'a>(alloc: Global, shape: Shape, words: &[&'a str]) -> Result<Vec<Gauge>, End<'a>>
    ensures named { IfOk result (λ all. AllZip (IsGauge shape) (map (λ word. word.now) words.entry.now) all.items) }
    ensures refused { IfErr result (OrMemory (AreNoGauges shape (map (λ word. word.now) words.entry.now))) }
{
    let mut all = Vec::new(alloc);
    for word in words {
        match gauge_in(alloc, shape, word) {
            Ok(gauge) => all.push(gauge)?,
            Err(end) => return Err(end),
        }
    }
    Ok(all)
}

/// The bins that the words name.
fn bins_at<'a>(words: &SeriesWords<'a>, project: &Project) -> Result<Bins, End<'a>>
    ensures told { IfOk result (AreBins project.now words.now) }
    ensures refused { IfErr result (AreNoBins project.now words.now) }
    ensures size { IfOk result (λ bins. 0 < bins.size) }
    ensures forward { IfOk result (λ bins. bins.window.from ≤ bins.window.to) }
    ensures within { IfOk result (λ bins. bins.window.to ≤ project.now.horizon) }
{
    project.is_project();
    let horizon = project.horizon();
    let size = number_at("--bin", words.bin, 1, 1, horizon + 1)?;
    let from = number_at("--from", words.from, 0, 0, horizon)?;
    let to = number_at("--to", words.to, horizon, 0, horizon)?;
    if to < from {
        return Err(End::Word {
            option: "--to",
            word: words.to.unwrap_or(""),
            reason: Reason::Backwards,
        });
    }
    let window = Window { from, to };
    Ok(Bins { window, size })
}

/// What a series is as text: a table, and where one is wanted a picture.
#[derive(Drop)]
pub(crate) struct SeriesTexts {
    pub table: String,
    pub picture: String,
}

/// The picture where a file is named for it.
fn picture_of(
    alloc: Global,
    words: &SeriesWords<'_>,
    bins: Bins,
    all: &[(u32, Sums)],
) -> Result<String, AllocError>
    requires from { bins.window.from ≤ 1000000 }
    requires to { bins.window.to ≤ 1000000 }
    ensures { IfOk result (λ text. IsWanted (text_of words.now.out) (IsSeriesPicture words.now.file.now (texts_of words.now.gauges.items) bins all.now) (string_bytes text)) }
{
    match words.out {
        Some(_) => series_picture(alloc, words.file, words.gauges.as_slice(), bins, all),
        None => Ok(String::new(alloc)),
    }
}

/// The table of these bins, and the picture where a file is named for it.
fn texts_in(
    alloc: Global,
    words: &SeriesWords<'_>,
    shape: Shape,
    gauges: &[Gauge],
    bins: Bins,
    all: &[(u32, Sums)],
) -> Result<SeriesTexts, AllocError>
    requires from { bins.window.from ≤ 1000000 }
    requires to { bins.window.to ≤ 1000000 }
    ensures table { IfOk result (λ texts. string_bytes texts.table ≡ name_row shape gauges.now ++ flat_map bin_row all.now) }
    ensures picture { IfOk result (λ texts. IsWanted (text_of words.now.out) (IsSeriesPicture words.now.file.now (texts_of words.now.gauges.items) bins all.now) (string_bytes texts.picture)) }
{
    let table = series_table(alloc, shape, gauges, all)?;
    let picture = picture_of(alloc, words, bins, all)?;
    Ok(SeriesTexts { table, picture })
}

/// The table that the words name, and the picture where a file is named for it.
pub(crate) fn series_texts<'a>(
    alloc: Global,
    words: &SeriesWords<'a>,
    project: &Project,
) -> Result<SeriesTexts, End<'a>>
    ensures done { IfOk result (λ texts. AreSeriesTexts words.now project.now (string_bytes texts.table) (string_bytes texts.picture)) }
    ensures refused { IfErr result (OrMemory (IsNoSeriesText words.now project.now)) }
{
    project.is_project();
    let gauges = match all_gauges(alloc, project.shape(), words.gauges.as_slice()) {
        Ok(gauges) => gauges,
        Err(end) => return Err(end),
    };
    let bins = match bins_at(words, project) {
        Ok(bins) => bins,
        Err(end) => return Err(end),
    };
    let all = match series_sums(alloc, project, gauges.as_slice(), bins) {
        Ok(all) => all,
        Err(_) => return Err(End::Memory),
    };
    match texts_in(
        alloc,
        words,
        project.shape(),
        gauges.as_slice(),
        bins,
        all.as_slice(),
    ) {
        Ok(texts) => Ok(texts),
        Err(_) => Err(End::Memory),
    }
}
