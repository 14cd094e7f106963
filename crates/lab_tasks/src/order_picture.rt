//! The one order of a run's references, as a space-time diagram.
ghost use Rattle.std.specs.Prelude.{◌≡◌, ◌≤◌, ◌==◌, ◌++◌, IfOk, OnOk, None, codes, length, map, position, string_bytes};
ghost use Rattle.std.specs.List.{flat_map};
ghost use Rattle.omega_net.specs.Wires.{below};
ghost use Rattle.lab_tasks.specs.OrderPictures.{band_of, bar_of, colour_at, colour_by, colour_of, end_at, first_lane, is_joined, is_known, join_with, joins_after, keys_from, lane_at, same_module, with_word, words_of, IsPicture};

use experiments::{Issue, OrderRow, Window, lane_counts, lane_of};
use omega_net::Tag;
use run_queries::Received;
use std::alloc::{AllocError, Global};
use svg_plots::{Band, Bar, Colour, Columns, Join, Key, Timeline, draw_timeline};

/// How many words have a colour of their own.
const MOST_WORDS: usize = 4;

/// Whether a word is among those that have a colour.
fn is_known(words: &[u32], address: u32) -> bool
    ensures { result ≡ is_known words.now address }
{
    words.iter().any(|word| *word == address)
}

/// Adds the word of an issue, where fewer than four have a colour and it has none.
fn add_word(words: &mut Vec<u32>, issue: Option<Issue>) -> Result<(), AllocError>
    ensures word { OnOk result (words.new.items ≡ with_word words.old.items issue) }
    ensures few { length words.old.items ≤ 4 → OnOk result (length words.new.items ≤ 4) }
{
    let Some(issue) = issue else {
        return Ok(());
    };
    if words.len() < MOST_WORDS {
        if !is_known(words.as_slice(), issue.address) {
            words.push(issue.address)?;
        }
    }
    Ok(())
}

/// The words that have a colour of their own: the first four.
fn words_of(alloc: Global, rows: &[OrderRow]) -> Result<Vec<u32>, AllocError>
    ensures words { IfOk result (λ v. v.items ≡ words_of rows.now) }
    ensures few { IfOk result (λ v. length v.items ≤ 4) }
{
    let mut words = Vec::new(alloc);
    for row in rows {
        add_word(&mut words, row.issue)?;
    }
    Ok(words)
}

/// Each is lighter than the one before, in print too; that of all other words is black.
fn colour_at(place: Option<usize>) -> Colour
    ensures { result ≡ colour_at place }
{
    match place {
        None => Colour::Black,
        Some(0) => Colour::Shade(16),
        Some(1) => Colour::Vermilion,
        Some(2) => Colour::SkyBlue,
        Some(_) => Colour::Light,
    }
}

/// Where a word stands among those that have a colour.
fn place_of(words: &[u32], address: u32) -> Option<usize>
    ensures { result ≡ position (λ w. w == address) words.now }
{
    words.iter().position(|word| *word == address)
}

fn colour_of(words: &[u32], address: u32) -> Colour
    ensures { result ≡ colour_of words.now address }
{
    colour_at(place_of(words, address))
}

/// The lane of a reference.
fn lane_at(counts: &[u32], tag: Tag) -> u16
    ensures { result ≡ lane_at counts.now tag }
{
    lane_of(counts, tag).min(65_535) as u16
}

/// The first lane of a processor.
fn first_lane(counts: &[u32], proc: u8) -> u16
    ensures { result ≡ first_lane counts.now proc }
{
    lane_at(counts, Tag { proc, issue: 0 })
}

/// Where a bar ends.
fn end_at(reply: Option<Received>, last: u32) -> u32
    ensures { result ≡ end_at last reply }
{
    match reply {
        Some(reply) => reply.cycle,
        None => last,
    }
}

/// Adds the bar of a reference.
fn add_bar(
    bars: &mut Vec<Bar>,
    counts: &[u32],
    words: &[u32],
    last: u32,
    row: &OrderRow,
) -> Result<(), AllocError>
    ensures { OnOk result (bars.new.items ≡ bars.old.items ++ bar_of counts.now words.now last row.now) }
{
    if let Some(issue) = row.issue {
        bars.push(Bar {
            lane: lane_at(counts, row.tag),
            from: issue.cycle,
            to: end_at(row.reply, last),
            dot: row.served,
            number: row.number,
            colour: colour_of(words, issue.address),
        })?;
    }
    Ok(())
}

fn bars_of(
    alloc: Global,
    counts: &[u32],
    words: &[u32],
    last: u32,
    rows: &[OrderRow],
) -> Result<Vec<Bar>, AllocError>
    ensures { IfOk result (λ v. v.items ≡ flat_map (bar_of counts.now words.now last) rows.now) }
{
    let mut bars = Vec::new(alloc);
    for row in rows {
        add_bar(&mut bars, counts, words, last, row)?;
    }
    Ok(bars)
}

fn same_module(first: Option<Issue>, second: Option<Issue>) -> bool
    ensures { result ≡ same_module first second }
{
    match (first, second) {
        (Some(first), Some(second)) => first.place.module == second.place.module,
        _ => false,
    }
}

/// Whether one request served both references.
fn is_joined(first: &OrderRow, second: &OrderRow) -> bool
    ensures { result ≡ is_joined first.now second.now }
{
    first.served == second.served && same_module(first.issue, second.issue)
}

/// Adds the line to the reference before this one, where one request served both.
fn add_join(
    joins: &mut Vec<Join>,
    counts: &[u32],
    last: Option<OrderRow>,
    row: &OrderRow,
) -> Result<(), AllocError>
    ensures { OnOk result (joins.new.items ≡ joins.old.items ++ join_with counts.now last row.now) }
{
    let Some(last) = last else {
        return Ok(());
    };
    if is_joined(&last, row) {
        joins.push(Join {
            column: row.served,
            first: lane_at(counts, last.tag),
            second: lane_at(counts, row.tag),
        })?;
    }
    Ok(())
}

fn joins_of(alloc: Global, counts: &[u32], rows: &[OrderRow]) -> Result<Vec<Join>, AllocError>
    ensures { IfOk result (λ v. v.items ≡ joins_after counts.now None rows.now) }
{
    let mut joins = Vec::new(alloc);
    let mut last = None;
    for row in rows {
        add_join(&mut joins, counts, last, row)?;
        last = Some(*row);
    }
    Ok(joins)
}

/// The bands of the processors.
fn bands_of(alloc: Global, counts: &[u32], processors: u8) -> Result<Vec<Band>, AllocError>
    ensures { IfOk result (λ v. v.items ≡ map (band_of counts.now) (below processors)) }
{
    let mut bands = Vec::new(alloc);
    for proc in 0..processors {
        bands.push(Band {
            lane: first_lane(counts, proc),
            number: u32::from(proc),
        })?;
    }
    Ok(bands)
}

/// The colour of the word at a place.
fn colour_by(place: u8) -> Colour
    ensures { result ≡ colour_by place }
{
    colour_at(Some(usize::from(place)))
}

/// What the colours of the words are.
fn keys_of(alloc: Global, words: &[u32]) -> Result<Vec<Key>, AllocError>
    requires { length words.now ≤ 4 }
    ensures { IfOk result (λ v. v.items ≡ keys_from 0 words.now) }
{
    let mut keys = Vec::new(alloc);
    let mut place: u8 = 0;
    for word in words {
        keys.push(Key {
            place,
            colour: colour_by(place),
            number: *word,
        })?;
        place += 1;
    }
    Ok(keys)
}

const TITLE: &str = "One order of all references";

const NOTE: &str =
    "A bar is a reference from its issue to its reply, or to the last cycle; its dot is the cycle in which it was served.";

const LAST_NOTE: &str =
    "A number is a place in the one order. A line joins what one request served. A fifth word and more are black.";

/// The diagram of these parts.
fn timeline_of<'a>(
    window: Window,
    lanes: u16,
    bands: &'a [Band],
    keys: &'a [Key],
    joins: &'a [Join],
    bars: &'a [Bar],
) -> Timeline<'a>
    ensures columns { result.columns ≡ record { from = window.from; to = window.to } }
    ensures lanes { result.lanes ≡ lanes }
    ensures named { (result.band_name.now ≡ codes "processor") × (result.key_name.now ≡ codes "word") × (result.across.now ≡ codes "cycle") }
    ensures bands { result.bands.now ≡ bands.now }
    ensures keys { result.keys.now ≡ keys.now }
    ensures joins { result.joins.now ≡ joins.now }
    ensures bars { result.bars.now ≡ bars.now }
{
    Timeline {
        title: TITLE,
        across: "cycle",
        columns: Columns {
            from: window.from,
            to: window.to,
        },
        lanes,
        band_name: "processor",
        key_name: "word",
        bands,
        keys,
        joins,
        bars,
        note: NOTE,
        last_note: LAST_NOTE,
    }
}

/// The space-time diagram of the references that waited in a window, on so many processors.
pub(crate) fn order_picture(
    alloc: Global,
    processors: u8,
    window: Window,
    rows: &[OrderRow],
) -> Result<String, AllocError>
    ensures { IfOk result (λ text. IsPicture processors window rows.now (string_bytes text)) }
{
    let lines = u32::from(processors);
    let counts = lane_counts(alloc, lines, rows)?;
    let counts = counts.as_slice();
    let words = words_of(alloc, rows)?;
    let words = words.as_slice();
    let bands = bands_of(alloc, counts, processors)?;
    let bands = bands.as_slice();
    let keys = keys_of(alloc, words)?;
    let keys = keys.as_slice();
    let joins = joins_of(alloc, counts, rows)?;
    let joins = joins.as_slice();
    let bars = bars_of(alloc, counts, words, window.to, rows)?;
    let bars = bars.as_slice();
    let lanes = first_lane(counts, processors);
    let timeline = timeline_of(window, lanes, bands, keys, joins, bars);
    draw_timeline(alloc, &timeline)
}
