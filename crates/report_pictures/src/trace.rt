//! Where a reference was at each cycle of a run, as bars in the rows of the components that held it.
ghost use Rattle.std.specs.Prelude.{◌≡◌, ◌+◌, ◌<◌, ◌≤◌, ◌++◌, ◌∷◌, [], IfOk, OnOk, codes, length, map, min, position, string_bytes};
ghost use Rattle.omega_net.specs.Ports.{same_tag};
ghost use Rattle.omega_net.specs.Wires.{below};
ghost use Rattle.run_reports.specs.TraceTexts.{place_text};
ghost use Rattle.svg_plots.specs.AxisTicks.{ticks_between};
ghost use Rattle.svg_plots.specs.Lists.{each};
ghost use Rattle.report_pictures.specs.TracePictures.{carrier_at, carrier_text, carriers_of, cell_at, cells_of, column_tick, columns_of, cycles_note, first_of, from_last, group_of, groups_of, is_at, is_carried, is_known, is_passed, key_of, kind_text, last_of, number_of, period_note, places_of, stroke_at, trace_notes, trace_title, with_carrier, with_place, IsTracePicture};

use omega_net::{Component, Shape, Tag};
use run_reports::Span;
use std::alloc::{AllocError, Global};
use svg_plots::{
    CellGroup, CellMap, CellRow, CellRows, Cells, Label, ShadeKey, Tick, draw_map, labels_of,
    ticks_between,
};

/// Whether a tag is among some.
fn is_known(tags: &[Tag], tag: Tag) -> bool
    ensures { result ≡ is_known tags.now tag }
{
    tags.iter().any(|known| *known == tag)
}

/// Adds the carrier of a span that isn't there yet.
fn add_carrier(tags: &mut Vec<Tag>, span: &Span) -> Result<(), AllocError>
    ensures { OnOk result (tags.new.items ≡ with_carrier tags.old.items span.now) }
{
    let carrier = span.spot.carrier;
    if !is_known(tags.as_slice(), carrier) {
        tags.push(carrier)?;
    }
    Ok(())
}

/// The reference itself, and those into which it was combined.
fn carriers_of(alloc: Global, tag: Tag, spans: &[Span]) -> Result<Vec<Tag>, AllocError>
    ensures { IfOk result (λ v. v.items ≡ carriers_of tag spans.now) }
{
    let mut tags = Vec::new(alloc);
    tags.push(tag)?;
    for span in spans {
        add_carrier(&mut tags, span)?;
    }
    Ok(tags)
}

/// Whether a number is among some.
fn is_passed(places: &[u32], place: u32) -> bool
    ensures { result ≡ is_passed places.now place }
{
    places.iter().any(|passed| *passed == place)
}

/// Adds the place of a span that isn't there yet.
fn add_place(places: &mut Vec<u32>, span: &Span) -> Result<(), AllocError>
    ensures { OnOk result (places.new.items ≡ with_place places.old.items span.now) }
{
    let place = span.spot.place;
    if !is_passed(places.as_slice(), place) {
        places.push(place)?;
    }
    Ok(())
}

/// The components that held its message.
fn places_of(alloc: Global, spans: &[Span]) -> Result<Vec<u32>, AllocError>
    ensures { IfOk result (λ v. v.items ≡ places_of spans.now) }
{
    let mut places = Vec::new(alloc);
    for span in spans {
        add_place(&mut places, span)?;
    }
    Ok(places)
}

/// The first cycle of some spans.
fn first_of(spans: &[Span]) -> u32
    ensures first { result ≡ first_of spans.now }
    ensures few { result ≤ 1000000 }
{
    match spans.first() {
        Some(span) => span.from.min(1_000_000),
        None => 0,
    }
}

/// The last cycle of some spans.
fn last_of(spans: &[Span]) -> u32
    ensures last { result ≡ last_of spans.now }
    ensures few { result ≤ 1000000 }
{
    match spans.get(spans.len().saturating_sub(1)) {
        Some(span) => span.to.min(1_000_000),
        None => 0,
    }
}

/// How many cycles these are of.
fn columns_of(spans: &[Span]) -> u32
    ensures columns { result ≡ columns_of spans.now }
    ensures few { result ≤ 1000001 }
{
    last_of(spans).saturating_sub(first_of(spans)) + 1
}

/// Where a tag stands among some.
fn place_in(tags: &[Tag], tag: Tag) -> Option<usize>
    ensures { result ≡ position (λ t. same_tag t tag) tags.now }
{
    tags.iter().position(|known| *known == tag)
}

/// A place as a number from 1 on.
fn numbered(place: usize) -> u8
    ensures number { result ≡ min (place + 1) 255 }
{
    (place.min(254) + 1) as u8
}

/// The number of a carrier, from 1.
fn number_of(carriers: &[Tag], tag: Tag) -> u8
    ensures { result ≡ number_of carriers.now tag }
{
    match place_in(carriers, tag) {
        Some(place) => numbered(place),
        None => 1,
    }
}

/// Whether a span is of a component and a cycle.
fn is_at(place: u32, cycle: u32, span: &Span) -> bool
    ensures { result ≡ is_at place cycle span.now }
{
    span.spot.place == place && span.from <= cycle && cycle <= span.to
}

/// The reference whose message a component held in a cycle.
fn carrier_at(spans: &[Span], place: u32, cycle: u32) -> Option<Tag>
    ensures { result ≡ carrier_at spans.now place cycle }
{
    let span = spans.iter().find(|span| is_at(place, cycle, span))?;
    Some(span.spot.carrier)
}

/// Its number, 0 where it held none.
fn cell_at(carriers: &[Tag], spans: &[Span], place: u32, cycle: u32) -> u8
    ensures { result ≡ cell_at carriers.now spans.now place cycle }
{
    match carrier_at(spans, place, cycle) {
        Some(carrier) => number_of(carriers, carrier),
        None => 0,
    }
}

/// The cells of a component's row.
fn cells_of(
    alloc: Global,
    carriers: &[Tag],
    spans: &[Span],
    place: u32,
) -> Result<Vec<u8>, AllocError>
    ensures { IfOk result (λ v. v.items ≡ cells_of carriers.now spans.now place) }
{
    let first = first_of(spans);
    let mut cells = Vec::new(alloc);
    for column in 0..columns_of(spans) {
        cells.push(cell_at(carriers, spans, place, first + column))?;
    }
    Ok(cells)
}

/// What kind of component it is.
fn kind_of(alloc: Global, component: Option<Component>) -> Result<String, AllocError>
    ensures { IfOk result (λ text. string_bytes text ≡ kind_text component) }
{
    match component {
        Some(Component::Proc(_)) => String::from_str(alloc, "processor"),
        Some(Component::Module(_)) => String::from_str(alloc, "module"),
        Some(Component::Switch { stage, .. }) => format!(in alloc; "stage {stage}"),
        None => Ok(String::new(alloc)),
    }
}

/// The name of a component.
fn name_of(alloc: Global, component: Option<Component>) -> Result<String, AllocError>
    ensures { IfOk result (λ text. string_bytes text ≡ place_text component) }
{
    match component {
        Some(component) => format!(in alloc; "{component}"),
        None => Ok(String::new(alloc)),
    }
}

/// The row of a component.
fn row_of(
    alloc: Global,
    component: Option<Component>,
    cells: Vec<u8>,
) -> Result<CellRow, AllocError>
    ensures { IfOk result (λ row. row ≡ record { label = place_text component; cells = cells.items }) }
{
    let name = name_of(alloc, component)?;
    Ok(CellRow {
        label: Label::from_string(name),
        cells: Cells::from_vec(cells),
    })
}

/// A component's row, beside its kind.
fn group_of(
    alloc: Global,
    shape: Shape,
    carriers: &[Tag],
    spans: &[Span],
    place: u32,
) -> Result<CellGroup, AllocError>
    ensures { IfOk result (λ group. group ≡ group_of shape carriers.now spans.now place) }
{
    let component = shape.component(place);
    let cells = cells_of(alloc, carriers, spans, place)?;
    let row = row_of(alloc, component, cells)?;
    let mut rows = Vec::new(alloc);
    rows.push(row)?;
    let kind = kind_of(alloc, component)?;
    Ok(CellGroup {
        label: Label::from_string(kind),
        rows: CellRows::from_vec(rows),
    })
}

/// The place of a row: the last place is on top.
fn from_last(places: &[u32], row: usize) -> u32
    requires { row < length places.now }
    ensures { result ≡ from_last places.now row }
{
    places[places.len() - 1 - row]
}

/// The row of a place from the last one on.
fn group_at(
    alloc: Global,
    shape: Shape,
    carriers: &[Tag],
    spans: &[Span],
    places: &[u32],
    row: usize,
) -> Result<CellGroup, AllocError>
    requires { row < length places.now }
    ensures { IfOk result (λ group. group ≡ group_of shape carriers.now spans.now (from_last places.now row)) }
{
    group_of(alloc, shape, carriers, spans, from_last(places, row))
}

/// The rows, from top to bottom.
fn groups_of(
    alloc: Global,
    shape: Shape,
    carriers: &[Tag],
    spans: &[Span],
    places: &[u32],
) -> Result<Vec<CellGroup>, AllocError>
    ensures { IfOk result (λ v. v.items ≡ groups_of shape carriers.now spans.now places.now) }
{
    let mut groups = Vec::new(alloc);
    for row in 0..places.len() {
        groups.push(group_at(alloc, shape, carriers, spans, places, row)?)?;
    }
    Ok(groups)
}

/// Whether a span is of a cycle, and its message is another reference's.
fn is_carried(tag: Tag, cycle: u32, span: &Span) -> bool
    ensures { result ≡ is_carried tag cycle span.now }
{
    span.spot.carrier != tag && span.from <= cycle && cycle <= span.to
}

/// Whether the message is another reference's in a cycle.
fn stroke_at(tag: Tag, spans: &[Span], cycle: u32) -> bool
    ensures { result ≡ stroke_at tag spans.now cycle }
{
    spans.iter().any(|span| is_carried(tag, cycle, span))
}

/// Whether it is in each column.
fn strokes_of(alloc: Global, tag: Tag, spans: &[Span]) -> Result<Vec<bool>, AllocError>
    ensures { IfOk result (λ v. v.items ≡ map (λ column. stroke_at tag spans.now (first_of spans.now + column)) (below (columns_of spans.now))) }
{
    let first = first_of(spans);
    let mut strokes = Vec::new(alloc);
    for column in 0..columns_of(spans) {
        strokes.push(stroke_at(tag, spans, first + column))?;
    }
    Ok(strokes)
}

/// No level in any column.
fn levels_of(alloc: Global, columns: u32) -> Result<Vec<u8>, AllocError>
    ensures { IfOk result (λ v. v.items ≡ map (λ column. 0) (below columns)) }
{
    let mut levels = Vec::new(alloc);
    for _column in 0..columns {
        levels.push(0)?;
    }
    Ok(levels)
}

/// What the number of a carrier stands for.
fn carrier_text(alloc: Global, tag: Tag, carrier: Tag) -> Result<String, AllocError>
    ensures { IfOk result (λ text. string_bytes text ≡ carrier_text tag carrier) }
{
    if carrier == tag {
        return String::from_str(alloc, "itself");
    }
    format!(in alloc; "in p{carrier}")
}

/// Adds the key of a carrier.
fn add_key(
    alloc: Global,
    keys: &mut Vec<ShadeKey>,
    tag: Tag,
    place: usize,
    carrier: Tag,
) -> Result<(), AllocError>
    ensures { OnOk result (keys.new.items ≡ keys.old.items ++ key_of tag place carrier) }
{
    let text = carrier_text(alloc, tag, carrier)?;
    keys.push(ShadeKey {
        number: numbered(place),
        label: Label::from_string(text),
    })?;
    Ok(())
}

fn keys_of(alloc: Global, tag: Tag, carriers: &[Tag]) -> Result<Vec<ShadeKey>, AllocError>
    ensures { IfOk result (λ v. v.items ≡ each (key_of tag) carriers.now) }
{
    let mut keys = Vec::new(alloc);
    for (place, carrier) in carriers.iter().enumerate() {
        add_key(alloc, &mut keys, tag, place, *carrier)?;
    }
    Ok(keys)
}

/// A cycle's number under its column.
fn column_tick(first: u32, tick: Tick) -> Tick
    ensures { result ≡ column_tick first tick }
{
    Tick {
        value: tick.number.saturating_sub(first),
        number: tick.number,
    }
}

/// These numbers under their columns.
fn under_columns(alloc: Global, first: u32, all: &[Tick]) -> Result<Vec<Tick>, AllocError>
    ensures { IfOk result (λ v. v.items ≡ map (column_tick first) all.now) }
{
    let mut ticks = Vec::new(alloc);
    for tick in all {
        ticks.push(column_tick(first, *tick))?;
    }
    Ok(ticks)
}

/// The numbers of cycles under their columns.
fn ticks_of(alloc: Global, spans: &[Span]) -> Result<Vec<Tick>, AllocError>
    ensures { IfOk result (λ v. v.items ≡ map (column_tick (first_of spans.now)) (ticks_between (first_of spans.now) (last_of spans.now))) }
{
    let all = ticks_between(alloc, first_of(spans), last_of(spans))?;
    under_columns(alloc, first_of(spans), all.as_slice())
}

fn trace_title(alloc: Global, tag: Tag) -> Result<String, AllocError>
    ensures { IfOk result (λ text. string_bytes text ≡ trace_title tag) }
{
    format!(in alloc; "Where p{tag} was, cycle by cycle")
}

/// The cycles from one to another.
fn period_note(alloc: Global, name: &str, from: u32, to: u32) -> Result<String, AllocError>
    ensures { IfOk result (λ text. string_bytes text ≡ period_note name.now from to) }
{
    format!(in alloc; "{name}: cycles {from} to {to}.")
}

/// The cycles of the spans.
fn cycles_note(alloc: Global, name: &str, spans: &[Span]) -> Result<String, AllocError>
    ensures { IfOk result (λ text. string_bytes text ≡ cycles_note name.now spans.now) }
{
    if spans.is_empty() {
        return format!(in alloc; "{name}: not issued in this run.");
    }
    period_note(alloc, name, first_of(spans), last_of(spans))
}

const ROW_NOTE: &str =
    "A row is a component, a bar the cycles in which it held the message: the reference's own, or that of the one";

const STROKE_NOTE: &str =
    "that it was combined into, as the key says. A light line, and a stroke below: another reference's message.";

/// The lines below.
fn notes_of(alloc: Global, name: &str, spans: &[Span]) -> Result<Vec<Label>, AllocError>
    ensures { IfOk result (λ v. v.items ≡ trace_notes name.now spans.now) }
{
    let note = cycles_note(alloc, name, spans)?;
    labels_of(alloc, &[note.as_str(), ROW_NOTE, STROKE_NOTE])
}

/// How many shades there are.
fn most_of(carriers: &[Tag]) -> u8
    ensures { result ≡ min (length carriers.now) 255 }
{
    carriers.len().min(255) as u8
}

/// The map of these parts.
fn map_of(
    alloc: Global,
    title: String,
    most: u8,
    ticks: Vec<Tick>,
    groups: Vec<CellGroup>,
    key: Vec<ShadeKey>,
    levels: Vec<u8>,
    strokes: Vec<bool>,
    notes: Vec<Label>,
) -> CellMap
    ensures title { result.title ≡ string_bytes title }
    ensures groups { result.groups.items ≡ groups.items }
    ensures middle { result.middle ≡ 0 }
    ensures most { result.most ≡ most }
    ensures marked { result.marked ≡ 2 }
    ensures key { result.key.items ≡ key.items }
    ensures crossings { result.crossings.items ≡ [] }
    ensures levels { result.levels.items ≡ levels.items }
    ensures highest { result.highest ≡ 0 }
    ensures strokes { result.strokes.items ≡ strokes.items }
    ensures ticks { result.ticks.items ≡ ticks.items }
    ensures across { result.across.now ≡ codes "cycle" }
    ensures stroke_title { result.stroke_title.now ≡ codes "combined" }
    ensures notes { result.notes.items ≡ notes.items }
{
    CellMap {
        title: Label::from_string(title),
        across: "cycle",
        ticks,
        groups,
        middle: 0,
        most,
        marked: 2,
        key,
        crossings: Vec::new(alloc),
        levels,
        level_title: "",
        highest: 0,
        strokes,
        stroke_title: "combined",
        notes,
    }
}

/// Where a reference of a file's run was at each cycle, as an SVG document: time to the right, and a row for each component that
/// held its message, with a bar for each span. Bars of another reference's message have a shade of their own, a light line, and a
/// stroke below for each cycle.
///
/// # Errors
///
/// Where a growth was refused. What was taken is given back.
pub fn trace_picture(
    alloc: Global,
    shape: Shape,
    name: &str,
    tag: Tag,
    spans: &[Span],
) -> Result<String, AllocError>
    ensures { IfOk result (λ text. IsTracePicture shape name.now tag spans.now (string_bytes text)) }
{
    let carriers = carriers_of(alloc, tag, spans)?;
    let carriers = carriers.as_slice();
    let places = places_of(alloc, spans)?;
    let most = most_of(carriers);
    let title = trace_title(alloc, tag)?;
    let ticks = ticks_of(alloc, spans)?;
    let groups = groups_of(alloc, shape, carriers, spans, places.as_slice())?;
    let key = keys_of(alloc, tag, carriers)?;
    let levels = levels_of(alloc, columns_of(spans))?;
    let strokes = strokes_of(alloc, tag, spans)?;
    let notes = notes_of(alloc, name, spans)?;
    let map = map_of(
        alloc, title, most, ticks, groups, key, levels, strokes, notes,
    );
    draw_map(alloc, &map)
}
