//! Cells of one row put together from those of two.
ghost use Rattle.std.specs.Prelude.{◌≡◌, ℕ, ◌+◌, ◌<◌, ◌≤◌, ◌^◌, ◌↔◌, max, [], List, None, true, cond, is_some, IsTrue, IfOk, OnOk, length, take, unwrap_or};
ghost use Rattle.std.specs.Option.{option_or, option_copied};
ghost use Rattle.change_rows.specs.Cells.{found, end_of, component_at, IsAscending, IsSplit};

use crate::cells::Cells;
use std::alloc::AllocError;

/// How many cells are below a component; those before a place are known to be.
pub(crate) fn seek(cells: &Cells, from: usize, c: u32) -> usize
    requires there { from ≤ length cells.now }
    requires low { end_of (take from cells.now) ≤ c }
    ensures order { from ≤ result }
    ensures split { IsSplit cells.now c result }
    ensures ascending { IsAscending cells.now }
{
    let mut i = from;
    while i < cells.len() && cells.component(i) < c {
        i += 1;
    }
    i
}

/// Whether the cell at a place is one of c.
pub(crate) fn is_at(cells: &Cells, place: usize, c: u32) -> bool
    ensures is { IsTrue result ↔ ((place < length cells.now) × (component_at cells.now place ≡ c)) }
    ensures len { length cells.now < 2 ^ 64 }
    ensures ascending { IsAscending cells.now }
{
    place < cells.len() && cells.component(place) == c
}

/// The words of a component whose place is known; others where there is no cell of it.
pub(crate) fn words_or<'a>(cells: &'a Cells, place: usize, c: u32, others: &'a [u64]) -> &'a [u64]
    requires { IsSplit cells.now c place }
    ensures { result.now ≡ unwrap_or (found cells.now c) others.now }
{
    if is_at(cells, place, c) {
        cells.words(place)
    } else {
        others
    }
}

/// How many cells are below a component or of it, where it is known how many are below it.
pub(crate) fn behind(cells: &Cells, place: usize, c: u32) -> usize
    requires { IsSplit cells.now c place }
    ensures there { result ≤ length cells.now }
    ensures low { end_of (take result cells.now) ≤ c + 1 }
    ensures high { result < length cells.now → c < component_at cells.now result }
    ensures here { found (take result cells.now) c ≡ found cells.now c }
    ensures others { (d : ℕ) → (d ≡ c → ⊥) → found (take result cells.now) d ≡ found (take place cells.now) d }
{
    if is_at(cells, place, c) {
        place + 1
    } else {
        place
    }
}

/// The cells of both; of those with one component the ones of `over`. Between two cells of `under` those of `over` are
/// copied at once.
///
/// # Errors
///
/// Where a growth was refused.
pub(crate) fn unite(over: &Cells, under: &Cells, out: &mut Cells) -> Result<(), AllocError>
    ensures found { OnOk result ((c : ℕ) → found out.new c ≡ option_or (found over.now c) (found under.now c)) }
    ensures end { OnOk result (end_of out.new ≤ max (end_of over.now) (end_of under.now)) }
{
    if over.is_empty() {
        return out.assign(under);
    }
    out.clear();
    let mut from = 0;
    for j in 0..under.len() {
        let c = under.component(j);
        let place = seek(over, from, c);
        out.append(over, from, place)?;
        out.push(c, words_or(over, place, c, under.words(j)))?;
        from = behind(over, place, c);
    }
    out.append(over, from, over.len())?;
    Ok(())
}

/// Whether the cells before a place are those below a component.
#[inline(always)]
fn is_split(cells: &Cells, place: usize, c: u32) -> bool
    requires { place ≤ length cells.now }
    ensures { result ≡ true → IsSplit cells.now c place }
{
    (place == 0 || cells.component(place - 1) < c)
        && (place == cells.len() || c <= cells.component(place))
}

/// How many cells are below a component; a guess is tried first.
#[inline(always)]
fn place_near(cells: &Cells, c: u32, guess: usize) -> usize
    ensures split { IsSplit cells.now c result }
    ensures ascending { IsAscending cells.now }
{
    let place = guess.min(cells.len());
    if is_split(cells, place, c) {
        place
    } else {
        seek(cells, 0, c)
    }
}

/// The cells of others of the components from one on and before another one, behind all cells. How many cells are below the two is
/// guessed.
///
/// # Errors
///
/// Where a growth was refused. Nothing is changed.
pub(crate) fn append_between(
    out: &mut Cells,
    others: &Cells,
    from: u32,
    to: u32,
    guess_from: usize,
    guess_to: usize,
) -> Result<(), AllocError>
    requires order { from ≤ to }
    requires ascending { end_of out.old ≤ from }
    ensures between { OnOk result ((c : ℕ) → from ≤ c → c < to → found out.new c ≡ found others.now c) }
    ensures others { OnOk result ((c : ℕ) → (from ≤ c → c < to → ⊥) → found out.new c ≡ found out.old c) }
    ensures end { OnOk result (end_of out.new ≤ to) }
{
    let begin = place_near(others, from, guess_from);
    let end = place_near(others, to, guess_to);
    out.append(others, begin, end)?;
    Ok(())
}
