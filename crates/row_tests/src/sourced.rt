//! Rows that are put from a source, and how changes are found over many rows.
ghost use Rattle.std.specs.Prelude.{◌≡◌, ℕ, ◌-◌, ◌<◌, [], true, false, not, unwrap_or};
ghost use Rattle.change_rows.specs.Cells.{found};
ghost use Rattle.change_rows.specs.Marks.{is_in};
ghost use Rattle.change_rows.specs.Rows.{words_at};

use crate::rows::{Plain, WIDTH, blank_rows, grow, is_alike, is_member, push, put, words};
use change_rows::{Cells, Rows, Source};
use expect::{equal, equal_at};
use std::alloc::{AllocError, Global};
use std::process::Abort;
use std::test::Fail;

/// Words of components, and the set of those that aren't known to hold what they hold a cycle before.
#[derive(Drop)]
struct Given {
    own: Cells,
    moved: Vec<u64>,
}

impl Source for Given {
    ghost has = { λ g c. Unit {0} };

    ghost words = { λ g c. unwrap_or (found g.own c) [] };

    ghost still = { λ g c. not (is_in g.moved.items c) };

    fn moved(&self, w: usize) -> u64 {
        match self.moved.get(w) {
            Some(word) => *word,
            None => 0,
        }
    }

    fn first(&self, c: u32) -> u64 {
        match self.own.words_of(c).first() {
            Some(word) => *word,
            None => 0,
        }
    }

    fn write(&self, c: u32, buffer: &mut Vec<u64>) -> Result<(), AllocError> {
        match buffer.extend_from_slice(self.own.words_of(c)) {
            Ok(()) => Ok(()),
            Err(e) => Err(e),
        }
    }
}

/// What is done to a table: a row that holds no words is filled, or the components of a set are put in it; with the words of
/// this number, and those components still.
#[derive(Clone, Copy, Debug)]
enum Step {
    Fill(u32, u64, &'static [u32]),
    Put(u32, &'static [u64], u64, &'static [u32]),
}

const ALL: u64 = 18446744073709551615;

/// Rows filled one after another, the last one too; rows put one after another, with components that are still where something
/// began and where nothing did; the same words again; some components; bits behind the last component; the first row and the last. Then
/// components that are still from row to row, and again while they hold other words, some of which move or aren't put in between.
const STORY: [Step; 21] = [
    Step::Fill(0, 1, &[]),
    Step::Fill(1, 2, &[0, 64, 129]),
    Step::Fill(2, 3, &[]),
    Step::Fill(5, 3, &[]),
    Step::Put(2, &[ALL, ALL, 3], 4, &[1, 2, 64]),
    Step::Put(3, &[ALL, ALL, 3], 5, &[0, 1, 128]),
    Step::Put(3, &[ALL, ALL, 3], 5, &[0, 1, 128]),
    Step::Put(1, &[3, 1, 2], 6, &[1]),
    Step::Put(2, &[7, 1, 3], 6, &[0, 1, 2, 64, 129]),
    Step::Put(5, &[ALL, ALL, ALL], 7, &[]),
    Step::Put(0, &[ALL, 0, 18446744073709551614], 8, &[]),
    Step::Put(4, &[0, 0, 0], 9, &[]),
    Step::Put(1, &[ALL, ALL, 3], 10, &[]),
    Step::Put(2, &[ALL, ALL, 3], 10, &[5, 6, 70]),
    Step::Put(3, &[ALL, ALL, 3], 12, &[5, 6, 70]),
    Step::Put(4, &[ALL, ALL, 3], 13, &[5, 6, 70]),
    Step::Put(1, &[ALL, ALL, 3], 11, &[]),
    Step::Put(2, &[ALL, ALL, 3], 11, &[5, 6, 70, 129]),
    Step::Put(3, &[ALL - 64, ALL, 3], 14, &[5, 7, 70]),
    Step::Put(4, &[ALL, ALL, 1], 11, &[5, 6, 70, 128]),
    Step::Put(5, &[ALL, ALL, 3], 11, &[5, 71]),
];

/// A source at row t: a component that is still has the words of the row before.
fn given_of(
    alloc: Global,
    plain: &Plain,
    t: u32,
    number: u64,
    still: &[u32],
) -> Result<Given, Fail> {
    let mut given = Given {
        own: Cells::new(alloc),
        moved: vec![in alloc; ALL; 3]?,
    };
    for c in still {
        match given.moved.get_mut(*c as usize / 64) {
            Some(word) => *word &= !(1 << (*c % 64)),
            None => {}
        }
    }
    for c in 0..WIDTH {
        if t > 0 && !has_moved(&given, c) {
            push(&mut given.own, c, plain.words(t - 1, c))?;
        } else {
            push(&mut given.own, c, &words(alloc, c, number)?)?;
        }
    }
    Ok(given)
}

/// Whether a component isn't known to hold what it holds a cycle before.
fn has_moved(given: &Given, c: u32) -> bool
    ensures { result ≡ is_in given.now.moved.items c }
{
    match given.moved.get(c as usize / 64) {
        Some(word) => (*word >> (c % 64)) & 1 == 1,
        None => false,
    }
}

/// Whether a component is not still, or a source has the words that it holds in the row before.
fn is_kept(rows: &Rows, t: u32, given: &Given, c: u32) -> bool
    ensures { result ≡ true → is_in given.now.moved.items c ≡ false → (0 < t) × (unwrap_or (found given.now.own c) [] ≡ words_at rows.now.rows (t - 1) c) }
{
    if has_moved(given, c) {
        return true;
    }
    t > 0 && given.own.words_of(c) == rows.words(t - 1, c)
}

fn are_kept(rows: &Rows, t: u32, given: &Given) -> bool
    ensures { result ≡ true → (c : ℕ) → c < rows.now.width → is_in given.now.moved.items c ≡ false → (0 < t) × (unwrap_or (found given.now.own c) [] ≡ words_at rows.now.rows (t - 1) c) }
{
    for c in 0..rows.width() {
        if !is_kept(rows, t, given, c) {
            return false;
        }
    }
    true
}

/// Whether a row holds no words.
fn is_blank(rows: &Rows, t: u32) -> bool
    ensures { result ≡ true → (c : ℕ) → c < rows.now.width → words_at rows.now.rows t c ≡ [] }
{
    for c in 0..rows.width() {
        if !rows.words(t, c).is_empty() {
            return false;
        }
    }
    true
}

fn fill(rows: &mut Rows, t: u32, given: &Given) -> Result<(), Fail> {
    if t >= rows.len() || !is_blank(rows, t) || !are_kept(rows, t, given) {
        return Err(Fail::from("no such row"));
    }
    rows.fill(t, given)?;
    Ok(())
}

fn put_from(
    rows: &mut Rows,
    t: u32,
    set: &[u64],
    given: &Given,
    changed: &mut [u64],
) -> Result<(), Fail> {
    if t >= rows.len() || set.len() != changed.len() || !are_kept(rows, t, given) {
        return Err(Fail::from("no such cells"));
    }
    rows.put_from(t, set, given, changed)?;
    Ok(())
}

/// The same cell by cell: whether a component that is put held other words.
fn put_plain(
    alloc: Global,
    plain: &mut Plain,
    t: u32,
    c: u32,
    given: &Given,
) -> Result<bool, Fail> {
    let other = plain.words(t, c) != given.own.words_of(c);
    plain.put(t, c, Vec::from_slice(alloc, given.own.words_of(c))?);
    Ok(other)
}

fn play_fill(
    alloc: Global,
    rows: &mut Rows,
    plain: &mut Plain,
    t: u32,
    given: &Given,
) -> Result<(), Fail> {
    fill(rows, t, given)?;
    for c in 0..WIDTH {
        put_plain(alloc, plain, t, c, given)?;
    }
    Ok(())
}

/// The same of a component that may be none of the set.
fn put_member(
    alloc: Global,
    plain: &mut Plain,
    t: u32,
    set: &[u64],
    c: u32,
    given: &Given,
) -> Result<bool, Fail> {
    if c >= WIDTH || !is_member(set, c) {
        return Ok(false);
    }
    put_plain(alloc, plain, t, c, given)
}

fn play_put(
    rt: &(impl Abort + Eprint),
    alloc: Global,
    rows: &mut Rows,
    plain: &mut Plain,
    t: u32,
    set: &[u64],
    given: &Given,
) -> Result<(), Fail> {
    let mut changed = [9; 3];
    put_from(rows, t, set, given, &mut changed)?;
    for c in 0..192 {
        let other = put_member(alloc, plain, t, set, c, given)?;
        assert!(rt; equal_at(rt, (t, c), is_member(&changed, c), other));
    }
    Ok(())
}

fn play(
    rt: &(impl Abort + Eprint),
    alloc: Global,
    rows: &mut Rows,
    plain: &mut Plain,
    step: Step,
) -> Result<(), Fail> {
    match step {
        Step::Fill(t, number, still) => {
            let given = given_of(alloc, plain, t, number, still)?;
            play_fill(alloc, rows, plain, t, &given)
        }
        Step::Put(t, set, number, still) => {
            let given = given_of(alloc, plain, t, number, still)?;
            play_put(rt, alloc, rows, plain, t, set, &given)
        }
    }
}

fn compare(rt: &(impl Abort + Eprint), rows: &Rows, plain: &Plain, step: Step) {
    for t in 0..6 {
        for c in 0..WIDTH {
            assert!(rt; equal_at(rt, (step, t, c), is_alike(rows, plain, t, c), true));
            assert!(rt; equal_at(rt, (step, t, c), is_told(rows, plain, t, c), true));
        }
    }
}

/// Whether what a word of marks and a search tell of a cell is so.
fn is_told(rows: &Rows, plain: &Plain, t: u32, c: u32) -> bool {
    let same = t > 0 && plain.words(t, c) == plain.words(t - 1, c);
    let marked = (rows.begin_word(t, c as usize / 64) >> (c % 64)) % 2 == 1;
    (marked || same) && (rows.next_of(t, 6, c) == t || same)
}

#[test]
fn sourced_rows_are_as_cell_by_cell(rt: HostRuntime) -> Result<(), Fail> {
    let mut rows = Rows::new(rt.alloc(), WIDTH)?;
    let mut plain = blank_rows(rt.alloc(), 6)?;
    grow(rt.alloc(), &mut rows, 6)?;
    for step in &STORY {
        play(&rt, rt.alloc(), &mut rows, &mut plain, *step)?;
        compare(&rt, &rows, &plain, *step);
    }
    Ok(())
}

/// Component 5 holds words at row 150 alone, component 129 at row 70, in blocks of which most rows are quiet.
#[test]
fn changes_are_found_behind_quiet_rows(rt: HostRuntime) -> Result<(), Fail> {
    let alloc = rt.alloc();
    let mut rows = Rows::new(alloc, WIDTH)?;
    grow(alloc, &mut rows, 400)?;
    let mut draft = Cells::new(alloc);
    push(&mut draft, 129, &[1])?;
    put(alloc, &mut rows, 70, &draft)?;
    draft.clear();
    push(&mut draft, 5, &[2])?;
    put(alloc, &mut rows, 150, &draft)?;
    told(&rt, &rows);
    Ok(())
}

fn told(rt: &(impl Abort + Eprint), rows: &Rows) {
    assert!(rt; equal(rt, rows.next_of(1, 400, 5), 150));
    assert!(rt; equal(rt, rows.next_of(151, 400, 5), 151));
    assert!(rt; equal(rt, rows.next_of(152, 400, 5), 400));
    assert!(rt; equal(rt, rows.next_of(1, 100, 5), 100));
    assert!(rt; equal(rt, rows.next_change(1, 400, &[32, 0, 2]), 70));
    assert!(rt; equal(rt, rows.next_change(72, 400, &[32, 0, 2]), 150));
    assert!(rt; equal(rt, rows.next_change(72, 400, &[31, 0, 2]), 400));
    assert!(rt; equal(rt, rows.begin_word(150, 0), 32));
    assert!(rt; equal(rt, rows.begin_word(151, 0), 32));
    assert!(rt; equal(rt, rows.begin_word(152, 0), 0));
    assert!(rt; equal(rt, rows.begin_word(71, 2), 2));
}
