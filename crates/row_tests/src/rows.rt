use change_rows::{Cells, Rows};
use expect::{equal, equal_at};
use std::alloc::Global;
use std::process::Abort;
use std::test::Fail;

/// Components of these tables: three words of marks.
pub(crate) const WIDTH: u32 = 130;

/// What is done to a table.
#[derive(Clone, Copy, Debug)]
enum Step {
    Grow(u32),
    Truncate(u32),
    /// Cells of these components in this row, with the words of this number.
    Put(u32, &'static [u32], u64),
    /// The components of this set, from this row on to before that one.
    Repeat(u32, u32, &'static [u64]),
}

/// Rows one after another, the same ones again, a row in the middle, a row before and behind the one that was put
/// last, the last row, words that are equal to those before, components of which a row has some, fewer rows and more,
/// and runs: of one row, up to the last row, where cells begin and where none do.
const STORY: [Step; 28] = [
    Step::Grow(1),
    Step::Put(0, &[0, 63, 64, 129], 1),
    Step::Grow(5),
    Step::Put(1, &[0, 63, 64, 129], 2),
    Step::Put(2, &[0, 63, 64, 129], 3),
    Step::Put(3, &[0, 1, 64], 4),
    Step::Put(4, &[1, 2, 129], 4),
    Step::Repeat(3, 4, &[3]),
    Step::Put(2, &[0, 1, 2, 65], 5),
    Step::Put(3, &[0, 1, 2, 65], 5),
    Step::Put(1, &[63], 6),
    Step::Put(1, &[63, 65], 7),
    Step::Repeat(2, 5, &[1, 3, 2]),
    Step::Put(2, &[], 8),
    Step::Put(3, &[65, 128], 9),
    Step::Put(5, &[0, 64, 65], 10),
    Step::Put(0, &[1, 128], 11),
    Step::Truncate(4),
    Step::Repeat(1, 4, &[18446744073709551615, 1]),
    Step::Put(3, &[0, 1, 2], 12),
    Step::Put(2, &[0, 128, 129], 13),
    Step::Truncate(3),
    Step::Grow(2),
    Step::Put(3, &[0, 1, 128, 129], 14),
    Step::Repeat(4, 5, &[2, 0, 3]),
    Step::Put(2, &[128], 15),
    Step::Repeat(3, 4, &[0, 0, 1]),
    Step::Truncate(0),
];

/// Component 0 changes at cycle 2, 3 and 5, component 129 at 4 and 5.
const CHANGES: [Step; 5] = [
    Step::Grow(7),
    Step::Put(2, &[0], 1),
    Step::Put(4, &[129], 1),
    Step::Put(5, &[0], 2),
    Step::Put(0, &[], 0),
];

/// The words of a component at a step: up to three.
pub(crate) fn words(alloc: Global, c: u32, number: u64) -> Result<Vec<u64>, Fail> {
    let mut words = Vec::new(alloc);
    let count = (u64::from(c) + number % 100) % 4;
    for k in 0..count {
        words.push((number % 100) * 1000 + u64::from(c) * 4 + k)?;
    }
    Ok(words)
}

/// A table kept cell by cell.
#[derive(Drop)]
pub(crate) struct Plain {
    rows: Vec<Vec<Vec<u64>>>,
}

impl Plain {
    pub(crate) fn words(&self, t: u32, c: u32) -> &[u64] {
        match self.rows.get(t as usize) {
            Some(row) => words_of(row, c),
            None => &[],
        }
    }

    pub(crate) fn put(&mut self, t: u32, c: u32, words: Vec<u64>) {
        if let Some(row) = self.rows.get_mut(t as usize) {
            put_in(row, c, words);
        }
    }

    fn grow(&mut self, alloc: Global, m: u32) -> Result<(), Fail> {
        for _t in 0..m {
            self.rows.push(blank(alloc)?)?;
        }
        Ok(())
    }

    fn truncate(&mut self, n: u32) {
        self.rows.truncate(n as usize);
    }

    fn repeat(&mut self, alloc: Global, t: u32, set: &[u64]) -> Result<(), Fail> {
        for c in 0..WIDTH {
            if is_member(set, c) {
                let again = Vec::from_slice(alloc, self.words(t.saturating_sub(1), c))?;
                self.put(t, c, again);
            }
        }
        Ok(())
    }
}

pub(crate) fn is_member(set: &[u64], c: u32) -> bool {
    match set.get(c as usize / 64) {
        Some(word) => (*word >> (c % 64)) % 2 == 1,
        None => false,
    }
}

fn words_of(row: &Vec<Vec<u64>>, c: u32) -> &[u64] {
    match row.get(c as usize) {
        Some(words) => words.as_slice(),
        None => &[],
    }
}

fn put_in(row: &mut Vec<Vec<u64>>, c: u32, words: Vec<u64>) {
    if let Some(cell) = row.get_mut(c as usize) {
        *cell = words;
    }
}

fn blank(alloc: Global) -> Result<Vec<Vec<u64>>, Fail> {
    let mut row = Vec::new(alloc);
    for _c in 0..WIDTH {
        row.push(Vec::new(alloc))?;
    }
    Ok(row)
}

/// A table of n rows without words.
pub(crate) fn blank_rows(alloc: Global, n: u32) -> Result<Plain, Fail> {
    let mut plain = Plain {
        rows: Vec::new(alloc),
    };
    plain.grow(alloc, n)?;
    Ok(plain)
}

fn draft_of(alloc: Global, components: &[u32], number: u64) -> Result<Cells, Fail> {
    let mut draft = Cells::new(alloc);
    for c in components {
        push(&mut draft, *c, &words(alloc, *c, number)?)?;
    }
    Ok(draft)
}

pub(crate) fn push(draft: &mut Cells, c: u32, words: &[u64]) -> Result<(), Fail> {
    if draft.end() > u64::from(c) {
        return Err(Fail::from("the components of a draft ascend"));
    }
    draft.push(c, words)?;
    Ok(())
}

pub(crate) fn put(alloc: Global, rows: &mut Rows, t: u32, draft: &Cells) -> Result<(), Fail> {
    if t >= rows.len() || draft.end() > u64::from(rows.width()) {
        return Err(Fail::from("no such cells"));
    }
    rows.put_row(alloc, t, draft)?;
    Ok(())
}

pub(crate) fn grow(alloc: Global, rows: &mut Rows, m: u32) -> Result<(), Fail> {
    if u64::from(rows.len()) + u64::from(m) > u64::from(u32::MAX) {
        return Err(Fail::from("too many rows"));
    }
    rows.grow(alloc, m)?;
    Ok(())
}

fn repeat(alloc: Global, rows: &mut Rows, from: u32, to: u32, set: &[u64]) -> Result<(), Fail> {
    if from == 0 || from >= to || to > rows.len() {
        return Err(Fail::from("no such rows"));
    }
    rows.repeat(alloc, from, to, set)?;
    Ok(())
}

fn play(alloc: Global, rows: &mut Rows, step: Step) -> Result<(), Fail> {
    match step {
        Step::Grow(m) => grow(alloc, rows, m),
        Step::Truncate(n) => {
            rows.truncate(n);
            Ok(())
        }
        Step::Put(t, components, number) => {
            put(alloc, rows, t, &draft_of(alloc, components, number)?)
        }
        Step::Repeat(from, to, set) => repeat(alloc, rows, from, to, set),
    }
}

fn play_plain(alloc: Global, plain: &mut Plain, step: Step) -> Result<(), Fail> {
    match step {
        Step::Grow(m) => plain.grow(alloc, m),
        Step::Truncate(n) => {
            plain.truncate(n);
            Ok(())
        }
        Step::Put(t, components, number) => {
            for c in components {
                plain.put(t, *c, words(alloc, *c, number)?);
            }
            Ok(())
        }
        Step::Repeat(from, to, set) => {
            for t in from..to {
                plain.repeat(alloc, t, set)?;
            }
            Ok(())
        }
    }
}

/// Whether a cell is as in the plain table, and goes on where it is said.
pub(crate) fn is_alike(rows: &Rows, plain: &Plain, t: u32, c: u32) -> bool {
    let wanted = plain.words(t, c);
    rows.words(t, c) == wanted
        && (rows.begins(t, c) || plain.words(t.saturating_sub(1), c) == wanted)
}

fn compare(rt: &(impl Abort + Eprint), rows: &Rows, plain: &Plain, step: Step) {
    for t in 0..8 {
        for c in 0..WIDTH + 2 {
            assert!(rt; equal_at(rt, (step, t, c), is_alike(rows, plain, t, c), true));
        }
    }
}

#[test]
fn rows_are_as_cell_by_cell(rt: HostRuntime) -> Result<(), Fail> {
    let alloc = rt.alloc();
    let mut rows = Rows::new(alloc, WIDTH)?;
    let mut plain = Plain {
        rows: Vec::new(alloc),
    };
    for step in &STORY {
        play(alloc, &mut rows, *step)?;
        play_plain(alloc, &mut plain, *step)?;
        compare(&rt, &rows, &plain, *step);
    }
    Ok(())
}

/// The same where a draft is made word by word.
#[test]
fn a_draft_is_made_word_by_word(rt: HostRuntime) -> Result<(), Fail> {
    let mut draft = Cells::new(rt.alloc());
    draft.begin(3)?;
    if draft.len() > 0 {
        draft.extend(&[7])?;
    }
    if draft.len() > 0 {
        draft.extend(&[8, 9])?;
    }
    assert!(&rt; equal(&rt, draft.words_of(3), [7, 8, 9].as_slice()));
    assert!(&rt; equal(&rt, draft.has(2), false));
    Ok(())
}

#[test]
fn next_change_is_found(rt: HostRuntime) -> Result<(), Fail> {
    let alloc = rt.alloc();
    let mut rows = Rows::new(alloc, WIDTH)?;
    for step in &CHANGES {
        play(alloc, &mut rows, *step)?;
    }
    told(&rt, &rows);
    Ok(())
}

fn told(rt: &(impl Abort + Eprint), rows: &Rows) {
    assert!(rt; equal(rt, rows.next_change(1, 7, &[1, 0, 0]), 2));
    assert!(rt; equal(rt, rows.next_change(4, 7, &[1]), 5));
    assert!(rt; equal(rt, rows.next_change(4, 7, &[0, 0, 2]), 4));
    assert!(rt; equal(rt, rows.next_change(6, 7, &[0, 0, 2]), 7));
}
