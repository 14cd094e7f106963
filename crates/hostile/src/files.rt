//! Project files that are cut, damaged, or end otherwise than they began.
use crate::reading::Pieces;
use crate::sessions::BASE;
use command_line::{MOST_BYTES, read_bytes};
use project_file::{fault_place, read_project};
use std::alloc::Global;
use std::io::{Read, Result};

/// The number of a file's fault, 0 where it is accepted.
fn number_of(alloc: Global, bytes: &[u8]) -> u8 {
    match read_project(alloc, bytes) {
        Ok(_) => 0,
        Err(fault) => fault.number(),
    }
}

/// Whether a file has a fault of this number, and that its place can be looked for.
fn is_refused(alloc: Global, bytes: &[u8], number: u8) -> bool {
    number_of(alloc, bytes) == number && fault_place(alloc, bytes).is_ok()
}

/// What the base project's file is, cut after none of its bytes, after one, and so on: the number of its fault, 0 where it is
/// accepted. They were worked out by another reader of TOML and of the rules of `docs/PROJECT_FILE.md`.
const CUT: &[u8] = b"\
32222222225522225522222222220002222222220022222222222222220022222220022222222222\
22200222222222222220022222222222222200222222222222222002222222220022222220022222\
22552222222225522222222255222222200222222255222222222552222222225522222220022222\
22552222222222552222222200022222222255222222222222552222222222200222222222552222\
22222222552222222222200";

/// A file of format 3 with the short forms of scripts, and with scripts that are drawn.
const LARGE: &str = "format = 3
k = 2
horizon = 5000
window = 8
[[script]]
processors = [0]
entries = [\"plain load 0 0 9 step 4\", { repeat = 2, entries = [\"fence\", \"idle 7\"] }]
[[script]]
processors = \"3..3\"
entries = []
[[traffic]]
processors = \"1..2\"
rate = 0.45
hot = 4
word = 0
page = 63
references = 9
seed = 20
";

/// What that file is, cut in the same way.
const LARGE_CUT: &[u8] = b"\
32222222225522225522222222220000022222222200222222222552222222222222225522222222\
22222222222222222222222222222222222222222222222222222222222222222222222222200222\
22222255222222222222222222552222222222200222222222255222222222222222222552222222\
725552222225522222225522222225552222222222222552222222000";

/// Cut after each of its bytes.
pub(crate) fn cut(alloc: Global) -> Option<u32> {
    all_cut(alloc, BASE.as_bytes(), CUT)
}

/// The file of format 3, cut after each of its bytes.
pub(crate) fn large_cut(alloc: Global) -> Option<u32> {
    all_cut(alloc, LARGE.as_bytes(), LARGE_CUT)
}

/// A file that is cut after each of its bytes has the faults of these numbers.
fn all_cut(alloc: Global, file: &[u8], numbers: &[u8]) -> Option<u32> {
    if numbers.len() != file.len().saturating_add(1) {
        return None;
    }
    let mut held = 0u32;
    for (length, digit) in numbers.iter().enumerate() {
        let front = file.split_at(length.min(file.len())).0;
        if !is_refused(alloc, front, digit.wrapping_sub(b'0')) {
            return None;
        }
        held = held.saturating_add(1);
    }
    Some(held)
}

/// Each byte of both at 0, which no TOML document has, and at 255, which no UTF-8 has.
pub(crate) fn damaged(alloc: Global) -> Option<u32> {
    let mut held = 0u32;
    for file in [BASE.as_bytes(), LARGE.as_bytes()] {
        held = held.saturating_add(all_damaged(alloc, file)?);
    }
    Some(held)
}

fn all_damaged(alloc: Global, file: &[u8]) -> Option<u32> {
    let mut held = 0u32;
    for place in 0..file.len() {
        if !is_refused_with(alloc, file, place, 0)? || !is_refused_with(alloc, file, place, 255)? {
            return None;
        }
        held = held.saturating_add(2);
    }
    Some(held)
}

/// Whether a file with this byte at a place is no document.
fn is_refused_with(alloc: Global, file: &[u8], place: usize, byte: u8) -> Option<bool> {
    let Ok(mut bytes) = Vec::from_slice(alloc, file) else {
        return None;
    };
    if let Some(at) = bytes.get_mut(place) {
        *at = byte;
    }
    Some(is_refused(alloc, &bytes, 2))
}

/// The shortest project, before a key that isn't known.
const SMALL: &str = "format = 1\nk = 0\nhorizon = 0\n";

/// The same with the key.
const KEY: &str = "format = 1\nk = 0\nhorizon = 0\na = ";

/// What stands before something nested, what opens it, what it holds, and what closes it.
type Nested = (&'static str, &'static str, &'static str, &'static str);

/// Files with something nested so many times, and the number of the file's fault. Of keys, tables and arrays in one another 80
/// are read, and then the key isn't known.
const NESTED: &[(Nested, u32, u8)] = &[
    (("", "[", "", ""), 100_000, 2),
    (("", "{", "", ""), 100_000, 2),
    (("", "\"", "", ""), 100_000, 2),
    (("", "a.", "", ""), 100_000, 2),
    ((KEY, "[", "", "]"), 100_000, 2),
    ((KEY, "{a = ", "1", "}"), 100_000, 2),
    ((KEY, "[", "", "]"), 1_000, 2),
    ((KEY, "[", "", "]"), 80, 4),
    ((KEY, "{a = ", "1", "}"), 1_000, 2),
    ((KEY, "{a = ", "1", "}"), 70, 4),
    ((SMALL, "a.", "a = 1", ""), 1_000, 2),
    ((SMALL, "a.", "a = 1", ""), 79, 4),
    (("[", "a.", "a]", ""), 1_000, 2),
    (("[", "a.", "a]", ""), 79, 3),
    (("[[", "a.", "a]]", ""), 1_000, 2),
];

/// Adds a piece so many times.
fn add(text: &mut String, piece: &str, times: u32) -> Option<()> {
    for _ in 0..times {
        if text.push_str(piece).is_err() {
            return None;
        }
    }
    Some(())
}

/// The text of such a file.
fn nested(alloc: Global, (front, opens, holds, closes): Nested, times: u32) -> Option<String> {
    let mut text = String::new(alloc);
    add(&mut text, front, 1)?;
    add(&mut text, opens, times)?;
    add(&mut text, holds, 1)?;
    add(&mut text, closes, times)?;
    Some(text)
}

/// A byte that no UTF-8 has, and files with something nested.
pub(crate) fn deep(alloc: Global) -> Option<u32> {
    let mut held = 0u32;
    for (kind, times, number) in NESTED {
        let text = nested(alloc, *kind, *times)?;
        if !is_refused(alloc, text.as_bytes(), *number) {
            return None;
        }
        held = held.saturating_add(1);
    }
    if is_refused(alloc, &[255], 2) {
        Some(held.saturating_add(1))
    } else {
        None
    }
}

/// A reader that fails at each of its calls in turn, of pieces of three lengths.
pub(crate) fn failing(alloc: Global) -> Option<u32> {
    let mut held = 0u32;
    for most in [1, 7, 4_096] {
        held = held.saturating_add(failing_pieces(alloc, most)?);
    }
    Some(held)
}

/// Whether the whole file is read, or nothing.
fn is_read(alloc: Global, reader: Pieces, is_whole: bool) -> bool {
    match read_bytes(alloc, reader) {
        Ok(bytes) => is_whole && bytes.as_slice() == BASE.as_bytes(),
        Err(_) => !is_whole,
    }
}

fn failing_pieces(alloc: Global, most: usize) -> Option<u32> {
    if most == 0 {
        return None;
    }
    let file = BASE.as_bytes();
    let pieces = file.len().div_ceil(most);
    let mut held = 0u32;
    for calls in 0..file.len() + 2 {
        let is_whole = calls > pieces;
        if !is_read(alloc, Pieces::new(file, most, calls), is_whole) {
            return None;
        }
        held = held.saturating_add(1);
        if is_whole {
            return Some(held);
        }
    }
    None
}

/// Gives spaces without an end.
#[derive(Drop)]
struct Endless;

impl Read for Endless {
    fn read(&mut self, buf: &mut [u8]) -> Result<usize> {
        buf.fill(b' ');
        Ok(buf.len())
    }
}

/// One that grows for as long as it is read: one byte more than a file may have is read, and it is too long.
pub(crate) fn growing(alloc: Global) -> Option<u32> {
    let bytes = read_bytes(alloc, Endless).ok()?;
    let is_cut = bytes.len() as u64 == MOST_BYTES;
    if is_cut && number_of(alloc, &bytes) == 1 {
        Some(1)
    } else {
        None
    }
}
