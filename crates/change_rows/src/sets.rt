//! Sets of components: a bit for each, 64 in a word.
ghost use Rattle.std.specs.Prelude.{◌≡◌, ℕ, ◌/◌, ◌%◌, ◌<◌, ◌≤◌, ◌&&◌, ◌||◌, not, true, false, MatchOption, length, slice_index_or};
ghost use Rattle.std.specs.Int.{bit_at};
ghost use Rattle.change_rows.specs.Marks.{is_one, is_in};

use crate::marks::{has_bit, with_bit};

/// Whether a set has a component.
pub(crate) fn is_member(set: &[u64], c: u32) -> bool
    ensures { result ≡ is_in set.now c }
{
    match set.get(c as usize / 64) {
        Some(word) => has_bit(*word, c % 64),
        None => false,
    }
}

/// The first bit of a word that is set at or behind a place.
fn first_bit(word: u64, from: u32) -> Option<u32>
    requires { from < 64 }
    ensures { MatchOption result
        ((i : ℕ) → from ≤ i → i < 64 → bit_at word i ≡ 0)
        (λ k. (from ≤ k) × (k < 64) × (bit_at word k ≡ 1) × ((i : ℕ) → from ≤ i → i < k → bit_at word i ≡ 0)) }
{
    let rest = word & (u64::MAX << from);
    if rest == 0 {
        None
    } else {
        Some(rest.trailing_zeros())
    }
}

/// The word at a place; 0 behind the last.
pub(crate) fn word_at(set: &[u64], w: usize) -> u64
    ensures { result ≡ slice_index_or set.now w 0 }
{
    match set.get(w) {
        Some(word) => *word,
        None => 0,
    }
}

/// The first component of a set from one on and before `end`, or else `end`.
pub(crate) fn next_in(set: &[u64], from: u32, end: u32) -> u32
    requires { from ≤ end }
    ensures from { from ≤ result }
    ensures to { result ≤ end }
    ensures passed { (c : ℕ) → from ≤ c → c < result → is_in set.now c ≡ false }
    ensures there { result < end → is_in set.now result ≡ true }
{
    let mut c = from as usize;
    while c < end as usize {
        match first_bit(word_at(set, c / 64), (c % 64) as u32) {
            Some(k) => return end.min((c / 64 * 64) as u32 + k),
            None => c = (c / 64 + 1) * 64,
        }
    }
    end
}

/// Of a word's components those that only one of two sets has, and those of the first that a third one has, too.
fn other_at(one: &[u64], other: &[u64], but: &[u64], w: usize) -> u64
    ensures same { (c : ℕ) → c / 64 ≡ w → is_one result (c % 64) ≡ false → is_in one.now c ≡ is_in other.now c }
    ensures none { (c : ℕ) → c / 64 ≡ w → is_one result (c % 64) ≡ false → is_in one.now c ≡ true → is_in but.now c ≡ false }
{
    let word = word_at(one, w);
    (word ^ word_at(other, w)) | (word & word_at(but, w))
}

/// Up to where two sets have the same components from one on, none of which a third set has; at most up to `end`.
pub(crate) fn same_to(one: &[u64], other: &[u64], but: &[u64], from: u32, end: u32) -> u32
    requires { from ≤ end }
    ensures from { from ≤ result }
    ensures to { result ≤ end }
    ensures same { (c : ℕ) → from ≤ c → c < result → is_in one.now c ≡ is_in other.now c }
    ensures none { (c : ℕ) → from ≤ c → c < result → is_in one.now c ≡ true → is_in but.now c ≡ false }
{
    let mut c = from as usize;
    while c < end as usize {
        match first_bit(other_at(one, other, but, c / 64), (c % 64) as u32) {
            Some(k) => return end.min((c / 64 * 64) as u32 + k),
            None => c = c / 64 * 64 + 64,
        }
    }
    end
}

/// A component more.
pub(crate) fn add(set: &mut [u64], c: u32)
    requires { c / 64 < length set.old }
    ensures len { length set.new ≡ length set.old }
    ensures here { is_in set.new c ≡ true }
    ensures others { (d : ℕ) → (d ≡ c → ⊥) → is_in set.new d ≡ is_in set.old d }
{
    let word = with_bit(set[c as usize / 64], c % 64);
    set[c as usize / 64] = word;
}

/// No component is left.
pub(crate) fn wipe(set: &mut [u64])
    ensures len { length set.new ≡ length set.old }
    ensures none { (c : ℕ) → is_in set.new c ≡ false }
{
    for w in 0..set.len() {
        set[w] = 0;
    }
}

/// Whether there is no component.
pub(crate) fn is_void(set: &[u64]) -> bool
    ensures { result ≡ true → (c : ℕ) → is_in set.now c ≡ false }
{
    for w in 0..set.len() {
        if set[w] != 0 {
            return false;
        }
    }
    true
}

/// The components of another set instead.
pub(crate) fn copy(set: &mut [u64], other: &[u64])
    ensures len { length set.new ≡ length set.old }
    ensures members { (c : ℕ) → c / 64 < length set.old → is_in set.new c ≡ is_in other.now c }
{
    for w in 0..set.len() {
        set[w] = word_at(other, w);
    }
}

/// The components of another set in addition.
pub(crate) fn join(set: &mut [u64], other: &[u64])
    ensures len { length set.new ≡ length set.old }
    ensures members { (c : ℕ) → c / 64 < length set.old → is_in set.new c ≡ (is_in set.old c || is_in other.now c) }
{
    for w in 0..set.len() {
        set[w] |= word_at(other, w);
    }
}

/// Those components stay that another set has, too.
pub(crate) fn keep(set: &mut [u64], other: &[u64])
    ensures len { length set.new ≡ length set.old }
    ensures members { (c : ℕ) → c / 64 < length set.old → is_in set.new c ≡ (is_in set.old c && is_in other.now c) }
{
    for w in 0..set.len() {
        set[w] &= word_at(other, w);
    }
}

/// Those components stay that another set doesn't have.
pub(crate) fn remove(set: &mut [u64], other: &[u64])
    ensures len { length set.new ≡ length set.old }
    ensures members { (c : ℕ) → c / 64 < length set.old → is_in set.new c ≡ (is_in set.old c && not (is_in other.now c)) }
{
    for w in 0..set.len() {
        set[w] &= !word_at(other, w);
    }
}

/// Of the components of another set those instead that aren't in this one.
pub(crate) fn leave(set: &mut [u64], other: &[u64])
    ensures len { length set.new ≡ length set.old }
    ensures members { (c : ℕ) → c / 64 < length set.old → is_in set.new c ≡ (not (is_in set.old c) && is_in other.now c) }
{
    for w in 0..set.len() {
        set[w] = !set[w] & word_at(other, w);
    }
}
