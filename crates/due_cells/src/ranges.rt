//! The cells of the components that change.
ghost use Rattle.std.specs.Prelude.{◌≡◌, ℕ, ◌+◌, ◌*◌, ◌<◌, ◌≤◌, ◌&&◌, nat_le, nat_lt, OnOk, All, length, vec_capacity, vec_len};
ghost use Rattle.cell_states.specs.Filling.{is_awake};
ghost use Rattle.due_cells.specs.Ranges.{is_marked, IsWithin};

use cell_marks::Row;
use cell_states::CellRange;
use grid_law::NoMemory;

/// The cells of the components that change, at the cycles from one on to before another, in the place of what was in the
/// list.
pub fn ranges_of(
    changes: &Row,
    from: u32,
    to: u32,
    ranges: &mut Vec<CellRange>,
) -> Result<(), NoMemory>
    requires { from ≤ to }
    ensures within { OnOk result (All (IsWithin to (length changes.now)) ranges.new.items) }
    ensures marked { OnOk result ((t c : ℕ) → is_marked ranges.new.items t c ≡ (is_awake changes.now c && (nat_le from t && nat_lt t to))) }
{
    make_room(ranges, changes.len())?;
    ranges_in(changes, from, to, ranges);
    Ok(())
}

/// Makes room for a range of each of so many components, in the place of what was in the list.
pub fn make_room(ranges: &mut Vec<CellRange>, count: u32) -> Result<(), NoMemory>
    ensures { OnOk result (count ≤ vec_capacity ranges.new) }
{
    ranges.clear();
    ranges.reserve(count as usize)?;
    Ok(())
}

/// The same as `ranges_of`, where there is room. It takes no memory.
pub fn ranges_in(changes: &Row, from: u32, to: u32, ranges: &mut Vec<CellRange>)
    requires order { from ≤ to }
    requires room { length changes.now ≤ vec_capacity ranges.old }
    ensures within { All (IsWithin to (length changes.now)) ranges.new.items }
    ensures marked { (t c : ℕ) → is_marked ranges.new.items t c ≡ (is_awake changes.now c && (nat_le from t && nat_lt t to)) }
{
    ranges.clear();
    for word in 0..changes.len().div_ceil(64) {
        add_word(changes, word, from, to, ranges);
    }
}

/// Adds those cells of the components of one word of 64, where those of the words before it are in the list.
#[inline(always)]
fn add_word(changes: &Row, word: u32, from: u32, to: u32, ranges: &mut Vec<CellRange>)
    requires word { 64 * word < length changes.now }
    requires order { from ≤ to }
    requires room { vec_len ranges.old + length changes.now ≤ vec_capacity ranges.old + 64 * word }
    requires within { All (IsWithin to (length changes.now)) ranges.old.items }
    requires marked { (t c : ℕ) → is_marked ranges.old.items t c ≡ ((is_awake changes.now c && nat_lt c (64 * word)) && (nat_le from t && nat_lt t to)) }
    ensures room { vec_len ranges.new + length changes.now ≤ vec_capacity ranges.new + 64 * word + 64 }
    ensures within { All (IsWithin to (length changes.now)) ranges.new.items }
    ensures marked { (t c : ℕ) → is_marked ranges.new.items t c ≡ ((is_awake changes.now c && nat_lt c (64 * word + 64)) && (nat_le from t && nat_lt t to)) }
{
    let count = changes.len();
    let mut rest = changes.word(word as usize);
    while rest != 0 {
        let component = 64 * word + rest.trailing_zeros();
        // No component is left.
        if component >= count {
            return;
        }
        ranges.push_reserved(CellRange {
            component,
            from,
            to,
        });
        rest &= rest - 1;
    }
}
