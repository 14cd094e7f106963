//! The columns of a map: one for each cycle of a window, or for several.
ghost use Rattle.std.specs.Prelude.{◌≡◌, ◌<◌, ◌≤◌, IfOk};
ghost use Rattle.lab_tasks.specs.Columns.{any_columns, any_of, columns_in, columns_of, cycles_a_column, distance, farther, farthest_columns, farthest_of, greatest_columns, greatest_of};

use experiments::Window;
use std::alloc::{AllocError, Global};

/// The most columns that a map has.
const MOST_COLUMNS: u32 = 600;

/// How many cycles a column is of.
pub(crate) fn cycles_a_column(window: Window) -> u32
    requires window { window.from ≤ window.to }
    requires short { window.to < 1000000 }
    ensures cycles { result ≡ cycles_a_column window }
    ensures some { 0 < result }
{
    (window.to - window.from) / MOST_COLUMNS + 1
}

/// How many columns there are.
pub(crate) fn columns_in(window: Window) -> u32
    requires window { window.from ≤ window.to }
    requires short { window.to < 1000000 }
    ensures { result ≡ columns_in window }
{
    (window.to - window.from) / cycles_a_column(window) + 1
}

/// The greatest number, 0 of none.
fn greatest(numbers: &[u8]) -> u8
    ensures { result ≡ greatest_of numbers.now }
{
    let mut most: u8 = 0;
    for number in numbers {
        most = most.max(*number);
    }
    most
}

/// Whether one is so.
fn any(flags: &[bool]) -> bool
    ensures { result ≡ any_of flags.now }
{
    flags.iter().any(|flag| *flag)
}

/// The greatest number of each column.
pub(crate) fn greatest_columns(
    alloc: Global,
    window: Window,
    numbers: &[u8],
) -> Result<Vec<u8>, AllocError>
    requires window { window.from ≤ window.to }
    requires short { window.to < 1000000 }
    ensures { IfOk result (λ v. v.items ≡ greatest_columns window numbers.now) }
{
    let each = cycles_a_column(window) as usize;
    let mut columns = Vec::new(alloc);
    let mut rest = numbers;
    for column in 0..columns_in(window) {
        let end = rest.len().min(each);
        columns.push(greatest(&rest[..end]))?;
        rest = &rest[end..];
    }
    Ok(columns)
}

/// Whether one is so in each column.
pub(crate) fn any_columns(
    alloc: Global,
    window: Window,
    flags: &[bool],
) -> Result<Vec<bool>, AllocError>
    requires window { window.from ≤ window.to }
    requires short { window.to < 1000000 }
    ensures { IfOk result (λ v. v.items ≡ any_columns window flags.now) }
{
    let each = cycles_a_column(window) as usize;
    let mut columns = Vec::new(alloc);
    let mut rest = flags;
    for column in 0..columns_in(window) {
        let end = rest.len().min(each);
        columns.push(any(&rest[..end]))?;
        rest = &rest[end..];
    }
    Ok(columns)
}

/// How far a number is from the one in the middle.
fn distance(middle: u8, number: u8) -> u8
    ensures { result ≡ distance middle number }
{
    number.saturating_sub(middle) + middle.saturating_sub(number)
}

/// The first of two numbers, but the second where that is farther from the one in the middle.
fn farther(middle: u8, far: u8, number: u8) -> u8
    ensures { result ≡ farther middle far number }
{
    if distance(middle, far) < distance(middle, number) {
        number
    } else {
        far
    }
}

/// The number that is farthest from the one in the middle.
fn farthest(middle: u8, numbers: &[u8]) -> u8
    ensures { result ≡ farthest_of middle numbers.now }
{
    let mut far = middle;
    for number in numbers {
        far = farther(middle, far, *number);
    }
    far
}

/// In each column the number that is farthest from the one in the middle.
pub(crate) fn farthest_columns(
    alloc: Global,
    middle: u8,
    window: Window,
    numbers: &[u8],
) -> Result<Vec<u8>, AllocError>
    requires window { window.from ≤ window.to }
    requires short { window.to < 1000000 }
    ensures { IfOk result (λ v. v.items ≡ farthest_columns middle window numbers.now) }
{
    let each = cycles_a_column(window) as usize;
    let mut columns = Vec::new(alloc);
    let mut rest = numbers;
    for column in 0..columns_in(window) {
        let end = rest.len().min(each);
        columns.push(farthest(middle, &rest[..end]))?;
        rest = &rest[end..];
    }
    Ok(columns)
}
