//! The rows of a map with their cells.
ghost use Rattle.std.specs.Prelude.{◌≡◌, ◌<◌, ◌≤◌, IfOk, map};
ghost use Rattle.omega_net.specs.Wires.{below};
ghost use Rattle.lab_tasks.specs.Columns.{greatest_columns};
ghost use Rattle.lab_tasks.specs.MapRows.{group_label, row_label};
ghost use Rattle.lab_tasks.specs.RowCells.{groups_with, rows_with};
ghost use Rattle.lab_tasks.specs.RowMaps.{no_levels};

use crate::columns::{columns_in, greatest_columns};
use crate::map_rows::{MapRow, RowGroup, group_label, row_label};
use experiments::Window;
use run_reports::Lengths;
use std::alloc::{AllocError, Global};
use svg_plots::{CellGroup, CellRow, CellRows, Cells};

/// The cells of queues with these lengths.
pub(crate) fn cells_of(
    alloc: Global,
    window: Window,
    lengths: &[Lengths],
) -> Result<Vec<Cells>, AllocError>
    requires window { window.from ≤ window.to }
    requires short { window.to < 1000000 }
    ensures { IfOk result (λ v. v.items ≡ map (greatest_columns window) lengths.now) }
{
    let mut cells = Vec::new(alloc);
    for row in lengths {
        let numbers = greatest_columns(alloc, window, row.as_slice())?;
        cells.push(Cells::from_vec(numbers))?;
    }
    Ok(cells)
}

/// A row with its cells.
fn row_with(alloc: Global, row: MapRow, cells: &Cells) -> Result<CellRow, AllocError>
    ensures { IfOk result (λ made. made ≡ record { label = row_label row; cells = cells.now }) }
{
    let numbers = Vec::from_slice(alloc, cells.as_slice())?;
    Ok(CellRow {
        label: row_label(alloc, row)?,
        cells: Cells::from_vec(numbers),
    })
}

/// Each row with the cells at its place, as far as there are any.
#[tactic(auto, unfolding(crate::specs::RowCells::rows_with))]
fn rows_with(alloc: Global, rows: &[MapRow], cells: &[Cells]) -> Result<Vec<CellRow>, AllocError>
    ensures { IfOk result (λ v. v.items ≡ rows_with rows.now cells.now) }
{
    let mut made = Vec::new(alloc);
    for (row, own) in rows.iter().zip(cells) {
        made.push(row_with(alloc, *row, own)?)?;
    }
    Ok(made)
}

/// A group with the first of these cells.
fn group_with(alloc: Global, group: &RowGroup, cells: &[Cells]) -> Result<CellGroup, AllocError>
    ensures { IfOk result (λ made. made ≡ record { label = group_label group.now.stage; rows = rows_with group.now.rows cells.now }) }
{
    let rows = rows_with(alloc, group.rows.as_slice(), cells)?;
    Ok(CellGroup {
        label: group_label(alloc, group.stage)?,
        rows: CellRows::from_vec(rows),
    })
}

/// The groups, in turn with as many of these cells as each has rows.
#[tactic(auto, unfolding(crate::specs::RowCells::groups_with))]
pub(crate) fn groups_with(
    alloc: Global,
    groups: &[RowGroup],
    cells: &[Cells],
) -> Result<Vec<CellGroup>, AllocError>
    ensures { IfOk result (λ v. v.items ≡ groups_with groups.now cells.now) }
{
    let mut made = Vec::new(alloc);
    let mut rest = cells;
    for group in groups {
        made.push(group_with(alloc, group, rest)?)?;
        let own = rest.len().min(group.rows.as_slice().len());
        rest = &rest[own..];
    }
    Ok(made)
}

/// The line of no level.
pub(crate) fn no_levels(alloc: Global, window: Window) -> Result<Vec<u8>, AllocError>
    requires window { window.from ≤ window.to }
    requires short { window.to < 1000000 }
    ensures { IfOk result (λ v. v.items ≡ no_levels window) }
{
    let mut levels = Vec::new(alloc);
    for _column in 0..columns_in(window) {
        levels.push(0)?;
    }
    Ok(levels)
}
