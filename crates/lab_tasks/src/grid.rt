//! Tables of cells.
ghost use Rattle.std.specs.Prelude.{◌≡◌, ◌==◌, ◌++◌, ◌∷◌, [], IfOk, OnOk, codes, if◌then◌else◌, string_bytes};
ghost use Rattle.std.specs.List.{flat_map};
ghost use Rattle.lab_tasks.specs.Grids.{grid_text, names_of, row_text, rows_of};
ghost use Rattle.lab_tasks.specs.Tables.{field_text, fields_text};

use crate::tables::Field;
use std::alloc::{AllocError, Global};
use std::fmt::Write;
use std::marker::Model;

/// A text in a table. Contracts see the text.
#[derive(Drop)]
pub(crate) struct Cell {
    text: String,
}

impl Model for Cell {
    ghost use Rattle.std.specs.Prelude.{ℕ, List, string_bytes};

    ghost Value = { List ℕ };

    ghost view = { λ cell. string_bytes cell.text };
}

impl Cell {
    /// The text itself. It takes no memory.
    pub(crate) fn new(text: String) -> Cell
        ensures { result ≡ string_bytes text }
    {
        Cell { text }
    }

    pub(crate) fn as_str(&self) -> &str
        ensures { result.now ≡ self.now }
    {
        self.text.as_str()
    }
}

/// Cells in their order. Contracts see the list.
#[derive(Drop)]
pub(crate) struct Row {
    cells: Vec<Cell>,
}

impl Model for Row {
    ghost use Rattle.std.specs.Prelude.{ℕ, List};

    ghost Value = { List (List ℕ) };

    ghost view = { λ row. row.cells.items };
}

impl Row {
    /// The cells of this list. It takes no memory.
    pub(crate) fn new(cells: Vec<Cell>) -> Row
        ensures { result ≡ cells.items }
    {
        Row { cells }
    }

    pub(crate) fn as_slice(&self) -> &[Cell]
        ensures { result.now ≡ self.now }
    {
        &self.cells
    }
}

/// A table: the names of its columns, and its rows. Contracts see the rows, with the names as the first one.
#[derive(Drop)]
pub(crate) struct Grid {
    names: Row,
    rows: Vec<Row>,
}

impl Model for Grid {
    ghost use Rattle.std.specs.Prelude.{ℕ, List, ◌∷◌};

    ghost Value = { List (List (List ℕ)) };

    ghost view = { λ grid. grid.names ∷ grid.rows.items };
}

/// Adds a field of a row, with a comma before it but for the first.
fn add_field(text: &mut String, place: usize, field: &str) -> Result<(), AllocError>
    ensures { OnOk result (string_bytes text.new ≡ string_bytes text.old ++ ((if place == 0 then [] else codes ",") ++ field_text field.now)) }
{
    let field = Field(field);
    if place == 0 {
        write!(text, "{field}")
    } else {
        write!(text, ",{field}")
    }
}

/// Adds cells as fields, with commas between.
fn add_fields(text: &mut String, cells: &[Cell]) -> Result<(), AllocError>
    ensures { OnOk result (string_bytes text.new ≡ string_bytes text.old ++ fields_text cells.now) }
{
    for (place, cell) in cells.iter().enumerate() {
        add_field(text, place, cell.as_str())?;
    }
    Ok(())
}

/// Adds a row with its end.
fn add_row(text: &mut String, row: &Row) -> Result<(), AllocError>
    ensures { OnOk result (string_bytes text.new ≡ string_bytes text.old ++ row_text row.now) }
{
    add_fields(text, row.as_slice())?;
    writeln!(text, "")
}

/// Adds rows.
fn add_rows(text: &mut String, rows: &[Row]) -> Result<(), AllocError>
    ensures { OnOk result (string_bytes text.new ≡ string_bytes text.old ++ flat_map row_text rows.now) }
{
    for row in rows {
        add_row(text, row)?;
    }
    Ok(())
}

impl Grid {
    /// The table of these names and rows. It takes no memory.
    pub(crate) fn new(names: Row, rows: Vec<Row>) -> Grid
        ensures { result ≡ names ∷ rows.items }
    {
        Grid { names, rows }
    }

    /// The names of its columns.
    pub(crate) fn names(&self) -> &Row
        ensures { result.now ≡ names_of self.now }
    {
        &self.names
    }

    /// Its rows.
    pub(crate) fn rows(&self) -> &[Row]
        ensures { result.now ≡ rows_of self.now }
    {
        &self.rows
    }

    /// The table as text: fields with commas between, the names first.
    pub(crate) fn text(&self, alloc: Global) -> Result<String, AllocError>
        ensures { IfOk result (λ text. string_bytes text ≡ grid_text self.now) }
    {
        let mut text = String::new(alloc);
        add_row(&mut text, &self.names)?;
        add_rows(&mut text, self.rows.as_slice())?;
        Ok(text)
    }
}
