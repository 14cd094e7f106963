//! Arrays and tables, and the types of what stands in them.
ghost use Rattle.std.specs.Prelude.{◌≡◌};
ghost use Rattle.toml.specs.View.{view, array_view, table_view};
ghost use Rattle.project_file.specs.Fields.{Reads, all_items, array_in, table_in, tables_in, is_table};
ghost use Rattle.project_file.specs.Stages.{is_flag};
ghost use Rattle.project_file.specs.Expanding.{is_text};
ghost use Rattle.project_file.specs.Processors.{is_whole};
ghost use Rattle.project_file.specs.Scripts.{is_item};

use crate::fault::ProjectFault;
use crate::fields::check;
use crate::format::FileFormat;
use toml::{Table, Value};

/// The items of an array in a document.
pub(crate) type Array = Vec<Value>;

/// The items of an array.
pub(crate) fn array_in(value: &Value) -> Result<&Array, ProjectFault>
    ensures { Reads (λ v. array_view v.now) result (array_in (view value.now)) }
{
    match value.as_array() {
        Some(array) => Ok(array),
        None => Err(ProjectFault::WrongType),
    }
}

/// The members of a table.
pub(crate) fn table_in(value: &Value) -> Result<&Table, ProjectFault>
    ensures { Reads (λ t. table_view t.now) result (table_in (view value.now)) }
{
    match value.as_table() {
        Some(table) => Ok(table),
        None => Err(ProjectFault::WrongType),
    }
}

/// The items of an array of tables.
pub(crate) fn tables_in(value: &Value) -> Result<&Array, ProjectFault>
    ensures { Reads (λ v. array_view v.now) result (tables_in (view value.now)) }
{
    let array = array_in(value)?;
    check(are_tables(array), ProjectFault::WrongType)?;
    Ok(array)
}

fn are_tables(array: &Array) -> bool
    ensures { result ≡ all_items is_table (array_view array.now) }
{
    'items: for item in array {
        if !item.is_table() {
            return false;
        }
    }
    true
}

/// Whether each item is a truth value.
pub(crate) fn are_flags(array: &Array) -> bool
    ensures { result ≡ all_items is_flag (array_view array.now) }
{
    'items: for item in array {
        if !item.is_bool() {
            return false;
        }
    }
    true
}

/// Whether each item is a text.
pub(crate) fn are_texts(array: &Array) -> bool
    ensures { result ≡ all_items is_text (array_view array.now) }
{
    'items: for item in array {
        if !item.is_str() {
            return false;
        }
    }
    true
}

/// Whether each item is a whole number.
pub(crate) fn are_whole(array: &Array) -> bool
    ensures { result ≡ all_items is_whole (array_view array.now) }
{
    'items: for item in array {
        if !item.is_integer() {
            return false;
        }
    }
    true
}

/// Whether each item may stand among the entries of a script.
pub(crate) fn are_items(array: &Array, format: FileFormat) -> bool
    ensures { result ≡ all_items (is_item format) (array_view array.now) }
{
    'items: for item in array {
        if !is_item(item, format) {
            return false;
        }
    }
    true
}

/// Whether that is a text, or a table where the format has short forms.
pub(crate) fn is_item(item: &Value, format: FileFormat) -> bool
    ensures { result ≡ is_item format (view item.now) }
{
    item.is_str() || format.has_short_forms() && item.is_table()
}
