//! A project written as a file.
ghost use Rattle.std.specs.Prelude.{◌≡◌, IfOk, Ok};
ghost use Rattle.project_file.specs.Filed.{filed};

use crate::fault::ProjectFault;
use crate::format::format_of;
use crate::reading::{MAX_BYTES, USUAL_BYTES, read_project};
use crate::write_fault::WriteFault;
use page_map::{ADDRESSES, PAGES};
use project_book::{Depths, EntryText, FirstWord, Project, Scale};
use std::alloc::Global;
use toml::ser::Error;
use toml::{Table, Value, table_to_string_pretty};

/// The text of a file that is this project, of format 2, or of format 3 where it is a large one. What every project has without being told is left out: pages that are
/// spread over all modules, words of 0, scripts without entries.
///
/// The text is read back by [`read_project`], and answered only where that gives the project. It takes the memory of the
/// document, of its text and of reading it.
///
/// # Errors
///
/// TooLong where the text has more than 4,194,304 bytes, or 67,108,864 where it is of format 3; Memory at the growth that was refused, Unread where the text isn't
/// read as the project.
pub fn write_project(alloc: Global, project: &Project) -> Result<Vec<u8>, WriteFault>
    ensures { IfOk result (λ bytes. filed bytes.items ≡ Ok project.now) }
{
    let root = root_of(alloc, project)?;
    let text = match table_to_string_pretty(alloc, &root) {
        Ok(text) => text,
        Err(Error::OutOfMemory) => return Err(WriteFault::Memory),
        Err(Error::DateInvalid) => return Err(WriteFault::Unread),
    };
    let bytes = text.into_bytes();
    if bytes.len() > most_bytes(project.scale()) {
        return Err(WriteFault::TooLong);
    }
    match read_project(alloc, &bytes) {
        Ok(back) if back.same(project) => Ok(bytes),
        Err(ProjectFault::Memory) => Err(WriteFault::Memory),
        _ => Err(WriteFault::Unread),
    }
}

/// The document of a project.
fn root_of(alloc: Global, project: &Project) -> Result<Table, WriteFault> {
    let mut root = Table::new(alloc);
    put(
        alloc,
        &mut root,
        "format",
        number(format_of(project.scale())),
    )?;
    put(alloc, &mut root, "k", number(project.k()))?;
    put(alloc, &mut root, "horizon", number(project.horizon()))?;
    put(alloc, &mut root, "window", number(project.window()))?;
    put(alloc, &mut root, "depths", depths_of(alloc, project)?)?;
    put_list(alloc, &mut root, "combine", flags_of(alloc, project)?)?;
    put_list(alloc, &mut root, "page", pages_of(alloc, project)?)?;
    put_list(alloc, &mut root, "word", words_of(alloc, project)?)?;
    put_list(alloc, &mut root, "script", scripts_of(alloc, project)?)?;
    Ok(root)
}

/// How many bytes a file of that format may have.
fn most_bytes(scale: Scale) -> usize {
    match scale {
        Scale::Usual => USUAL_BYTES,
        Scale::Large => MAX_BYTES,
    }
}

fn number(value: u32) -> Value {
    Value::Integer(i64::from(value))
}

/// Gives a key a value.
fn put(alloc: Global, table: &mut Table, key: &str, value: Value) -> Result<(), WriteFault> {
    let key = String::from_str(alloc, key)?;
    table.insert(key, value)?;
    Ok(())
}

/// Gives a key an array; without items it is left out.
fn put_list(
    alloc: Global,
    table: &mut Table,
    key: &str,
    items: Vec<Value>,
) -> Result<(), WriteFault> {
    if items.is_empty() {
        return Ok(());
    }
    put(alloc, table, key, Value::Array(items))
}

/// The key `depths`.
fn depths_of(alloc: Global, project: &Project) -> Result<Value, WriteFault> {
    let mut table = Table::new(alloc);
    for (key, queue) in [
        ("low_forward", Depths::LowForward),
        ("low_reverse", Depths::LowReverse),
        ("comb_forward", Depths::CombForward),
        ("comb_reverse", Depths::CombReverse),
        ("module", Depths::ModuleQueue),
    ] {
        put(alloc, &mut table, key, number(project.depth(queue)))?;
    }
    put(alloc, &mut table, "wait", number(project.wait()))?;
    Ok(Value::Table(table))
}

/// The key `combine`: a truth value for each stage.
fn flags_of(alloc: Global, project: &Project) -> Result<Vec<Value>, WriteFault> {
    let mut flags = Vec::new(alloc);
    for stage in 0..project.k() {
        flags.push(Value::Boolean(project.combine(stage)))?;
    }
    Ok(flags)
}

/// The key `page`: the pages that aren't spread over all modules.
fn pages_of(alloc: Global, project: &Project) -> Result<Vec<Value>, WriteFault> {
    let mut pages = Vec::new(alloc);
    for page in 0..PAGES {
        match project.pages().page(page) {
            Some((amount, base)) if (amount, base) != (project.k(), 0) => {
                pages.push(page_of(alloc, page, amount, base)?)?;
            }
            _ => {}
        }
    }
    Ok(pages)
}

fn page_of(alloc: Global, page: u32, amount: u32, base: u32) -> Result<Value, WriteFault> {
    let mut table = Table::new(alloc);
    put(alloc, &mut table, "number", number(page))?;
    put(alloc, &mut table, "amount", number(amount))?;
    put(alloc, &mut table, "base", number(base))?;
    Ok(Value::Table(table))
}

/// The key `word`: the first words that aren't 0.
fn words_of(alloc: Global, project: &Project) -> Result<Vec<Value>, WriteFault> {
    let mut words = Vec::new(alloc);
    for address in 0..ADDRESSES {
        let word = project.word(address);
        if word != 0 {
            words.push(word_of(alloc, FirstWord { address, word })?)?;
        }
    }
    Ok(words)
}

fn word_of(alloc: Global, first: FirstWord) -> Result<Value, WriteFault> {
    let mut table = Table::new(alloc);
    put(alloc, &mut table, "address", number(first.address))?;
    put(alloc, &mut table, "value", number(first.word))?;
    Ok(Value::Table(table))
}

/// The key `script`: the scripts that have entries.
fn scripts_of(alloc: Global, project: &Project) -> Result<Vec<Value>, WriteFault> {
    let mut scripts = Vec::new(alloc);
    for proc in 0..project.processors() {
        if project.length(proc) > 0 {
            scripts.push(script_of(alloc, project, proc)?)?;
        }
    }
    Ok(scripts)
}

fn script_of(alloc: Global, project: &Project, proc: u32) -> Result<Value, WriteFault> {
    let mut table = Table::new(alloc);
    put(alloc, &mut table, "processor", number(proc))?;
    put(
        alloc,
        &mut table,
        "entries",
        entries_of(alloc, project, proc)?,
    )?;
    Ok(Value::Table(table))
}

fn entries_of(alloc: Global, project: &Project, proc: u32) -> Result<Value, WriteFault> {
    let mut entries = Vec::new(alloc);
    for index in 0..project.length(proc) {
        if let Some(entry) = project.entry(proc, index) {
            let text = format!(in alloc; "{}", EntryText(entry))?;
            entries.push(Value::String(text))?;
        }
    }
    Ok(Value::Array(entries))
}
