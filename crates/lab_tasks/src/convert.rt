//! A project as a file, written as people write it.
ghost use Rattle.std.specs.Prelude.{◌≡◌, ◌<◌, ◌≤◌, ◌++◌, ◌==◌, ◌&&◌, false, IfErr, IfOk, IsOkUnless, OnOk, string_bytes};
ghost use Rattle.std.specs.List.{flat_map, list_any};
ghost use Rattle.omega_net.specs.Wires.{below};
ghost use Rattle.page_map.specs.Limits.{page_count};
ghost use Rattle.project_book.specs.Project.{combines_at, depth_of};
ghost use Rattle.lab_tasks.specs.Done.{is_over, IsConverted, IsOver};
ghost use Rattle.lab_tasks.specs.ProjectTexts.{combine_line, combine_text, comma, depth_lines, entries_text, entry_start, flag_text, item_text, page_lines, page_text, pages_text, project_text, quoted, script_lines, script_text, scripts_text, setting, size_text, under_depths, unusual, word_lines, word_text, words_text};

use crate::end::{End, Reason};
use omega_net::ScriptEntry;
use page_map::{ADDRESSES, PAGES};
use project_book::{Depths, EntryText, Project, QueueDepths, USUAL_WAIT};
use project_file::{format_of, read_project};
use std::alloc::{AllocError, Global};
use std::fmt::Write;

/// What `convert` is told.
#[derive(Clone, Copy)]
pub struct ConvertWords<'a> {
    pub file: &'a str,
    pub out: Option<&'a str>,
    /// The file that is read may be written over.
    pub force: bool,
}

/// Whether the file that is read would be written over, and may not be.
fn is_over(words: &ConvertWords<'_>) -> bool
    ensures { result ≡ is_over words.now }
{
    match words.out {
        Some(out) => !words.force && out == words.file,
        None => false,
    }
}

/// Refuses to write over the file that is read, where it may not be.
pub(crate) fn refuse_source<'a>(words: &ConvertWords<'a>) -> Result<(), End<'a>>
    ensures other { OnOk result (is_over words.now ≡ false) }
    ensures over { IfErr result (IsOver words.now) }
{
    if is_over(words) {
        return Err(End::Word {
            option: "--out",
            word: words.file,
            reason: Reason::Source,
        });
    }
    Ok(())
}

/// Adds a key with its number.
fn add_setting(text: &mut String, key: &str, number: u32) -> Result<(), AllocError>
    ensures { OnOk result (string_bytes text.new ≡ string_bytes text.old ++ setting key.now number) }
{
    writeln!(text, "{key} = {number}")
}

/// Adds a key with its number where that isn't the usual one.
#[tactic(auto, unfolding(crate::specs::ProjectTexts::unusual))]
fn add_unusual(text: &mut String, key: &str, usual: u32, number: u32) -> Result<(), AllocError>
    ensures { OnOk result (string_bytes text.new ≡ string_bytes text.old ++ unusual key.now usual number) }
{
    if number == usual {
        return Ok(());
    }
    add_setting(text, key, number)
}

#[tactic(auto, unfolding(crate::specs::ProjectTexts::size_text))]
fn add_size(text: &mut String, project: &Project) -> Result<(), AllocError>
    ensures { OnOk result (string_bytes text.new ≡ string_bytes text.old ++ size_text project.now) }
{
    add_setting(text, "format", format_of(project.scale()))?;
    add_setting(text, "k", project.k())?;
    add_setting(text, "horizon", project.horizon())
}

/// Whether the switches of any stage combine.
#[tactic(auto, using(crate::proofs::Listing::any_next))]
fn combines(project: &Project) -> bool
    ensures { result ≡ list_any (combines_at project.now) (below project.now.k) }
{
    let mut any = false;
    for stage in 0..project.k() {
        any = any || project.combine(stage);
    }
    any
}

fn flag(on: bool) -> &'static str
    ensures { result.now ≡ flag_text on }
{
    if on { "true" } else { "false" }
}

/// What stands before an item: behind the first ones a comma.
fn comma(number: u32) -> &'static str
    ensures { result.now ≡ comma number }
{
    if number == 0 { "" } else { ", " }
}

/// Adds for each stage whether its switches combine.
#[tactic(auto, using(crate::proofs::Listing::flat_next))]
fn add_flags(text: &mut String, project: &Project) -> Result<(), AllocError>
    ensures { OnOk result (string_bytes text.new ≡ string_bytes text.old ++ flat_map (λ stage. comma stage ++ flag_text (combines_at project.now stage)) (below project.now.k)) }
{
    for stage in 0..project.k() {
        let (before, on) = (comma(stage), flag(project.combine(stage)));
        write!(text, "{before}{on}")?;
    }
    Ok(())
}

#[tactic(auto, unfolding(crate::specs::ProjectTexts::combine_line))]
fn add_combine_line(text: &mut String, project: &Project) -> Result<(), AllocError>
    ensures { OnOk result (string_bytes text.new ≡ string_bytes text.old ++ combine_line project.now) }
{
    text.push_str("combine = [")?;
    add_flags(text, project)?;
    text.push_str("]\n")
}

#[tactic(auto, unfolding(crate::specs::ProjectTexts::combine_text))]
fn add_combine(text: &mut String, project: &Project) -> Result<(), AllocError>
    ensures { OnOk result (string_bytes text.new ≡ string_bytes text.old ++ combine_text project.now) }
{
    if combines(project) {
        add_combine_line(text, project)
    } else {
        Ok(())
    }
}

/// Adds the depth of some queues where it isn't usual.
fn add_depth(
    text: &mut String,
    project: &Project,
    queue: Depths,
    key: &str,
    usual: u32,
) -> Result<(), AllocError>
    ensures { OnOk result (string_bytes text.new ≡ string_bytes text.old ++ unusual key.now usual (depth_of project.now queue)) }
{
    add_unusual(text, key, usual, project.depth(queue))
}

/// Adds the depths that aren't usual.
#[tactic(auto, unfolding(crate::specs::ProjectTexts::depth_lines))]
fn add_depth_lines(text: &mut String, project: &Project) -> Result<(), AllocError>
    ensures { OnOk result (string_bytes text.new ≡ string_bytes text.old ++ depth_lines project.now) }
{
    let usual = QueueDepths::USUAL;
    add_depth(
        text,
        project,
        Depths::LowForward,
        "low_forward",
        usual.low_forward,
    )?;
    add_depth(
        text,
        project,
        Depths::LowReverse,
        "low_reverse",
        usual.low_reverse,
    )?;
    add_depth(
        text,
        project,
        Depths::CombForward,
        "comb_forward",
        usual.comb_forward,
    )?;
    add_depth(
        text,
        project,
        Depths::CombReverse,
        "comb_reverse",
        usual.comb_reverse,
    )?;
    add_depth(
        text,
        project,
        Depths::ModuleQueue,
        "module",
        usual.module_queue,
    )?;
    add_unusual(text, "wait", USUAL_WAIT, project.wait())
}

fn add_depths(alloc: Global, text: &mut String, project: &Project) -> Result<(), AllocError>
    ensures { OnOk result (string_bytes text.new ≡ string_bytes text.old ++ under_depths (depth_lines project.now)) }
{
    let mut lines = String::new(alloc);
    add_depth_lines(&mut lines, project)?;
    if lines.is_empty() {
        return Ok(());
    }
    write!(text, "\n[depths]\n{lines}")
}

/// Adds a page.
#[tactic(auto, unfolding(crate::specs::ProjectTexts::page_lines))]
fn add_page_lines(text: &mut String, page: u32, amount: u32, base: u32) -> Result<(), AllocError>
    ensures { OnOk result (string_bytes text.new ≡ string_bytes text.old ++ page_lines page amount base) }
{
    text.push_str("\n[[page]]\n")?;
    add_setting(text, "number", page)?;
    add_setting(text, "amount", amount)?;
    add_setting(text, "base", base)
}

/// Whether a page is spread over all modules.
fn is_whole(project: &Project, amount: u32, base: u32) -> bool
    ensures { result ≡ ((amount == project.now.k) && (base == 0)) }
{
    amount == project.k() && base == 0
}

/// Adds a page that isn't spread over all modules.
#[tactic(auto, unfolding(crate::specs::ProjectTexts::page_text))]
fn add_page(text: &mut String, project: &Project, page: u32) -> Result<(), AllocError>
    requires { page < page_count }
    ensures { OnOk result (string_bytes text.new ≡ string_bytes text.old ++ page_text project.now page) }
{
    let Some((amount, base)) = project.pages().page(page) else {
        return Ok(());
    };
    if is_whole(project, amount, base) {
        return Ok(());
    }
    add_page_lines(text, page, amount, base)
}

#[tactic(auto, using(crate::proofs::Listing::flat_next), unfolding(crate::specs::ProjectTexts::pages_text))]
fn add_pages(text: &mut String, project: &Project, count: u32) -> Result<(), AllocError>
    requires { count ≤ page_count }
    ensures { OnOk result (string_bytes text.new ≡ string_bytes text.old ++ pages_text project.now count) }
{
    for page in 0..count {
        add_page(text, project, page)?;
    }
    Ok(())
}

/// Adds a first word.
#[tactic(auto, unfolding(crate::specs::ProjectTexts::word_lines))]
fn add_word_lines(text: &mut String, address: u32, word: u32) -> Result<(), AllocError>
    ensures { OnOk result (string_bytes text.new ≡ string_bytes text.old ++ word_lines address word) }
{
    text.push_str("\n[[word]]\n")?;
    add_setting(text, "address", address)?;
    add_setting(text, "value", word)
}

/// Adds a first word that isn't 0.
#[tactic(auto, unfolding(crate::specs::ProjectTexts::word_text))]
fn add_word(text: &mut String, project: &Project, address: u32) -> Result<(), AllocError>
    ensures { OnOk result (string_bytes text.new ≡ string_bytes text.old ++ word_text project.now address) }
{
    let word = project.word(address);
    if word == 0 {
        return Ok(());
    }
    add_word_lines(text, address, word)
}

#[tactic(auto, using(crate::proofs::Listing::flat_next), unfolding(crate::specs::ProjectTexts::words_text))]
fn add_first_words(text: &mut String, project: &Project, count: u32) -> Result<(), AllocError>
    ensures { OnOk result (string_bytes text.new ≡ string_bytes text.old ++ words_text project.now count) }
{
    for address in 0..count {
        add_word(text, project, address)?;
    }
    Ok(())
}

/// What stands before an entry: behind the first one a comma, and before every eighth one a new line.
fn entry_start(index: u32) -> &'static str
    ensures { result.now ≡ entry_start index }
{
    if index == 0 {
        ""
    } else if index % 8 == 0 {
        ",\n    "
    } else {
        ", "
    }
}

fn add_quoted(text: &mut String, entry: Option<ScriptEntry>) -> Result<(), AllocError>
    ensures { OnOk result (string_bytes text.new ≡ string_bytes text.old ++ quoted entry) }
{
    match entry {
        Some(entry) => {
            let entry = EntryText(entry);
            write!(text, "\"{entry}\"")
        }
        None => Ok(()),
    }
}

#[tactic(auto, unfolding(crate::specs::ProjectTexts::item_text))]
fn add_item(text: &mut String, project: &Project, proc: u32, index: u32) -> Result<(), AllocError>
    ensures { OnOk result (string_bytes text.new ≡ string_bytes text.old ++ item_text project.now proc index) }
{
    text.push_str(entry_start(index))?;
    add_quoted(text, project.entry(proc, index))
}

#[tactic(auto, using(crate::proofs::Listing::flat_next))]
fn add_entries(text: &mut String, project: &Project, proc: u32) -> Result<(), AllocError>
    ensures { OnOk result (string_bytes text.new ≡ string_bytes text.old ++ entries_text project.now proc) }
{
    for index in 0..project.length(proc) {
        add_item(text, project, proc, index)?;
    }
    Ok(())
}

/// Adds a script.
#[tactic(auto, unfolding(crate::specs::ProjectTexts::script_lines))]
fn add_script_lines(text: &mut String, project: &Project, proc: u32) -> Result<(), AllocError>
    ensures { OnOk result (string_bytes text.new ≡ string_bytes text.old ++ script_lines project.now proc) }
{
    text.push_str("\n[[script]]\n")?;
    add_setting(text, "processor", proc)?;
    text.push_str("entries = [")?;
    add_entries(text, project, proc)?;
    text.push_str("]\n")
}

/// Adds a script that has entries.
#[tactic(auto, unfolding(crate::specs::ProjectTexts::script_text))]
fn add_script(text: &mut String, project: &Project, proc: u32) -> Result<(), AllocError>
    ensures { OnOk result (string_bytes text.new ≡ string_bytes text.old ++ script_text project.now proc) }
{
    if project.length(proc) == 0 {
        return Ok(());
    }
    add_script_lines(text, project, proc)
}

#[tactic(auto, using(crate::proofs::Listing::flat_next), unfolding(crate::specs::ProjectTexts::scripts_text))]
fn add_scripts(text: &mut String, project: &Project, count: u32) -> Result<(), AllocError>
    ensures { OnOk result (string_bytes text.new ≡ string_bytes text.old ++ scripts_text project.now count) }
{
    for proc in 0..count {
        add_script(text, project, proc)?;
    }
    Ok(())
}

/// A project as the text of a file.
pub(crate) fn project_text(alloc: Global, project: &Project) -> Result<String, AllocError>
    ensures { IfOk result (λ text. string_bytes text ≡ project_text project.now) }
{
    let mut text = String::new(alloc);
    add_size(&mut text, project)?;
    add_unusual(&mut text, "window", 1, project.window())?;
    add_combine(&mut text, project)?;
    add_depths(alloc, &mut text, project)?;
    add_pages(&mut text, project, PAGES)?;
    add_first_words(&mut text, project, ADDRESSES)?;
    add_scripts(&mut text, project, project.processors())?;
    Ok(text)
}

/// A project as a file, which is read back: none is answered that isn't read as the project.
pub(crate) fn convert_file<'a>(alloc: Global, project: &Project) -> Result<Vec<u8>, End<'a>>
    ensures file { IfOk result (λ bytes. IsConverted project.now bytes.items) }
    ensures memory { IsOkUnless result End.Memory }
{
    let bytes = project_text(alloc, project)?.into_bytes();
    match read_project(alloc, bytes.as_slice()) {
        Ok(back) if back.same(project) => Ok(bytes),
        _ => Err(End::Memory),
    }
}
