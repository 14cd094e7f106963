//! What a project is, in words.
ghost use Rattle.std.specs.Prelude.{◌≡◌, ◌++◌, IfOk, OnOk, Some, codes, string_bytes};
ghost use Rattle.std.specs.List.{flat_map};
ghost use Rattle.omega_net.specs.Wires.{below};
ghost use Rattle.project_book.specs.Project.{combines_at};
ghost use Rattle.lab_tasks.specs.Counts.{script_count, entry_count};
ghost use Rattle.lab_tasks.specs.Heats.{hot_text, hots_text, hot_lines};
ghost use Rattle.lab_tasks.specs.Summaries.{size_text, machine_line, low_places, comb_places, other_places, places_line, combining_line, scripts_line, IsSummary};
ghost use Rattle.lab_tasks.specs.Tables.{switch_text};

use crate::hot::{Hot, Parts, hottest_of, references};
use crate::tables::switch;
use project_book::{Depths, Project};
use std::alloc::{AllocError, Global};
use std::fmt::{self, Write};

/// How large a machine is.
#[derive(Clone, Copy)]
struct Size<'a>(&'a Project);

impl fmt::Display for Size<'_> {
    ghost output = { λ size. Some (size_text size.0.now) };

    fn fmt<W: fmt::Write>(&self, f: &mut fmt::Formatter<W>) -> fmt::Result {
        let (processors, stages) = (self.0.processors(), self.0.k());
        write!(
            f,
            "{processors} processors, {processors} modules, {stages} stages"
        )
    }
}

/// Adds the line on the machine.
fn add_machine(text: &mut String, project: &Project) -> Result<(), AllocError>
    ensures { OnOk result (string_bytes text.new ≡ string_bytes text.old ++ machine_line project.now) }
{
    let size = Size(project);
    let (horizon, window) = (project.horizon(), project.window());
    writeln!(
        text,
        "{size}; cycles 0 to {horizon}; at most {window} unanswered"
    )
}

/// The places of queues in the low network, in the combining one, and the other ones.
#[derive(Clone, Copy)]
pub(crate) struct LowPlaces<'a>(pub &'a Project);

impl fmt::Display for LowPlaces<'_> {
    ghost output = { λ places. Some (low_places places.0.now) };

    fn fmt<W: fmt::Write>(&self, f: &mut fmt::Formatter<W>) -> fmt::Result {
        let forward = self.0.depth(Depths::LowForward);
        let reverse = self.0.depth(Depths::LowReverse);
        write!(f, "low-forward {forward}, low-reverse {reverse}")
    }
}

#[derive(Clone, Copy)]
pub(crate) struct CombPlaces<'a>(pub &'a Project);

impl fmt::Display for CombPlaces<'_> {
    ghost output = { λ places. Some (comb_places places.0.now) };

    fn fmt<W: fmt::Write>(&self, f: &mut fmt::Formatter<W>) -> fmt::Result {
        let forward = self.0.depth(Depths::CombForward);
        let reverse = self.0.depth(Depths::CombReverse);
        write!(f, "comb-forward {forward}, comb-reverse {reverse}")
    }
}

#[derive(Clone, Copy)]
pub(crate) struct OtherPlaces<'a>(pub &'a Project);

impl fmt::Display for OtherPlaces<'_> {
    ghost output = { λ places. Some (other_places places.0.now) };

    fn fmt<W: fmt::Write>(&self, f: &mut fmt::Formatter<W>) -> fmt::Result {
        let module = self.0.depth(Depths::ModuleQueue);
        let wait = self.0.wait();
        write!(f, "module {module}, wait {wait}")
    }
}

/// Adds the line on places.
fn add_places(text: &mut String, project: &Project) -> Result<(), AllocError>
    ensures { OnOk result (string_bytes text.new ≡ string_bytes text.old ++ places_line project.now) }
{
    let (low, comb) = (LowPlaces(project), CombPlaces(project));
    let others = OtherPlaces(project);
    writeln!(text, "places: {low}, {comb}, {others}")
}

/// Adds for each stage whether its switches combine, with a space before.
pub(crate) fn add_switches(text: &mut String, project: &Project) -> Result<(), AllocError>
    ensures { OnOk result (string_bytes text.new ≡ string_bytes text.old ++ flat_map (λ stage. codes " " ++ switch_text (combines_at project.now stage)) (below project.now.k)) }
{
    for stage in 0..project.k() {
        let on = switch(project.combine(stage));
        write!(text, " {on}")?;
    }
    Ok(())
}

/// Adds the line on combining.
fn add_combining(text: &mut String, project: &Project) -> Result<(), AllocError>
    ensures { OnOk result (string_bytes text.new ≡ string_bytes text.old ++ combining_line project.now) }
{
    write!(text, "combining:")?;
    add_switches(text, project)?;
    writeln!(text, "")
}

/// How many scripts have an entry.
fn scripts_of(project: &Project) -> u32
    ensures { result ≡ script_count project.now }
{
    let mut scripts: u32 = 0;
    for proc in 0..project.processors() {
        scripts += project.length(proc).min(1);
    }
    scripts
}

/// How many entries the scripts have.
fn entries_of(project: &Project) -> u32
    ensures { result ≡ entry_count project.now }
{
    project.is_project();
    let mut entries: u32 = 0;
    for proc in 0..project.processors() {
        entries += project.length(proc);
    }
    entries
}

/// Adds the line on the scripts.
fn add_scripts(text: &mut String, project: &Project) -> Result<(), AllocError>
    ensures { OnOk result (string_bytes text.new ≡ string_bytes text.old ++ scripts_line project.now) }
{
    let (scripts, entries) = (scripts_of(project), entries_of(project));
    let all = references(project);
    writeln!(
        text,
        "scripts: {scripts}, with {entries} entries, {all} references at most"
    )
}

/// Adds words or modules behind the first one, with a comma before each.
fn add_others(text: &mut String, hots: &[Hot]) -> Result<(), AllocError>
    ensures { OnOk result (string_bytes text.new ≡ string_bytes text.old ++ flat_map (λ h. codes ", " ++ hot_text h) hots.now) }
{
    for hot in hots {
        write!(text, ", {hot}")?;
    }
    Ok(())
}

/// Adds words or modules, or that there are none.
fn add_hots(text: &mut String, hots: &[Hot]) -> Result<(), AllocError>
    ensures { OnOk result (string_bytes text.new ≡ string_bytes text.old ++ hots_text hots.now) }
{
    let Some((first, others)) = hots.split_first() else {
        return text.push_str("none");
    };
    write!(text, "{first}")?;
    add_others(text, others)
}

/// Adds the lines on hot words and modules.
fn add_hot(text: &mut String, words: &[Hot], modules: &[Hot]) -> Result<(), AllocError>
    ensures { OnOk result (string_bytes text.new ≡ string_bytes text.old ++ hot_lines words.now modules.now) }
{
    text.push_str("hot words, by processors and references: ")?;
    add_hots(text, words)?;
    text.push_str("\nhot modules, by processors and references: ")?;
    add_hots(text, modules)?;
    text.push_str("\n")
}

/// What a project is, in words.
pub(crate) fn summary(alloc: Global, project: &Project) -> Result<String, AllocError>
    ensures { IfOk result (λ text. IsSummary project.now (string_bytes text)) }
{
    let mut text = String::new(alloc);
    add_machine(&mut text, project)?;
    add_places(&mut text, project)?;
    add_combining(&mut text, project)?;
    add_scripts(&mut text, project)?;
    let words = hottest_of(alloc, project, Parts::Words)?;
    let modules = hottest_of(alloc, project, Parts::Modules)?;
    add_hot(&mut text, words.as_slice(), modules.as_slice())?;
    Ok(text)
}
