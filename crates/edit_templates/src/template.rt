//! Templates.
ghost use Rattle.std.specs.Prelude.{◌≡◌, ◌++◌, ◌-◌, ◌^◌, IfOk, OnOk, length, map, min, option_map, string_bytes};
ghost use Rattle.omega_net.specs.Wires.{below};
ghost use Rattle.edit_templates.specs.Braces.{put_text};
ghost use Rattle.edit_templates.specs.Steps.{each, puts_of};
ghost use Rattle.edit_templates.specs.Templates.{all_of, brace_of, kept_brace, line_of, mark, name_of, names_of, template_of, text_behind, ways};

use crate::choices::Choices;
use crate::parts::{cut, parts};
use crate::put::Put;
use crate::step::{Axis, Step, each};
use std::alloc::{AllocError, Global};
use std::fmt::Write;
use std::marker::Model;

/// What may be put in, and the text behind it up to the next brace.
#[derive(Drop)]
pub(crate) struct Brace<'a> {
    choices: Choices<'a>,
    behind: &'a str,
}

/// A line with braces in it.
#[derive(Drop)]
pub struct Template<'a> {
    first: &'a str,
    braces: Vec<Brace<'a>>,
}

impl<'a> Model for Template<'a> {
    ghost use Rattle.std.specs.Prelude.{map};
    ghost use Rattle.edit_templates.specs.Templates.{Template as Line, kept_brace};

    ghost Value = { Line };

    ghost view = { λ t. (t.first.now, map kept_brace t.braces.items) };
}

/// The brace that stands behind its opening byte.
fn brace_in<'a>(alloc: Global, k: u32, text: &'a str) -> Result<Option<Brace<'a>>, AllocError>
    ensures { IfOk result (λ o. option_map kept_brace o ≡ brace_of k text.entry.now) }
{
    let Some((inside, behind)) = cut(text, '}') else {
        return Ok(None);
    };
    let choices = Choices::read(alloc, k, inside)?;
    Ok(Some(Brace { choices, behind }))
}

/// The braces that stand behind their opening bytes, where each is closed.
fn braces_in<'a>(
    alloc: Global,
    k: u32,
    texts: &[&'a str],
) -> Result<Option<Vec<Brace<'a>>>, AllocError>
    ensures { IfOk result (λ o. option_map (λ v. map kept_brace v.items) o ≡ all_of (map (λ text. brace_of k text.now) texts.now)) }
{
    let mut braces = Vec::new(alloc);
    for text in texts {
        match brace_in(alloc, k, *text)? {
            Some(brace) => braces.push(brace)?,
            None => return Ok(None),
        }
    }
    Ok(Some(braces))
}

/// Adds the texts behind braces, with words put in.
fn add_behind(text: &mut String, braces: &[Brace<'_>], puts: &[Put<'_>]) -> Result<(), AllocError>
    ensures { OnOk result (string_bytes text.new ≡ string_bytes text.old ++ text_behind (map kept_brace braces.now) (map put_text puts.now)) }
{
    let Some((brace, braces)) = braces.split_first() else {
        return Ok(());
    };
    let Some((put, puts)) = puts.split_first() else {
        return Ok(());
    };
    let behind = brace.behind;
    write!(text, "{put}{behind}")?;
    add_behind(text, braces, puts)
}

/// The marks that name a brace: `{}` in its place, and `*` in each other one.
fn marks<'a>(alloc: Global, count: usize, place: usize) -> Result<Vec<Put<'a>>, AllocError>
    ensures { IfOk result (λ v. map put_text v.items ≡ map (mark place) (below count)) }
{
    let mut marks = Vec::new(alloc);
    for i in 0..count {
        marks.push(if i == place {
            Put::Word("{}")
        } else {
            Put::Word("*")
        })?;
    }
    Ok(marks)
}

/// The axes of some braces: what may be put in for each, without names.
fn axes<'a>(alloc: Global, braces: &[Brace<'a>]) -> Result<Vec<Axis<'a>>, AllocError>
    ensures { IfOk result (λ v. map (λ axis. axis.steps.items) v.items ≡ map puts_of (map kept_brace braces.now)) }
{
    let mut axes = Vec::new(alloc);
    for brace in braces {
        axes.push(Axis {
            names: Vec::new(alloc),
            steps: brace.choices.steps(alloc)?,
        })?;
    }
    Ok(axes)
}

impl<'a> Template<'a> {
    /// The template that a text is for a machine of this k, or None where a brace isn't closed.
    ///
    /// # Errors
    ///
    /// Where a growth was refused.
    pub fn read(alloc: Global, k: u32, text: &'a str) -> Result<Option<Template<'a>>, AllocError>
        ensures { IfOk result (λ o. o ≡ template_of k text.entry.now) }
    {
        let parts = parts(alloc, text, '{')?;
        let Some((first, others)) = parts.as_slice().split_first() else {
            return Ok(None);
        };
        let first = *first;
        match braces_in(alloc, k, others)? {
            Some(braces) => Ok(Some(Template { first, braces })),
            None => Ok(None),
        }
    }

    /// How many braces it has.
    pub fn braces(&self) -> usize
        ensures { result ≡ length self.now.1 }
    {
        self.braces.len()
    }

    /// In how many ways words can be put in. From 2^64 on it is the number before.
    pub fn ways(&self) -> u64
        ensures { result ≡ min (ways self.now.1) (2 ^ 64 - 1) }
    {
        let mut ways: u64 = 1;
        for brace in self.braces.as_slice() {
            ways = ways.saturating_mul(brace.choices.count());
        }
        ways
    }

    /// The text with these words put in.
    pub(crate) fn line(&self, alloc: Global, puts: &[Put<'_>]) -> Result<String, AllocError>
        ensures { IfOk result (λ text. string_bytes text ≡ line_of self.now (map put_text puts.now)) }
    {
        let mut text = String::from_str(alloc, self.first)?;
        add_behind(&mut text, self.braces.as_slice(), puts)?;
        Ok(text)
    }

    /// The name of a brace by its place.
    fn name(&self, alloc: Global, place: usize) -> Result<String, AllocError>
        ensures { IfOk result (λ text. string_bytes text ≡ name_of self.now place) }
    {
        let marks = marks(alloc, self.braces.len(), place)?;
        self.line(alloc, marks.as_slice())
    }

    /// The names of its braces: the text with `{}` in the place of one, and `*` in the place of each other.
    ///
    /// # Errors
    ///
    /// Where a growth was refused.
    pub fn names(&self, alloc: Global) -> Result<Vec<String>, AllocError>
        ensures { IfOk result (λ v. map string_bytes v.items ≡ names_of self.now) }
    {
        let mut names = Vec::new(alloc);
        for place in 0..self.braces.len() {
            names.push(self.name(alloc, place)?)?;
        }
        Ok(names)
    }

    /// Each way to put words in, as a step without edits.
    pub(crate) fn fills(&self, alloc: Global) -> Result<Vec<Step<'a>>, AllocError>
        ensures { IfOk result (λ v. v.items ≡ each (map puts_of self.now.1)) }
    {
        let axes = axes(alloc, self.braces.as_slice())?;
        each(alloc, axes.as_slice())
    }
}
