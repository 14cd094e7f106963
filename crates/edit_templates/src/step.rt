//! The steps of a sweep.
ghost use Rattle.std.specs.Prelude.{◌≡◌, ◌∷◌, ◌++◌, [], IfOk, OnOk, map};
ghost use Rattle.std.specs.List.{flat_map};
ghost use Rattle.edit_templates.specs.Braces.{put_text};
ghost use Rattle.edit_templates.specs.Steps.{each, first_length, followed, in_turn, no_step, steps_at};

use crate::put::Put;
use project_book::Edit;
use std::alloc::{AllocError, Global};
use std::marker::Model;

/// A step: the words that are put in, and the edits that come of it.
#[derive(Drop)]
pub struct Step<'a> {
    puts: Vec<Put<'a>>,
    edits: Vec<Edit>,
}

/// What is gone through: the names of columns, and the steps.
#[derive(Drop)]
pub struct Axis<'a> {
    pub names: Vec<String>,
    pub steps: Vec<Step<'a>>,
}

impl<'a> Model for Step<'a> {
    ghost use Rattle.std.specs.Prelude.{List, map};
    ghost use Rattle.edit_templates.specs.Braces.{put_text};
    ghost use Rattle.edit_templates.specs.Steps.{Step as Words};

    ghost Value = { Words };

    ghost view = { λ s. (map put_text s.puts.items, s.edits.items) };
}

impl<'a> Step<'a> {
    /// A step with one word and no edit.
    pub(crate) fn put(alloc: Global, put: Put<'a>) -> Result<Step<'a>, AllocError>
        ensures { IfOk result (λ s. s ≡ (put_text put.entry ∷ [], [])) }
    {
        let mut puts = Vec::new(alloc);
        puts.push(put)?;
        Ok(Step {
            puts,
            edits: Vec::new(alloc),
        })
    }

    /// A step with these words and edits.
    pub fn new(puts: Vec<Put<'a>>, edits: Vec<Edit>) -> Step<'a>
        ensures { result ≡ (map put_text puts.entry.items, edits.items) }
    {
        Step { puts, edits }
    }

    /// The words of a step, with one edit alone.
    pub(crate) fn with(&self, alloc: Global, edit: Edit) -> Result<Step<'a>, AllocError>
        ensures { IfOk result (λ s. s ≡ (self.now.0, edit ∷ [])) }
    {
        let puts = self.puts.as_slice().to_vec(alloc)?;
        let mut edits = Vec::new(alloc);
        edits.push(edit)?;
        Ok(Step { puts, edits })
    }

    /// The words that are put in.
    pub fn puts(&self) -> &[Put<'a>]
        ensures { map put_text result.now ≡ self.now.0 }
    {
        self.puts.as_slice()
    }

    /// The edits.
    pub fn edits(&self) -> &[Edit]
        ensures { result.now ≡ self.now.1 }
    {
        self.edits.as_slice()
    }
}

/// No word and no edit.
fn no_step<'a>(alloc: Global) -> Step<'a>
    ensures { result ≡ no_step }
{
    Step {
        puts: Vec::new(alloc),
        edits: Vec::new(alloc),
    }
}

/// One step and then another one.
fn followed<'a>(alloc: Global, first: &Step<'a>, other: &Step<'a>) -> Result<Step<'a>, AllocError>
    ensures { IfOk result (λ s. s ≡ followed first.now other.now) }
{
    let mut puts = Vec::new(alloc);
    puts.extend_from_slice(first.puts.as_slice())?;
    puts.extend_from_slice(other.puts.as_slice())?;
    let mut edits = Vec::new(alloc);
    edits.extend_from_slice(first.edits.as_slice())?;
    edits.extend_from_slice(other.edits.as_slice())?;
    Ok(Step { puts, edits })
}

/// Adds each of some steps, with one before it.
fn add_followed<'a>(
    alloc: Global,
    rows: &mut Vec<Step<'a>>,
    first: &Step<'a>,
    others: &[Step<'a>],
) -> Result<(), AllocError>
    ensures { OnOk result (rows.new.items ≡ rows.old.items ++ map (followed first.now) others.now) }
{
    for other in others {
        let row = followed(alloc, first, other)?;
        rows.push(row)?;
    }
    Ok(())
}

/// Each of some steps with each of some others, in that order.
///
/// # Errors
///
/// Where a growth was refused.
pub fn behind<'a>(
    alloc: Global,
    axis: &[Step<'a>],
    others: &[Step<'a>],
) -> Result<Vec<Step<'a>>, AllocError>
    ensures { IfOk result (λ rows. rows.items ≡ flat_map (λ step. map (followed step) others.now) axis.now) }
{
    let mut rows = Vec::new(alloc);
    for step in axis {
        add_followed(alloc, &mut rows, step, others)?;
    }
    Ok(rows)
}

/// Each step of the first axis with each of the others, in that order.
///
/// # Errors
///
/// Where a growth was refused.
pub fn each<'a>(alloc: Global, axes: &[Axis<'a>]) -> Result<Vec<Step<'a>>, AllocError>
    ensures { IfOk result (λ rows. rows.items ≡ each (map (λ axis. axis.steps.items) axes.now)) }
{
    let Some((axis, others)) = axes.split_first() else {
        let mut rows = Vec::new(alloc);
        rows.push(no_step(alloc))?;
        return Ok(rows);
    };
    let below = each(alloc, others)?;
    let rows = behind(alloc, axis.steps.as_slice(), below.as_slice())?;
    Ok(rows)
}

/// The steps of all axes at one place, one after another.
fn steps_at<'a>(alloc: Global, axes: &[Axis<'a>], place: usize) -> Result<Step<'a>, AllocError>
    ensures { IfOk result (λ s. s ≡ steps_at (map (λ axis. axis.steps.items) axes.now) place) }
{
    let Some((axis, others)) = axes.split_first() else {
        return Ok(no_step(alloc));
    };
    let below = steps_at(alloc, others, place)?;
    match axis.steps.as_slice().get(place) {
        Some(step) => followed(alloc, step, &below),
        None => Ok(below),
    }
}

/// The first steps of all axes, then the second ones, and so on for as many as the first axis has.
///
/// # Errors
///
/// Where a growth was refused.
pub fn in_turn<'a>(alloc: Global, axes: &[Axis<'a>]) -> Result<Vec<Step<'a>>, AllocError>
    ensures { IfOk result (λ rows. rows.items ≡ in_turn (map (λ axis. axis.steps.items) axes.now)) }
{
    let mut rows = Vec::new(alloc);
    for place in 0..first_length(axes) {
        rows.push(steps_at(alloc, axes, place)?)?;
    }
    Ok(rows)
}

/// How many steps the first axis has.
fn first_length(axes: &[Axis<'_>]) -> usize
    ensures { result ≡ first_length (map (λ axis. axis.steps.items) axes.now) }
{
    match axes.first() {
        Some(axis) => axis.steps.len(),
        None => 0,
    }
}
