//! The edits that the lines of a template are.
ghost use Rattle.std.specs.Prelude.{◌≡◌, IfOk, map, option_map, string_bytes};
ghost use Rattle.edit_templates.specs.Lines.{axis_of, step_for, steps_of};
ghost use Rattle.edit_templates.specs.Templates.{all_of};

use crate::step::{Axis, Step};
use crate::template::Template;
use commands::Command;
use omega_net::Shape;
use std::alloc::{AllocError, Global};

impl<'a> Template<'a> {
    /// The step with the words of another one, or None where the line isn't an edit.
    fn step(
        &self,
        alloc: Global,
        shape: Shape,
        fill: &Step<'a>,
    ) -> Result<Option<Step<'a>>, AllocError>
        ensures { IfOk result (λ o. o ≡ step_for shape self.now fill.now.0) }
    {
        let line = self.line(alloc, fill.puts())?;
        match Command::parse(shape, line.as_bytes()) {
            Some(Command::Edit(edit)) => Ok(Some(fill.with(alloc, edit)?)),
            _ => Ok(None),
        }
    }

    /// The steps with the words of others, or None where one of the lines isn't an edit.
    fn steps_for(
        &self,
        alloc: Global,
        shape: Shape,
        fills: &[Step<'a>],
    ) -> Result<Option<Vec<Step<'a>>>, AllocError>
        ensures { IfOk result (λ o. option_map (λ v. v.items) o ≡ all_of (map (λ fill. step_for shape self.now fill.0) fills.now)) }
    {
        let mut steps = Vec::new(alloc);
        for fill in fills {
            match self.step(alloc, shape, fill)? {
                Some(step) => steps.push(step)?,
                None => return Ok(None),
            }
        }
        Ok(Some(steps))
    }

    /// A step for each way to put words in, or None where one of the lines isn't an edit.
    fn steps(&self, alloc: Global, shape: Shape) -> Result<Option<Vec<Step<'a>>>, AllocError>
        ensures { IfOk result (λ o. option_map (λ v. v.items) o ≡ steps_of shape self.now) }
    {
        let fills = self.fills(alloc)?;
        self.steps_for(alloc, shape, fills.as_slice())
    }

    /// The names of its braces, and a step for each way to put words in, the first brace varying slowest; None where one of
    /// the lines isn't an edit.
    ///
    /// # Errors
    ///
    /// Where a growth was refused.
    pub fn axis(&self, alloc: Global, shape: Shape) -> Result<Option<Axis<'a>>, AllocError>
        ensures { IfOk result (λ o. option_map (λ axis. (map string_bytes axis.names.items, axis.steps.items)) o ≡ axis_of shape self.now) }
    {
        let names = self.names(alloc)?;
        match self.steps(alloc, shape)? {
            Some(steps) => Ok(Some(Axis { names, steps })),
            None => Ok(None),
        }
    }
}
