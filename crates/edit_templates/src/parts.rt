//! Texts that are cut at a byte.
ghost use Rattle.std.specs.Prelude.{◌≡◌, ◌<◌, ◌==◌, IfOk, map, option_map};
ghost use Rattle.std.specs.List.{slice_split};
ghost use Rattle.edit_templates.specs.Braces.{cut_at};

use std::alloc::{AllocError, Global};

/// What stands before and behind the first of a character.
pub(crate) fn cut(text: &str, at: char) -> Option<(&str, &str)>
    requires { at < 128 }
    ensures { option_map (λ p. (p.0.now, p.1.now)) result ≡ cut_at at text.now }
{
    text.split_once(at)
}

/// The parts between the places where a character stands.
pub(crate) fn parts<'a>(alloc: Global, text: &'a str, at: char) -> Result<Vec<&'a str>, AllocError>
    requires { at < 128 }
    ensures { IfOk result (λ v. map (λ w. w.now) v.items ≡ slice_split (λ b. b == at) text.entry.now) }
{
    let mut parts = Vec::new(alloc);
    let mut rest = text;
    'parts: while let Some((first, behind)) = cut(rest, at) {
        parts.push(first)?;
        rest = behind;
    }
    parts.push(rest)?;
    Ok(parts)
}
