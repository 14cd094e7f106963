//! What all drawings share: texts, lines, and how many are given a place.
ghost use Rattle.std.specs.Prelude.{◌≡◌, ◌≤◌, ◌+◌, ◌*◌, ◌++◌, OnOk};
ghost use Rattle.svg_plots.specs.Lists.{each, few_of};
ghost use Rattle.svg_plots.specs.Writings.{note_drawn, plain, small, tiny};

use crate::{Anchor, Colour, Label, Picture, Spot, Stroke, Writing};
use std::alloc::AllocError;

/// The width of a picture, in pixels.
pub(crate) const WIDTH: u16 = 800;

pub(crate) const FINE: Stroke = Stroke {
    colour: Colour::Pale,
    width: 8,
    dashed: false,
};

pub(crate) const FRAME: Stroke = Stroke {
    colour: Colour::Ink,
    width: 10,
    dashed: false,
};

/// The line between groups.
pub(crate) const GROUP: Stroke = Stroke {
    colour: Colour::Grey,
    width: 6,
    dashed: false,
};

pub(crate) const TITLE: Writing = Writing {
    anchor: Anchor::Start,
    size: 15,
    bold: true,
};

/// Plain text with one end at its place.
pub(crate) fn plain(anchor: Anchor) -> Writing
    ensures { result ≡ plain anchor }
{
    Writing {
        anchor,
        size: 12,
        bold: false,
    }
}

/// Small text with one end at its place.
pub(crate) fn small(anchor: Anchor) -> Writing
    ensures { result ≡ small anchor }
{
    Writing {
        anchor,
        size: 11,
        bold: false,
    }
}

/// Tiny text with one end at its place.
pub(crate) fn tiny(anchor: Anchor) -> Writing
    ensures { result ≡ tiny anchor }
{
    Writing {
        anchor,
        size: 8,
        bold: false,
    }
}

/// So many, but at most 999.
pub(crate) fn few(count: usize) -> u32
    ensures few { result ≡ few_of count }
    ensures most { result ≤ 999 }
{
    count.min(999) as u32
}

#[tactic(auto, unfolding(crate::specs::Writings::note_drawn))]
fn draw_note(picture: &mut Picture, top: u32, at: usize, note: &str) -> Result<(), AllocError>
    requires { top ≤ 1000000 }
    ensures { OnOk result (picture.new ≡ picture.old ++ note_drawn top at note.now) }
{
    let y = top + 170 * few(at);
    picture.words(Spot { x: 200, y }, plain(Anchor::Start), note)
}

/// Lines of text, from a height on.
pub(crate) fn draw_notes(picture: &mut Picture, notes: &[Label], top: u32) -> Result<(), AllocError>
    requires { top ≤ 1000000 }
    ensures { OnOk result (picture.new ≡ picture.old ++ each (note_drawn top) notes.now) }
{
    for (at, note) in notes.iter().enumerate() {
        draw_note(picture, top, at, note.as_str())?;
    }
    Ok(())
}
