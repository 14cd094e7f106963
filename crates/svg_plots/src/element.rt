//! The elements of a drawing.
ghost use Rattle.std.specs.Prelude.{◌≡◌, IfOk, Some, string_bytes};
ghost use Rattle.svg_plots.specs.Texts.{anchor_text, dashes_text, mark_text, stroke_text, weight_text, writing_text};

use crate::{Colour, Tenths};
use std::alloc::{AllocError, Global};
use std::fmt;
use std::marker::Model;

/// A place in tenths of a pixel, from the left and from the top.
#[derive(Clone, Copy, PartialEq, Eq, Debug)]
pub struct Spot {
    pub x: u32,
    pub y: u32,
}

/// How a line is drawn.
#[derive(Clone, Copy, PartialEq, Eq, Debug)]
pub struct Stroke {
    pub colour: Colour,
    /// In tenths of a pixel.
    pub width: u32,
    pub dashed: bool,
}

#[tactic(auto, unfolding(crate::specs::Texts::dashes_text))]
fn dashes(dashed: bool) -> &'static str
    ensures { result.now ≡ dashes_text dashed }
{
    if dashed {
        " stroke-dasharray=\"5 4\""
    } else {
        ""
    }
}

/// A stroke prints as the attributes of an element.
impl fmt::Display for Stroke {
    ghost output = { λ stroke. Some (stroke_text stroke) };

    fn fmt<W: fmt::Write>(&self, f: &mut fmt::Formatter<W>) -> fmt::Result {
        let Stroke {
            colour,
            width,
            dashed,
        } = *self;
        let width = Tenths(width);
        let dashes = dashes(dashed);
        write!(f, "stroke=\"{colour}\" stroke-width=\"{width}\"{dashes}")
    }
}

/// Which end of a text stands at its place.
#[derive(Clone, Copy, PartialEq, Eq, Debug)]
pub enum Anchor {
    Start,
    Middle,
    End,
}

impl fmt::Display for Anchor {
    ghost output = { λ anchor. Some (anchor_text anchor) };

    #[tactic(auto, unfolding(crate::specs::Texts::anchor_text))]
    fn fmt<W: fmt::Write>(&self, f: &mut fmt::Formatter<W>) -> fmt::Result {
        f.write_str(match self {
            Anchor::Start => "start",
            Anchor::Middle => "middle",
            Anchor::End => "end",
        })
    }
}

/// How a text is written: which end stands at its place, its size in pixels, and whether it is bold. It prints as the
/// attributes of an element.
#[derive(Clone, Copy, PartialEq, Eq, Debug)]
pub struct Writing {
    pub anchor: Anchor,
    pub size: u8,
    pub bold: bool,
}

#[tactic(auto, unfolding(crate::specs::Texts::weight_text))]
fn weight(bold: bool) -> &'static str
    ensures { result.now ≡ weight_text bold }
{
    if bold { " font-weight=\"bold\"" } else { "" }
}

impl fmt::Display for Writing {
    ghost output = { λ how. Some (writing_text how) };

    fn fmt<W: fmt::Write>(&self, f: &mut fmt::Formatter<W>) -> fmt::Result {
        let Writing { anchor, size, bold } = *self;
        let weight = weight(bold);
        write!(f, "font-size=\"{size}\" text-anchor=\"{anchor}\"{weight}")
    }
}

/// A mark at a point of a curve. It prints as the path that draws it from its middle.
#[derive(Clone, Copy, PartialEq, Eq, Debug)]
pub enum Mark {
    Circle,
    Square,
    Diamond,
    Up,
    Down,
    Cross,
    Plus,
}

impl Mark {
    /// All marks, in the order in which curves take them.
    pub const ALL: [Mark; 7] = [
        Mark::Circle,
        Mark::Square,
        Mark::Up,
        Mark::Diamond,
        Mark::Down,
        Mark::Cross,
        Mark::Plus,
    ];
}

impl fmt::Display for Mark {
    ghost output = { λ mark. Some (mark_text mark) };

    #[tactic(auto, unfolding(crate::specs::Texts::mark_text))]
    fn fmt<W: fmt::Write>(&self, f: &mut fmt::Formatter<W>) -> fmt::Result {
        f.write_str(match self {
            Mark::Circle => "m-3.5 0a3.5 3.5 0 1 0 7 0a3.5 3.5 0 1 0 -7 0z",
            Mark::Square => "m-3 -3h6v6h-6z",
            Mark::Diamond => "m0 -4.5l4 4.5l-4 4.5l-4 -4.5z",
            Mark::Up => "m0 -4l4 7h-8z",
            Mark::Down => "m0 4l4 -7h-8z",
            Mark::Cross => "m-3.5 -3.5l7 7m0 -7l-7 7",
            Mark::Plus => "m-4 0h8m-4 -4v8",
        })
    }
}

/// A text in a drawing. Contracts see its bytes.
#[derive(Drop)]
pub struct Label {
    text: String,
}

impl Model for Label {
    ghost use Rattle.std.specs.Prelude.{ℕ, List, string_bytes};

    ghost Value = { List ℕ };

    ghost view = { λ label. string_bytes label.text };
}

impl Label {
    /// A copy of a text.
    ///
    /// # Errors
    ///
    /// Where a growth was refused.
    pub fn new(alloc: Global, text: &str) -> Result<Label, AllocError>
        ensures { IfOk result (λ label. label ≡ text.now) }
    {
        let text = String::from_str(alloc, text)?;
        Ok(Label { text })
    }

    /// The text itself. It takes no memory.
    pub fn from_string(text: String) -> Label
        ensures { result ≡ string_bytes text }
    {
        Label { text }
    }

    pub fn as_str(&self) -> &str
        ensures { result.now ≡ self.now }
    {
        self.text.as_str()
    }
}

/// Places in their order. Contracts see the list.
#[derive(Drop)]
pub struct Spots {
    spots: Vec<Spot>,
}

impl Model for Spots {
    ghost use Rattle.std.specs.Prelude.{List};
    ghost use Rattle.svg_plots.specs.declared.element.Spot.{Spot};

    ghost Value = { List Spot };

    ghost view = { λ s. s.spots.items };
}

impl Spots {
    /// The places of this list. It takes no memory.
    pub fn from_vec(spots: Vec<Spot>) -> Spots
        ensures { result ≡ spots.items }
    {
        Spots { spots }
    }

    pub fn as_slice(&self) -> &[Spot]
        ensures { result.now ≡ self.now }
    {
        &self.spots
    }
}

/// One element of a drawing: a straight line; a filled rectangle, by its left upper corner and its size; the outline of one, by
/// its left upper and right lower corners; a text; a line through several places; a mark with its middle at a place.
#[derive(Drop)]
pub enum Element {
    Line {
        from: Spot,
        to: Spot,
        stroke: Stroke,
    },
    Cell {
        at: Spot,
        width: u32,
        height: u32,
        fill: Colour,
    },
    Frame {
        from: Spot,
        to: Spot,
        stroke: Stroke,
    },
    Words {
        at: Spot,
        how: Writing,
        words: Label,
    },
    Path {
        spots: Spots,
        stroke: Stroke,
    },
    Marked {
        at: Spot,
        mark: Mark,
        colour: Colour,
    },
}
