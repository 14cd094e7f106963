//! Drawings, and the documents that they are written as.
ghost use Rattle.std.specs.Prelude.{◌≡◌, ◌++◌, ◌∷◌, [], IfOk, OnOk, decimal, string_bytes};
ghost use Rattle.svg_plots.specs.Texts.{cell_text, frame_text, line_text, marked_text, opening_text, path_text, spots_text, words_text};
ghost use Rattle.svg_plots.specs.Drawings.{drawing_text, element_text, elements_text};
ghost use Rattle.svg_plots.specs.Timelines.{named};
ghost use Rattle.svg_plots.specs.declared.element.Element.TheVariants.{Cell, Frame, Line, Marked, Path, Words};

use crate::element::{Element, Label, Mark, Spot, Spots, Stroke, Writing};
use crate::{Colour, Escaped, Tenths};
use std::alloc::{AllocError, Global};
use std::fmt::Write;
use std::marker::Model;

/// Adds a straight line.
fn write_line(text: &mut String, from: Spot, to: Spot, stroke: Stroke) -> Result<(), AllocError>
    ensures { OnOk result (string_bytes text.new ≡ string_bytes text.old ++ line_text from to stroke) }
{
    let (x, y) = (Tenths(from.x), Tenths(from.y));
    let (to_x, to_y) = (Tenths(to.x), Tenths(to.y));
    writeln!(
        text,
        "<line x1=\"{x}\" y1=\"{y}\" x2=\"{to_x}\" y2=\"{to_y}\" {stroke}/>"
    )
}

/// Adds a filled rectangle.
fn write_cell(
    text: &mut String,
    at: Spot,
    width: u32,
    height: u32,
    fill: Colour,
) -> Result<(), AllocError>
    ensures { OnOk result (string_bytes text.new ≡ string_bytes text.old ++ cell_text at width height fill) }
{
    let (x, y) = (Tenths(at.x), Tenths(at.y));
    let (width, height) = (Tenths(width), Tenths(height));
    writeln!(
        text,
        "<rect x=\"{x}\" y=\"{y}\" width=\"{width}\" height=\"{height}\" fill=\"{fill}\"/>"
    )
}

/// Adds the outline of a rectangle.
fn write_frame(text: &mut String, from: Spot, to: Spot, stroke: Stroke) -> Result<(), AllocError>
    ensures { OnOk result (string_bytes text.new ≡ string_bytes text.old ++ frame_text from to stroke) }
{
    let (x, y) = (Tenths(from.x), Tenths(from.y));
    let width = Tenths(to.x.saturating_sub(from.x));
    let height = Tenths(to.y.saturating_sub(from.y));
    writeln!(
        text,
        "<rect x=\"{x}\" y=\"{y}\" width=\"{width}\" height=\"{height}\" fill=\"none\" {stroke}/>"
    )
}

/// Adds a text, whose characters are replaced where they can't stand in a document.
fn write_words(text: &mut String, at: Spot, how: Writing, words: &str) -> Result<(), AllocError>
    ensures { OnOk result (string_bytes text.new ≡ string_bytes text.old ++ words_text at how words.now) }
{
    let (x, y) = (Tenths(at.x), Tenths(at.y));
    let words = Escaped(words);
    writeln!(text, "<text x=\"{x}\" y=\"{y}\" {how}>{words}</text>")
}

/// Adds places, each with a space behind it.
fn write_spots(text: &mut String, spots: &[Spot]) -> Result<(), AllocError>
    ensures { OnOk result (string_bytes text.new ≡ string_bytes text.old ++ spots_text spots.now) }
{
    for spot in spots {
        let (x, y) = (Tenths(spot.x), Tenths(spot.y));
        write!(text, "{x},{y} ")?;
    }
    Ok(())
}

/// Adds a line through several places, none where there are fewer than two.
fn write_path(text: &mut String, spots: &[Spot], stroke: Stroke) -> Result<(), AllocError>
    ensures { OnOk result (string_bytes text.new ≡ string_bytes text.old ++ path_text spots.now stroke) }
{
    if spots.len() < 2 {
        return Ok(());
    }
    write!(text, "<polyline points=\"")?;
    write_spots(text, spots)?;
    writeln!(
        text,
        "\" fill=\"none\" stroke-linejoin=\"round\" {stroke}/>"
    )
}

/// Adds a mark.
fn write_mark(text: &mut String, at: Spot, mark: Mark, colour: Colour) -> Result<(), AllocError>
    ensures { OnOk result (string_bytes text.new ≡ string_bytes text.old ++ marked_text at mark colour) }
{
    let (x, y) = (Tenths(at.x), Tenths(at.y));
    writeln!(
        text,
        "<path d=\"M{x} {y}{mark}\" fill=\"{colour}\" stroke=\"{colour}\" stroke-width=\"1.5\"/>"
    )
}

/// Adds an element.
#[tactic(auto, unfolding(crate::specs::Drawings::element_text))]
fn write_element(text: &mut String, element: &Element) -> Result<(), AllocError>
    ensures { OnOk result (string_bytes text.new ≡ string_bytes text.old ++ element_text element.now) }
{
    match element {
        Element::Line { from, to, stroke } => write_line(text, *from, *to, *stroke),
        Element::Cell {
            at,
            width,
            height,
            fill,
        } => write_cell(text, *at, *width, *height, *fill),
        Element::Frame { from, to, stroke } => write_frame(text, *from, *to, *stroke),
        Element::Words { at, how, words } => write_words(text, *at, *how, words.as_str()),
        Element::Path { spots, stroke } => write_path(text, spots.as_slice(), *stroke),
        Element::Marked { at, mark, colour } => write_mark(text, *at, *mark, *colour),
    }
}

/// Adds elements, one after another.
fn write_elements(text: &mut String, elements: &[Element]) -> Result<(), AllocError>
    ensures { OnOk result (string_bytes text.new ≡ string_bytes text.old ++ elements_text elements.now) }
{
    for element in elements {
        write_element(text, element)?;
    }
    Ok(())
}

/// The begin of a document: a white picture of so many pixels, with a title that readers of the screen are told.
fn opening(alloc: Global, width: u16, height: u16, title: &str) -> Result<String, AllocError>
    ensures { IfOk result (λ text. string_bytes text ≡ opening_text width height title.now) }
{
    let mut text = String::new(alloc);
    writeln!(
        text,
        "<svg xmlns=\"http://www.w3.org/2000/svg\" width=\"{width}\" height=\"{height}\" viewBox=\"0 0 {width} {height}\" font-family=\"Helvetica, Arial, sans-serif\" fill=\"#1a1a1a\">"
    )?;
    let title = Escaped(title);
    writeln!(
        text,
        "<title>{title}</title>\n<rect width=\"{width}\" height=\"{height}\" fill=\"#ffffff\"/>"
    )?;
    Ok(text)
}

/// A drawing: elements, of which later ones lie over earlier ones. Contracts see their list. Each call adds one, where memory
/// isn't refused.
#[derive(Drop)]
pub struct Picture {
    alloc: Global,
    elements: Vec<Element>,
}

impl Model for Picture {
    ghost use Rattle.std.specs.Prelude.{List};
    ghost use Rattle.svg_plots.specs.declared.element.Element.{Element};

    ghost Value = { List Element };

    ghost view = { λ picture. picture.elements.items };
}

impl Picture {
    /// A drawing without elements.
    pub fn new(alloc: Global) -> Picture
        ensures { result ≡ [] }
    {
        Picture {
            alloc,
            elements: Vec::new(alloc),
        }
    }

    /// Adds an element; nothing is added where a growth was refused.
    fn add(&mut self, element: Element) -> Result<(), AllocError>
        ensures { OnOk result (self.new ≡ self.old ++ element ∷ []) }
    {
        self.elements.push(element)?;
        Ok(())
    }

    /// A straight line.
    ///
    /// # Errors
    ///
    /// Where a growth was refused. Nothing is added then.
    pub fn line(&mut self, from: Spot, to: Spot, stroke: Stroke) -> Result<(), AllocError>
        ensures { OnOk result (self.new ≡ self.old ++ Line from to stroke ∷ []) }
    {
        self.add(Element::Line { from, to, stroke })
    }

    /// A filled rectangle, by its left upper corner and its size.
    ///
    /// # Errors
    ///
    /// Where a growth was refused. Nothing is added then.
    pub fn cell(
        &mut self,
        at: Spot,
        width: u32,
        height: u32,
        fill: Colour,
    ) -> Result<(), AllocError>
        ensures { OnOk result (self.new ≡ self.old ++ Cell at width height fill ∷ []) }
    {
        self.add(Element::Cell {
            at,
            width,
            height,
            fill,
        })
    }

    /// The outline of a rectangle, by its left upper and right lower corners.
    ///
    /// # Errors
    ///
    /// Where a growth was refused. Nothing is added then.
    pub fn frame(&mut self, from: Spot, to: Spot, stroke: Stroke) -> Result<(), AllocError>
        ensures { OnOk result (self.new ≡ self.old ++ Frame from to stroke ∷ []) }
    {
        self.add(Element::Frame { from, to, stroke })
    }

    /// A text.
    ///
    /// # Errors
    ///
    /// Where a growth was refused. Nothing is added then.
    pub fn words(&mut self, at: Spot, how: Writing, words: &str) -> Result<(), AllocError>
        ensures { OnOk result (self.new ≡ self.old ++ Words at how words.now ∷ []) }
    {
        let words = Label::new(self.alloc, words)?;
        self.add(Element::Words { at, how, words })
    }

    /// A number.
    pub(crate) fn number(&mut self, at: Spot, how: Writing, number: u64) -> Result<(), AllocError>
        ensures { OnOk result (self.new ≡ self.old ++ Words at how (decimal number) ∷ []) }
    {
        let words = Label::from_string(format!(in self.alloc; "{number}")?);
        self.add(Element::Words { at, how, words })
    }

    /// A name and a number.
    pub(crate) fn named(
        &mut self,
        at: Spot,
        how: Writing,
        name: &str,
        number: u32,
    ) -> Result<(), AllocError>
        ensures { OnOk result (self.new ≡ self.old ++ Words at how (named name.now number) ∷ []) }
    {
        let words = Label::from_string(format!(in self.alloc; "{name} {number}")?);
        self.add(Element::Words { at, how, words })
    }

    /// A line through these places, which isn't written where there are fewer than two.
    ///
    /// # Errors
    ///
    /// Where a growth was refused. Nothing is added then.
    pub fn path(&mut self, spots: Vec<Spot>, stroke: Stroke) -> Result<(), AllocError>
        ensures { OnOk result (self.new ≡ self.old ++ Path spots.items stroke ∷ []) }
    {
        let spots = Spots::from_vec(spots);
        self.add(Element::Path { spots, stroke })
    }

    /// A mark with its middle at a place.
    ///
    /// # Errors
    ///
    /// Where a growth was refused. Nothing is added then.
    pub fn mark(&mut self, at: Spot, mark: Mark, colour: Colour) -> Result<(), AllocError>
        ensures { OnOk result (self.new ≡ self.old ++ Marked at mark colour ∷ []) }
    {
        self.add(Element::Marked { at, mark, colour })
    }

    /// The drawing as an SVG document: white, of so many pixels, with a title that readers of the screen are told.
    ///
    /// # Errors
    ///
    /// Where a growth was refused. What was taken is given back.
    pub fn draw(&self, width: u16, height: u16, title: &str) -> Result<String, AllocError>
        ensures { IfOk result (λ text. string_bytes text ≡ drawing_text width height title.now self.now) }
    {
        let mut text = opening(self.alloc, width, height, title)?;
        write_elements(&mut text, &self.elements)?;
        writeln!(text, "</svg>")?;
        Ok(text)
    }
}
