//! Colours by name.
ghost use Rattle.std.specs.Prelude.{◌≡◌, Some};
ghost use Rattle.svg_plots.specs.Colours.{colour_text, shade_text, warm_text};

use std::fmt;

/// A colour. Those from black to purple are those of Okabe and Ito (2008), which colour blindness leaves apart.
#[derive(Clone, Copy, PartialEq, Eq, Debug)]
pub enum Colour {
    /// Of frames and letters.
    Ink,
    /// Of lines between parts, and of fine lines behind curves.
    Grey,
    Pale,
    /// Of marks on dark cells.
    Light,
    Black,
    Orange,
    SkyBlue,
    Green,
    Blue,
    Vermilion,
    Purple,
    /// From white, 0, to dark blue, 16; each is darker than the one before, in print too.
    Shade(u8),
    /// From white, 0, to orange, 16; each is darker than the one before, in print too, and none so dark that a fine dark line is lost
    /// on it.
    Warm(u8),
}

/// A shade as it is written.
#[tactic(auto, unfolding(crate::specs::Colours::shade_text))]
fn shade(number: u8) -> &'static str
    ensures { result.now ≡ shade_text number }
{
    match number {
        0 => "#ffffff",
        1 => "#f1f7fc",
        2 => "#e3eef9",
        3 => "#d5e5f4",
        4 => "#c6dbef",
        5 => "#b2d3e8",
        6 => "#9ecae1",
        7 => "#85bcdc",
        8 => "#6baed6",
        9 => "#57a0ce",
        10 => "#4292c6",
        11 => "#3282be",
        12 => "#2171b5",
        13 => "#1561a9",
        14 => "#08519c",
        15 => "#084184",
        _ => "#08306b",
    }
}

/// A shade of orange as it is written.
#[tactic(auto, unfolding(crate::specs::Colours::warm_text))]
fn warm(number: u8) -> &'static str
    ensures { result.now ≡ warm_text number }
{
    match number {
        0 => "#ffffff",
        1 => "#fff6ed",
        2 => "#feecda",
        3 => "#fee3c8",
        4 => "#fedbb8",
        5 => "#fdd3a8",
        6 => "#fdc894",
        7 => "#fdbb80",
        8 => "#fdae6b",
        9 => "#fda259",
        10 => "#fd9548",
        11 => "#fc8837",
        12 => "#f77b28",
        13 => "#f26e18",
        14 => "#eb610e",
        15 => "#e25408",
        _ => "#d94801",
    }
}

#[tactic(auto, unfolding(crate::specs::Colours::colour_text))]
fn written(colour: Colour) -> &'static str
    ensures { result.now ≡ colour_text colour }
{
    match colour {
        Colour::Ink => "#1a1a1a",
        Colour::Grey => "#9a9a9a",
        Colour::Pale => "#d4d4d4",
        Colour::Light => "#ffd75e",
        Colour::Black => "#000000",
        Colour::Orange => "#e69f00",
        Colour::SkyBlue => "#56b4e9",
        Colour::Green => "#009e73",
        Colour::Blue => "#0072b2",
        Colour::Vermilion => "#d55e00",
        Colour::Purple => "#cc79a7",
        Colour::Shade(number) => shade(number),
        Colour::Warm(number) => warm(number),
    }
}

/// A colour prints as `#rrggbb`.
impl fmt::Display for Colour {
    ghost output = { λ colour. Some (colour_text colour) };

    fn fmt<W: fmt::Write>(&self, f: &mut fmt::Formatter<W>) -> fmt::Result {
        f.write_str(written(*self))
    }
}
