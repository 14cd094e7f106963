//! Text in a document.
ghost use Rattle.std.specs.Prelude.{◌≡◌, option_map, Some};
ghost use Rattle.std.specs.Fmt.{WritesOnOk};
ghost use Rattle.svg_plots.specs.Entities.{entity_of};
ghost use Rattle.svg_plots.specs.Texts.{escaped_text};

use std::fmt;

/// What stands for a character in the text or in an attribute of an XML document, where it can't stand itself.
pub fn entity(character: char) -> Option<&'static str>
    ensures { option_map (λ text. text.now) result ≡ entity_of character }
{
    match character {
        '&' => Some("&amp;"),
        '<' => Some("&lt;"),
        '>' => Some("&gt;"),
        '"' => Some("&quot;"),
        '\'' => Some("&#39;"),
        _ => None,
    }
}

/// A text that prints with what can't stand in a document replaced, each character by its [`entity`].
#[derive(Clone, Copy)]
pub struct Escaped<'a>(pub &'a str);

fn write_escaped<W: fmt::Write>(f: &mut fmt::Formatter<W>, text: &str) -> fmt::Result
    ensures { WritesOnOk W.write_str_gives f.old result (escaped_text text.now) f.new }
{
    for character in text.chars() {
        match entity(character) {
            Some(text) => f.write_str(text)?,
            None => f.write_char(character)?,
        }
    }
    Ok(())
}

impl fmt::Display for Escaped<'_> {
    ghost output = { λ text. Some (escaped_text text.0.now) };

    fn fmt<W: fmt::Write>(&self, f: &mut fmt::Formatter<W>) -> fmt::Result {
        write_escaped(f, self.0)
    }
}
