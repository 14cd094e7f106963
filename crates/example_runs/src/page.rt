//! What a page shows: commands, and what they print.

use std::alloc::Global;
use std::fmt;
use std::str::from_utf8;

/// The programs whose commands are played.
#[derive(Clone, Copy, PartialEq, Eq, Debug)]
pub enum Program {
    Hotspot,
    Lab,
}

/// A command, what is typed at its program, and what it prints.
#[derive(Drop)]
pub struct Session {
    pub program: Program,
    /// What stands behind the program's name, but for a here-document.
    pub words: String,
    pub typed: Vec<u8>,
    pub printed: Vec<u8>,
}

/// Prints as its line of the page.
impl fmt::Display for Session {
    fn fmt<W: fmt::Write>(&self, f: &mut fmt::Formatter<W>) -> fmt::Result {
        match self.program {
            Program::Hotspot => write!(f, "./hotspot{}", self.words),
            Program::Lab => write!(f, "./lab{}", self.words),
        }
    }
}

/// What a line of a page is.
#[derive(Clone, Copy, PartialEq, Eq, Debug)]
enum Part {
    /// The page's own text, or the line that opens a block.
    Prose,
    /// For a shell.
    Shell,
    /// Typed at the program that the line above began.
    Here,
    /// Typed at the last session, as it goes on.
    More,
    /// Printed.
    Printed,
    /// Of a block that isn't played.
    Other,
}

/// The sessions of a page, as docs/CONTRIBUTING.md says how they stand in it. None where the page isn't UTF-8, lines to type or
/// to print stand above the first, or memory is wanting.
pub fn sessions(alloc: Global, page: &[u8]) -> Option<Vec<Session>> {
    let text = from_utf8(page).ok()?;
    let mut found = Vec::new(alloc);
    let mut part = Part::Prose;
    for line in text.lines() {
        part = taken(alloc, &mut found, part, line)?;
    }
    Some(found)
}

/// Takes a line, and returns what the next one is.
fn taken(alloc: Global, found: &mut Vec<Session>, part: Part, line: &str) -> Option<Part> {
    match part {
        Part::Prose => return Some(opened(line)),
        Part::Here if line == "END" => return Some(Part::Shell),
        Part::Here => add(&mut found.last_mut()?.typed, line)?,
        _ if line.starts_with("```") => return Some(Part::Prose),
        Part::Shell => return begun(alloc, found, line),
        Part::More => add(&mut found.last_mut()?.typed, line)?,
        Part::Printed => add(&mut found.last_mut()?.printed, line)?,
        Part::Other => {}
    }
    Some(part)
}

/// What stands below a line of the page's own.
fn opened(line: &str) -> Part {
    match line {
        "```sh" => Part::Shell,
        "```more" => Part::More,
        "```text" => Part::Printed,
        _ if line.starts_with("```") => Part::Other,
        _ => Part::Prose,
    }
}

/// Begins a session with a line for a shell, where it is a command of ours.
fn begun(alloc: Global, found: &mut Vec<Session>, line: &str) -> Option<Part> {
    let Some((program, words)) = command(line) else {
        return Some(Part::Shell);
    };
    let here = words.strip_suffix(" <<'END'");
    let session = Session {
        program,
        words: String::from_str(alloc, here.unwrap_or(words)).ok()?,
        typed: Vec::new(alloc),
        printed: Vec::new(alloc),
    };
    found.push(session).ok()?;
    Some(if here.is_some() {
        Part::Here
    } else {
        Part::Shell
    })
}

/// The program that a line for a shell begins with, and the words behind it.
fn command(line: &str) -> Option<(Program, &str)> {
    if let Some(words) = line.strip_prefix("./hotspot") {
        return Some((Program::Hotspot, words));
    }
    let words = line.strip_prefix("./lab")?;
    Some((Program::Lab, words))
}

fn add(lines: &mut Vec<u8>, line: &str) -> Option<()> {
    lines.extend_from_slice(line.as_bytes()).ok()?;
    lines.push(b'\n').ok()
}

/// The words of a command; what stands between single quotes is one.
pub fn words<'a>(alloc: Global, command: &'a str) -> Option<Vec<&'a str>> {
    let mut found = Vec::new(alloc);
    let mut is_quoted = false;
    for part in command.split('\'') {
        if is_quoted {
            found.push(part).ok()?;
        } else {
            add_words(&mut found, part)?;
        }
        is_quoted = !is_quoted;
    }
    Some(found)
}

fn add_words<'a>(found: &mut Vec<&'a str>, part: &'a str) -> Option<()> {
    for word in part.split_whitespace() {
        found.push(word).ok()?;
    }
    Some(())
}
