//! In which line of a file something stands, as far as its text shows without being parsed again.

/// A part of a file's text: what stands before the first table, a table of one name, or an item of an array of tables.
#[derive(Clone, Copy)]
pub(crate) enum Section<'a> {
    Root,
    Table(&'a str),
    /// The item of that number, from 0.
    Item(&'a str, usize),
}

/// The line, from 1, in which a key of a part stands, or else the one with which that part begins; None where it has no
/// line of its own.
pub(crate) fn line_of_key(text: &str, section: Section, key: &str) -> Option<usize> {
    let mut place = Search::new(section);
    for (number, line) in text.lines().enumerate() {
        let line = line.trim();
        place.step(line, number);
        if place.is_within && is_key(line, key) || place.is_header(line, key) {
            return number.checked_add(1);
        }
    }
    place.begin
}

/// The line, from 1, in which a text stands between quotes, at a key of a part or behind it; None where it stands in none.
pub(crate) fn line_of_text(text: &str, section: Section, key: &str, quoted: &str) -> Option<usize> {
    let mut place = Search::new(section);
    let mut is_behind = false;
    for (number, line) in text.lines().enumerate() {
        let line = line.trim();
        place.step(line, number);
        is_behind = place.is_within && (is_behind || is_key(line, key));
        if is_behind && is_quoted(line, quoted) {
            return number.checked_add(1);
        }
    }
    None
}

/// What was found of a part, line by line.
#[derive(Drop)]
struct Search<'a> {
    section: Section<'a>,
    /// How many items of the array went before.
    before: usize,
    is_within: bool,
    /// The line with which the part begins.
    begin: Option<usize>,
}

impl<'a> Search<'a> {
    fn new(section: Section<'a>) -> Search<'a> {
        Search {
            section,
            before: 0,
            is_within: matches!(section, Section::Root),
            begin: None,
        }
    }

    /// Looks at the next line, which has that number from 0.
    fn step(&mut self, line: &str, number: usize) {
        if !line.starts_with('[') {
            return;
        }
        self.is_within = self.begins(line);
        if self.is_within {
            self.begin = number.checked_add(1);
        }
    }

    /// Whether a line begins the table, or an item of the array, that stands at a key of the root.
    fn is_header(&self, line: &str, key: &str) -> bool {
        matches!(self.section, Section::Root)
            && (table_name(line) == Some(key) || item_name(line) == Some(key))
    }

    /// Whether a line that begins with a bracket begins the part.
    fn begins(&mut self, line: &str) -> bool {
        match self.section {
            Section::Root => false,
            Section::Table(name) => table_name(line) == Some(name),
            Section::Item(name, number) => {
                let is_item = item_name(line) == Some(name);
                let begins = is_item && self.before == number;
                if is_item {
                    self.before = self.before.saturating_add(1);
                }
                begins
            }
        }
    }
}

/// The name between the brackets with which a table begins.
fn table_name(line: &str) -> Option<&str> {
    let (name, _) = line.strip_prefix('[')?.split_once(']')?;
    Some(name.trim())
}

/// The name between the double brackets with which an item of an array begins.
fn item_name(line: &str) -> Option<&str> {
    table_name(line.strip_prefix('[')?)
}

fn is_key(line: &str, key: &str) -> bool {
    match line.strip_prefix(key) {
        Some(rest) => rest.trim_start().starts_with('='),
        None => false,
    }
}

/// Whether a text stands in a line between quotes.
fn is_quoted(line: &str, text: &str) -> bool {
    for part in line.split('"') {
        if part == text {
            return true;
        }
    }
    false
}
