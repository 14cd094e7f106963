//! What a project lists of its first words.

use page_map::ADDRESSES;
use project_book::{FirstWord, Project};

/// Whether a project's first words are these, and 0 elsewhere.
pub fn has_words(project: &Project, listed: &[FirstWord]) -> bool {
    for address in 0..ADDRESSES {
        let mut word = 0;
        for first in listed {
            if first.address == address {
                word = first.word;
            }
        }
        if project.word(address) != word {
            return false;
        }
    }
    true
}
