//! Words.
ghost use Rattle.std.specs.Prelude.{◌≡◌, ◌∷◌, [], MatchOption, not, position};
ghost use Rattle.line_words.specs.Words.{is_separator, words_of};

/// The first word of a line and what stands behind it, or None where the line has no word.
///
/// One pass over the bytes up to the word's end.
pub fn split_word(line: &[u8]) -> Option<(&[u8], &[u8])>
    ensures { MatchOption result (words_of line.now ≡ []) (λ p. words_of line.now ≡ p.0.now ∷ words_of p.1.now) }
{
    match word_start(line) {
        None => None,
        Some(start) => {
            let word = line.split_at(start).1;
            let end = word_end(word);
            Some(word.split_at(end.unwrap_or(word.len())))
        }
    }
}

/// Where the first word begins.
fn word_start(line: &[u8]) -> Option<usize>
    ensures { result ≡ position (λ b. not (is_separator b)) line.now }
{
    line.iter().position(|b| !separates(*b))
}

/// Where the first separator stands.
fn word_end(word: &[u8]) -> Option<usize>
    ensures { result ≡ position is_separator word.now }
{
    word.iter().position(|b| separates(*b))
}

fn separates(byte: u8) -> bool
    ensures { result ≡ is_separator byte }
{
    byte == b' ' || byte == b'\t' || byte == b'\r'
}
