//! Numbers.
ghost use Rattle.std.specs.Prelude.{◌≡◌, true};
ghost use Rattle.std.specs.List.{list_all};
ghost use Rattle.std.specs.Char.{is_ascii_digit};
ghost use Rattle.line_words.specs.Numbers.{are_digits, number_of, value_after};

/// The value of a word of 1 to 10 decimal digits, or None where it is none or is above 4,294,967,295.
pub fn number(word: &[u8]) -> Option<u32>
    ensures { result ≡ number_of word.now }
{
    if !is_digits(word) {
        return None;
    }
    let value = digits_value(word);
    if value > u64::from(u32::MAX) {
        return None;
    }
    Some(value as u32)
}

/// Whether the word is 1 to 10 decimal digits.
fn is_digits(word: &[u8]) -> bool
    ensures { result ≡ are_digits word.now }
{
    !word.is_empty() && word.len() <= 10 && all_digits(word)
}

fn all_digits(word: &[u8]) -> bool
    ensures { result ≡ list_all is_ascii_digit word.now }
{
    word.iter().all(|b| b.is_ascii_digit())
}

/// The value of decimal digits.
fn digits_value(word: &[u8]) -> u64
    requires { are_digits word.now ≡ true }
    ensures { result ≡ value_after 0 word.now }
{
    let mut value = 0;
    for digit in word {
        value = value * 10 + u64::from(*digit - b'0');
    }
    value
}
