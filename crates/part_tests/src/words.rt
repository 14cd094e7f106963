//! Words and numbers as the command language's rules list them.
use expect::equal;
use line_words::{number, split_word};

#[test]
fn words_stand_between_separators(rt: HostRuntime) {
    let line = b"\t word  0\t11 \r".as_slice();
    let mut rest = line;
    for want in [b"word".as_slice(), b"0".as_slice(), b"11".as_slice()] {
        match split_word(rest) {
            Some((word, behind)) => {
                assert!(rt; word == want);
                rest = behind;
            }
            None => assert!(rt; false),
        }
    }
    assert!(rt; split_word(rest).is_none());
    assert!(rt; split_word(b"".as_slice()).is_none());
}

#[test]
fn numbers_have_up_to_ten_digits_and_32_bits(rt: HostRuntime) {
    // Eleven digits are none, even with leading zeros; 2^32 is past the last value; a sign is no digit.
    assert!(rt; equal(&rt, number(b"0".as_slice()), Some(0)));
    assert!(rt; equal(&rt, number(b"0000000007".as_slice()), Some(7)));
    assert!(rt; equal(&rt, number(b"4294967295".as_slice()), Some(4_294_967_295)));
    assert!(rt; equal(&rt, number(b"4294967296".as_slice()), None));
    assert!(rt; equal(&rt, number(b"00000000007".as_slice()), None));
    assert!(rt; equal(&rt, number(b"-1".as_slice()), None));
    assert!(rt; equal(&rt, number(b"".as_slice()), None));
}
