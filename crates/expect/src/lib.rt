//! What a test expects, as facts to assert: `assert!(rt; equal(&rt, found, wanted))`. A proof follows each step of a function
//! with all that is held there. These calls are one step each, and take half of the proof that `assert_eq!` takes in their
//! place; the file and the line of a failure are told by `assert!`.
#![tactic(auto)]

ghost use Rattle.std.specs.Prelude.{◌≡◌};

use std::fmt::Debug;
use std::io::Eprint;

/// Whether both are equal. Where they aren't, both are shown on standard error.
#[must_use]
pub fn equal<R: Eprint, T: PartialEq + Debug + Drop>(rt: &R, found: T, wanted: T) -> bool
    ensures { result ≡ T.eq found wanted }
{
    let same = found == wanted;
    if !same {
        let _ = eprintln!(rt; "found: {found:?}\nwanted: {wanted:?}");
    }
    same
}

/// The same for a row of a table, which is shown too.
#[must_use]
pub fn equal_at<R: Eprint, W: Debug + Drop, T: PartialEq + Debug + Drop>(
    rt: &R,
    row: W,
    found: T,
    wanted: T,
) -> bool
    ensures { result ≡ T.eq found wanted }
{
    let same = equal(rt, found, wanted);
    if !same {
        let _ = eprintln!(rt; "at: {row:?}");
    }
    same
}
