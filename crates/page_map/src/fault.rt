//! Why a page was not set.

use std::error::Error;
use std::fmt;

/// Why a page was not set.
#[derive(Clone, Copy, PartialEq, Eq, Debug)]
pub enum PageFault {
    /// The page is not below 64.
    BadPage,
    /// The amount is above k, or the base isn't below 2^k or no multiple of 2^amount.
    BadInterleave,
}

impl fmt::Display for PageFault {
    ghost use Rattle.std.specs.Prelude.{Some};
    ghost use Rattle.page_map.specs.Faults.{fault_text};

    ghost output = { λ fault. Some (fault_text fault) };

    fn fmt<W: fmt::Write>(&self, f: &mut fmt::Formatter<W>) -> fmt::Result {
        f.write_str(match self {
            PageFault::BadPage => "no such page",
            PageFault::BadInterleave => "no such interleaving",
        })
    }
}

impl Error for PageFault {}
