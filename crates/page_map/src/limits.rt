//! The limits of a memory, as the crate's constants and as its contracts have them.
ghost use Rattle.std.specs.Prelude.{◌≡◌};
ghost use Rattle.page_map.specs.Limits.{max_k, page_count, page_words, address_count};

use crate::{ADDRESSES, MAX_K, PAGE_WORDS, PAGES};

/// Each constant is the number that contracts speak of.
pub fn constants_are_limits()
    ensures k { MAX_K ≡ max_k }
    ensures pages { PAGES ≡ page_count }
    ensures words { PAGE_WORDS ≡ page_words }
    ensures addresses { ADDRESSES ≡ address_count }
{}
