//! How one page is spread.
ghost use Rattle.std.specs.Prelude.{◌≡◌, ◌≤◌};
ghost use Rattle.page_map.specs.Limits.{address_count};
ghost use Rattle.page_map.specs.Pages.{is_spread};

use crate::Place;
use std::marker::Model;

/// How many words a page has.
pub const PAGE_WORDS: u32 = 256;

/// A page whose words stand on 2^amount modules from the base on.
#[derive(Clone, Copy, PartialEq, Eq, Debug)]
pub struct Page {
    amount: u8,
    base: u8,
}

impl Model for Page {
    ghost use Rattle.page_map.specs.Places.{Page};

    ghost Value = { Page };

    ghost view = { λ p. record { amount = p.amount; base = p.base } };

    ghost inverse = { λ p. record { amount = p.amount; base = p.base } };
}

impl Page {
    ghost use Rattle.std.specs.Prelude.{◌≡◌, ◌≤◌, ◌<◌, ◌+◌, ◌^◌};
    ghost use Rattle.page_map.specs.Places.{place_on};

    /// A page on 2^amount modules from the base on.
    pub fn new(amount: u8, base: u8) -> Self
        ensures amount { result.amount ≡ amount }
        ensures base { result.base ≡ base }
    {
        Page { amount, base }
    }

    pub fn amount(self) -> u8
        ensures { result ≡ self.amount }
    {
        self.amount
    }

    pub fn base(self) -> u8
        ensures { result ≡ self.base }
    {
        self.base
    }

    /// Where an address of this page stands.
    pub fn place(self, address: u32) -> Place
        requires amount { self.amount ≤ 8 }
        requires modules { self.base + 2 ^ self.amount ≤ 2 ^ 8 }
        requires address { address < address_count }
        ensures place { result ≡ place_on self address }
        ensures module { result.module < self.base + 2 ^ self.amount }
        ensures row { result.row < address_count }
    {
        let modules = 1 << self.amount;
        let offset = address % PAGE_WORDS;
        let first_row = PAGE_WORDS * (address / PAGE_WORDS);
        Place {
            module: self.base + (offset % modules) as u8,
            row: (first_row + offset / modules) as u16,
        }
    }
}

/// Whether a page of a machine with 2^k modules may have this amount and base.
pub fn fits(k: u8, amount: u32, base: u32) -> bool
    requires { k ≤ 8 }
    ensures { result ≡ is_spread k amount base }
{
    amount <= u32::from(k) && base < 1 << k && base % (1 << amount) == 0
}
