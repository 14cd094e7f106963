//! The map from addresses to places.
ghost use Rattle.std.specs.Prelude.{◌≤◌};
ghost use Rattle.page_map.specs.Limits.{max_k, page_count, address_count};

use crate::page::{PAGE_WORDS, Page, fits};
use crate::{PageFault, Place};
use std::marker::Model;

/// How many pages there are.
pub const PAGES: u32 = 64;

/// How many addresses there are: those from 0 to 16,383.
pub const ADDRESSES: u32 = 16_384;

/// The greatest k: a machine has 2^k modules.
pub const MAX_K: u32 = 6;

const PAGES_HELD: usize = PAGES as usize;

/// How each of the 64 pages is spread over 2^k modules, chosen page by page as on the RP3 (Pfister
/// and others 1985). It is 129 bytes, and takes no memory.
#[derive(Clone, Copy, PartialEq, Eq, Debug)]
pub struct PageMap {
    k: u8,
    pages: [Page; PAGES_HELD],
}

impl Model for PageMap {
    ghost use Rattle.page_map.specs.Pages.{Pages, IsPageMap};

    ghost Value = { Pages };

    ghost view = { λ m. record { k = m.k; pages = m.pages } };

    ghost invariant = { λ m. IsPageMap (record { k = m.k; pages = m.pages }) };

    ghost inverse = { λ m. record { k = m.k; pages = m.pages } };
}

impl PageMap {
    ghost use Rattle.std.specs.Prelude.{◌≡◌, ◌≢◌, ℕ, ◌+◌, ◌<◌, ◌≤◌, ◌^◌, ◌↔◌, IfSome, IsNone, OnOk, OnErr, MatchResult, option_map};
    ghost use Rattle.page_map.specs.Places.{Page};
    ghost use Rattle.page_map.specs.Pages.{IsPageMap, whole_pages, page_in, page_of, place_in, page_fault, with_page};

    /// The map with every page spread over all 2^k modules.
    pub fn new(k: u32) -> Self
        requires { k ≤ max_k }
        ensures { result ≡ whole_pages k }
    {
        let k = k as u8;
        PageMap {
            k,
            pages: [Page::new(k, 0); PAGES_HELD],
        }
    }

    /// There are 64 pages, each spread within the modules. This is so of every map, and no work is done.
    pub fn is_page_map(&self)
        ensures { IsPageMap self.now }
    {
        let _ = &self.k;
    }

    /// Where an address stands; None exactly from 16,384 on.
    ///
    /// An address at offset o of page g, which has that amount and base, stands in module
    /// base + o mod 2^amount, row 256 g + o div 2^amount. No other address stands there.
    pub fn place(&self, address: u32) -> Option<Place>
        ensures place { result ≡ place_in self.now address }
        ensures within { IfSome result (λ p. (p.module < 2 ^ self.now.k) × (p.row < address_count)) }
        ensures alone { IfSome result (λ p. (other : ℕ) → place_in self.now other ≡ Some p → other ≡ address) }
    {
        if address < ADDRESSES {
            Some(self.page_at(address / PAGE_WORDS).place(address))
        } else {
            None
        }
    }

    /// The amount and base of a page; None exactly from 64 on.
    pub fn page(&self, page: u32) -> Option<(u32, u32)>
        ensures outside { IsNone result ↔ (page_count ≤ page) }
        ensures page { result ≡ option_map (λ p. (p.amount, p.base)) (page_in self.now page) }
    {
        let page = self.pages.get(page as usize)?;
        Some((u32::from(page.amount()), u32::from(page.base())))
    }

    /// A page that is there.
    fn page_at(&self, page: u32) -> Page
        requires { page < page_count }
        ensures page { result ≡ page_of self.now page }
        ensures small { self.now.k ≤ max_k }
        ensures amount { result.amount ≤ self.now.k }
        ensures room { result.base + 2 ^ result.amount ≤ 2 ^ self.now.k }
    {
        self.pages[page as usize]
    }

    /// Spreads a page over 2^amount modules from the base on.
    ///
    /// # Errors
    ///
    /// BadPage from page 64 on. Else BadInterleave where the amount is above k, or the base isn't
    /// below 2^k or isn't a multiple of 2^amount. The map is then as before.
    pub fn set(&mut self, page: u32, amount: u32, base: u32) -> Result<(), PageFault>
        ensures fault { MatchResult result (λ _. page_fault self.old page amount base ≡ None) (λ fault. page_fault self.old page amount base ≡ Some fault) }
        ensures ok { OnOk result (self.new ≡ with_page self.old page (record { amount = amount; base = base })) }
        ensures others { OnOk result ((g : ℕ) → g ≢ page → page_in self.new g ≡ page_in self.old g) }
        ensures err { OnErr result (self.new ≡ self.old) }
    {
        if page >= PAGES {
            return Err(PageFault::BadPage);
        }
        if !fits(self.k, amount, base) {
            return Err(PageFault::BadInterleave);
        }
        self.pages[page as usize] = Page::new(amount as u8, base as u8);
        Ok(())
    }
}
