//! The key `page`.
ghost use Rattle.std.specs.Prelude.{◌≡◌, codes, ◌≤◌, Ok, Err, MatchResult, IfOk};
ghost use Rattle.toml.specs.View.{view, array_view, table_view};
ghost use Rattle.page_map.specs.Limits.{max_k};
ghost use Rattle.page_map.specs.Pages.{whole_pages};
ghost use Rattle.project_file.specs.Fields.{Reads, optional, walk};
ghost use Rattle.project_file.specs.Pages.{pages_in, with_page_item, with_page_of, no_pages};

use crate::fault::ProjectFault;
use crate::fields::{check, find, number_at, refuse_others};
use crate::items::{Array, table_in, tables_in};
use page_map::{PAGES, PageMap};
use toml::{Table, Value};

pub(crate) const KEYS: [&str; 3] = ["number", "amount", "base"];

/// Which pages were given, and the pages as they are spread so far.
#[derive(Clone, Copy)]
pub(crate) struct GivenPages {
    pub(crate) given: [bool; PAGES as usize],
    pages: PageMap,
}

/// The pages of a project's root, in a machine of 2^k modules.
pub(crate) fn read_pages(root: &Table, k: u32) -> Result<PageMap, ProjectFault>
    requires { k ≤ max_k }
    ensures pages { result ≡ optional (codes "page") (pages_in k) (whole_pages k) (table_view root.now) }
    ensures k { IfOk result (λ m. m.k ≡ k) }
{
    match find(root, "page") {
        Some(value) => pages_in(value, k),
        None => Ok(PageMap::new(k)),
    }
}

fn pages_in(value: &Value, k: u32) -> Result<PageMap, ProjectFault>
    requires { k ≤ max_k }
    ensures pages { result ≡ pages_in k (view value.now) }
    ensures k { IfOk result (λ m. m.k ≡ k) }
{
    let array = tables_in(value)?;
    let all = GivenPages::new(k).with_items(array)?;
    Ok(all.pages)
}

impl GivenPages {
    #[tactic(auto, unfolding(crate::specs::Pages::no_pages))]
    pub(crate) fn new(k: u32) -> GivenPages
        requires { k ≤ max_k }
        ensures none { result ≡ no_pages k }
        ensures k { result.pages.k ≡ k }
    {
        GivenPages {
            given: [false; PAGES as usize],
            pages: PageMap::new(k),
        }
    }

    fn with_items(self, array: &Array) -> Result<GivenPages, ProjectFault>
        ensures items { Reads (λ p. p) result (walk with_page_item self (array_view array.now)) }
        ensures k { IfOk result (λ p. p.pages.k ≡ self.pages.k) }
    {
        let mut so_far = self;
        'items: for item in array {
            so_far.add_item(item)?;
        }
        Ok(so_far)
    }

    pub(crate) fn add_item(&mut self, item: &Value) -> Result<(), ProjectFault>
        ensures item { MatchResult result (λ _. with_page_item self.old (view item.now) ≡ Ok self.new) (λ fault. with_page_item self.old (view item.now) ≡ Err fault) }
        ensures k { self.new.pages.k ≡ self.old.pages.k }
    {
        let table = table_in(item)?;
        refuse_others(table, &KEYS)?;
        self.add(table)
    }

    fn add(&mut self, table: &Table) -> Result<(), ProjectFault>
        ensures item { MatchResult result (λ _. with_page_of self.old (table_view table.now) ≡ Ok self.new) (λ fault. with_page_of self.old (table_view table.now) ≡ Err fault) }
        ensures k { self.new.pages.k ≡ self.old.pages.k }
    {
        let page = number_at(table, "number", 0, PAGES - 1)?;
        let is_new = !self.given[page as usize];
        check(is_new, ProjectFault::Twice)?;
        let amount = number_at(table, "amount", 0, u32::MAX)?;
        let base = number_at(table, "base", 0, u32::MAX)?;
        match self.pages.set(page, amount, base) {
            Ok(()) => {
                self.given[page as usize] = true;
                Ok(())
            }
            Err(_) => Err(ProjectFault::Range),
        }
    }
}
