//! Which references of a run are asked for.
ghost use Rattle.std.specs.Prelude.{◌≡◌};
ghost use Rattle.run_reports.specs.Conditions.{address_of, goes_over, is_hot_as, is_in, is_over, is_wanted, meets, page_for};

use crate::Reference;
use omega_net::{Net, ScriptEntry};
use page_map::PAGE_WORDS;

/// The address of the word that is hot in drawn loads.
pub const HOT_ADDRESS: u32 = 0;

/// The cycles from one to another, both included.
#[derive(Clone, Copy, PartialEq, Eq, Debug)]
pub struct Window {
    pub from: u32,
    pub to: u32,
}

/// Whether references are asked for that are to a word, or all others.
#[derive(Clone, Copy, PartialEq, Eq, Debug)]
pub enum Heat {
    /// To the word of this address.
    Hot(u32),
    /// To another word.
    Cold(u32),
}

/// Which references are asked for: those for which each part that is there holds.
#[derive(Clone, Copy, PartialEq, Eq, Debug)]
pub struct Condition {
    /// Issued by this processor.
    pub proc: Option<u32>,
    /// Sent over this network: those that synchronize go over the combining one.
    pub net: Option<Net>,
    /// To an address of this page.
    pub page: Option<u32>,
    /// To this address.
    pub address: Option<u32>,
    /// To a hot word, or to another one.
    pub hot: Option<Heat>,
    /// Issued in these cycles: those of the first states that show them.
    pub window: Option<Window>,
}

impl Condition {
    /// All references.
    pub const ALL: Condition = Condition {
        proc: None,
        net: None,
        page: None,
        address: None,
        hot: None,
        window: None,
    };
}

/// Whether the references of an entry go over a network.
fn goes_over(net: Net, entry: Option<ScriptEntry>) -> bool
    ensures { result ≡ goes_over net entry }
{
    match (net, entry) {
        (Net::Comb, Some(ScriptEntry::Reference { sync, .. } | ScriptEntry::Until { sync, .. })) =>
            sync,
        (Net::Low, Some(ScriptEntry::Reference { sync, .. } | ScriptEntry::Until { sync, .. })) =>
            !sync,
        (_, Some(ScriptEntry::Fence | ScriptEntry::Idle(_)) | None) => false,
    }
}

/// The address that the references of an entry are to.
fn address_of(entry: Option<ScriptEntry>) -> Option<u32>
    ensures { result ≡ address_of entry }
{
    match entry {
        Some(ScriptEntry::Reference { address, .. } | ScriptEntry::Until { address, .. }) => {
            Some(address)
        }
        Some(ScriptEntry::Fence | ScriptEntry::Idle(_)) | None => None,
    }
}

/// The page that the references of an entry are to.
fn page_for(entry: Option<ScriptEntry>) -> Option<u32>
    ensures { result ≡ page_for entry }
{
    match address_of(entry) {
        Some(address) => Some(address / PAGE_WORDS),
        None => None,
    }
}

/// Whether a number is the one that is asked for, where one is.
fn is_wanted(wanted: Option<u32>, number: Option<u32>) -> bool
    ensures { result ≡ is_wanted wanted number }
{
    match (wanted, number) {
        (None, _) => true,
        (Some(_), None) => false,
        (Some(wanted), Some(number)) => number == wanted,
    }
}

/// Whether the references of an entry go over the network that is asked for.
fn is_over(wanted: Option<Net>, entry: Option<ScriptEntry>) -> bool
    ensures { result ≡ is_over wanted entry }
{
    match wanted {
        Some(net) => goes_over(net, entry),
        None => true,
    }
}

/// Whether an address is that of the hot word, or of another one, as is asked for.
fn is_hot_as(wanted: Option<Heat>, address: Option<u32>) -> bool
    ensures { result ≡ is_hot_as wanted address }
{
    match (wanted, address) {
        (None, _) => true,
        (Some(_), None) => false,
        (Some(Heat::Hot(hot)), Some(address)) => address == hot,
        (Some(Heat::Cold(hot)), Some(address)) => address != hot,
    }
}

/// Whether a cycle is in the window that is asked for.
fn is_in(window: Option<Window>, cycle: u32) -> bool
    ensures { result ≡ is_in window cycle }
{
    match window {
        Some(window) => window.from <= cycle && cycle <= window.to,
        None => true,
    }
}

/// Whether a reference is asked for.
pub fn meets(condition: &Condition, reference: &Reference) -> bool
    ensures { result ≡ meets condition.now reference.now }
{
    is_wanted(condition.proc, Some(reference.proc))
        && is_in(condition.window, reference.issued)
        && is_over(condition.net, reference.entry)
        && is_wanted(condition.page, page_for(reference.entry))
        && is_wanted(condition.address, address_of(reference.entry))
        && is_hot_as(condition.hot, address_of(reference.entry))
}
