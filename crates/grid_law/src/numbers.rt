//! The slots of a line.
ghost use Rattle.std.specs.Prelude.{◌≡◌, ◌<◌, ◌≤◌, ◌↔◌, List, [], ◌∷◌, length, None, IsNone, IsSome, IfSome, IfOk, IsErrOf, if◌then◌else◌, ◌==◌};
ghost use Rattle.grid_law.specs.Limits.{longest_line};
ghost use Rattle.grid_law.specs.Numbers.{number_at, place_of, slot_value, slot_set};
ghost use Rattle.grid_law.specs.Rules.{Differ};
ghost use Rattle.grid_law.specs.Line.{line_rules};

use crate::Changed;
use std::alloc::{AllocError, Global};
use std::error::Error;
use std::fmt;
use std::marker::Model;

/// The greatest number of places of a line.
pub const LONGEST: usize = 64;

/// The settings of one place: its state at cycle 0, and what it adds to an odd state.
#[derive(Clone, Copy, Debug, PartialEq, Eq)]
pub struct Number {
    pub seed: u32,
    pub add: u32,
}

/// The name of one setting: the seed or the addend of a place.
#[derive(Clone, Copy, Debug, PartialEq, Eq)]
pub enum LineSlot {
    Seed(u32),
    Add(u32),
}

impl LineSlot {
    /// The place that the slot belongs to.
    pub fn place(self) -> u32
        ensures { result ≡ place_of self }
    {
        match self {
            LineSlot::Seed(c) | LineSlot::Add(c) => c,
        }
    }
}

/// Why a slot got no value.
#[derive(Clone, Copy, Debug, PartialEq, Eq)]
pub enum SlotFault {
    /// The line has no such place.
    NoSuchSlot,
    /// A growth was refused.
    Memory,
}

impl fmt::Display for SlotFault {
    ghost use Rattle.std.specs.Prelude.{Some};
    ghost use Rattle.grid_law.specs.Numbers.{fault_text};

    ghost output = { λ fault. Some (fault_text fault) };

    fn fmt<W: fmt::Write>(&self, f: &mut fmt::Formatter<W>) -> fmt::Result {
        f.write_str(match self {
            SlotFault::NoSuchSlot => "no such slot",
            SlotFault::Memory => "no memory",
        })
    }
}

impl Error for SlotFault {}

/// The slots of a line: the settings of its 1 to 64 places.
#[derive(Debug, Drop)]
pub struct Numbers {
    items: Vec<Number>,
}

impl Model for Numbers {
    ghost use Rattle.std.specs.Prelude.{◌<◌, ◌≤◌, List, length};
    ghost use Rattle.grid_law.specs.declared.numbers.Number.{Number};
    ghost use Rattle.grid_law.specs.Limits.{longest_line};

    ghost Value = { List Number };

    ghost view = { λ n. n.items.items };

    ghost invariant = { λ n. (0 < length n.items.items) × (length n.items.items ≤ longest_line) };
}

impl Numbers {
    /// The line of these places. None where there are none, or more than `LONGEST`.
    pub fn new(items: Vec<Number>) -> Option<Numbers>
        ensures fits { IsSome result ↔ ((0 < length items.items) × (length items.items ≤ longest_line)) }
        ensures value { IfSome result (λ numbers. numbers ≡ items.items) }
    {
        if items.is_empty() || items.len() > LONGEST {
            return None;
        }
        Some(Numbers { items })
    }

    /// How many places the line has, from 1 to `LONGEST`.
    pub fn count(&self) -> u32
        ensures count { result ≡ length self.now }
        ensures some { 0 < result }
        ensures few { result ≤ longest_line }
    {
        self.items.len() as u32
    }

    /// The settings of a place.
    pub fn at(&self, c: u32) -> Number
        requires { c < length self.now }
        ensures { result ≡ number_at self.now c }
    {
        self.items[c as usize]
    }

    /// The value of a slot. None where the line has no such place.
    pub fn value(&self, slot: LineSlot) -> Option<u32>
        ensures missing { IsNone result ↔ (length self.now ≤ place_of slot) }
        ensures value { IfSome result (λ value. value ≡ slot_value self.now slot) }
    {
        if slot.place() >= self.count() {
            return None;
        }
        let number = self.at(slot.place());
        Some(match slot {
            LineSlot::Seed(_) => number.seed,
            LineSlot::Add(_) => number.add,
        })
    }

    /// The line with this value in one slot, and the slots whose values differ: that one, or none
    /// where it had the value already. NoSuchSlot where the line has no such place.
    ///
    /// # Errors
    ///
    /// NoSuchSlot where the line has no such place, Memory where a growth was refused. The line is as
    /// before.
    pub fn with(
        &self,
        alloc: Global,
        slot: LineSlot,
        value: u32,
    ) -> Result<(Numbers, Changed<LineSlot>), SlotFault>
        ensures missing { IsErrOf result SlotFault.NoSuchSlot ↔ (length self.now ≤ place_of slot) }
        ensures numbers { IfOk result (λ made. made.0 ≡ slot_set self.now slot value) }
        ensures slots { IfOk result (λ made. made.1.slots.items ≡ (if slot_value self.now slot == value then [] else slot ∷ [])) }
        ensures differ { IfOk result (λ made. Differ line_rules self.now made.0 made.1.slots.items) }
        ensures horizon { IfOk result (λ made. made.1.horizon ≡ None) }
    {
        let Some(had) = self.value(slot) else {
            return Err(SlotFault::NoSuchSlot);
        };
        let slots = listed(alloc, slot, had != value)?;
        let mut next = self.copied(alloc)?;
        next.set(slot, value);
        Ok((
            next,
            Changed {
                slots,
                horizon: None,
            },
        ))
    }

    /// An equal line.
    pub(crate) fn copied(&self, alloc: Global) -> Result<Numbers, AllocError>
        ensures { IfOk result (λ numbers. numbers ≡ self.now) }
    {
        Ok(Numbers {
            items: Vec::from_slice(alloc, &self.items)?,
        })
    }

    fn set(&mut self, slot: LineSlot, value: u32)
        requires { place_of slot < length self.old }
        ensures { self.new ≡ slot_set self.old slot value }
    {
        match slot {
            LineSlot::Seed(c) => self.items[c as usize].seed = value,
            LineSlot::Add(c) => self.items[c as usize].add = value,
        }
    }
}

/// The slot where it differs, or nothing.
fn listed(alloc: Global, slot: LineSlot, differs: bool) -> Result<Vec<LineSlot>, AllocError>
    ensures { IfOk result (λ slots. slots.items ≡ (if differs then slot ∷ [] else [])) }
{
    let mut slots = Vec::new(alloc);
    if differs {
        slots.push(slot)?;
    }
    Ok(slots)
}

impl From<AllocError> for SlotFault {
    ghost use Rattle.grid_law.specs.declared.numbers.SlotFault.TheVariants.{Memory};

    ghost from_gives = { λ _ fault. fault ≡ Memory };

    fn from(_error: AllocError) -> SlotFault {
        SlotFault::Memory
    }
}
