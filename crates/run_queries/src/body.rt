//! What a question is answered.
ghost use Rattle.std.specs.Prelude.{◌≡◌, Some, IfOk};
ghost use Rattle.std.specs.Arc.{arc_value};
ghost use Rattle.run_queries.specs.Texts.{received_text, body_text};
ghost use Rattle.machine_cells.specs.Texts.{state_text};

use crate::spaced::Spaced;
use grid_law::NoMemory;
use machine_cells::MachineState;
use page_map::Place;
use saturation::Tree;
use serial_order::Tags;
use std::fmt;
use std::marker::Model;
use std::sync::Arc;

/// A reply that a processor received: the cycle of the state that has it, and the word.
#[derive(Clone, Copy, PartialEq, Eq, Debug)]
pub struct Received {
    pub cycle: u32,
    pub word: u32,
}

/// `at T word W`: the cycle, then the word.
impl fmt::Display for Received {
    ghost output = { λ r. Some (received_text r) };

    fn fmt<W: fmt::Write>(&self, f: &mut fmt::Formatter<W>) -> fmt::Result {
        let Received { cycle, word } = *self;
        write!(f, "at {cycle} word {word}")
    }
}

/// A state that several may own. Contracts see the state.
pub struct SharedState {
    state: Arc<MachineState>,
}

// Not derived: whoever drops an answer calls this, and proves nothing of a state's parts anew.
impl Drop for SharedState {
    fn drop(self) {
        let SharedState { state } = self;
        drop(state);
    }
}

impl Model for SharedState {
    ghost use Rattle.std.specs.Arc.{arc_value};
    ghost use Rattle.machine_cells.specs.declared.state.MachineState.{MachineState};

    ghost Value = { MachineState };

    ghost view = { λ s. arc_value s.state };
}

impl SharedState {
    /// The state of that owner, who is taken in.
    pub fn new(state: Arc<MachineState>) -> SharedState
        ensures { result ≡ arc_value state }
    {
        SharedState { state }
    }

    pub fn state(&self) -> &MachineState
        ensures { result.now ≡ self.now }
    {
        &self.state
    }

    /// One more owner of the same state. NoMemory comes only at 2^63 - 1 owners.
    ///
    /// # Errors
    ///
    /// At 2^63 - 1 owners. Nothing is changed.
    pub fn share(&self) -> Result<SharedState, NoMemory>
        ensures { IfOk result (λ shared. shared ≡ self.now) }
    {
        Ok(SharedState {
            state: Arc::try_clone(&self.state)?,
        })
    }
}

/// What a question is answered.
#[derive(Drop)]
pub enum Body {
    /// None where the reference was issued, and its reply is not received by the horizon.
    Reply(Option<Received>),
    State(SharedState),
    Word(u32),
    /// The total of a counter.
    Count(u64),
    /// At place n, how often a queue had the length n.
    Profile([u64; 17]),
    Tree(Tree),
    Level(u8),
    /// Numerator and denominator, not reduced.
    Fraction(u64, u64),
    Place(Place),
    /// The references to a word, in their serial order.
    Order(Tags),
}

impl Body {
    /// The same answer once more: a state gets one more owner and is not copied, a tree's levels and the tags of an order are
    /// copied.
    ///
    /// # Errors
    ///
    /// Where a growth was refused, or the state has as many owners as can be counted. The answer is as
    /// before.
    pub fn share(&self) -> Result<Body, NoMemory>
        ensures { IfOk result (λ body. body ≡ self.now) }
    {
        Ok(match self {
            Body::Reply(received) => Body::Reply(*received),
            Body::State(state) => Body::State(state.share()?),
            Body::Word(word) => Body::Word(*word),
            Body::Count(count) => Body::Count(*count),
            Body::Profile(counts) => Body::Profile(*counts),
            Body::Tree(tree) => Body::Tree(tree.copied()?),
            Body::Level(level) => Body::Level(*level),
            Body::Fraction(numerator, denominator) => Body::Fraction(*numerator, *denominator),
            Body::Place(place) => Body::Place(*place),
            Body::Order(tags) => Body::Order(tags.copied()?),
        })
    }
}

/// The state's text.
impl fmt::Display for SharedState {
    ghost output = { state_text };

    fn fmt<W: fmt::Write>(&self, f: &mut fmt::Formatter<W>) -> fmt::Result {
        let state = self.state();
        write!(f, "{state}")
    }
}

/// `at T word W`, or `none` where no reply was received; a state's text; a word, a count or a level in
/// decimal; 17 numbers; a tree's text; a fraction as `N/D`; a place as `M:R`; an order as `order` and its tags.
impl fmt::Display for Body {
    ghost output = { body_text };

    fn fmt<W: fmt::Write>(&self, f: &mut fmt::Formatter<W>) -> fmt::Result {
        match self {
            Body::Reply(Some(received)) => write!(f, "{received}"),
            Body::Reply(None) => write!(f, "none"),
            Body::State(state) => write!(f, "{state}"),
            Body::Word(word) => write!(f, "{word}"),
            Body::Count(count) => write!(f, "{count}"),
            Body::Profile(counts) => {
                let counts = Spaced(counts);
                write!(f, "{counts}")
            }
            Body::Tree(tree) => write!(f, "{tree}"),
            Body::Level(level) => write!(f, "{level}"),
            Body::Fraction(numerator, denominator) => write!(f, "{numerator}/{denominator}"),
            Body::Place(place) => write!(f, "{place}"),
            Body::Order(tags) => write!(f, "{tags}"),
        }
    }
}
