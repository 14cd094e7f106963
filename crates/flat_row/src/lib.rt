//! The whole machine a cycle at a time: a flat row of all its states, and what it stands on.
//!
//! A line of a network is named by its label, which is the line before a stage rotated right by the stage among k bits
//! (Lawrie 1975 describes the shuffle that this undoes). A stage then joins the same two labels before and behind it, which
//! differ in the bit by which it decides. So what a whole stage decides is a few words of 64 bits, a bit for each label. The crate
//! stands on the definitions of `machine_cells` and on those of the four components, and on the words of `state_words`.
//!
//! It promises, so far:
//! - Lines and labels name each other ([`labels_name`], `specs/Labels.antt`).
//! - A [`Level`] has a queue for each label, and its [`Marks`] are those of what each queue shows ([`Level::marks`],
//!   `specs/Queues.antt`); [`Level::take`], [`Level::give`] and [`Level::set`] change one queue alone, [`Level::follow`]
//!   what all queues are asked. None takes memory.
//! - [`decided_apart`], [`decided_together`] and [`served_by_turns`] decide label by label as the machine's rules say
//!   (`specs/Decisions.antt`).
//! - On every project and every whole state: where marks and turns are those of the state, the labels that leave are those of the
//!   wires over which a message moves ([`stages_decide`], [`ends_decide`], `specs/Shows.antt`); so, of every row that is such a state
//!   by levels and labels, the heads at those labels are what moves ([`rows_decide`], [`rows_turn`], `specs/Rows.antt`).
//! - A [`Row`] is a whole state of a project's machine by levels, labels and sets of labels (`states_of`, `IsRowOf`,
//!   `specs/Row.antt`). [`Row::start`] is the first states, [`Row::read`] gives a component's state, and [`Row::step`] makes of it the
//!   row whose states are `cycle` of those before: a third way to say the machine, beside the definition and the components that pull.
//! - A step answers which components may be other ones than before ([`Changed`], `specs/Changed.antt`): outside of these sets each is
//!   as it was, and where they are empty the whole machine stands still. It tells exactly which modules have other words of memory.
//! - [`Row::follow`] keeps the states of a row under another project of as many processors (`specs/Follow.antt`), and takes no memory.
//! - [`Row::words`] appends the words of a component's state straight from the arrays, as `state_words` writes them (`words_of`),
//!   [`Row::first_word`] answers the first of them, and [`Row::load`] puts the state that has these words in the place of a component's, and takes no memory (`CanHold`,
//!   `specs/Loading.antt`); [`Row::set_memory`] does so with a module's memory. All other states stay.
//! - [`Row::next_words`] appends the words of one component a cycle later, and the row stays: only what it holds of the components near
//!   that one matters (`next_state`, `specs/Next.antt`).
//! - A step passes over the processors that rest: those that stay as they are until a reply comes or what they show leaves (`Rests`).
//!   Where all rest and nothing waits the row is its own successor (`IsIdle`, `specs/Idle.antt`), and a step does nothing.
//!
//! A step takes no memory but where a module keeps a word more. Where that was refused the row is no state of its machine any more.
#![tactic(auto)]

mod acting;
mod bits;
mod changed;
mod combining;
mod crossing;
mod decide;
mod encode;
mod follow;
mod heads;
mod idle;
mod labels;
mod laws;
mod leaving;
mod level;
mod load;
mod looks;
mod marks;
mod moving;
mod next;
mod pairs;
mod queue;
mod read;
mod reading;
mod row;
mod same;
mod serving;
mod side;
mod sides;
mod stages;
mod step;
mod told;
mod waits;
mod words;

pub use changed::Changed;
pub use decide::{Decided, Heads, Room, Served, decided_apart, decided_together, served_by_turns};
pub use labels::{label_of, labels_name, line_of};
pub use laws::{ends_decide, rows_decide, rows_turn, stages_decide};
pub use level::Level;
pub use marks::{Marks, Routed, Rule, Shown, shown_by, with_shown};
pub use next::Beside;
pub use queue::Places;
pub use row::Row;
pub use same::can_hold;
