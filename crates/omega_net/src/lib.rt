//! The two omega networks between 2^k processors and as many memory modules: components and their
//! numbers, wires and routes, the messages that travel, the queues that they wait in, and how all
//! of these print.
//!
//! Each network has k stages of two-by-two switches with a perfect shuffle before each stage
//! (Lawrie 1975). Having two networks, one of which combines requests, follows the RP3 (Pfister
//! and others 1985). The crate stands on `word_ops` for the operation of a request, on `page_map`
//! for its place, on `arrayvec` for near lists, and on `line_words` for the numbers in a name. Only a
//! queue in which messages wait takes memory.
//!
//! It promises model-routes. [`Shape::number`] and [`Shape::component`] are inverse to each other.
//! By the bits of [`Shape::forward_bit`] the wires lead from each processor to each module along
//! the route of lines and bits, and by those of [`Shape::reverse_bit`] back again
//! ([`routes_arrive`]). [`Shape::near`] lists a component and the far ends of its wires,
//! and a component is near each one that is near it ([`near_is_mutual`]). A component prints as the
//! name by which it is read ([`names_are_read_back`]).
#![tactic(auto)]

mod component;
mod listed;
mod message;
mod name;
mod near;
mod number;
mod queue;
mod queues;
mod route;
mod script;
mod shape;
mod wire;

pub use component::{Component, Net};
pub use listed::Listed;
pub use message::{Reply, Request, Tag, Traffic};
pub use name::{Name, names_are_read_back};
pub use near::near_is_mutual;
pub use queue::{QUEUE_PLACES, Queue};
pub use queues::{
    bit_of, free, has_room, head, join, nothing_is_lost, queue_after, rest_of, same_replies,
    same_requests, turn_after,
};
pub use route::routes_arrive;
pub use script::ScriptEntry;
pub use shape::Shape;
pub use wire::Wire;
