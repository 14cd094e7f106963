//! Pictures of numbers, as SVG: curves over an axis, and maps of cells.
//!
//! [`draw_curves`] draws panels of curves side by side, [`draw_map`] rows of cells over a line of time, with a stepped line above
//! and strokes below, and [`draw_timeline`] bars in lanes. Each writes a whole SVG document as a text. They know of numbers
//! and labels alone, and of no machine. Colours are those of Okabe and Ito, which colour blindness leaves apart, each curve has
//! a mark of its own, and cells darken as they fill, so that a picture survives print in grey.
//!
//! The crate stands on nothing but `std`. It promises that a [`Scale`] places values evenly and within its ends
//! (`specs/Places.antt`), that [`tick_step`] leaves at most as many ticks as there is room for, which characters are replaced
//! and by what ([`entity`], `specs/Entities.antt`), and what each picture is: its elements, one by one (`specs/CellMaps.antt`,
//! `specs/CurvePanels.antt`, `specs/Timelines.antt`), and how each of them is written (`specs/Drawings.antt`). Each call is safe
//! on every number and text.
#![tactic(auto)]

mod colour;
mod curves;
mod element;
mod escaped;
mod histogram;
mod map;
mod picture;
mod scale;
mod styles;
mod tenths;
mod tick;
mod timeline;
mod writings;

pub use colour::Colour;
pub use curves::{Axis, Curve, Curves, Panel, Points, Whisker, Whiskers, draw_curves};
pub use element::{Anchor, Element, Label, Mark, Spot, Spots, Stroke, Writing};
pub use escaped::{Escaped, entity};
pub use histogram::{Histogram, PanelBar, draw_histogram};
pub use map::{CellGroup, CellMap, CellRow, CellRows, Cells, Crossing, ShadeKey, draw_map};
pub use picture::Picture;
pub use scale::{Scale, log2_hundredths, tick_step};
pub use styles::{labels_of, mark_of, stroke_of, ticks_between};
pub use tenths::Tenths;
pub use tick::Tick;
pub use timeline::{Band, Bar, Columns, Join, Key, Timeline, draw_timeline};
