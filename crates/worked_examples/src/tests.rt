//! The worked examples, by their numbers in the list of worked examples.
//!
//! Without contention a processor's first reference is out at cycle 1, at its module at 2+k, served at
//! 3+k and answered at 4+2k.

mod claims;
mod clock;
mod combining;
mod contention;
mod costs;
mod references;
mod refusals;
mod reports;
mod sessions;
