//! How far a task is.

/// Somebody who is told how far a task is.
pub trait Progress {
    /// So many of all parts are done.
    fn tell(&mut self, done: usize, all: usize);
}

/// Somebody who isn't told.
#[derive(Clone, Copy)]
pub struct Silent;

impl Progress for Silent {
    fn tell(&mut self, done: usize, all: usize) {
        let _told = (done, all);
    }
}
