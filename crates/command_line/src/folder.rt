//! Where project files are read by name.
ghost use Rattle.std.specs.Prelude.{◌≡◌, ℕ, List, Option, Some, None, IfOk, OnErr};

use crate::file::read_file;
use std::io::Result;
use std::rt::Files;

/// Where files are read by name.
pub trait Folder {
    /// What reading the file of a name may give: its bytes, or None where it can't be read.
    ghost gives: { Self → List ℕ → Option (List ℕ) → Type 0 };

    /// The bytes of the file of that name, but at most `MOST_BYTES`.
    ///
    /// # Errors
    ///
    /// Where it can't be opened or read, or a growth was refused.
    fn read(&self, name: &str) -> Result<Vec<u8>>
        ensures bytes { IfOk result (λ bytes. gives self.now name.now (Some bytes.items)) }
        ensures none { OnErr result (gives self.now name.now None) };
}

/// The files of the host. What they hold no contract can say.
#[derive(Drop)]
pub struct Disk<'a, R> {
    host: &'a R,
}

impl<'a, R: Files + AllocGlobal> Disk<'a, R> {
    /// The files of this host.
    pub fn new(host: &'a R) -> Self
        ensures { result.host.now ≡ host.now }
    {
        Disk { host }
    }
}

impl<R: Files + AllocGlobal> Folder for Disk<'_, R> {
    ghost gives = { λ _ _ _. Unit {0} };

    fn read(&self, name: &str) -> Result<Vec<u8>> {
        read_file(self.host, name)
    }
}
