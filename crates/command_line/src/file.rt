//! The bytes of a project file.
ghost use Rattle.std.specs.Prelude.{◌≡◌, IfOk, IfSome, take};

use std::alloc::Global;
use std::io::{Read, Result};
use std::rt::Files;
use std::{fs, io};

/// How many bytes are read at most: one more than a project file may have, so that their number tells one too long.
pub const MOST_BYTES: u64 = 67_108_865;

/// All that a reader has left, but at most `MOST_BYTES` of it.
///
/// # Errors
///
/// Where the reader failed, or a growth was refused.
pub fn read_bytes<R: Read + Drop>(alloc: Global, reader: R) -> Result<Vec<u8>>
    ensures { IfOk result (λ bytes. IfSome (R.remaining reader) (λ all. bytes.items ≡ take MOST_BYTES all)) }
{
    let mut bytes = Vec::new(alloc);
    match reader.take(MOST_BYTES).read_to_end(&mut bytes) {
        Ok(_) => Ok(bytes),
        Err(fault) => Err(fault),
    }
}

/// The bytes of the file of that name, but at most `MOST_BYTES`.
///
/// # Errors
///
/// Where it can't be opened or read, or a growth was refused.
pub fn read_file<R: Files + AllocGlobal>(rt: &R, name: &str) -> Result<Vec<u8>> {
    read_bytes(rt.alloc(), fs::open(rt, name)?)
}
