//! The line that has begun, in bounded memory.
ghost use Rattle.std.specs.Prelude.{◌≡◌, ◌≢◌, ℕ, List, ◌∷◌, ◌++◌, [], false};
ghost use Rattle.bench_shell.specs.Steps.{Holds};

use arrayvec::ArrayVec;

/// The longest line that is read as a command.
pub const LONGEST: usize = 4096;

/// What has come of a line: its bytes, or that it is too long.
#[derive(Drop)]
pub struct Held {
    pub bytes: ArrayVec<u8, LONGEST>,
    pub is_long: bool,
}

impl Held {
    pub fn new() -> Self
        ensures bytes { result.bytes.items ≡ [] }
        ensures is_long { result.is_long ≡ false }
    {
        Held {
            bytes: ArrayVec::new(),
            is_long: false,
        }
    }

    pub fn clear(&mut self)
        ensures bytes { self.new.bytes.items ≡ [] }
        ensures is_long { self.new.is_long ≡ false }
    {
        self.bytes.clear();
        self.is_long = false;
    }

    /// Takes one byte more of the line.
    pub fn hold(&mut self, byte: u8)
        requires { byte ≢ 10 }
        ensures { (line : List ℕ) → Holds self.old.is_long self.old.bytes.items line
            → Holds self.new.is_long self.new.bytes.items (line ++ byte ∷ []) }
    {
        match self.bytes.try_push(byte) {
            Ok(()) => {}
            Err(_) => self.is_long = true,
        }
    }
}
