//! The names of queues.
ghost use Rattle.std.specs.Prelude.{◌≡◌};
ghost use Rattle.commands.specs.Queues.{queue_named};

use project_book::Depths;

/// The queues that a word names, which share one depth.
pub(crate) fn queue(word: &[u8]) -> Option<Depths>
    ensures { result ≡ queue_named word.now }
{
    if word == b"low-forward".as_slice() {
        Some(Depths::LowForward)
    } else if word == b"low-reverse".as_slice() {
        Some(Depths::LowReverse)
    } else if word == b"comb-forward".as_slice() {
        Some(Depths::CombForward)
    } else if word == b"comb-reverse".as_slice() {
        Some(Depths::CombReverse)
    } else if word == b"module".as_slice() {
        Some(Depths::ModuleQueue)
    } else {
        None
    }
}
