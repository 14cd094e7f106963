//! What a processor's script says.
use word_ops::Op;

/// A line of a processor's script.
#[derive(Clone, Copy, PartialEq, Eq, Debug)]
pub enum ScriptEntry {
    /// Issued so many times, whatever is answered.
    Reference {
        sync: bool,
        op: Op,
        address: u32,
        times: u32,
    },
    /// Issued until a reply has the word `value`, each time after the reply to the one before, and so many times at most.
    Until {
        sync: bool,
        op: Op,
        address: u32,
        value: u32,
        times: u32,
    },
    /// Waits until every reference was answered.
    Fence,
    /// Waits for so many turns.
    Idle(u32),
}
