//! What single states say to a query.
ghost use Rattle.std.specs.Prelude.{◌≡◌, Option, None};
ghost use Rattle.std.specs.Option.{option_copied};
ghost use Rattle.run_queries.specs.Answers.{has_sent, word_for, word_got, word_in};

use machine_cells::MachineState;
use omega_net::Reply;

/// Whether the state is that of a processor that issued a reference in the last step.
pub fn has_sent(state: Option<&MachineState>) -> bool
    ensures { result ≡ has_sent (option_copied state.entry) }
{
    match state {
        Some(MachineState::Proc(proc)) => proc.sent,
        _ => false,
    }
}

/// The word that a processor received for its reference of that issue number in the last step, if it did.
pub fn word_got(state: Option<&MachineState>, issue: u32) -> Option<u32>
    ensures { result ≡ word_got issue (option_copied state.entry) }
{
    match state {
        Some(MachineState::Proc(proc)) => {
            word_for(proc.got[0], issue).or(word_for(proc.got[1], issue))
        }
        _ => None,
    }
}

/// The word with which a message answers that issue number, if it does.
fn word_for(message: Option<Reply>, issue: u32) -> Option<u32>
    ensures { result ≡ word_for issue message }
{
    match message {
        Some(reply) if reply.tag.issue == issue => Some(reply.word),
        _ => None,
    }
}

/// The word in a row of a module's state; 0 where the state is no module's.
pub fn word_in(state: Option<&MachineState>, row: u16) -> u32
    ensures { result ≡ word_in (option_copied state.entry) row }
{
    match state {
        Some(MachineState::Module(holder)) => holder.word(row),
        _ => 0,
    }
}
