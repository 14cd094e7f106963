//! What is true of the machine's cells, of every project and every whole state.
ghost use Rattle.machine_cells.specs.Kept.{NoMessageIsLost};
ghost use Rattle.machine_cells.specs.Stay.{MessagesStay};
ghost use Rattle.machine_cells.specs.Runs.{StartsAreParts, CellsAreParts, RunsAreOne};
ghost use Rattle.machine_cells.specs.WordLaws.{WordsTell, WordsAreStates, WordsAreWords, HeadsTellLengths};

/// A cell's first state is its part of the machine's first states, and the step of its near states
/// is its part of the whole machine's cycle, for every whole state and not only for those that a run
/// reaches.
pub fn steps_are_parts()
    ensures starts { StartsAreParts }
    ensures steps { CellsAreParts }
{}

/// The cells of the grid, computed one from another, are the whole states of the machine's run.
pub fn runs_are_one()
    ensures { RunsAreOne }
{}

/// No message of a project's machine is lost, whatever its depths, and in every whole state: each that goes over a wire
/// stands one cycle later in the component at the wire's end, or was combined there; the reply to each request that a
/// module serves stands in its queue; and each request that was combined waits, or the reply to it is on its way back.
pub fn no_message_is_lost()
    ensures { NoMessageIsLost }
{}

/// A message that doesn't leave stays, in every whole state: each request and reply that waits and doesn't go over its wire
/// stands one cycle later at its place in its queue, or one nearer the head where the first one went, or in its processor; so does each
/// request that its module doesn't serve; a request may have gained the operation of one that was combined into it. And each entry
/// of a wait buffer waits on where no reply to its first request comes.
pub fn messages_stay()
    ensures { MessagesStay }
{}

/// Two states have the same words exactly where they are the same but for the words of a module's memory; and where those are the
/// same too, exactly where they are the same.
pub fn words_tell()
    ensures states { WordsTell }
    ensures same_memory { WordsAreStates }
{}

/// Each word of a state is below 2^64; there are as many as the head says, and at least one.
pub fn words_are_words()
    ensures fit { WordsAreWords }
    ensures lengths { HeadsTellLengths }
{}
