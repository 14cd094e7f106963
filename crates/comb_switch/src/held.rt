//! What a switch has of the messages that came to it.
ghost use Rattle.comb_switch.specs.Held.{MessagesAreHeld};

/// At depths no greater than a queue has places, where each message comes only from a sender that may send, a switch
/// has each of them one cycle later: a request in its output queue, alone or with one that was combined into it, or
/// behind the one that it was combined into, or with the reply to it on its way back; a reply in the queue of its
/// processor. And each request that was combined before still waits, or the reply to it is on its way back.
pub fn messages_are_held()
    ensures { MessagesAreHeld }
{}
