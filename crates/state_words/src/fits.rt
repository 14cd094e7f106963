//! What is true of every component: its numbers fit their types. Nothing of it is done when it runs.
ghost use Rattle.std.specs.Prelude.{◌<◌, ◌^◌, All};
ghost use Rattle.state_words.specs.Fits.{IsTag, IsQueue, AreQueues, AreTurns, IfThere, IsProc, IsModule, IsLow, IsComb};

use crate::TwoWords;
use comb_switch::CombState;
use low_switch::LowState;
use mem_module::ModuleState;
use omega_net::{Queue, Tag};
use ref_proc::ProcState;

pub(crate) fn is_byte(number: u8)
    ensures { number < 2 ^ 8 }
{}

pub(crate) fn is_short(number: u16)
    ensures { number < 2 ^ 16 }
{}

pub(crate) fn is_word(number: u32)
    ensures { number < 2 ^ 32 }
{}

pub(crate) fn is_tag(tag: Tag)
    ensures { IsTag tag }
{
    is_byte(tag.proc);
    is_word(tag.issue);
}

/// The numbers of messages fit their types. Nothing is done when it runs.
pub fn all_fit<T: TwoWords>(messages: &[T])
    ensures { All T.fits messages.now }
{
    for i in 0..messages.len() {
        messages[i].fits();
    }
}

/// A queue holds such messages, at most 16.
fn is_queue<T: TwoWords>(queue: &Queue<T>)
    ensures { IsQueue T.fits queue.now }
{
    all_fit(queue.as_slice());
}

fn are_queues<T: TwoWords>(queues: &[Queue<T>; 2])
    ensures { AreQueues T.fits queues.now }
{
    is_queue(&queues[0]);
    is_queue(&queues[1]);
}

fn are_turns(turns: &[u8; 2])
    ensures { AreTurns turns.now }
{
    is_byte(turns[0]);
    is_byte(turns[1]);
}

fn is_option<T: TwoWords>(message: &Option<T>)
    ensures { IfThere T.fits message.now }
{
    match message {
        Some(message) => message.fits(),
        None => {}
    }
}

/// The numbers of a processor fit their types. Nothing is done when it runs.
pub fn is_proc(s: &ProcState)
    ensures { IsProc s.now }
{
    is_short(s.index);
    is_word(s.spent);
    is_word(s.issued);
    is_word(s.pending);
    is_option(&s.out);
    is_option(&s.got[0]);
    is_option(&s.got[1]);
}

/// The numbers of a module fit their types. Nothing is done when it runs.
pub fn is_module(s: &ModuleState)
    ensures { IsModule s.now }
{
    are_queues(&s.requests);
    are_queues(&s.replies);
}

/// The numbers of a low switch fit their types. Nothing is done when it runs.
pub fn is_low(s: &LowState)
    ensures { IsLow s.now }
{
    are_queues(&s.fwd);
    are_queues(&s.rev);
    are_turns(&s.turn);
    are_turns(&s.rturn);
}

/// The numbers of a combining switch fit their types. Nothing is done when it runs.
pub fn is_comb(s: &CombState)
    ensures { IsComb s.now }
{
    are_queues(&s.fwd);
    are_queues(&s.rev);
    is_queue(&s.wait);
    are_turns(&s.turn);
    is_byte(s.rturn);
    is_byte(s.combined);
}
