//! A combining switch beside the row, in which messages meet.
ghost use Rattle.std.specs.Prelude.{◌≡◌, ◌≢◌, ◌+◌, ◌<◌, ◌≤◌, ◌^◌, ◌++◌, length, OnOk, OnErr, IfOk};
ghost use Rattle.omega_net.specs.Limits.{queue_places};
ghost use Rattle.omega_net.specs.Ports.{message_at, queue_at};
ghost use Rattle.comb_switch.specs.CombSwitch.{arrives, returns_to};
ghost use Rattle.state_words.specs.Fits.{IsQueue, IsReply, IsRequest, IsWaiting};
ghost use Rattle.flat_row.specs.Combining.{IsFirstPort, meeting, splitting};
ghost use Rattle.flat_row.specs.Next.{nothing_aside, plain_rule};
ghost use Rattle.flat_row.specs.Parts.{parts_words};
ghost use Rattle.flat_row.specs.Row.{combined_of, wait_of};

use crate::bits::bit_in;
use crate::combining::{arrives, returns_to};
use crate::encode::write_parts;
use crate::level::{Level, empty_queues};
use crate::marks::{Rule, with_mark};
use crate::waits::Waits;
use comb_switch::{CombSettings, Waiting};
use omega_net::{Reply, Request};
use state_words::all_fit;
use std::alloc::{AllocError, Global};
use std::marker::Model;

/// Queues and a wait buffer for each label, in which [`Row::next_words`] takes a combining switch one cycle further while the row stays.
/// What they hold between two calls means nothing. They serve every row.
///
/// [`Row::next_words`]: crate::Row::next_words
#[derive(Drop)]
pub struct Beside {
    requests: Level<Request>,
    replies: Level<Reply>,
    waits: Waits,
}

impl Model for Beside {
    ghost use Rattle.flat_row.specs.Next.{Aside, HasAll};

    ghost Value = { Aside };

    ghost view = { λ b. record { requests = b.requests; replies = b.replies; waits = b.waits } };

    ghost invariant = { λ b. HasAll (record { requests = b.requests; replies = b.replies; waits = b.waits }) };
}

impl Beside {
    /// Queues and wait buffers in which nothing waits.
    ///
    /// # Errors
    ///
    /// Where a growth was refused. What was taken is given back.
    pub fn new(alloc: Global) -> Result<Beside, AllocError>
        ensures { IfOk result (λ beside. beside ≡ nothing_aside) }
    {
        let requests = Level::new(alloc, 64, plain_rule())?;
        let replies = Level::new(alloc, 64, plain_rule())?;
        let entries = empty_queues(alloc, 64)?;
        let waits = Waits {
            entries,
            once: 0,
            twice: 0,
        };
        Ok(Beside {
            requests,
            replies,
            waits,
        })
    }

    /// Puts requests in the place of those at two labels.
    pub(crate) fn put_requests(&mut self, x: u32, y: u32, first: &[Request], second: &[Request])
        requires small { (x < 64) × (y < 64) }
        requires apart { x ≢ y }
        requires few { (length first.now ≤ queue_places) × (length second.now ≤ queue_places) }
        ensures first { queue_at self.new.requests.queues x ≡ record { items = first.now } }
        ensures second { queue_at self.new.requests.queues y ≡ record { items = second.now } }
        ensures replies { self.new.replies ≡ self.old.replies }
        ensures waits { self.new.waits ≡ self.old.waits }
    {
        self.requests.copy(x, first);
        self.requests.copy(y, second);
    }

    /// Puts replies in the place of those at two labels.
    pub(crate) fn put_replies(&mut self, x: u32, y: u32, first: &[Reply], second: &[Reply])
        requires small { (x < 64) × (y < 64) }
        requires apart { x ≢ y }
        requires few { (length first.now ≤ queue_places) × (length second.now ≤ queue_places) }
        ensures first { queue_at self.new.replies.queues x ≡ record { items = first.now } }
        ensures second { queue_at self.new.replies.queues y ≡ record { items = second.now } }
        ensures requests { self.new.requests ≡ self.old.requests }
        ensures waits { self.new.waits ≡ self.old.waits }
    {
        self.replies.copy(x, first);
        self.replies.copy(y, second);
    }

    /// Puts entries in the place of those that wait at a label, where nothing has combined yet.
    pub(crate) fn put_waiting(&mut self, x: u32, waiting: &[Waiting])
        requires small { x < 64 }
        requires few { length waiting.now ≤ queue_places }
        ensures waiting { wait_of self.new.waits x ≡ record { items = waiting.now } }
        ensures none { combined_of self.new.waits x ≡ 0 }
        ensures requests { self.new.requests ≡ self.old.requests }
        ensures replies { self.new.replies ≡ self.old.replies }
    {
        let entries = &mut self.waits.entries[x as usize];
        entries.copy(waiting);
        self.waits.once = with_mark(self.waits.once, x, false);
        self.waits.twice = with_mark(self.waits.twice, x, false);
    }

    /// Requests arrive at the switch of label x, that of input 0 first.
    pub(crate) fn meet(&mut self, settings: &CombSettings, x: u32, requests: &[Option<Request>; 2])
        requires port { IsFirstPort settings.now.bit x }
        requires none { combined_of self.old.waits x ≡ 0 }
        ensures met { meeting settings.now.bit (queue_at self.new.requests.queues) self.new.waits x ≡ arrives settings.now (message_at requests.now 1) (arrives settings.now (message_at requests.now 0) (meeting settings.now.bit (queue_at self.old.requests.queues) self.old.waits x)) }
        ensures replies { self.new.replies ≡ self.old.replies }
    {
        arrive(
            &mut self.requests,
            &mut self.waits,
            settings,
            x,
            requests[0],
        );
        arrive(
            &mut self.requests,
            &mut self.waits,
            settings,
            x,
            requests[1],
        );
    }

    /// Replies return to the switch of label x, that of output 0 first.
    pub(crate) fn split(&mut self, settings: &CombSettings, x: u32, replies: &[Option<Reply>; 2])
        requires { IsFirstPort settings.now.bit x }
        ensures split { splitting settings.now.bit (queue_at self.new.replies.queues) self.new.waits x ≡ returns_to settings.now (message_at replies.now 1) (returns_to settings.now (message_at replies.now 0) (splitting settings.now.bit (queue_at self.old.replies.queues) self.old.waits x)) }
        ensures requests { self.new.requests ≡ self.old.requests }
    {
        return_one(&mut self.replies, &mut self.waits, settings, x, replies[0]);
        return_one(&mut self.replies, &mut self.waits, settings, x, replies[1]);
    }

    /// How many requests the switch of label x has combined.
    pub(crate) fn combined(&self, x: u32) -> u8
        requires { x < 64 }
        ensures { result ≡ combined_of self.now.waits x }
    {
        bit_in(self.waits.once, x) + bit_in(self.waits.twice, x)
    }

    /// The numbers of the messages in the queues at two labels, and in the wait buffer at the first, fit their types. Nothing is done when
    /// it runs.
    pub(crate) fn fit(&self, x: u32, y: u32)
        requires { (x < 64) × (y < 64) }
        ensures first { IsQueue IsRequest (queue_at self.now.requests.queues x) }
        ensures second { IsQueue IsRequest (queue_at self.now.requests.queues y) }
        ensures first_back { IsQueue IsReply (queue_at self.now.replies.queues x) }
        ensures second_back { IsQueue IsReply (queue_at self.now.replies.queues y) }
        ensures waits { IsQueue IsWaiting (wait_of self.now.waits x) }
    {
        all_fit(self.requests.messages(x));
        all_fit(self.requests.messages(y));
        all_fit(self.replies.messages(x));
        all_fit(self.replies.messages(y));
        all_fit(self.waits.entries[x as usize].as_slice());
    }

    /// Appends the words of the switch with ports at two labels, and with what is small.
    pub(crate) fn write(
        &self,
        words: &mut Vec<u64>,
        x: u32,
        y: u32,
        small: u64,
    ) -> Result<(), AllocError>
        requires labels { (x < 64) × (y < 64) }
        requires small { small < 2 ^ 32 }
        ensures ok { OnOk result (words.new.items ≡ words.old.items ++ parts_words 3 (queue_at self.now.requests.queues x).items (queue_at self.now.requests.queues y).items (queue_at self.now.replies.queues x).items (queue_at self.now.replies.queues y).items (wait_of self.now.waits x).items small) }
        ensures err { OnErr result (words.new.items ≡ words.old.items) }
    {
        write_parts(
            words,
            3,
            self.requests.messages(x),
            self.requests.messages(y),
            self.replies.messages(x),
            self.replies.messages(y),
            self.waits.entries[x as usize].as_slice(),
            small,
        )
    }
}

/// What queues are asked where nobody asks them anything.
fn plain_rule() -> Rule
    ensures { result ≡ plain_rule }
{
    Rule {
        depth: 16,
        two: 2,
        one: 1,
        by: 63,
    }
}

/// A request arrives at the switch of label x, if one does.
fn arrive(
    level: &mut Level<Request>,
    waits: &mut Waits,
    settings: &CombSettings,
    x: u32,
    request: Option<Request>,
)
    requires port { IsFirstPort settings.now.bit x }
    requires all { length level.old.queues ≡ 64 }
    requires entries { length waits.old.entries ≡ 64 }
    requires few { combined_of waits.old x < 2 }
    ensures all { length level.new.queues ≡ 64 }
    ensures entries { length waits.new.entries ≡ 64 }
    ensures met { meeting settings.now.bit (queue_at level.new.queues) waits.new x ≡ arrives settings.now request (meeting settings.now.bit (queue_at level.old.queues) waits.old x) }
    ensures once { combined_of waits.new x ≤ combined_of waits.old x + 1 }
{
    match request {
        Some(request) => arrives(level, waits, settings, x, request),
        None => {}
    }
}

/// A reply returns to the switch of label x, if one does.
fn return_one(
    level: &mut Level<Reply>,
    waits: &mut Waits,
    settings: &CombSettings,
    x: u32,
    reply: Option<Reply>,
)
    requires port { IsFirstPort settings.now.bit x }
    requires all { length level.old.queues ≡ 64 }
    requires entries { length waits.old.entries ≡ 64 }
    ensures all { length level.new.queues ≡ 64 }
    ensures entries { length waits.new.entries ≡ 64 }
    ensures split { splitting settings.now.bit (queue_at level.new.queues) waits.new x ≡ returns_to settings.now reply (splitting settings.now.bit (queue_at level.old.queues) waits.old x) }
{
    match reply {
        Some(reply) => returns_to(level, waits, settings, x, reply),
        None => {}
    }
}
