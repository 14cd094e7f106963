//! One component a cycle later, out of the row, which stays.
ghost use Rattle.std.specs.Prelude.{◌≡◌, ◌<◌, ◌≤◌, ◌++◌, if◌then◌else◌, is_some, length, None, OnOk, OnErr, IfOk, IfSome, Option, Some, slice_get, slice_index_or};
ghost use Rattle.std.specs.Option.{option_copied};
ghost use Rattle.omega_net.specs.Limits.{queue_places};
ghost use Rattle.omega_net.specs.Numbers.{lines, half, Exists};
ghost use Rattle.omega_net.specs.Ports.{mark_at, message_at, request_to, reply_to};
ghost use Rattle.omega_net.specs.Queues.{queue_after, turn_after};
ghost use Rattle.omega_net.specs.declared.component.Component.TheVariants.{Proc as ProcAt, Module as ModuleAt, Switch};
ghost use Rattle.omega_net.specs.declared.component.Net.TheVariants.{Low as LowNet, Comb as CombNet};
ghost use Rattle.mem_module.specs.Memory.{IsAscending, word_at, with_word};
ghost use Rattle.mem_module.specs.MemModule.{answer_to, words_after};
ghost use Rattle.low_switch.specs.LowSwitch.{request_through, reply_through};
ghost use Rattle.state_words.specs.Words.{one_if};
ghost use Rattle.machine_cells.specs.Words.{IsState, memory_of, words_of};
ghost use Rattle.flat_row.specs.Next.{IsAnother, memory_given, memory_left, module_given, next_state, part_given, waiting};
ghost use Rattle.flat_row.specs.Row.{IsRowOf, buffers_at, wait_of};

mod after;
mod beside;
mod traffic;

use crate::acting::proc_settings;
use crate::bits::{bit_in, has};
use crate::read::{messages_at, ports};
use crate::row::Row;
use crate::stages::comb_settings;
use after::{After, queue_after, without_head, write_after};
pub use beside::Beside;
use comb_switch::Waiting;
use machine_cells::{MachineState, encode};
use mem_module::{SharedWords, Stored};
use omega_net::{Component, Net, Reply, Request, Traffic, bit_of, turn_after};
use project_book::Project;
use state_words::{bytes, is_proc};
use std::alloc::AllocError;
use traffic::either_of;

impl Row {
    /// Appends the words of a component one cycle later, as [`Row::words`] appends those of its state: a step of the one component, which
    /// changes nothing in the row. Only what the row holds of the components near it matters, and a module's memory is that which is
    /// handed over, if one is. Told is what the module leaves in its memory, where it leaves another word. The words tell the state but for
    /// that memory: it is one of the machine's types.
    ///
    /// # Errors
    ///
    /// Where a growth was refused. Then nothing was appended.
    pub fn next_words(
        &self,
        project: &Project,
        component: Component,
        memory: Option<&SharedWords>,
        beside: &mut Beside,
        words: &mut Vec<u64>,
    ) -> Result<Option<Stored>, AllocError>
        requires of { IsRowOf project.now self.now }
        requires there { Exists project.now.k component }
        ensures ok { OnOk result (words.new.items ≡ words.old.items ++ words_of (next_state project.now self.now component (option_copied memory.entry))) }
        ensures err { OnErr result (words.new.items ≡ words.old.items) }
        ensures left { IfSome (option_copied memory.entry) IsAscending → IfOk result (λ left. memory_of (next_state project.now self.now component (option_copied memory.entry)) ≡ memory_left (memory_given self.now component (option_copied memory.entry)) left) }
        ensures another { IfOk result (IsAnother (memory_given self.now component (option_copied memory.entry))) }
        ensures state { OnOk result (IsState (next_state project.now self.now component (option_copied memory.entry))) }
    {
        match component {
            Component::Proc(p) => self.next_proc(project, p, words)?,
            Component::Module(m) => {
                return self.next_module(project, u32::from(m), memory, words);
            }
            Component::Switch {
                net: Net::Low,
                stage,
                index,
            } => self.next_low(project, u32::from(stage), u32::from(index), words)?,
            Component::Switch {
                net: Net::Comb,
                stage,
                index,
            } => self.next_comb(project, u32::from(stage), u32::from(index), beside, words)?,
        }
        Ok(None)
    }

    /// Appends the words of a processor one cycle later.
    fn next_proc(&self, project: &Project, p: u8, words: &mut Vec<u64>) -> Result<(), AllocError>
        requires of { IsRowOf project.now self.now }
        requires there { p < lines project.now.k }
        ensures ok { OnOk result (words.new.items ≡ words.old.items ++ words_of (part_given project.now self.now (ProcAt p) None)) }
        ensures err { OnErr result (words.new.items ≡ words.old.items) }
        ensures state { OnOk result (IsState (part_given project.now self.now (ProcAt p) None)) }
    {
        let at = u32::from(p);
        let traffic = self.proc_traffic(project, at);
        let own = self.processor(at);
        let settings = proc_settings(project, p, own.index);
        let next = own.step(&settings, &traffic);
        is_proc(&next);
        encode(&MachineState::Proc(next), words)
    }

    /// Appends the words of a low switch one cycle later.
    fn next_low(
        &self,
        project: &Project,
        stage: u32,
        index: u32,
        words: &mut Vec<u64>,
    ) -> Result<(), AllocError>
        requires of { IsRowOf project.now self.now }
        requires stage { stage < project.now.k }
        requires index { index < half project.now.k }
        ensures ok { OnOk result (words.new.items ≡ words.old.items ++ words_of (part_given project.now self.now (Switch LowNet stage index) None)) }
        ensures err { OnErr result (words.new.items ≡ words.old.items) }
        ensures state { OnOk result (IsState (part_given project.now self.now (Switch LowNet stage index) None)) }
    {
        let traffic = self.switch_traffic(project, Net::Low, stage, index);
        let bit = project.k() - 1 - stage;
        let (x, y) = ports(self.shape, stage, index);
        let s = stage as usize;
        let side = self.side(Net::Low);
        let (turns, back) = (side.turns[s], side.back_turns[s]);
        let turns = bytes(
            turn_then(bit, &traffic, 0, bit_in(turns, x)),
            turn_then(bit, &traffic, 1, bit_in(turns, y)),
            back_turn_then(bit, &traffic, 0, bit_in(back, x)),
            back_turn_then(bit, &traffic, 1, bit_in(back, y)),
        );
        let first = requests_then(bit, &traffic, 0, messages_at(&side.requests, s + 1, x));
        let second = requests_then(bit, &traffic, 1, messages_at(&side.requests, s + 1, y));
        let first_back = replies_then(bit, &traffic, 0, messages_at(&side.replies, s, x));
        let second_back = replies_then(bit, &traffic, 1, messages_at(&side.replies, s, y));
        first.fits();
        second.fits();
        first_back.fits();
        second_back.fits();
        write_after(words, 2, &first, &second, &first_back, &second_back, turns)
    }

    /// Appends the words of a combining switch one cycle later.
    fn next_comb(
        &self,
        project: &Project,
        stage: u32,
        index: u32,
        beside: &mut Beside,
        words: &mut Vec<u64>,
    ) -> Result<(), AllocError>
        requires of { IsRowOf project.now self.now }
        requires stage { stage < project.now.k }
        requires index { index < half project.now.k }
        ensures ok { OnOk result (words.new.items ≡ words.old.items ++ words_of (part_given project.now self.now (Switch CombNet stage index) None)) }
        ensures err { OnErr result (words.new.items ≡ words.old.items) }
        ensures state { OnOk result (IsState (part_given project.now self.now (Switch CombNet stage index) None)) }
    {
        let traffic = self.switch_traffic(project, Net::Comb, stage, index);
        let settings = comb_settings(project, stage);
        let (x, y) = ports(self.shape, stage, index);
        let s = stage as usize;
        let side = self.side(Net::Comb);
        let go = traffic.requests_leave;
        let first = without_head(messages_at(&side.requests, s + 1, x), go[0]);
        let second = without_head(messages_at(&side.requests, s + 1, y), go[1]);
        beside.put_requests(x, y, first, second);
        let back = traffic.replies_leave;
        let first_back = without_head(messages_at(&side.replies, s, x), back[0]);
        let second_back = without_head(messages_at(&side.replies, s, y), back[1]);
        beside.put_replies(x, y, first_back, second_back);
        beside.put_waiting(x, self.waiting_at(stage, x));
        beside.meet(&settings, x, &traffic.requests);
        beside.split(&settings, x, &traffic.replies);
        let turns = side.turns[s];
        let small = bytes(
            turn_then(settings.bit, &traffic, 0, bit_in(turns, x)),
            turn_then(settings.bit, &traffic, 1, bit_in(turns, y)),
            both_turn_then(&traffic, bit_in(side.back_turns[s], x)),
            beside.combined(x),
        );
        beside.fit(x, y);
        beside.write(words, x, y, small)
    }

    /// What waits in the wait buffer of a combining switch.
    fn waiting_at(&self, stage: u32, x: u32) -> &[Waiting]
        requires stage { stage < self.now.k }
        requires label { x < lines self.now.k }
        ensures value { result.now ≡ (wait_of (buffers_at self.now stage) x).items }
        ensures fits { length result.now ≤ queue_places }
    {
        self.waits[stage as usize].entries[x as usize].as_slice()
    }

    /// Appends the words of a module one cycle later, and tells what it leaves in this memory, or in its own.
    fn next_module(
        &self,
        project: &Project,
        m: u32,
        memory: Option<&SharedWords>,
        words: &mut Vec<u64>,
    ) -> Result<Option<Stored>, AllocError>
        requires of { IsRowOf project.now self.now }
        requires there { m < lines project.now.k }
        ensures ok { OnOk result (words.new.items ≡ words.old.items ++ words_of (part_given project.now self.now (ModuleAt m) (option_copied memory.entry))) }
        ensures err { OnErr result (words.new.items ≡ words.old.items) }
        ensures left { IfSome (option_copied memory.entry) IsAscending → IfOk result (λ left. memory_of (part_given project.now self.now (ModuleAt m) (option_copied memory.entry)) ≡ memory_left (module_given self.now m (option_copied memory.entry)).words left) }
        ensures another { IfOk result (IsAnother (module_given self.now m (option_copied memory.entry)).words) }
        ensures state { OnOk result (IsState (part_given project.now self.now (ModuleAt m) (option_copied memory.entry))) }
    {
        let traffic = self.module_traffic(project, m);
        self.is_row();
        let served = self.serving(project);
        let at_low = has(served.low, m);
        let at_comb = has(served.comb, m);
        let last = project.k() as usize;
        let low = self.side(Net::Low);
        let comb = self.side(Net::Comb);
        let low_waits = messages_at(&low.requests, last + 1, m);
        let comb_waits = messages_at(&comb.requests, last + 1, m);
        let request = served_of(at_low, at_comb, low_waits, comb_waits);
        let (answer, left) = self.serve(m, memory, request);
        let first = queue_after(low_waits, at_low, traffic.requests[0], None);
        let second = queue_after(comb_waits, at_comb, traffic.requests[1], None);
        let low_shows = messages_at(&low.replies, last, m);
        let comb_shows = messages_at(&comb.replies, last, m);
        let low_answer = if_served(at_low, answer);
        let comb_answer = if_served(at_comb, answer);
        let first_back = queue_after(low_shows, traffic.replies_leave[0], low_answer, None);
        let second_back = queue_after(comb_shows, traffic.replies_leave[1], comb_answer, None);
        let turn = one_if(has(served.turn, m));
        let serves = one_if(either_of(at_low, at_comb));
        let small = turn + 2 * serves;
        first.fits();
        second.fits();
        first_back.fits();
        second_back.fits();
        write_after(words, 1, &first, &second, &first_back, &second_back, small)?;
        Ok(left)
    }

    /// What a module answers to a request, and what it leaves in this memory, or in its own, where it is another word.
    fn serve(
        &self,
        m: u32,
        memory: Option<&SharedWords>,
        request: Option<Request>,
    ) -> (Option<Reply>, Option<Stored>)
        requires { m < lines self.now.k }
        ensures answer { result.0 ≡ answer_to (module_given self.now m (option_copied memory.entry)).words request }
        ensures left { IfSome (option_copied memory.entry) IsAscending → words_after (module_given self.now m (option_copied memory.entry)).words request ≡ memory_left (module_given self.now m (option_copied memory.entry)).words result.1 }
        ensures another { IsAnother (module_given self.now m (option_copied memory.entry)).words result.1 }
    {
        let Some(Request { tag, place, op }) = request else {
            return (None, None);
        };
        let word = self.word_given(m, memory, place.row);
        let new = op.apply(word);
        let answer = Some(Reply { tag, word });
        if new == word {
            (answer, None)
        } else {
            (
                answer,
                Some(Stored {
                    row: place.row,
                    word: new,
                }),
            )
        }
    }

    /// The word of a row of this memory, or of the module's own.
    fn word_given(&self, m: u32, memory: Option<&SharedWords>, row: u16) -> u32
        requires { m < lines self.now.k }
        ensures value { result ≡ word_at (module_given self.now m (option_copied memory.entry)).words row }
        ensures kept { IfSome (option_copied memory.entry) IsAscending → with_word (module_given self.now m (option_copied memory.entry)).words row result ≡ (module_given self.now m (option_copied memory.entry)).words }
    {
        match memory {
            Some(memory) => memory.word(row),
            None => self.words[m as usize].word(row),
        }
    }
}

/// The request that a module serves, where it serves one.
fn served_of(at_low: bool, at_comb: bool, low: &[Request], comb: &[Request]) -> Option<Request>
    ensures { result ≡ (if at_low then slice_get low.now 0 else if at_comb then slice_get comb.now 0 else None) }
{
    if at_low {
        low.first().copied()
    } else if at_comb {
        comb.first().copied()
    } else {
        None
    }
}

/// The answer, on a network that is served.
fn if_served(served: bool, answer: Option<Reply>) -> Option<Reply>
    ensures { result ≡ (if served then answer else None) }
{
    if served { answer } else { None }
}

/// 1 where it is so.
fn one_if(mark: bool) -> u64
    ensures value { result ≡ one_if mark }
    ensures bit { result < 2 }
{
    if mark { 1 } else { 0 }
}

/// The requests at an output of a switch one cycle later.
fn requests_then<'a>(
    bit: u32,
    traffic: &Traffic,
    output: u8,
    messages: &'a [Request],
) -> After<'a, Request>
    requires output { output < 2 }
    requires fits { length messages.now ≤ queue_places }
    ensures value { waiting result ≡ (queue_after (mark_at traffic.now.requests_leave output) (request_through bit traffic.now 0 output) (request_through bit traffic.now 1 output) (record { items = messages.now })).items }
    ensures fits { length (waiting result) ≤ queue_places }
{
    let first = request_to(bit, output, traffic.requests[0]);
    let second = request_to(bit, output, traffic.requests[1]);
    let leaves = traffic.requests_leave[output as usize];
    queue_after(messages, leaves, first, second)
}

/// The replies at an input of a low switch one cycle later.
fn replies_then<'a>(
    bit: u32,
    traffic: &Traffic,
    input: u8,
    messages: &'a [Reply],
) -> After<'a, Reply>
    requires input { input < 2 }
    requires fits { length messages.now ≤ queue_places }
    ensures value { waiting result ≡ (queue_after (mark_at traffic.now.replies_leave input) (reply_through bit traffic.now 0 input) (reply_through bit traffic.now 1 input) (record { items = messages.now })).items }
    ensures fits { length (waiting result) ≤ queue_places }
{
    let first = reply_to(bit, input, traffic.replies[0]);
    let second = reply_to(bit, input, traffic.replies[1]);
    let leaves = traffic.replies_leave[input as usize];
    queue_after(messages, leaves, first, second)
}

/// The turn of an output of a switch one cycle later.
fn turn_then(bit: u32, traffic: &Traffic, output: u8, turn: u8) -> u8
    requires { output < 2 }
    ensures { result ≡ turn_after turn (is_some (request_through bit traffic.now 0 output)) (is_some (request_through bit traffic.now 1 output)) }
{
    let first = request_to(bit, output, traffic.requests[0]);
    let second = request_to(bit, output, traffic.requests[1]);
    turn_after(turn, first.is_some(), second.is_some())
}

/// The turn of both inputs of a combining switch one cycle later.
fn both_turn_then(traffic: &Traffic, turn: u8) -> u8
    ensures { result ≡ turn_after turn (is_some (message_at traffic.now.replies 0)) (is_some (message_at traffic.now.replies 1)) }
{
    turn_after(
        turn,
        traffic.replies[0].is_some(),
        traffic.replies[1].is_some(),
    )
}

/// The turn of an input of a low switch one cycle later.
fn back_turn_then(bit: u32, traffic: &Traffic, input: u8, turn: u8) -> u8
    requires { input < 2 }
    ensures { result ≡ turn_after turn (is_some (reply_through bit traffic.now 0 input)) (is_some (reply_through bit traffic.now 1 input)) }
{
    let first = reply_to(bit, input, traffic.replies[0]);
    let second = reply_to(bit, input, traffic.replies[1]);
    turn_after(turn, first.is_some(), second.is_some())
}

/// The request, if it goes to that output.
fn request_to(bit: u32, output: u8, request: Option<Request>) -> Option<Request>
    ensures { result ≡ request_to bit output request }
{
    request.filter(|r| bit_of(r.place.module, bit) == output)
}

/// The reply, if it goes to that input.
fn reply_to(bit: u32, input: u8, reply: Option<Reply>) -> Option<Reply>
    ensures { result ≡ reply_to bit input reply }
{
    reply.filter(|r| bit_of(r.tag.proc, bit) == input)
}
