//! A component's state put into the row, out of its words. Nothing here takes memory but where a module gets other words of memory.
ghost use Rattle.std.specs.Prelude.{◌≡◌, ◌≢◌, ℕ, ◌+◌, ◌<◌, ◌≤◌, ◌/◌, ◌%◌, ◌^◌, length, Option, Some, OnOk, OnErr, IfOk, option_to_list, slice_set};
ghost use Rattle.std.specs.Mem.{FitsInMemory};
ghost use Rattle.flat_row.specs.contracts.queue.Places.{the_row};
ghost use Rattle.omega_net.specs.Limits.{queue_places};
ghost use Rattle.omega_net.specs.Numbers.{lines, half, number_of, Exists};
ghost use Rattle.omega_net.specs.declared.component.Component.TheVariants.{Proc as ProcAt, Module as ModuleAt, Switch};
ghost use Rattle.omega_net.specs.declared.component.Net.TheVariants.{Low as LowNet, Comb as CombNet};
ghost use Rattle.machine_cells.specs.declared.state.MachineState.{MachineState as State};
ghost use Rattle.machine_cells.specs.declared.state.MachineState.TheVariants.{Low as LowSwitch, Comb as CombSwitch};
ghost use Rattle.mem_module.specs.Memory.{IsAscending};
ghost use Rattle.project_book.specs.Project.{Project};
ghost use Rattle.ref_proc.specs.RefProc.{out_on};
ghost use Rattle.state_words.specs.Messages.{request_from, reply_from, wait_from};
ghost use Rattle.state_words.specs.Reading.{after, after_replies, queue_from, count_in, proc_from, module_from, low_from, comb_from};
ghost use Rattle.machine_cells.specs.Words.{IsState, words_of, memory_of, with_memory};
ghost use Rattle.flat_row.specs.Loading.{AreBits, CanHold, HasPorts, OnlyState, PortsPut, RepliesPut, RequestsPut, TurnPut, TurnsPut, with_at};
ghost use Rattle.flat_row.specs.Moving.{SameShape};
ghost use Rattle.flat_row.specs.Row.{IsRowOf, combined_of, level_at, module_of, proc_of, queue_of, state_of, states_of};

use crate::level::Level;
use crate::marks::{Routed, with_mark};
use crate::read::ports;
use crate::reading::{byte, count_in, fill, mark_in, read_proc, split_first};
use crate::row::Row;
use crate::side::Side;
use crate::waits::Waits;
use crate::words::copied;
use grid_law::NoMemory;
use mem_module::Stored;
use omega_net::{Component, Net, Request};
use ref_proc::Outgoing;
use state_words::TwoWords;
use std::alloc::Global;

impl Row {
    /// Puts the state that has these words in the place of a component's; a module's memory stays as it is. Where no state of the
    /// component's kind has them, or one that the row can't hold, some state. It takes no memory.
    ///
    /// A row holds turns that are 0 or 1, and of a combining switch at most two requests combined, as they are in every state of a run.
    pub fn load(&mut self, component: Component, words: &[u64])
        requires { Exists self.old.k component }
        ensures loaded { (s : State) → IsState s → words.now ≡ words_of s → CanHold component s → state_of self.new (Some component) ≡ with_memory (memory_of (state_of self.old (Some component))) s }
        ensures states { (s : State) → IsState s → words.now ≡ words_of s → CanHold component s → states_of self.new ≡ slice_set (states_of self.old) (number_of self.old.k component) (with_memory (memory_of (state_of self.old (Some component))) s) }
        ensures size { self.new.k ≡ self.old.k }
        ensures others { (c : Component) → Exists self.old.k c → c ≢ component → state_of self.new (Some c) ≡ state_of self.old (Some c) }
        ensures of { (P : Project) → IsRowOf P self.old → IsRowOf P self.new }
    {
        self.load_words(component, words);
    }

    /// What `load` does, of the one component and of each other one.
    fn load_words(&mut self, component: Component, words: &[u64])
        requires { Exists self.old.k component }
        ensures loaded { (s : State) → IsState s → words.now ≡ words_of s → CanHold component s → state_of self.new (Some component) ≡ with_memory (memory_of (state_of self.old (Some component))) s }
        ensures size { self.new.k ≡ self.old.k }
        ensures others { (c : Component) → Exists self.old.k c → c ≢ component → state_of self.new (Some c) ≡ state_of self.old (Some c) }
        ensures of { (P : Project) → IsRowOf P self.old → IsRowOf P self.new }
    {
        let (head, body) = split_first(words);
        match component {
            Component::Proc(p) => self.load_proc(u32::from(p), head, body),
            Component::Module(m) => self.load_module(u32::from(m), head, body),
            Component::Switch {
                net: Net::Low,
                stage,
                index,
            } => self.load_low(u32::from(stage), u32::from(index), head, body),
            Component::Switch {
                net: Net::Comb,
                stage,
                index,
            } => self.load_comb(u32::from(stage), u32::from(index), head, body),
        }
    }

    /// Puts a processor. It doesn't rest any more: nothing is known of what it does next.
    fn load_proc(&mut self, p: u32, head: u64, words: &[u64])
        requires { p < lines self.old.k }
        ensures loaded { proc_of self.new p ≡ proc_from head words.now }
        ensures only { OnlyState (ProcAt p) self.old self.new }
    {
        let state = read_proc(head, words);
        self.low.hold_request(p, shown_on(state.out, Net::Low));
        self.comb.hold_request(p, shown_on(state.out, Net::Comb));
        self.procs[p as usize] = state;
        self.rests = with_mark(self.rests, p, false);
    }

    /// Puts a module but for its memory.
    fn load_module(&mut self, m: u32, head: u64, words: &[u64])
        requires { m < lines self.old.k }
        ensures loaded { module_of self.new m ≡ module_from head words.now (module_of self.old m).words }
        ensures only { OnlyState (ModuleAt m) self.old self.new }
    {
        let k = self.shape.k() as usize;
        let rest = self.low.put_requests(k + 1, m, words, count_in(head >> 2));
        let rest = self.comb.put_requests(k + 1, m, rest, count_in(head >> 7));
        let rest = self.low.put_replies(k, m, rest, count_in(head >> 12));
        self.comb.put_replies(k, m, rest, count_in(head >> 17));
        self.module_turns = with_mark(self.module_turns, m, mark_in(head >> 27));
        self.served = with_mark(self.served, m, mark_in(head >> 28));
    }

    /// Puts a low switch.
    fn load_low(&mut self, stage: u32, index: u32, head: u64, words: &[u64])
        requires stage { stage < self.old.k }
        requires index { index < half self.old.k }
        ensures loaded { CanHold (Switch LowNet stage index) (LowSwitch (low_from head words.now)) → state_of self.new (Some (Switch LowNet stage index)) ≡ LowSwitch (low_from head words.now) }
        ensures only { OnlyState (Switch LowNet stage index) self.old self.new }
    {
        let (x, y) = ports(self.shape, stage, index);
        self.low.put_low(stage as usize, x, y, head, words);
    }

    /// Puts a combining switch.
    fn load_comb(&mut self, stage: u32, index: u32, head: u64, words: &[u64])
        requires stage { stage < self.old.k }
        requires index { index < half self.old.k }
        ensures loaded { CanHold (Switch CombNet stage index) (CombSwitch (comb_from head words.now)) → state_of self.new (Some (Switch CombNet stage index)) ≡ CombSwitch (comb_from head words.now) }
        ensures only { OnlyState (Switch CombNet stage index) self.old self.new }
    {
        let (x, y) = ports(self.shape, stage, index);
        let s = stage as usize;
        let rest = self.comb.put_comb(s, x, y, head, words);
        let waits = &mut self.waits[s];
        waits.put(x, rest, count_in(head >> 22), byte(head >> 51));
    }

    /// Puts other words of memory, in the order of their rows, in the place of a module's. Where they are in another order, some words.
    ///
    /// # Errors
    ///
    /// Where a growth was refused. Then nothing is changed.
    pub fn set_memory(&mut self, alloc: Global, m: u32, words: &[Stored]) -> Result<(), NoMemory>
        requires { m < lines self.old.k }
        ensures ok { IsAscending words.now → OnOk result (self.new ≡ record self.old { words = slice_set self.old.words m words.now }) }
        ensures err { OnErr result (self.new ≡ self.old) }
        ensures size { self.new.k ≡ self.old.k }
        ensures others { (c : Component) → Exists self.old.k c → c ≢ ModuleAt m → state_of self.new (Some c) ≡ state_of self.old (Some c) }
        ensures of { (P : Project) → IsRowOf P self.old → IsRowOf P self.new }
    {
        let words = copied(alloc, words)?;
        self.words[m as usize] = words;
        Ok(())
    }
}

impl Side {
    /// Puts a queue of requests, and gives the words after it.
    fn put_requests<'a>(
        &mut self,
        level: usize,
        x: u32,
        words: &'a [u64],
        count: usize,
    ) -> &'a [u64]
        requires level { level < length self.old.requests }
        requires label { x < length (level_at self.old.requests level).queues }
        requires few { count ≤ queue_places }
        ensures put { RequestsPut level x (queue_from request_from count words.now) self.old self.new }
        ensures rest { result.now ≡ after count words.now }
    {
        put(&mut self.requests, level, x, words, count)
    }

    /// Puts a queue of replies, and gives the words after it.
    fn put_replies<'a>(&mut self, level: usize, x: u32, words: &'a [u64], count: usize) -> &'a [u64]
        requires level { level < length self.old.replies }
        requires label { x < length (level_at self.old.replies level).queues }
        requires few { count ≤ queue_places }
        ensures put { RepliesPut level x (queue_from reply_from count words.now) self.old self.new }
        ensures rest { result.now ≡ after count words.now }
    {
        put(&mut self.replies, level, x, words, count)
    }

    /// A processor shows this request, or none.
    fn hold_request(&mut self, p: u32, request: Option<Request>)
        requires level { 0 < length self.old.requests }
        requires label { p < length (level_at self.old.requests 0).queues }
        ensures { RequestsPut 0 p (record { items = option_to_list request }) self.old self.new }
    {
        let level = &mut self.requests[0];
        level.hold(p, request);
    }

    /// Puts the queues at the ports of a switch, requests before replies, and gives the words after them.
    fn put_ports<'a>(
        &mut self,
        stage: usize,
        x: u32,
        y: u32,
        head: u64,
        words: &'a [u64],
    ) -> &'a [u64]
        requires { HasPorts stage x y self.old }
        ensures put { PortsPut stage x y head words.now self.old self.new }
        ensures turns { self.new.turns ≡ self.old.turns }
        ensures back_turns { self.new.back_turns ≡ self.old.back_turns }
        ensures rest { result.now ≡ after_replies head words.now }
    {
        let rest = self.put_requests(stage + 1, x, words, count_in(head >> 2));
        let rest = self.put_requests(stage + 1, y, rest, count_in(head >> 7));
        let rest = self.put_replies(stage, x, rest, count_in(head >> 12));
        self.put_replies(stage, y, rest, count_in(head >> 17))
    }

    /// Puts a low switch.
    fn put_low(&mut self, stage: usize, x: u32, y: u32, head: u64, words: &[u64])
        requires { HasPorts stage x y self.old }
        ensures put { PortsPut stage x y head words.now self.old self.new }
        ensures turns { TurnsPut stage x y (head / 2 ^ 27 % 2 ^ 8) (head / 2 ^ 35 % 2 ^ 8) self.old.turns self.new.turns }
        ensures back_turns { TurnsPut stage x y (head / 2 ^ 43 % 2 ^ 8) (head / 2 ^ 51 % 2 ^ 8) self.old.back_turns self.new.back_turns }
    {
        self.put_ports(stage, x, y, head, words);
        put_turns(
            &mut self.turns,
            stage,
            (x, y),
            byte(head >> 27),
            byte(head >> 35),
        );
        put_turns(
            &mut self.back_turns,
            stage,
            (x, y),
            byte(head >> 43),
            byte(head >> 51),
        );
    }

    /// Puts a combining switch but for its wait buffer and what it has combined, and gives the words of the former.
    fn put_comb<'a>(
        &mut self,
        stage: usize,
        x: u32,
        y: u32,
        head: u64,
        words: &'a [u64],
    ) -> &'a [u64]
        requires { HasPorts stage x y self.old }
        ensures put { PortsPut stage x y head words.now self.old self.new }
        ensures turns { TurnsPut stage x y (head / 2 ^ 27 % 2 ^ 8) (head / 2 ^ 35 % 2 ^ 8) self.old.turns self.new.turns }
        ensures back_turns { TurnPut stage x (head / 2 ^ 43 % 2 ^ 8) self.old.back_turns self.new.back_turns }
        ensures rest { result.now ≡ after_replies head words.now }
    {
        let rest = self.put_ports(stage, x, y, head, words);
        put_turns(
            &mut self.turns,
            stage,
            (x, y),
            byte(head >> 27),
            byte(head >> 35),
        );
        put_turn(&mut self.back_turns, stage, x, byte(head >> 43));
        rest
    }
}

impl Waits {
    /// Puts a switch's wait buffer, out of so many pairs of words, and how many requests it combined.
    fn put(&mut self, x: u32, words: &[u64], count: usize, combined: u8)
        requires there { x < length self.old.entries }
        requires small { x < 64 }
        requires few { count ≤ queue_places }
        ensures entries { self.new.entries ≡ slice_set self.old.entries x (queue_from wait_from count words.now) }
        ensures combined { combined ≤ 2 → combined_of self.new x ≡ combined }
        ensures others { (z : ℕ) → z < 64 → z ≢ x → combined_of self.new z ≡ combined_of self.old z }
    {
        let entries = &mut self.entries[x as usize];
        fill(entries, words, count);
        self.once = with_mark(self.once, x, combined >= 1);
        self.twice = with_mark(self.twice, x, combined >= 2);
    }
}

/// Puts a queue of a level, and gives the words after it.
fn put<'a, T: Routed + TwoWords>(
    levels: &mut Vec<Level<T>>,
    level: usize,
    x: u32,
    words: &'a [u64],
    count: usize,
) -> &'a [u64]
    requires level { level < length levels.old.items }
    requires label { x < length (level_at levels.old.items level).queues }
    requires few { count ≤ queue_places }
    requires fits { FitsInMemory (the_row T.row) }
    ensures shape { SameShape levels.old.items levels.new.items }
    ensures queues { (l z : ℕ) → queue_of levels.new.items l z ≡ with_at levels.old.items level x (queue_from T.from count words.now) l z }
    ensures rest { result.now ≡ after count words.now }
{
    let queues = &mut levels[level];
    queues.put(x, words, count)
}

/// Puts the turn of a stage at a label.
fn put_turn(turns: &mut [u64; 6], stage: usize, x: u32, turn: u8)
    requires stage { stage < 6 }
    requires small { x < 64 }
    ensures { TurnPut stage x turn turns.old turns.new }
{
    turns[stage] = with_mark(turns[stage], x, turn == 1);
}

/// Puts the turns of a stage at two labels.
fn put_turns(turns: &mut [u64; 6], stage: usize, at: (u32, u32), first: u8, second: u8)
    requires stage { stage < 6 }
    requires small { (at.0 < 64) × (at.1 < 64) }
    requires apart { at.0 ≢ at.1 }
    ensures { TurnsPut stage at.0 at.1 first second turns.old turns.new }
{
    put_turn(turns, stage, at.0, first);
    put_turn(turns, stage, at.1, second);
}

/// The request that is shown on a network.
fn shown_on(out: Option<Outgoing>, net: Net) -> Option<Request>
    ensures { result ≡ out_on out net }
{
    match out {
        Some(outgoing) if outgoing.net == net => Some(outgoing.request),
        _ => None,
    }
}
