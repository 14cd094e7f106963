//! The row beside states that stand elsewhere: which it holds, and which it can hold.
ghost use Rattle.std.specs.Prelude.{◌≡◌, ◌↔◌, ◌<◌, ◌∷◌, [], IsTrue, IfOk, OnOk, Some};
ghost use Rattle.omega_net.specs.Numbers.{lines, half, Exists};
ghost use Rattle.omega_net.specs.Wires.{bit};
ghost use Rattle.omega_net.specs.declared.component.Component.TheVariants.{Module as ModuleAt};
ghost use Rattle.mem_module.specs.Memory.{IsAscending};
ghost use Rattle.machine_cells.specs.Words.{with_memory};
ghost use Rattle.flat_row.specs.Labels.{switch_label};
ghost use Rattle.flat_row.specs.Loading.{AreBits, CanHold, OnlyState};
ghost use Rattle.flat_row.specs.Row.{buffers_at, comb_of, combined_of, low_of, module_of, proc_of, state_of, wait_of};

use crate::bits::{bit_in, has};
use crate::read::{messages_at, net_for, ports};
use crate::row::Row;
use comb_switch::{CombState, Waiting};
use grid_law::NoMemory;
use low_switch::LowState;
use machine_cells::MachineState;
use mem_module::{ModuleState, SharedWords, Stored};
use omega_net::{Component, Net, Queue, Reply, Request};
use ref_proc::ProcState;
use std::alloc::Global;

/// Whether a row can hold this state for a component: it is of the component's kind, turns of a switch are 0 or 1, and it combined at most
/// two requests, as in every state of a run.
pub fn can_hold(component: Component, state: &MachineState) -> bool
    ensures { IsTrue result ↔ CanHold component state.now }
{
    match (component, state) {
        (Component::Proc(_), MachineState::Proc(_)) => true,
        (Component::Module(_), MachineState::Module(_)) => true,
        (Component::Switch { net: Net::Low, .. }, MachineState::Low(s)) => {
            are_bits(&s.turn) && are_bits(&s.rturn)
        }
        (Component::Switch { net: Net::Comb, .. }, MachineState::Comb(s)) => {
            are_bits(&s.turn) && s.rturn < 2 && s.combined <= 2
        }
        _ => false,
    }
}

/// Whether both turns are 0 or 1.
fn are_bits(turns: &[u8; 2]) -> bool
    ensures { IsTrue result ↔ AreBits turns.now }
{
    turns[0] < 2 && turns[1] < 2
}

impl Row {
    /// Whether it holds this state for a component. It compares with the arrays, and takes no memory.
    pub fn is_state(&self, component: Component, state: &MachineState) -> bool
        requires { Exists self.now.k component }
        ensures { IsTrue result ↔ (state_of self.now (Some component) ≡ state.now) }
    {
        match (component, state) {
            (Component::Proc(p), MachineState::Proc(s)) => self.is_proc(u32::from(p), s),
            (Component::Module(m), MachineState::Module(s)) => self.is_module(u32::from(m), s),
            (
                Component::Switch {
                    net: Net::Low,
                    stage,
                    index,
                },
                MachineState::Low(s),
            ) => self.is_low(u32::from(stage), u32::from(index), s),
            (
                Component::Switch {
                    net: Net::Comb,
                    stage,
                    index,
                },
                MachineState::Comb(s),
            ) => self.is_comb(u32::from(stage), u32::from(index), s),
            _ => false,
        }
    }

    /// A component's state, as [`Row::read`] gives it. Where `own` is a module's that has the same words of memory, they are shared with it,
    /// and else copied.
    ///
    /// # Errors
    ///
    /// Where a growth was refused.
    pub fn read_beside(
        &self,
        alloc: Global,
        component: Component,
        own: &MachineState,
    ) -> Result<MachineState, NoMemory>
        requires { Exists self.now.k component }
        ensures { IfOk result (λ state. state ≡ state_of self.now (Some component)) }
    {
        match (component, own) {
            (Component::Module(m), MachineState::Module(own)) => Ok(MachineState::Module(
                self.memory_beside(alloc, u32::from(m), &own.words)?,
            )),
            _ => self.read(alloc, component),
        }
    }

    /// A module's state, whose words of memory are these where they are the same.
    fn memory_beside(
        &self,
        alloc: Global,
        m: u32,
        words: &SharedWords,
    ) -> Result<ModuleState, NoMemory>
        requires { m < lines self.now.k }
        ensures { IfOk result (λ state. state ≡ module_of self.now m) }
    {
        if self.has_memory(m, words.as_slice()) {
            self.module_with(alloc, m, words.share()?)
        } else {
            self.memory(alloc, m)
        }
    }

    /// Whether these are a module's words of memory, in the order of their rows.
    pub fn has_memory(&self, m: u32, words: &[Stored]) -> bool
        requires { m < lines self.now.k }
        ensures { IsTrue result ↔ ((module_of self.now m).words ≡ words.now) }
    {
        same_words(self.words[m as usize].as_slice(), words)
    }

    /// Puts other words of memory in the place of a module's, in the order of their rows.
    ///
    /// # Errors
    ///
    /// Where a growth was refused. Then nothing is changed.
    pub fn load_memory(&mut self, alloc: Global, m: u32, words: &[Stored]) -> Result<(), NoMemory>
        requires there { m < lines self.old.k }
        requires rows { IsAscending words.now }
        ensures loaded { OnOk result (state_of self.new (Some (ModuleAt m)) ≡ with_memory words.now (state_of self.old (Some (ModuleAt m)))) }
        ensures only { OnlyState (ModuleAt m) self.old self.new }
    {
        self.is_row();
        self.set_memory(alloc, m, words)
    }

    /// Whether a processor is in this state.
    fn is_proc(&self, p: u32, state: &ProcState) -> bool
        requires { p < lines self.now.k }
        ensures { IsTrue result ↔ (proc_of self.now p ≡ state.now) }
    {
        self.processor(p).same(state)
    }

    /// Whether a module is in this state.
    fn is_module(&self, m: u32, state: &ModuleState) -> bool
        requires { m < lines self.now.k }
        ensures { IsTrue result ↔ (module_of self.now m ≡ state.now) }
    {
        let k = self.shape.k() as usize;
        let low_requests = messages_at(&self.low.requests, k + 1, m);
        let comb_requests = messages_at(&self.comb.requests, k + 1, m);
        let low_replies = messages_at(&self.low.replies, k, m);
        let comb_replies = messages_at(&self.comb.replies, k, m);
        has(self.served, m) == state.served
            && net_for(has(self.module_turns, m)) == state.turn
            && are_requests(low_requests, comb_requests, &state.requests)
            && are_replies(low_replies, comb_replies, &state.replies)
            && self.has_memory(m, state.words.as_slice())
    }

    /// Whether a low switch is in this state.
    fn is_low(&self, stage: u32, index: u32, state: &LowState) -> bool
        requires stage { stage < self.now.k }
        requires index { index < half self.now.k }
        ensures { IsTrue result ↔ (low_of self.now.k self.now.low stage index ≡ state.now) }
    {
        let (x, y) = ports(self.shape, stage, index);
        let s = stage as usize;
        let side = &self.low;
        let first = messages_at(&side.requests, s + 1, x);
        let second = messages_at(&side.requests, s + 1, y);
        let first_back = messages_at(&side.replies, s, x);
        let second_back = messages_at(&side.replies, s, y);
        are_turns(side.turns[s], x, y, &state.turn)
            && are_turns(side.back_turns[s], x, y, &state.rturn)
            && are_requests(first, second, &state.fwd)
            && are_replies(first_back, second_back, &state.rev)
    }

    /// Whether a combining switch is in this state.
    fn is_comb(&self, stage: u32, index: u32, state: &CombState) -> bool
        requires stage { stage < self.now.k }
        requires index { index < half self.now.k }
        ensures { IsTrue result ↔ (comb_of self.now.k self.now.comb stage index (wait_of (buffers_at self.now stage) (switch_label self.now.k stage index)) (combined_of (buffers_at self.now stage) (switch_label self.now.k stage index)) ≡ state.now) }
    {
        let (x, y) = ports(self.shape, stage, index);
        let s = stage as usize;
        let side = &self.comb;
        let waits = &self.waits[s];
        let first = messages_at(&side.requests, s + 1, x);
        let second = messages_at(&side.requests, s + 1, y);
        let first_back = messages_at(&side.replies, s, x);
        let second_back = messages_at(&side.replies, s, y);
        are_turns(side.turns[s], x, y, &state.turn)
            && bit_in(side.back_turns[s], x) == state.rturn
            && bit_in(waits.once, x) + bit_in(waits.twice, x) == state.combined
            && are_requests(first, second, &state.fwd)
            && are_replies(first_back, second_back, &state.rev)
            && are_waiting(waits.entries[x as usize].as_slice(), &state.wait)
    }
}

/// Whether these are the turns of a stage at two labels.
fn are_turns(set: u64, x: u32, y: u32, turns: &[u8; 2]) -> bool
    requires { (x < 64) × (y < 64) }
    ensures { IsTrue result ↔ (bit x set ∷ bit y set ∷ [] ≡ turns.now) }
{
    bit_in(set, x) == turns[0] && bit_in(set, y) == turns[1]
}

/// Whether these requests wait at the two ports.
fn are_requests(first: &[Request], second: &[Request], queues: &[Queue<Request>; 2]) -> bool
    ensures { IsTrue result ↔ (record { items = first.now } ∷ record { items = second.now } ∷ [] ≡ queues.now) }
{
    same_requests(first, queues[0].as_slice()) && same_requests(second, queues[1].as_slice())
}

/// Whether these replies wait at the two ports.
fn are_replies(first: &[Reply], second: &[Reply], queues: &[Queue<Reply>; 2]) -> bool
    ensures { IsTrue result ↔ (record { items = first.now } ∷ record { items = second.now } ∷ [] ≡ queues.now) }
{
    same_replies(first, queues[0].as_slice()) && same_replies(second, queues[1].as_slice())
}

/// Whether these are the entries of a wait buffer.
fn are_waiting(entries: &[Waiting], wait: &Queue<Waiting>) -> bool
    ensures { IsTrue result ↔ (record { items = entries.now } ≡ wait.now) }
{
    same_entries(entries, wait.as_slice())
}

fn same_requests(requests: &[Request], others: &[Request]) -> bool
    ensures { IsTrue result ↔ (requests.now ≡ others.now) }
{
    requests == others
}

fn same_replies(replies: &[Reply], others: &[Reply]) -> bool
    ensures { IsTrue result ↔ (replies.now ≡ others.now) }
{
    replies == others
}

fn same_entries(entries: &[Waiting], others: &[Waiting]) -> bool
    ensures { IsTrue result ↔ (entries.now ≡ others.now) }
{
    entries == others
}

fn same_words(words: &[Stored], others: &[Stored]) -> bool
    ensures { IsTrue result ↔ (words.now ≡ others.now) }
{
    words == others
}
