//! The states of components, read out of the row.
ghost use Rattle.std.specs.Prelude.{◌≡◌, ◌<◌, ◌≤◌, ◌+◌, length, IfOk, Some};
ghost use Rattle.std.specs.Mem.{FitsInMemory};
ghost use Rattle.flat_row.specs.contracts.queue.Places.{the_row};
ghost use Rattle.machine_cells.specs.Codec.{memory_in};
ghost use Rattle.omega_net.specs.declared.component.Component.TheVariants.{Module as ModuleAt};
ghost use Rattle.std.specs.Option.{option_copied};
ghost use Rattle.omega_net.specs.Limits.{queue_places};
ghost use Rattle.omega_net.specs.Numbers.{lines, half, Exists};
ghost use Rattle.flat_row.specs.Row.{level_at, queue_of, port_label, proc_of, out_of, module_of, low_of, comb_of, out_from, buffers_at, wait_of, combined_of, state_of};
ghost use Rattle.flat_row.specs.Labels.{switch_label};
ghost use Rattle.ref_proc.specs.RefProc.{net_for};
ghost use Rattle.flat_row.specs.Masks.{has};

use crate::bits::{bit_in, has};
use crate::labels::label_of;
use crate::level::Level;
use crate::marks::Routed;
use crate::row::Row;
use comb_switch::CombState;
use grid_law::NoMemory;
use low_switch::LowState;
use machine_cells::MachineState;
use mem_module::{ModuleState, SharedWords};
use omega_net::{Component, Net, Queue, Request, Shape};
use ref_proc::{Outgoing, ProcState};
use std::alloc::{AllocError, Global};

impl Row {
    /// A component's state.
    ///
    /// # Errors
    ///
    /// Where a growth was refused.
    pub fn read(&self, alloc: Global, component: Component) -> Result<MachineState, NoMemory>
        requires { Exists self.now.k component }
        ensures { IfOk result (λ state. state ≡ state_of self.now (Some component)) }
    {
        match component {
            Component::Proc(p) => Ok(MachineState::Proc(self.processor(u32::from(p)))),
            Component::Module(m) => Ok(MachineState::Module(self.memory(alloc, u32::from(m))?)),
            Component::Switch {
                net: Net::Low,
                stage,
                index,
            } => Ok(MachineState::Low(self.low_switch(alloc, u32::from(stage), u32::from(index))?)),
            Component::Switch {
                net: Net::Comb,
                stage,
                index,
            } => Ok(MachineState::Comb(self.comb_switch(
                alloc,
                u32::from(stage),
                u32::from(index),
            )?)),
        }
    }

    /// A processor's state.
    pub(crate) fn processor(&self, p: u32) -> ProcState
        requires { p < lines self.now.k }
        ensures { result ≡ proc_of self.now p }
    {
        ProcState {
            out: self.out(p),
            ..self.procs[p as usize]
        }
    }

    /// What a processor shows.
    pub(crate) fn out(&self, p: u32) -> Option<Outgoing>
        requires { p < lines self.now.k }
        ensures { result ≡ out_of self.now p }
    {
        out_from(
            messages_at(&self.low.requests, 0, p).first(),
            messages_at(&self.comb.requests, 0, p).first(),
        )
    }

    /// A module's state.
    pub(crate) fn memory(&self, alloc: Global, m: u32) -> Result<ModuleState, NoMemory>
        requires { m < lines self.now.k }
        ensures { IfOk result (λ state. state ≡ module_of self.now m) }
    {
        let words = self.memory_words(alloc, m)?;
        self.module_with(alloc, m, words)
    }

    /// A module's words of memory.
    ///
    /// # Errors
    ///
    /// Where a growth was refused.
    pub fn memory_words(&self, alloc: Global, m: u32) -> Result<SharedWords, NoMemory>
        requires { m < lines self.now.k }
        ensures { IfOk result (λ words. Some words ≡ memory_in (state_of self.now (Some (ModuleAt m)))) }
    {
        let words = self.words[m as usize].copy(alloc)?;
        Ok(SharedWords::new(alloc, words)?)
    }

    /// The state of a module that has these words of memory.
    pub(crate) fn module_with(
        &self,
        alloc: Global,
        m: u32,
        words: SharedWords,
    ) -> Result<ModuleState, NoMemory>
        requires { m < lines self.now.k }
        ensures { (module_of self.now m).words ≡ words → IfOk result (λ state. state ≡ module_of self.now m) }
    {
        let k = self.shape.k() as usize;
        let low_requests = held(alloc, &self.low.requests, k + 1, m)?;
        let comb_requests = held(alloc, &self.comb.requests, k + 1, m)?;
        let low_replies = held(alloc, &self.low.replies, k, m)?;
        let comb_replies = held(alloc, &self.comb.replies, k, m)?;
        Ok(ModuleState {
            words,
            requests: [low_requests, comb_requests],
            replies: [low_replies, comb_replies],
            turn: net_for(has(self.module_turns, m)),
            served: has(self.served, m),
        })
    }

    /// A low switch's state.
    fn low_switch(&self, alloc: Global, stage: u32, index: u32) -> Result<LowState, NoMemory>
        requires stage { stage < self.now.k }
        requires index { index < half self.now.k }
        ensures { IfOk result (λ state. state ≡ low_of self.now.k self.now.low stage index) }
    {
        let (x, y) = ports(self.shape, stage, index);
        let s = stage as usize;
        let side = &self.low;
        let first = held(alloc, &side.requests, s + 1, x)?;
        let second = held(alloc, &side.requests, s + 1, y)?;
        let first_back = held(alloc, &side.replies, s, x)?;
        let second_back = held(alloc, &side.replies, s, y)?;
        Ok(LowState {
            fwd: [first, second],
            rev: [first_back, second_back],
            turn: [bit_in(side.turns[s], x), bit_in(side.turns[s], y)],
            rturn: [bit_in(side.back_turns[s], x), bit_in(side.back_turns[s], y)],
        })
    }

    /// A combining switch's state.
    fn comb_switch(&self, alloc: Global, stage: u32, index: u32) -> Result<CombState, NoMemory>
        requires stage { stage < self.now.k }
        requires index { index < half self.now.k }
        ensures { IfOk result (λ state. state ≡ comb_of self.now.k self.now.comb stage index (wait_of (buffers_at self.now stage) (switch_label self.now.k stage index)) (combined_of (buffers_at self.now stage) (switch_label self.now.k stage index))) }
    {
        let (x, y) = ports(self.shape, stage, index);
        let s = stage as usize;
        let side = &self.comb;
        let waits = &self.waits[s];
        let first = held(alloc, &side.requests, s + 1, x)?;
        let second = held(alloc, &side.requests, s + 1, y)?;
        let first_back = held(alloc, &side.replies, s, x)?;
        let second_back = held(alloc, &side.replies, s, y)?;
        let wait = Queue::holding(alloc, waits.entries[x as usize].as_slice(), 0)?;
        Ok(CombState {
            fwd: [first, second],
            rev: [first_back, second_back],
            wait,
            turn: [bit_in(side.turns[s], x), bit_in(side.turns[s], y)],
            rturn: bit_in(side.back_turns[s], x),
            combined: bit_in(waits.once, x) + bit_in(waits.twice, x),
        })
    }
}

/// What a processor shows, where these are its requests on the networks.
pub(crate) fn out_from(low: Option<&Request>, comb: Option<&Request>) -> Option<Outgoing>
    ensures { result ≡ out_from (option_copied low.entry) (option_copied comb.entry) }
{
    match (low, comb) {
        (Some(request), _) => Some(Outgoing {
            net: Net::Low,
            request: *request,
        }),
        (None, Some(request)) => Some(Outgoing {
            net: Net::Comb,
            request: *request,
        }),
        (None, None) => None,
    }
}

/// The network of a module's turn.
pub(crate) fn net_for(comb: bool) -> Net
    ensures { result ≡ net_for comb }
{
    if comb { Net::Comb } else { Net::Low }
}

/// The messages of a queue of a level.
pub(crate) fn messages_at<T: Routed>(levels: &[Level<T>], level: usize, x: u32) -> &[T]
    requires there { level < length levels.now }
    requires label { x < length (level_at levels.now level).queues }
    requires fits { FitsInMemory (the_row T.row) }
    ensures value { result.now ≡ (queue_of levels.now level x).items }
    ensures fits { length result.now ≤ queue_places }
{
    levels[level].messages(x)
}

/// A queue of a level, by itself.
fn held<T: Routed>(
    alloc: Global,
    levels: &[Level<T>],
    level: usize,
    x: u32,
) -> Result<Queue<T>, AllocError>
    requires there { level < length levels.now }
    requires label { x < length (level_at levels.now level).queues }
    requires fits { FitsInMemory (the_row T.row) }
    ensures { IfOk result (λ queue. queue ≡ queue_of levels.now level x) }
{
    let queue = Queue::holding(alloc, messages_at(levels, level, x), 0)?;
    Ok(queue)
}

/// The labels of a switch's ports.
pub(crate) fn ports(shape: Shape, stage: u32, index: u32) -> (u32, u32)
    requires stage { stage < shape }
    requires index { index < half shape }
    ensures first { result.0 ≡ port_label shape stage index 0 }
    ensures second { result.1 ≡ port_label shape stage index 1 }
    ensures own { result.0 ≡ switch_label shape stage index }
    ensures within { (result.0 < lines shape) × (result.1 < lines shape) }
    ensures small { (result.0 < 64) × (result.1 < 64) }
{
    // There are at most 64 labels.
    let _k = shape.k();
    let x = label_of(shape, stage, index);
    (x, x + (1 << shape.deciding_bit(stage as u8)))
}
