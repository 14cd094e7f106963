//! The states of components as words, written straight from the arrays.
ghost use Rattle.std.specs.Prelude.{◌≡◌, ℕ, ◌+◌, ◌*◌, ◌<◌, ◌≤◌, ◌^◌, ◌++◌, ◌∷◌, List, length, vec_len, vec_capacity, OnOk, OnErr, IsOk, Some};
ghost use Rattle.omega_net.specs.Limits.{queue_places};
ghost use Rattle.omega_net.specs.Numbers.{lines, half, Exists};
ghost use Rattle.omega_net.specs.declared.component.Component.TheVariants.{Proc as ProcAt, Module as ModuleAt, Switch};
ghost use Rattle.omega_net.specs.declared.component.Net.TheVariants.{Low as LowNet, Comb as CombNet};
ghost use Rattle.omega_net.specs.Wires.{net_number};
ghost use Rattle.ref_proc.specs.RefProc.{net_for};
ghost use Rattle.grid_law.specs.Codec.{IsTold};
ghost use Rattle.machine_cells.specs.Codec.{rp3_codec};
ghost use Rattle.machine_cells.specs.Words.{words_of};
ghost use Rattle.state_words.specs.Words.{bytes, one_if};
ghost use Rattle.flat_row.specs.Masks.{has};
ghost use Rattle.flat_row.specs.Parts.{parts_body, parts_words};
ghost use Rattle.flat_row.specs.Row.{buffers_at, combined_of, state_of, turn_of};

use crate::bits::bit_in;
use crate::read::{messages_at, ports};
use crate::row::Row;
use comb_switch::Waiting;
use machine_cells::{MachineState, encode};
use omega_net::{Component, Net, Reply, Request};
use state_words::{bytes, queues_head, write_messages};
use std::alloc::AllocError;

impl Row {
    /// Appends the words of a component's state, as [`machine_cells::encode`] writes them: a module's memory is not among them. With its
    /// memory they tell it. It takes memory only where there is no room for them.
    ///
    /// # Errors
    ///
    /// Where the growth was refused. Then nothing was appended.
    pub fn words(&self, component: Component, words: &mut Vec<u64>) -> Result<(), AllocError>
        requires { Exists self.now.k component }
        ensures ok { OnOk result (words.new.items ≡ words.old.items ++ words_of (state_of self.now (Some component))) }
        ensures err { OnErr result (words.new.items ≡ words.old.items) }
        ensures room { vec_len words.old + length (words_of (state_of self.now (Some component))) ≤ vec_capacity words.old → IsOk result }
        ensures told { IsTold rp3_codec (state_of self.now (Some component)) }
    {
        self.is_told(component);
        match component {
            Component::Proc(p) => self.proc_words(u32::from(p), words),
            Component::Module(m) => self.module_words(u32::from(m), words),
            Component::Switch {
                net: Net::Low,
                stage,
                index,
            } => self.low_words(u32::from(stage), u32::from(index), words),
            Component::Switch {
                net: Net::Comb,
                stage,
                index,
            } => self.comb_words(u32::from(stage), u32::from(index), words),
        }
    }

    /// Appends the words of a processor.
    fn proc_words(&self, p: u32, words: &mut Vec<u64>) -> Result<(), AllocError>
        requires { p < lines self.now.k }
        ensures ok { OnOk result (words.new.items ≡ words.old.items ++ words_of (state_of self.now (Some (ProcAt p)))) }
        ensures err { OnErr result (words.new.items ≡ words.old.items) }
        ensures room { vec_len words.old + length (words_of (state_of self.now (Some (ProcAt p)))) ≤ vec_capacity words.old → IsOk result }
    {
        let state = MachineState::Proc(self.processor(p));
        encode(&state, words)
    }

    /// Appends the words of a module.
    fn module_words(&self, m: u32, words: &mut Vec<u64>) -> Result<(), AllocError>
        requires { m < lines self.now.k }
        ensures ok { OnOk result (words.new.items ≡ words.old.items ++ words_of (state_of self.now (Some (ModuleAt m)))) }
        ensures err { OnErr result (words.new.items ≡ words.old.items) }
        ensures room { vec_len words.old + length (words_of (state_of self.now (Some (ModuleAt m)))) ≤ vec_capacity words.old → IsOk result }
    {
        let k = self.shape.k() as usize;
        let low_requests = messages_at(&self.low.requests, k + 1, m);
        let comb_requests = messages_at(&self.comb.requests, k + 1, m);
        let low_replies = messages_at(&self.low.replies, k, m);
        let comb_replies = messages_at(&self.comb.replies, k, m);
        write_parts(
            words,
            1,
            low_requests,
            comb_requests,
            low_replies,
            comb_replies,
            &[],
            self.module_small(m),
        )
    }

    /// Appends the words of a low switch.
    fn low_words(&self, stage: u32, index: u32, words: &mut Vec<u64>) -> Result<(), AllocError>
        requires stage { stage < self.now.k }
        requires index { index < half self.now.k }
        ensures ok { OnOk result (words.new.items ≡ words.old.items ++ words_of (state_of self.now (Some (Switch LowNet stage index)))) }
        ensures err { OnErr result (words.new.items ≡ words.old.items) }
        ensures room { vec_len words.old + length (words_of (state_of self.now (Some (Switch LowNet stage index)))) ≤ vec_capacity words.old → IsOk result }
    {
        let (x, y) = ports(self.shape, stage, index);
        let s = stage as usize;
        let side = &self.low;
        let first = messages_at(&side.requests, s + 1, x);
        let second = messages_at(&side.requests, s + 1, y);
        let first_back = messages_at(&side.replies, s, x);
        let second_back = messages_at(&side.replies, s, y);
        write_parts(
            words,
            2,
            first,
            second,
            first_back,
            second_back,
            &[],
            self.low_small(s, x, y),
        )
    }

    /// Appends the words of a combining switch.
    fn comb_words(&self, stage: u32, index: u32, words: &mut Vec<u64>) -> Result<(), AllocError>
        requires stage { stage < self.now.k }
        requires index { index < half self.now.k }
        ensures ok { OnOk result (words.new.items ≡ words.old.items ++ words_of (state_of self.now (Some (Switch CombNet stage index)))) }
        ensures err { OnErr result (words.new.items ≡ words.old.items) }
        ensures room { vec_len words.old + length (words_of (state_of self.now (Some (Switch CombNet stage index)))) ≤ vec_capacity words.old → IsOk result }
    {
        let (x, y) = ports(self.shape, stage, index);
        let s = stage as usize;
        let side = &self.comb;
        let waits = &self.waits[s];
        let first = messages_at(&side.requests, s + 1, x);
        let second = messages_at(&side.requests, s + 1, y);
        let first_back = messages_at(&side.replies, s, x);
        let second_back = messages_at(&side.replies, s, y);
        write_parts(
            words,
            3,
            first,
            second,
            first_back,
            second_back,
            waits.entries[x as usize].as_slice(),
            self.comb_small(s, x, y),
        )
    }

    /// What is small of a module: whose turn it is, and whether it served.
    pub(crate) fn module_small(&self, m: u32) -> u64
        requires { m < lines self.now.k }
        ensures value { result ≡ net_number (net_for (has self.now.module_turns m)) + 2 * one_if (has self.now.served m) }
        ensures fits { result < 2 ^ 32 }
    {
        self.is_row();
        bit_in(self.module_turns, m) as u64 + 2 * bit_in(self.served, m) as u64
    }

    /// What is small of a low switch: its turns and its turns back.
    pub(crate) fn low_small(&self, s: usize, x: u32, y: u32) -> u64
        requires stage { s < self.now.k }
        requires labels { (x < 64) × (y < 64) }
        ensures value { result ≡ bytes (turn_of self.now.low.turns s x) (turn_of self.now.low.turns s y) (turn_of self.now.low.back_turns s x) (turn_of self.now.low.back_turns s y) }
        ensures fits { result < 2 ^ 32 }
    {
        self.is_row();
        let side = &self.low;
        let (turns, back) = (side.turns[s], side.back_turns[s]);
        bytes(
            bit_in(turns, x),
            bit_in(turns, y),
            bit_in(back, x),
            bit_in(back, y),
        )
    }

    /// What is small of a combining switch: its turns, its turn back, and how many requests it combined.
    pub(crate) fn comb_small(&self, s: usize, x: u32, y: u32) -> u64
        requires stage { s < self.now.k }
        requires labels { (x < 64) × (y < 64) }
        ensures value { result ≡ bytes (turn_of self.now.comb.turns s x) (turn_of self.now.comb.turns s y) (turn_of self.now.comb.back_turns s x) (combined_of (buffers_at self.now s) x) }
        ensures fits { result < 2 ^ 32 }
    {
        self.is_row();
        let side = &self.comb;
        let waits = &self.waits[s];
        bytes(
            bit_in(side.turns[s], x),
            bit_in(side.turns[s], y),
            bit_in(side.back_turns[s], x),
            bit_in(waits.once, x) + bit_in(waits.twice, x),
        )
    }
}

/// Appends the words of a module or a switch: of its kind, of the requests and the replies that wait at its ports, of the entries of its
/// wait buffer, and of what is small.
#[tactic(auto, using(crate::proofs::Encoding::parts_long))]
#[inline(always)]
pub(crate) fn write_parts(
    words: &mut Vec<u64>,
    kind: u64,
    first: &[Request],
    second: &[Request],
    first_back: &[Reply],
    second_back: &[Reply],
    wait: &[Waiting],
    small: u64,
) -> Result<(), AllocError>
    requires kind { kind < 4 }
    requires requests { (length first.now ≤ queue_places) × (length second.now ≤ queue_places) }
    requires replies { (length first_back.now ≤ queue_places) × (length second_back.now ≤ queue_places) }
    requires wait { length wait.now ≤ queue_places }
    requires small { small < 2 ^ 32 }
    ensures ok { OnOk result (words.new.items ≡ words.old.items ++ parts_words kind first.now second.now first_back.now second_back.now wait.now small) }
    ensures err { OnErr result (words.new.items ≡ words.old.items) }
    ensures room { vec_len words.old + 1 + length (parts_body first.now second.now first_back.now second_back.now wait.now) ≤ vec_capacity words.old → IsOk result }
{
    let (a, b, c, d) = (
        first.len(),
        second.len(),
        first_back.len(),
        second_back.len(),
    );
    words.reserve(1 + 2 * (a + b + c + d + wait.len()))?;
    write_word(words, queues_head(kind, (a, b), (c, d), wait.len(), small));
    write_messages(words, first);
    write_messages(words, second);
    write_messages(words, first_back);
    write_messages(words, second_back);
    write_messages(words, wait);
    Ok(())
}

/// Appends a word.
fn write_word(words: &mut Vec<u64>, word: u64)
    requires { vec_len words.old + 1 ≤ vec_capacity words.old }
    ensures items { (rest : List ℕ) → words.new.items ++ rest ≡ words.old.items ++ word ∷ rest }
    ensures len { vec_len words.new ≡ vec_len words.old + 1 }
    ensures capacity { vec_capacity words.new ≡ vec_capacity words.old }
{
    words.push_reserved(word);
}
