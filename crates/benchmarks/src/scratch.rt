//! The bytes of a plain simulation's run.
use comb_switch::Waiting;
use machine_cells::MachineState;
use mem_module::Stored;
use omega_net::{Queue, Reply, Request};
use std::mem::size_of;
use std::sync::Arc;

/// The bytes that a run holds: cells × the size of an owner, and for each state that isn't that of the cycle before its own
/// size, and for a module that of its words. What the allocator takes beside isn't counted.
pub fn bytes_of(rows: &[Vec<Arc<MachineState>>]) -> u64 {
    let mut bytes: u64 = 0;
    let mut before: &[Arc<MachineState>] = &[];
    for row in rows {
        bytes = bytes.saturating_add(row_bytes(before, row));
        before = row;
    }
    bytes
}

fn row_bytes(before: &[Arc<MachineState>], row: &[Arc<MachineState>]) -> u64 {
    let mut bytes: u64 = 0;
    for (c, state) in row.iter().enumerate() {
        bytes = bytes.saturating_add(size_of::<Arc<MachineState>>() as u64);
        if !before.get(c).map_or(false, |old| old.same(state)) {
            bytes = bytes.saturating_add(apart(state));
        }
    }
    bytes
}

/// The bytes of a state, with what is kept apart for it.
fn apart(state: &MachineState) -> u64 {
    let kept = match state {
        MachineState::Proc(_) => 0,
        MachineState::Module(module) => {
            room(module.words.as_slice().len(), size_of::<Stored>()).saturating_add(waiting(
                &module.requests,
                &module.replies,
            ))
        }
        MachineState::Low(switch) => waiting(&switch.fwd, &switch.rev),
        MachineState::Comb(switch) => waiting(&switch.fwd, &switch.rev).saturating_add(room(
            switch.wait.len(),
            size_of::<Waiting>(),
        )),
    };
    kept.saturating_add(size_of::<MachineState>() as u64)
}

/// The bytes of the messages that wait at two ports each way.
fn waiting(requests: &[Queue<Request>; 2], replies: &[Queue<Reply>; 2]) -> u64 {
    room(requests[0].len(), size_of::<Request>())
        .saturating_add(room(requests[1].len(), size_of::<Request>()))
        .saturating_add(room(replies[0].len(), size_of::<Reply>()))
        .saturating_add(room(replies[1].len(), size_of::<Reply>()))
}

/// The bytes of so many things of that size.
fn room(count: usize, size: usize) -> u64 {
    (count as u64).saturating_mul(size as u64)
}
