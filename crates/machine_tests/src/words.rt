//! States as words: each kind with full queues and the greatest numbers, and all states of a run.

use comb_switch::{CombState, Waiting};
use expect::{equal, equal_at};
use grid_law::Grid;
use low_switch::LowState;
use machine_cells::{MachineState, Rp3, decode, encode, from_scratch};
use mem_module::{ModuleState, SharedWords, Words};
use omega_net::{Net, Queue, Reply, Request, ScriptEntry, Tag};
use page_map::Place;
use project_book::{Edit, Project, Slot};
use ref_proc::{Outgoing, ProcState};
use state_words::length_of;
use std::alloc::Global;
use std::test::Fail;
use word_ops::{Kind, Op};

/// The greatest tag, operation, request, reply and entry of a wait buffer.
const TAG: Tag = Tag {
    proc: 255,
    issue: 4_294_967_295,
};

const OP: Op = Op {
    kind: Kind::StoreIfZero,
    operand: 4_294_967_295,
};

const REQUEST: Request = Request {
    tag: TAG,
    place: Place {
        module: 255,
        row: 65_535,
    },
    op: OP,
};

const REPLY: Reply = Reply {
    tag: TAG,
    word: 4_294_967_295,
};

const WAITING: Waiting = Waiting {
    first: TAG,
    op: OP,
    second: TAG,
};

/// A processor with the greatest numbers, and its words: three messages behind the head and what it has spent and issued.
const PROC: ProcState = ProcState {
    index: 65_535,
    spent: 4_294_967_295,
    issued: 4_294_967_295,
    pending: 4_294_967_295,
    out: Some(Outgoing {
        net: Net::Comb,
        request: REQUEST,
    }),
    got: [Some(REPLY), Some(REPLY)],
    sent: true,
};

const PROC_WORDS: [u64; 8] = [
    18_014_398_509_481_980,
    18_446_744_073_709_551_615,
    18_446_744_073_709_551_615,
    68_719_476_735,
    18_446_744_073_709_551_615,
    255,
    18_446_744_073_709_551_615,
    255,
];

/// The heads of the three states, and how many words they have.
const HEADS: [(u64, usize); 3] = [
    (404_817_985, 129),
    (576_443_125_625_587_778, 129),
    (576_443_125_692_696_643, 161),
];

/// A full queue of a message.
fn full<T: Copy>(alloc: Global, message: T) -> Result<Queue<T>, Fail> {
    let mut queue = Queue::new(alloc);
    for _ in 0..16 {
        queue.push(message)?;
    }
    Ok(queue)
}

/// A module's memory.
fn memory_of(state: &MachineState) -> Option<&SharedWords> {
    match state {
        MachineState::Module(module) => Some(&module.words),
        _ => None,
    }
}

/// Appends the words of a state, and says whether they give it back and are as many as the head says.
fn told(alloc: Global, words: &mut Vec<u64>, state: &MachineState) -> Result<bool, Fail> {
    let before = words.len();
    encode(state, words)?;
    let own = words.get(before..).ok_or("no words")?;
    let head = own.first().ok_or("no head")?;
    let again = decode(alloc, own, memory_of(state))?;
    Ok(own.len() == length_of(*head) && again.same(state))
}

fn pair<T: Copy>(alloc: Global, message: T) -> Result<[Queue<T>; 2], Fail> {
    Ok([full(alloc, message)?, full(alloc, message)?])
}

fn full_module(alloc: Global) -> Result<MachineState, Fail> {
    let mut memory = Words::new(alloc);
    memory.put(3, 4)?;
    Ok(MachineState::Module(ModuleState {
        words: SharedWords::new(alloc, memory)?,
        requests: pair(alloc, REQUEST)?,
        replies: pair(alloc, REPLY)?,
        turn: Net::Comb,
        served: true,
    }))
}

fn full_low(alloc: Global) -> Result<MachineState, Fail> {
    Ok(MachineState::Low(LowState {
        fwd: pair(alloc, REQUEST)?,
        turn: [255, 254],
        rev: pair(alloc, REPLY)?,
        rturn: [253, 255],
    }))
}

fn full_comb(alloc: Global) -> Result<MachineState, Fail> {
    Ok(MachineState::Comb(CombState {
        fwd: pair(alloc, REQUEST)?,
        rev: pair(alloc, REPLY)?,
        wait: full(alloc, WAITING)?,
        turn: [255, 254],
        rturn: 253,
        combined: 255,
    }))
}

/// A module, a low switch and a combining one with full queues and the greatest numbers.
fn full_states(alloc: Global) -> Result<Vec<MachineState>, Fail> {
    let mut states = Vec::new(alloc);
    states.push(full_module(alloc)?)?;
    states.push(full_low(alloc)?)?;
    states.push(full_comb(alloc)?)?;
    Ok(states)
}

#[test]
fn greatest_states_are_told(rt: HostRuntime) -> Result<(), Fail> {
    let alloc = rt.alloc();
    let mut words = Vec::new(alloc);
    assert!(rt; told(alloc, &mut words, &MachineState::Proc(PROC))?);
    assert!(rt; words.as_slice() == PROC_WORDS.as_slice());
    for (state, (head, length)) in full_states(alloc)?.iter().zip(HEADS) {
        words.clear();
        assert!(rt; told(alloc, &mut words, state)?);
        assert!(rt; equal_at(&rt, length, words.first().copied(), Some(head)));
        assert!(rt; equal(&rt, words.len(), length));
    }
    Ok(())
}

/// Four processors that ask for word 0 through the network that combines, and one of them through the other too.
fn four(alloc: Global) -> Result<Project, Fail> {
    let mut project = Project::new(alloc, 2, 40)?.ok_or("no such project")?;
    for proc in 0..4 {
        let entry = ScriptEntry::Reference {
            sync: proc != 2,
            op: Op {
                kind: Kind::Add,
                operand: proc + 1,
            },
            address: 0,
            times: 3,
        };
        let edit = Edit::Entry {
            proc,
            index: 0,
            entry,
        };
        project = project.apply(edit)?.0;
    }
    Ok(project)
}

/// Whether the words of all states of a run give them back.
fn run_is_told(alloc: Global) -> Result<bool, Fail> {
    let project = four(alloc)?;
    for states in &from_scratch(alloc, &project)? {
        let mut words = Vec::new(alloc);
        for state in states {
            if !told(alloc, &mut words, state)? {
                return Ok(false);
            }
        }
    }
    Ok(true)
}

#[test]
fn states_of_a_run_are_told(rt: HostRuntime) -> Result<(), Fail> {
    assert!(rt; run_is_told(rt.alloc())?);
    Ok(())
}

/// What a state of a grid is kept as, and put together again: its words, and the same memory with another owner.
fn kept<G: Grid>(alloc: Global, state: &G::State) -> Result<bool, Fail> {
    let mut words = Vec::new(alloc);
    G::encode(state, &mut words)?;
    let memory = match G::memory(state)? {
        Some(memory) => Some(G::share_memory(&memory)?),
        None => None,
    };
    let again = G::decode(alloc, &words, memory.as_ref())?;
    let same = match (G::memory(&again)?, memory) {
        (Some(a), Some(b)) => G::same_memory(&a, &b),
        (None, None) => true,
        _ => false,
    };
    Ok(same && G::same(&again, state))
}

#[test]
fn states_are_kept_by_the_grid(rt: HostRuntime) -> Result<(), Fail> {
    let alloc = rt.alloc();
    assert!(rt; kept::<Rp3>(alloc, &MachineState::Proc(PROC))?);
    for state in &full_states(alloc)? {
        assert!(rt; kept::<Rp3>(alloc, state)?);
    }
    Ok(())
}

/// Whether a state has its own words, and no longer where one of them is another or the last isn't there.
fn has_code(words: &mut Vec<u64>, state: &MachineState) -> Result<bool, Fail> {
    words.clear();
    encode(state, words)?;
    let memory = memory_of(state);
    let mut has = Rp3::is_code(state, words, memory);
    for place in 0..words.len() {
        words[place] ^= 1;
        has = has && !Rp3::is_code(state, words, memory);
        words[place] ^= 1;
    }
    has = has && words.pop().is_some() && !Rp3::is_code(state, words, memory);
    Ok(has)
}

#[test]
fn states_are_compared_with_words(rt: HostRuntime) -> Result<(), Fail> {
    let alloc = rt.alloc();
    let mut words = Vec::new(alloc);
    let processor = MachineState::Proc(PROC);
    assert!(rt; has_code(&mut words, &processor)?);
    for state in &full_states(alloc)? {
        assert!(rt; has_code(&mut words, state)?);
    }
    words.clear();
    encode(&processor, &mut words)?;
    let memory = SharedWords::new(alloc, Words::new(alloc))?;
    assert!(rt; !Rp3::is_code(&processor, &words, Some(&memory)));
    Ok(())
}

// A processor at its entry 3 reads that one, whatever it has sent, and no other; a switch's words say nothing of what it reads.
#[test]
fn words_are_read(rt: HostRuntime) -> Result<(), Fail> {
    let alloc = rt.alloc();
    let project = four(alloc)?;
    let mut own = PROC;
    own.index = 3;
    let mut words = Vec::new(alloc);
    Rp3::encode(&MachineState::Proc(own), &mut words)?;
    if Rp3::components(&project) < 9 {
        return Err(Fail::from("no such component"));
    }
    for (component, index, reads) in [(2, 3, true), (2, 4, false), (8, 3, false)] {
        let slot = Slot::Entry(2, index);
        let read = Rp3::words_read(&project, &words, component, &slot);
        assert!(rt; equal_at(&rt, (component, index), read, reads));
    }
    assert!(rt; Rp3::words_read(&project, &[], 8, &Slot::Shape));
    Ok(())
}
