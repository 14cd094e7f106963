use change_lists::Lists;
use expect::{equal, equal_at};
use std::alloc::Global;
use std::process::Abort;
use std::test::Fail;

const WIDTH: u32 = 3;

/// Cells before this cycle are compared.
const END: u32 = 7;

/// What is done to the lists.
#[derive(Clone, Copy, Debug)]
enum Step {
    /// This cell, a component at a cycle, holds this value, or nothing.
    Put(u32, u32, Option<u64>),
    /// The cells of this component from this cycle on and before that one hold what the cell before them holds.
    GoOn(u32, u32, u32),
    /// Nothing begins from this cycle on.
    Truncate(u32),
}

/// Values at the first and the last cycle, over others, before others, behind others and between them, nothing over a value and where there is none; runs from the first cycle,
/// behind it, up to where something begins, up to the end, where nothing begins; fewer cycles, and none.
const STORY: [Step; 23] = [
    Step::Put(0, 0, Some(1)),
    Step::Put(0, 3, Some(2)),
    Step::Put(0, 3, Some(3)),
    Step::Put(0, 2, Some(4)),
    Step::Put(0, 4, Some(5)),
    Step::Put(2, 6, Some(6)),
    Step::GoOn(2, 3, 5),
    Step::GoOn(0, 4, 5),
    Step::GoOn(0, 0, 2),
    Step::Put(0, 1, Some(7)),
    Step::Put(0, 0, Some(8)),
    Step::GoOn(0, 5, 7),
    Step::GoOn(2, 6, 7),
    Step::Put(2, 5, Some(9)),
    Step::Put(1, 4, Some(10)),
    Step::GoOn(1, 5, 6),
    Step::Put(0, 1, None),
    Step::GoOn(0, 1, 5),
    Step::Put(2, 2, None),
    Step::Truncate(4),
    Step::Put(0, 6, Some(11)),
    Step::Truncate(0),
    Step::Put(1, 0, Some(12)),
];

/// The cells kept one by one.
#[derive(Drop)]
struct Plain {
    lists: Vec<Vec<Option<u64>>>,
}

impl Plain {
    fn new(alloc: Global) -> Result<Plain, Fail> {
        let mut lists = Vec::new(alloc);
        for _c in 0..WIDTH {
            let mut list: Vec<Option<u64>> = Vec::new(alloc);
            for _t in 0..END {
                list.push(None)?;
            }
            lists.push(list)?;
        }
        Ok(Plain { lists })
    }

    fn at(&self, c: u32, t: u32) -> Option<u64> {
        match self.lists.get(c as usize) {
            Some(list) => value_of(list, t),
            None => None,
        }
    }

    fn set(&mut self, c: u32, t: u32, value: Option<u64>) {
        if let Some(list) = self.lists.get_mut(c as usize) {
            set_in(list, t, value);
        }
    }

    /// The cells of a component from a cycle on and before another hold what the one before them holds.
    fn go_on(&mut self, c: u32, from: u32, to: u32) {
        for t in from..to {
            let before = if t == 0 { None } else { self.at(c, t - 1) };
            self.set(c, t, before);
        }
    }

    fn play(&mut self, step: Step) {
        match step {
            Step::Put(c, t, value) => self.set(c, t, value),
            Step::GoOn(c, from, to) => self.go_on(c, from, to),
            Step::Truncate(n) => {
                for c in 0..WIDTH {
                    self.go_on(c, n, END);
                }
            }
        }
    }
}

fn value_of(list: &Vec<Option<u64>>, t: u32) -> Option<u64> {
    match list.get(t as usize) {
        Some(value) => *value,
        None => None,
    }
}

fn set_in(list: &mut Vec<Option<u64>>, t: u32, value: Option<u64>) {
    if let Some(held) = list.get_mut(t as usize) {
        *held = value;
    }
}

fn held(lists: &Lists<u64>, c: u32, t: u32) -> Option<u64> {
    lists.at(c, t).copied()
}

fn put(lists: &mut Lists<u64>, c: u32, t: u32, value: Option<u64>) -> Result<(), Fail> {
    if c >= lists.width() || t >= END {
        return Err(Fail::from("no such cell"));
    }
    lists.reserve(c)?;
    let stood = lists.at(c, t).copied();
    lists.put(c, t, END, value, stood);
    Ok(())
}

fn go_on(lists: &mut Lists<u64>, c: u32, from: u32, to: u32) -> Result<(), Fail> {
    if c >= lists.width() || from >= to {
        return Err(Fail::from("no such cells"));
    }
    lists.go_on(c, from, to, END);
    Ok(())
}

fn play(lists: &mut Lists<u64>, step: Step) -> Result<(), Fail> {
    match step {
        Step::Put(c, t, value) => put(lists, c, t, value),
        Step::GoOn(c, from, to) => go_on(lists, c, from, to),
        Step::Truncate(n) => {
            lists.truncate(n);
            Ok(())
        }
    }
}

/// Whether both sides of what begins at a cell are these, or nothing begins there and both are the same.
fn has_sides(lists: &Lists<u64>, c: u32, t: u32, before: Option<u64>, at: Option<u64>) -> bool {
    match lists.sides(c, t) {
        Some(sides) => {
            lists.begins(c, t) && sides.before.copied() == before && sides.at.copied() == at
        }
        None => !lists.begins(c, t) && before == at,
    }
}

/// Whether a cell is as in the plain lists, and what begins at it stands beside what stood before.
fn is_alike(lists: &Lists<u64>, plain: &Plain, c: u32, t: u32) -> bool {
    let before = if t == 0 { None } else { plain.at(c, t - 1) };
    let at = plain.at(c, t);
    held(lists, c, t) == at && has_sides(lists, c, t, before, at)
}

fn compare(rt: &(impl Abort + Eprint), lists: &Lists<u64>, plain: &Plain, step: Step) {
    for c in 0..WIDTH + 1 {
        for t in 0..END {
            assert!(rt; equal_at(rt, (step, c, t), is_alike(lists, plain, c, t), true));
        }
    }
}

#[test]
fn lists_are_as_cell_by_cell(rt: HostRuntime) -> Result<(), Fail> {
    let alloc = rt.alloc();
    let mut lists = Lists::new(alloc, WIDTH)?;
    let mut plain = Plain::new(alloc)?;
    for step in &STORY {
        play(&mut lists, *step)?;
        plain.play(*step);
        compare(&rt, &lists, &plain, *step);
    }
    Ok(())
}

#[test]
fn next_begin_is_found(rt: HostRuntime) -> Result<(), Fail> {
    let mut lists = Lists::new(rt.alloc(), WIDTH)?;
    assert!(&rt; equal(&rt, lists.is_empty(1), true));
    put(&mut lists, 1, 2, Some(5))?;
    assert!(&rt; equal(&rt, lists.is_empty(1), false));
    assert!(&rt; equal(&rt, lists.next(1, 0, END), 2));
    assert!(&rt; equal(&rt, lists.next(1, 3, END), 3));
    assert!(&rt; equal(&rt, lists.next(1, 4, END), END));
    assert!(&rt; equal(&rt, lists.next(1, 0, 1), 1));
    Ok(())
}
