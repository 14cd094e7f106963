//! Lines and their answers.
use crate::benches::Host;
use crate::lines::{
    Session, Written, add_line, input, misanswered, otherwise, run_in_reads, text_on,
};
use crate::projects::base;
use crate::stories::{Came, Stage, Step};
use bench_shell::RunFault;
use expect::{equal, equal_at};
use project_book::Project;
use std::alloc::Global;
use std::test::Fail;

/// 2.1: the load's number is 1. At window 1 it is issued once the store is answered, at cycle 4, and is
/// answered 3 cycles later; behind a fence it is issued a cycle later.
const STORE_AND_LOAD: Session = &[
    ("word 0 10", "ok 1"),
    ("entry 0 0 plain store 0 7", "ok 2"),
    ("entry 0 1 sync load 0 0", "ok 3"),
    ("reply 0 0", "ok 3 at 4 word 10"),
    ("reply 0 1", "ok 3 at 7 word 7"),
    ("entry 0 1 fence", "ok 4"),
    ("entry 0 2 sync load 0 0", "ok 5"),
    ("reply 0 1", "ok 5 at 8 word 7"),
];

/// 2.2: at window 1 the third add would be answered after cycle 8; at window 3 they follow each other
/// by one cycle. There is no fourth.
const THREE_ADDS: Session = &[
    ("entry 0 0 sync add 0 1 3", "ok 1"),
    ("reply 0 2", "ok 1 none"),
    ("window 3", "ok 2"),
    ("reply 0 2", "ok 2 at 6 word 2"),
    ("reply 0 3", "bad 4"),
];

/// 17: the reply follows the edited word.
const EDITED_WORD: Session = &[
    ("word 0 10", "ok 1"),
    ("entry 0 0 sync add 0 1", "ok 2"),
    ("reply 0 0", "ok 2 at 4 word 10"),
    ("word 0 20", "ok 3"),
    ("reply 0 0", "ok 3 at 4 word 20"),
];

#[test]
fn examples_2_1_2_2_17(rt: HostRuntime) -> Result<(), Fail> {
    for session in [STORE_AND_LOAD, THREE_ADDS, EDITED_WORD] {
        let project = Project::built_in(rt.alloc())?;
        assert!(rt; equal(&rt, misanswered(&rt, project, session)?, None));
    }
    Ok(())
}

/// A run of the shell on one line at the built-in machine, in so many reads at most.
fn in_reads(rt: &impl Host, reads: u32) -> Result<Written, Fail> {
    let mut stage = Stage::opened(rt.alloc(), Project::built_in(rt.alloc())?, 0)?;
    run_in_reads(rt, &mut stage.bench, b"word 0 10\n", reads)
}

/// 13.1: ten bytes and the end of the input are eleven reads of one byte. Without the last of them the
/// line was answered, and the end isn't known.
#[test]
fn example_13_1(rt: HostRuntime) -> Result<(), Fail> {
    for (reads, want) in [(11, Ok(())), (10, Err(RunFault::Read))] {
        let written = in_reads(&rt, reads)?;
        assert!(rt;
            equal(
                &rt,
                (written.ended, written.text.as_str()),
                (want, "ok 1\n")
            )
        );
    }
    Ok(())
}

/// How many bytes of example 17's input its first lines are, from none to all five.
const WHOLE_LINES: [usize; 6] = [0, 10, 33, 43, 53, 63];

/// What example 17's input is answered when it is cut after so many bytes: the answers to its whole
/// lines, then `bad cut` where bytes of another are left.
fn answers_to_front(alloc: Global, front: usize) -> Result<String, Fail> {
    let ends = WHOLE_LINES.iter().skip(1);
    let mut text = String::new(alloc);
    for (end, (_, answer)) in ends.zip(EDITED_WORD) {
        if *end <= front {
            add_line(&mut text, answer)?;
        }
    }
    if !WHOLE_LINES.contains(&front) {
        add_line(&mut text, "bad cut")?;
    }
    Ok(text)
}

/// What is written on so many bytes of example 17's input, where it isn't what it is answered.
fn misanswered_front(rt: &impl Host, all: &str, front: usize) -> Result<Option<String>, Fail> {
    let input = all.get(..front).ok_or("63 bytes of ASCII")?;
    let answers = answers_to_front(rt.alloc(), front)?;
    otherwise(rt, Project::built_in(rt.alloc())?, input, answers.as_str())
}

/// 13.2: example 17's input, cut after each of its bytes.
#[test]
fn example_13_2(rt: HostRuntime) -> Result<(), Fail> {
    let all = input(rt.alloc(), EDITED_WORD)?;
    assert!(rt; equal(&rt, all.len(), 63));
    for front in 0..64 {
        assert!(rt;
            equal_at(
                &rt,
                front,
                misanswered_front(&rt, all.as_str(), front)?,
                None
            )
        );
    }
    Ok(())
}

/// A line too long by one byte, an empty one, one without its value, and one that the end cuts.
fn bad_lines(alloc: Global) -> Result<Vec<u8>, Fail> {
    let mut bytes = vec![in alloc; b'x'; 4097]?;
    bytes.extend_from_slice(b"\n\nword 0\nword 0 11")?;
    Ok(bytes)
}

/// What is written on the bad lines, and what then comes of settling.
fn settled_after_bad_lines(rt: &impl Host, stage: &mut Stage) -> Result<(String, Came), Fail> {
    let bytes = bad_lines(rt.alloc())?;
    let text = text_on(rt, &mut stage.bench, bytes.as_slice())?;
    Ok((text, stage.play(Step::Settle)?))
}

/// 25: none of these lines changes anything: no edit was made, word 0 is still 10, and the 66 cells are
/// due that are due at first.
#[test]
fn example_25(rt: HostRuntime) -> Result<(), Fail> {
    let mut stage = Stage::opened(rt.alloc(), base(rt.alloc())?, 0)?;
    let (text, settled) = settled_after_bad_lines(&rt, &mut stage)?;
    assert!(rt;
        equal(
            &rt,
            text.as_str(),
            "bad line\nbad command\nbad command\nbad cut\n"
        )
    );
    assert!(rt;
        equal(
            &rt,
            (stage.bench.version(), stage.bench.project().word(0)),
            (0, 10)
        )
    );
    assert!(rt; equal(&rt, settled, Came::Settled(66)));
    Ok(())
}
