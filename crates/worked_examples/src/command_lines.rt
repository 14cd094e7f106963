//! Lines as the command table lists them.
use commands::Command;
use monitor_sums::Counter;
use omega_net::{Net, Shape};
use project_book::{Depths, Edit, ScriptEntry};
use run_queries::Query;
use std::test::Fail;
use word_ops::{Kind, Op};

fn parse(k: u32, line: &[u8]) -> Option<Command> {
    Command::parse(Shape::new(k)?, line)
}

#[test]
fn edits(rt: HostRuntime) {
    let op = Op {
        kind: Kind::StoreIfZero,
        operand: 7,
    };
    let entry = ScriptEntry::Reference {
        sync: false,
        op,
        address: 300,
        times: 1,
    };
    for (line, edit) in [
        (
            b"entry 1 0 plain store-if-zero 300 7".as_slice(),
            Edit::Entry {
                proc: 1,
                index: 0,
                entry,
            },
        ),
        (b"cut 0 3".as_slice(), Edit::Cut { proc: 0, length: 3 }),
        (
            b"\tword  5 4294967295 \r".as_slice(),
            Edit::Word {
                address: 5,
                word: 4_294_967_295,
            },
        ),
        (
            b"page 1 0 1".as_slice(),
            Edit::Page {
                page: 1,
                amount: 0,
                base: 1,
            },
        ),
        (
            b"depth comb-reverse 16".as_slice(),
            Edit::Depth {
                queue: Depths::CombReverse,
                depth: 16,
            },
        ),
        (b"wait 9".as_slice(), Edit::WaitDepth(9)),
        (
            b"combine 0 on".as_slice(),
            Edit::Combine { stage: 0, on: true },
        ),
        (b"window 8".as_slice(), Edit::Window(8)),
        (b"horizon 1001".as_slice(), Edit::Horizon(1001)),
    ] {
        assert!(rt; parse(1, line) == Some(Command::Edit(edit)));
    }
}

// With k 1: processors 0 and 1, modules 2 and 3, the low switch 4, the combining switch 5; there is no component 6.
#[test]
fn queries(rt: HostRuntime) {
    for (name, component) in [
        (b"state p1 9".as_slice(), 1),
        (b"state m0 9".as_slice(), 2),
        (b"state l0.0 9".as_slice(), 4),
        (b"state c0.0 9".as_slice(), 5),
        (b"state p2 9".as_slice(), 6),
        (b"state l1.0 9".as_slice(), 6),
    ] {
        let query = Query::State {
            component,
            cycle: 9,
        };
        assert!(rt; parse(1, name) == Some(Command::Query(query)));
    }
    let reply = Query::Reply { proc: 0, issue: 2 };
    assert!(rt; parse(1, b"reply 0 2".as_slice()) == Some(Command::Query(reply)));
    let place = Query::Place { address: 300 };
    assert!(rt; parse(1, b"place 300".as_slice()) == Some(Command::Query(place)));
    assert!(rt;
        parse(1, b"order 16384".as_slice()) == Some(Command::Query(Query::Order { address: 16384 }))
    );
}

#[test]
fn reports(rt: HostRuntime) {
    for (line, query) in [
        (
            b"counter served all 0 8".as_slice(),
            Query::Counter {
                counter: Counter::Served,
                who: None,
                from: 0,
                to: 8,
            },
        ),
        (
            b"counter waiting c0.0 2 3".as_slice(),
            Query::Counter {
                counter: Counter::Waiting,
                who: Some(5),
                from: 2,
                to: 3,
            },
        ),
        (
            b"profile comb 0".as_slice(),
            Query::Profile {
                net: Net::Comb,
                stage: 0,
            },
        ),
        (
            b"tree low 1".as_slice(),
            Query::Tree {
                net: Net::Low,
                module: 1,
            },
        ),
        (
            b"level low 1 7".as_slice(),
            Query::Level {
                net: Net::Low,
                module: 1,
                cycle: 7,
            },
        ),
        (
            b"bound 1 10 32".as_slice(),
            Query::Bound { a: 1, b: 10, p: 32 },
        ),
    ] {
        assert!(rt; parse(1, line) == Some(Command::Query(query)));
    }
}

#[test]
fn no_commands(rt: HostRuntime) -> Result<(), Fail> {
    for line in [
        b"".as_slice(),
        b"word 0".as_slice(),
        b"word 0 1 2".as_slice(),
        b"word 0 4294967296".as_slice(),
        b"Word 0 1".as_slice(),
        b"combine 0 yes".as_slice(),
        b"depth low_forward 4".as_slice(),
        b"entry 0 0 jump 3".as_slice(),
        b"state 3 0".as_slice(),
        b"state l0 0".as_slice(),
        b"counter serve all 0 8".as_slice(),
        b"counter served every 0 8".as_slice(),
        b"counter served all 0".as_slice(),
        b"profile all 0".as_slice(),
        b"tree low m0".as_slice(),
        b"level low 0".as_slice(),
        b"bound 1 10".as_slice(),
        b"order".as_slice(),
        b"order 0 0".as_slice(),
    ] {
        assert!(rt; parse(1, line).is_none());
    }
    Ok(())
}
