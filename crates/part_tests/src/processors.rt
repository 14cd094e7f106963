//! Worked examples, and printed texts.

use expect::equal;
use omega_net::{Net, Reply, Request, ScriptEntry, Tag};
use page_map::Place;
use ref_proc::{Outgoing, ProcSettings, ProcState, ProcTraffic};
use std::test::Fail;
use word_ops::{Kind, Op};

const FIRST: Tag = Tag { proc: 0, issue: 0 };

/// A machine of one processor and one module, the script `sync add 0 1`. The request is out at cycle 1, at the module
/// at 2 and served at 3; its reply, with the word 20, is received at 4.
#[test]
fn issues_once_and_takes_the_reply(rt: HostRuntime) -> Result<(), Fail> {
    let place = Place { module: 0, row: 0 };
    let add = ScriptEntry::Reference {
        sync: true,
        op: Op {
            kind: Kind::Add,
            operand: 1,
        },
        address: 0,
        times: 1,
    };
    let answer = Reply {
        tag: FIRST,
        word: 20,
    };
    let cycles = [
        (
            Some(add),
            None,
            false,
            "proc index 1 spent 0 issued 1 pending 1 out comb:0.0>0:0=add:1 got - - sent 1",
        ),
        (
            None,
            None,
            true,
            "proc index 1 spent 0 issued 1 pending 1 out - got - - sent 0",
        ),
        (
            None,
            None,
            false,
            "proc index 1 spent 0 issued 1 pending 1 out - got - - sent 0",
        ),
        (
            None,
            Some(answer),
            false,
            "proc index 1 spent 0 issued 1 pending 0 out - got - 0=20 sent 0",
        ),
    ];
    let mut state = ProcState::start();
    for (entry, reply, request_leaves, text) in cycles {
        let settings = ProcSettings {
            proc: 0,
            entry,
            place,
            window: 1,
        };
        let traffic = ProcTraffic {
            replies: [None, reply],
            request_leaves,
        };
        state = state.step(&settings, &traffic);
        assert!(rt; equal(&rt, format!(in rt.alloc(); "{state}")?.as_str(), text));
    }
    Ok(())
}

#[test]
fn prints_what_came_and_waits_on_the_low_network(rt: HostRuntime) -> Result<(), Fail> {
    let request = Request {
        tag: Tag { proc: 3, issue: 4 },
        place: Place {
            module: 1,
            row: 300,
        },
        op: Op {
            kind: Kind::StoreIfZero,
            operand: 7,
        },
    };
    let state = ProcState {
        index: 2,
        spent: 6,
        issued: 5,
        pending: 1,
        out: Some(Outgoing {
            net: Net::Low,
            request,
        }),
        got: [
            Some(Reply {
                tag: Tag { proc: 3, issue: 2 },
                word: 9,
            }),
            None,
        ],
        sent: true,
    };
    assert!(rt;
        equal(
            &rt,
            format!(in rt.alloc(); "{state}")?.as_str(),
            "proc index 2 spent 6 issued 5 pending 1 out low:3.4>1:300=store-if-zero:7 got 2=9 - sent 1"
        )
    );
    Ok(())
}
