//! Worked examples, and printed texts.

use expect::{equal, equal_at};
use std::test::Fail;
use word_ops::{Kind, Op};

/// What each kind leaves, and the operand of two in turn.
#[test]
fn each_kind_leaves_its_word(rt: HostRuntime) {
    // kind, first operand, second operand, old word, left by the first, left by both, combined operand
    for (kind, first, next, word, left, both, operand) in [
        (Kind::Load, 5, 6, 9, 9, 9, 5),
        // 2^32 - 1 and 3 wrap to 2; with 4 more it is 6; 3 + 4 is 7
        (Kind::Add, 3, 4, u32::MAX, 2, 6, 7),
        // bits 1100 and 1010 share 1000; 1010 and 0110 share 0010
        (Kind::And, 0b1010, 0b0110, 0b1100, 0b1000, 0b0000, 0b0010),
        (Kind::Or, 0b1010, 0b0001, 0b1100, 0b1110, 0b1111, 0b1011),
        // unsigned: 2^32 - 1 is the greatest word
        (Kind::Min, 8, 4, u32::MAX, 8, 4, 4),
        (Kind::Max, 8, u32::MAX, 4, 8, u32::MAX, u32::MAX),
        (Kind::Store, 8, 4, 6, 8, 4, 4),
        (Kind::StoreIfZero, 0, 7, 0, 0, 7, 7),
        (Kind::StoreIfZero, 3, 7, 6, 6, 6, 3),
    ] {
        let op = Op {
            kind,
            operand: first,
        };
        let then = Op {
            kind,
            operand: next,
        };
        assert!(rt;
            equal_at(
                &rt,
                (op, then),
                (op.apply(word), then.apply(left), op.then(then)),
                (left, both, Some(Op { kind, operand }))
            )
        );
    }
}

/// Operands 3 then 7 on word 0: 3 stays, and the answers are 0 and 3.
#[test]
fn store_if_zero_keeps_the_first(rt: HostRuntime) {
    let first = Op {
        kind: Kind::StoreIfZero,
        operand: 3,
    };
    let second = Op {
        kind: Kind::StoreIfZero,
        operand: 7,
    };
    assert!(rt; equal(&rt, first.then(second), Some(first)));
    // the second is answered the word that the first leaves
    assert!(rt; equal(&rt, first.apply(0), 3));
    assert!(rt; equal(&rt, second.apply(3), 3));
    let load = Op {
        kind: Kind::Load,
        operand: 7,
    };
    assert!(rt; equal(&rt, first.then(load), None));
}

#[test]
fn prints_and_reads_names(rt: HostRuntime) -> Result<(), Fail> {
    for name in [
        "load",
        "add",
        "and",
        "or",
        "min",
        "max",
        "store",
        "store-if-zero",
    ] {
        let kind = Kind::from_name(name.as_bytes()).ok_or("no kind")?;
        assert!(rt; equal(&rt, format!(in rt.alloc(); "{kind}")?.as_str(), name));
    }
    assert!(rt; equal(&rt, Kind::from_name(b"Load".as_slice()), None));
    assert!(rt; equal(&rt, Kind::from_name(b"".as_slice()), None));
    let op = Op {
        kind: Kind::Add,
        operand: 3,
    };
    assert!(rt; equal(&rt, format!(in rt.alloc(); "{op}")?.as_str(), "add:3"));
    Ok(())
}
