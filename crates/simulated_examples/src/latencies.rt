//! How long the references of worked examples took, and which of them meet a condition.
use crate::setups::{BASE, BUILT_IN, Setup};
use expect::equal;
use omega_net::Net;
use run_reports::{Condition, Heat, Window, latencies_of, latency_text};
use std::alloc::Global;
use std::test::Fail;

/// Two processors add to the same word, without combining: both references are issued at cycle 1, and answered at cycles 6 and 7.
const TWO_ADDS: Setup = Setup {
    scripts: &[&["sync add 0 1"], &["sync add 0 2"]],
    ..BASE
};

/// Three references are issued at cycles 1 to 3, and answered three cycles later each.
const WIDE_WINDOW: Setup = Setup {
    window: 3,
    scripts: &[&["sync add 0 1 3"]],
    ..BUILT_IN
};

/// A reference to the hot word by the combining network, and then one to page 1 by the low one.
const TWO_WORDS: Setup = Setup {
    scripts: &[&["sync add 0 1", "plain load 300 0"]],
    ..BUILT_IN
};

const LATENCIES: &[(Setup, Condition, &str)] = &[
    (
        TWO_ADDS,
        Condition::ALL,
        "answered 2\nunanswered 0\nmean 5.50\nleast 5\np50 5\np90 6\np99 6\ngreatest 6\n\nlatency,references\n5,1\n6,1\n",
    ),
    (
        TWO_ADDS,
        Condition {
            proc: Some(1),
            ..Condition::ALL
        },
        "answered 1\nunanswered 0\nmean 6.00\nleast 6\np50 6\np90 6\np99 6\ngreatest 6\n\nlatency,references\n6,1\n",
    ),
    (
        Setup {
            horizon: 6,
            ..TWO_ADDS
        },
        Condition::ALL,
        "answered 1\nunanswered 1\nmean 5.00\nleast 5\np50 5\np90 5\np99 5\ngreatest 5\n\nlatency,references\n5,1\n",
    ),
    (
        TWO_ADDS,
        Condition {
            net: Some(Net::Low),
            ..Condition::ALL
        },
        "answered 0\nunanswered 0\nmean none\nleast none\np50 none\np90 none\np99 none\ngreatest none\n\nlatency,references\n",
    ),
    (
        WIDE_WINDOW,
        Condition {
            window: Some(Window { from: 2, to: 3 }),
            ..Condition::ALL
        },
        "answered 2\nunanswered 0\nmean 3.00\nleast 3\np50 3\np90 3\np99 3\ngreatest 3\n\nlatency,references\n3,2\n",
    ),
];

/// Conditions that the second reference of `TWO_WORDS` meets alone.
const SECOND: &[Condition] = &[
    Condition {
        net: Some(Net::Low),
        ..Condition::ALL
    },
    Condition {
        page: Some(1),
        ..Condition::ALL
    },
    Condition {
        address: Some(300),
        ..Condition::ALL
    },
    Condition {
        hot: Some(Heat::Cold(0)),
        ..Condition::ALL
    },
    Condition {
        window: Some(Window { from: 4, to: 4 }),
        ..Condition::ALL
    },
];

/// The report of one reference that took three cycles.
const ONE_OF_THREE: &str =
    "answered 1\nunanswered 0\nmean 3.00\nleast 3\np50 3\np90 3\np99 3\ngreatest 3\n\nlatency,references\n3,1\n";

/// The report of the references of a machine that meet a condition.
fn told(alloc: Global, setup: &Setup, condition: &Condition) -> Result<String, Fail> {
    let latencies = latencies_of(alloc, &setup.project(alloc)?, condition)?;
    Ok(latency_text(alloc, &latencies)?)
}

#[test]
fn latencies_of_examples(rt: HostRuntime) -> Result<(), Fail> {
    for (setup, condition, wanted) in LATENCIES {
        assert!(rt; equal(&rt, told(rt.alloc(), setup, condition)?.as_str(), *wanted));
    }
    Ok(())
}

#[test]
fn conditions_are_met(rt: HostRuntime) -> Result<(), Fail> {
    for condition in SECOND {
        assert!(rt;
            equal(
                &rt,
                told(rt.alloc(), &TWO_WORDS, condition)?.as_str(),
                ONE_OF_THREE
            )
        );
    }
    Ok(())
}
