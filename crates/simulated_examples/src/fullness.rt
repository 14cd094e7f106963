//! Which queues of worked examples were full, and at which cycle they first were.
use crate::setups::{BASE, Setup};
use expect::equal;
use run_reports::{first_fulls, full_text};
use std::test::Fail;

/// Two processors add to the same word over the low network: both requests stand in one queue of the switch at cycle 2, and their
/// replies each in one at cycles 5 and 6.
pub(crate) const TWO_PLAIN: Setup = Setup {
    scripts: &[&["plain add 0 1"], &["plain add 0 2"]],
    ..BASE
};

/// The same over the combining network: one of the requests is combined into the other at cycle 2.
pub(crate) const TWO_COMBINED: Setup = Setup {
    combine: true,
    scripts: &[&["sync add 0 1"], &["sync add 0 2"]],
    ..BASE
};

/// A request of each network comes to module 0 at cycle 3, and another one at cycle 4, when the first of the low network is served.
const BOTH_NETWORKS: Setup = Setup {
    window: 2,
    scripts: &[
        &["plain load 0 0", "plain load 0 0"],
        &["sync load 0 0", "sync load 0 0"],
    ],
    ..BASE
};

/// Eight processors each send a request to module 0. Two come to each switch of the first stage at cycle 2, four to each of two
/// switches of the second stage at cycles 3 and 4, and two more in a cycle to one of the last stage, from which one leaves.
pub(crate) const EIGHT_PLAIN: Setup = Setup {
    k: 3,
    horizon: 20,
    modules: &[0],
    scripts: &[
        &["plain load 0 0"],
        &["plain load 0 0"],
        &["plain load 0 0"],
        &["plain load 0 0"],
        &["plain load 0 0"],
        &["plain load 0 0"],
        &["plain load 0 0"],
        &["plain load 0 0"],
    ],
    ..BASE
};

const HEADER: &str = "cycle,component,queue\n";

const FULL: &[(Setup, &str, &str)] = &[
    (TWO_PLAIN, "full 0 of 17\n\n", ""),
    (
        Setup {
            low_forward: 3,
            ..TWO_PLAIN
        },
        "full 1 of 17\n\n",
        "2,l0.0,f0\n",
    ),
    (
        Setup {
            low_reverse: 2,
            low_forward: 2,
            ..TWO_PLAIN
        },
        "full 3 of 17\n\n",
        "2,l0.0,f0\n5,l0.0,r0\n6,l0.0,r1\n",
    ),
    (
        Setup {
            low_reverse: 2,
            horizon: 5,
            ..TWO_PLAIN
        },
        "full 1 of 17\n\n",
        "5,l0.0,r0\n",
    ),
    (
        Setup {
            wait: 2,
            ..TWO_COMBINED
        },
        "full 0 of 17\n\n",
        "",
    ),
    (
        Setup {
            wait: 1,
            ..TWO_COMBINED
        },
        "full 1 of 17\n\n",
        "2,c0.0,wait\n",
    ),
    (
        Setup {
            module_queue: 3,
            ..BOTH_NETWORKS
        },
        "full 0 of 17\n\n",
        "",
    ),
    (
        Setup {
            module_queue: 2,
            ..BOTH_NETWORKS
        },
        "full 1 of 17\n\n",
        "4,m0,q1\n",
    ),
    (
        EIGHT_PLAIN,
        "full 3 of 140\n\n",
        "4,l1.0,f0\n4,l1.2,f0\n5,l2.0,f0\n",
    ),
];

#[test]
fn full_queues_of_examples(rt: HostRuntime) -> Result<(), Fail> {
    for (setup, counted, rows) in FULL {
        let project = setup.project(rt.alloc())?;
        let firsts = first_fulls(rt.alloc(), &project)?;
        let (shape, last) = (project.shape(), project.horizon());
        let text = full_text(rt.alloc(), shape, last, firsts.as_slice())?;
        let wanted = format!(in rt.alloc(); "{counted}{HEADER}{rows}")?;
        assert!(rt; equal(&rt, text.as_str(), wanted.as_str()));
    }
    Ok(())
}
