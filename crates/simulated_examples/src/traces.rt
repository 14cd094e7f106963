//! Where the references of worked examples were at each cycle.
use crate::setups::{BASE, Setup};
use expect::equal;
use omega_net::Tag;
use run_reports::{trace, trace_text};
use std::test::Fail;

/// Two processors add to the same word, without combining: both references are issued at cycle 1, and answered at cycles 6 and 7.
const TWO_ADDS: Setup = Setup {
    scripts: &[&["sync add 0 1"], &["sync add 0 2"]],
    ..BASE
};

/// The same with combining: both are answered at cycle 6.
const TWO_COMBINED: Setup = Setup {
    combine: true,
    ..TWO_ADDS
};

const FIRST: Tag = Tag { proc: 0, issue: 0 };

const SECOND: Tag = Tag { proc: 1, issue: 0 };

const TRACES: &[(Setup, Tag, &str)] = &[
    (TWO_ADDS, FIRST, "p0 1, c0.0 2, m0 3-4, c0.0 5, p0 6\n"),
    (TWO_ADDS, SECOND, "p1 1, c0.0 2-3, m0 4-5, c0.0 6, p1 7\n"),
    (TWO_COMBINED, FIRST, "p0 1, c0.0 2, m0 3-4, c0.0 5, p0 6\n"),
    (
        TWO_COMBINED,
        SECOND,
        "p1 1, c0.0 2 in p0.0, m0 3-4 in p0.0, c0.0 5, p1 6\n",
    ),
    (
        Setup {
            horizon: 4,
            ..TWO_ADDS
        },
        SECOND,
        "p1 1, c0.0 2-3, m0 4\n",
    ),
    (TWO_ADDS, Tag { proc: 1, issue: 1 }, "none\n"),
];

#[test]
fn traces_of_examples(rt: HostRuntime) -> Result<(), Fail> {
    for (setup, tag, wanted) in TRACES {
        let project = setup.project(rt.alloc())?;
        let spans = trace(rt.alloc(), &project, *tag)?;
        let text = trace_text(rt.alloc(), project.shape(), *tag, spans.as_slice())?;
        assert!(rt; equal(&rt, text.as_str(), *wanted));
    }
    Ok(())
}
