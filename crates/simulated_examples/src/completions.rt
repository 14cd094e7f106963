//! When the processors of worked examples had their last replies and came to the ends of their scripts.
use crate::setups::{BASE, BUILT_IN, Setup};
use expect::equal;
use run_reports::{completion_text, completions};
use std::test::Fail;

/// Two processors add to the same word, without combining: both references are issued at cycle 1, and answered at cycles 6 and 7.
const TWO_ADDS: Setup = Setup {
    scripts: &[&["sync add 0 1"], &["sync add 0 2"]],
    ..BASE
};

/// Three references are issued at cycles 1 to 3, and answered three cycles later each.
const WIDE_WINDOW: Setup = Setup {
    window: 3,
    scripts: &[&["sync add 0 1 3"]],
    ..BUILT_IN
};

/// Three cycles of the one processor pass without a reference.
const SHORT_PAUSE: Setup = Setup {
    scripts: &[&["idle 3"]],
    ..BUILT_IN
};

/// More than the eight cycles of the machine would.
const LONG_PAUSE: Setup = Setup {
    scripts: &[&["idle 9"]],
    ..BUILT_IN
};

const COMPLETIONS: &[(Setup, &str)] = &[
    (
        TWO_ADDS,
        "last_reply of 2: earliest 6 latest 7 spread 1\nscript_end of 2: earliest 1 latest 1 spread 0\n\nprocessor,last_reply,script_end\n0,6,1\n1,7,1\n",
    ),
    (
        Setup {
            horizon: 6,
            ..TWO_ADDS
        },
        "last_reply of 1: earliest 6 latest 6 spread 0\nscript_end of 2: earliest 1 latest 1 spread 0\n\nprocessor,last_reply,script_end\n0,6,1\n1,,1\n",
    ),
    (
        WIDE_WINDOW,
        "last_reply of 1: earliest 6 latest 6 spread 0\nscript_end of 1: earliest 3 latest 3 spread 0\n\nprocessor,last_reply,script_end\n0,6,3\n",
    ),
    (
        SHORT_PAUSE,
        "last_reply of 0: earliest none latest none spread none\nscript_end of 1: earliest 3 latest 3 spread 0\n\nprocessor,last_reply,script_end\n0,,3\n",
    ),
    (
        LONG_PAUSE,
        "last_reply of 0: earliest none latest none spread none\nscript_end of 0: earliest none latest none spread none\n\nprocessor,last_reply,script_end\n0,,\n",
    ),
    (
        BUILT_IN,
        "last_reply of 0: earliest none latest none spread none\nscript_end of 1: earliest 0 latest 0 spread 0\n\nprocessor,last_reply,script_end\n0,,0\n",
    ),
];

#[test]
fn completions_of_examples(rt: HostRuntime) -> Result<(), Fail> {
    for (setup, wanted) in COMPLETIONS {
        let completions = completions(rt.alloc(), &setup.project(rt.alloc())?)?;
        let text = completion_text(rt.alloc(), completions.as_slice())?;
        assert!(rt; equal(&rt, text.as_str(), *wanted));
    }
    Ok(())
}
