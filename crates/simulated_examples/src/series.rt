//! What worked examples show, cycle by cycle and by bins of cycles.
use crate::fullness::{EIGHT_PLAIN, TWO_COMBINED, TWO_PLAIN};
use crate::setups::{BASE, Setup};
use expect::equal;
use omega_net::Shape;
use run_reports::{Bins, Gauge, Window, gauge_named, series_text};
use std::alloc::Global;
use std::test::Fail;

/// What is asked of an example, and its table.
struct Asked<'a> {
    setup: Setup<'a>,
    gauges: &'a [&'a str],
    /// The first cycle, the last one, and how many make a bin.
    cycles: [u32; 3],
    table: &'a str,
}

/// Two requests wait in their processors at cycle 1 and in one queue at cycle 2. One is served at cycle 4 and one at cycle 5; their
/// replies come at cycles 6 and 7.
const ONE_MODULE: &[&str] = &[
    "issued",
    "answered",
    "served m0",
    "waiting",
    "queue l0.0 f0",
    "queue m0 q0",
    "stage low 0",
    "busy low 0",
];

const TABLES: &[Asked] = &[
    Asked {
        setup: TWO_PLAIN,
        gauges: ONE_MODULE,
        cycles: [0, 7, 1],
        table: "\
cycle,issued,answered,served m0,waiting,queue l0.0 f0,queue m0 q0,stage low 0,busy low 0
0,0,0,0,0,0,0,0,0
1,2,0,0,2,0,0,0,0
2,0,0,0,2,2,0,2,1
3,0,0,0,2,1,1,1,1
4,0,0,1,2,0,1,0,0
5,0,0,1,2,0,0,0,0
6,0,1,0,1,0,0,0,0
7,0,1,0,0,0,0,0,0
",
    },
    Asked {
        setup: TWO_PLAIN,
        gauges: ONE_MODULE,
        cycles: [1, 7, 3],
        table: "\
cycle,issued,answered,served m0,waiting,queue l0.0 f0,queue m0 q0,stage low 0,busy low 0
1,2,0,0,6,3,1,3,2
4,0,1,2,5,0,1,0,0
7,0,1,0,0,0,0,0,0
",
    },
    // The first bin ends where the window does.
    Asked {
        setup: TWO_PLAIN,
        gauges: &["issued p1", "answered p1", "served m1"],
        cycles: [1, 10, 11],
        table: "\
cycle,issued p1,answered p1,served m1
1,1,1,0
",
    },
    // One request is combined into the other at cycle 2, and waits until the reply comes back at cycle 5.
    Asked {
        setup: TWO_COMBINED,
        gauges: &[
            "combined",
            "combined c0.0",
            "queue c0.0 wait",
            "queue c0.0 f0",
            "queue c0.0 r1",
            "stage comb 0",
            "stage low 0",
            "answered",
        ],
        cycles: [2, 6, 1],
        table: "\
cycle,combined,combined c0.0,queue c0.0 wait,queue c0.0 f0,queue c0.0 r1,stage comb 0,stage low 0,answered
2,1,1,1,1,0,1,0,0
3,0,0,1,0,0,0,0,0
4,0,0,1,0,0,0,0,0
5,0,0,0,0,1,0,0,0
6,0,0,0,0,0,0,0,2
",
    },
    // Two come to each of four queues, two of these send to one of two, and both of those to one.
    Asked {
        setup: EIGHT_PLAIN,
        gauges: &[
            "stage low 0",
            "busy low 0",
            "stage low 1",
            "busy low 1",
            "stage low 2",
            "busy low 2",
        ],
        cycles: [2, 5, 1],
        table: "\
cycle,stage low 0,busy low 0,stage low 1,busy low 1,stage low 2,busy low 2
2,8,4,0,0,0,0
3,4,4,4,2,0,0
4,0,0,6,2,2,1
5,0,0,4,2,3,1
",
    },
];

/// The gauges of these texts.
fn named(alloc: Global, shape: Shape, words: &[&str]) -> Result<Vec<Gauge>, Fail> {
    let mut gauges = Vec::new(alloc);
    for word in words {
        let gauge = gauge_named(alloc, shape, word.as_bytes())?.ok_or("a gauge")?;
        gauges.push(gauge)?;
    }
    Ok(gauges)
}

#[test]
fn series_of_examples(rt: HostRuntime) -> Result<(), Fail> {
    for asked in TABLES {
        let project = asked.setup.project(rt.alloc())?;
        let gauges = named(rt.alloc(), project.shape(), asked.gauges)?;
        let [from, to, size] = asked.cycles;
        assert!(rt; size > 0 && from <= to && to <= project.horizon());
        let window = Window { from, to };
        let bins = Bins { window, size };
        let text = series_text(rt.alloc(), &project, gauges.as_slice(), bins)?;
        assert!(rt; equal(&rt, text.as_str(), asked.table));
    }
    Ok(())
}

/// Words that name no gauge of a machine of two processors.
const NO_GAUGES: [&str; 10] = [
    "",
    "full",
    "served m2",
    "served  m0",
    "issued p0 ",
    "queue m0 wait",
    "queue l0.0 wait",
    "queue c0.1 f0",
    "stage low 1",
    "stage comb",
];

#[test]
fn other_words_name_no_gauge(rt: HostRuntime) -> Result<(), Fail> {
    let project = BASE.project(rt.alloc())?;
    for word in &NO_GAUGES {
        let gauge = gauge_named(rt.alloc(), project.shape(), word.as_bytes())?;
        assert!(rt; gauge.is_none());
    }
    Ok(())
}
