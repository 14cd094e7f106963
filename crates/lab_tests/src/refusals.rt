//! Words that no task takes: how the program ends, and what it says.
use crate::outcomes::parted;
use expect::{equal, equal_at};
use lab_tasks::{Asked, Silent, compare, perform, read_words, status};
use machine_page::is_short;
use omega_net::Shape;
use std::alloc::Global;
use std::io::Eprint;
use std::process::Abort;
use std::test::Fail;
use std::thread::Threads;

/// Two processors, cycles 0 to 8.
const TWO: &[u8] = b"format = 2\nk = 1\nhorizon = 8\n";

/// Words with bars between, the status, and the line. A status 0 has none.
type Refused = (&'static str, u8, &'static str);

/// How a run ends over a project: its status and its line; status 0 and no line where it has an outcome.
fn ending<R: AllocGlobal + Threads + Sync>(
    rt: &R,
    words: &str,
    bytes: &[u8],
) -> Result<(u8, String), Fail> {
    let words = parted(rt.alloc(), words)?;
    let asked = read_words(rt.alloc(), words.as_slice())?;
    match perform(rt, rt.alloc(), &asked, bytes, &mut Silent) {
        Ok(_) => Ok((0, String::new(rt.alloc()))),
        Err(end) => Ok((status(&end), format!(in rt.alloc(); "{end}")?)),
    }
}

/// Compares how runs over a project end.
fn are_refused<R: AllocGlobal + Threads + Sync + Abort + Eprint>(
    rt: &R,
    rows: &[Refused],
    bytes: &[u8],
) -> Result<(), Fail> {
    for (words, number, line) in rows {
        let (told, text) = ending(rt, words, bytes)?;
        assert!(rt; equal_at(rt, *words, text.as_str(), *line));
        assert!(rt; equal_at(rt, *words, told, *number));
    }
    Ok(())
}

const MAPS: &[Refused] = &[
    (
        "map|two.toml|--net|high",
        2,
        "lab: --net: high is not low or comb",
    ),
    (
        "map|two.toml|--dir|back",
        2,
        "lab: --dir: back is not forward or reverse",
    ),
    (
        "map|two.toml|--queues|all",
        2,
        "lab: --queues: all is not tree or module",
    ),
    (
        "map|two.toml|--queues|module|--module|0",
        2,
        "lab: --module: 0 is not taken with --queues module",
    ),
    (
        "map|two.toml|--module|1x",
        2,
        "lab: --module: 1x is not a number",
    ),
    (
        "map|two.toml|--module|2",
        7,
        "lab: --module: 2 is not within 0 to 1",
    ),
    (
        "map|two.toml|--from|9",
        7,
        "lab: --from: 9 is not within 0 to 8",
    ),
    (
        "map|two.toml|--to|9",
        7,
        "lab: --to: 9 is not within 0 to 8",
    ),
    (
        "map|two.toml|--to|3|--from|4",
        7,
        "lab: --to: 3 ends before it begins",
    ),
];

// The last address and the last page are taken, the next ones are not.
const LATENCIES: &[Refused] = &[
    ("latency|two.toml|--address|16383|--page|63", 0, ""),
    (
        "latency|two.toml|--address|16384",
        2,
        "lab: --address: 16384 is not an address from 0 to 16383",
    ),
    (
        "latency|two.toml|--page|64",
        2,
        "lab: --page: 64 is not a page from 0 to 63",
    ),
    (
        "latency|two.toml|--page|1x",
        2,
        "lab: --page: 1x is not a page from 0 to 63",
    ),
    (
        "latency|two.toml|--hot|--cold",
        2,
        "lab: --hot: --cold is not to be given too",
    ),
];

#[test]
fn runs_are_refused(rt: HostRuntime) -> Result<(), Fail> {
    are_refused(&rt, MAPS, TWO)?;
    are_refused(&rt, LATENCIES, TWO)?;
    Ok(())
}

/// How a comparison with a second file ends.
fn comparing<R: AllocGlobal + Eprint>(rt: &R, other: &[u8]) -> Result<(u8, String), Fail> {
    let words = ["map", "two.toml", "--compare", "b.toml"];
    let Asked::Compare(words) = read_words(rt.alloc(), &words)? else {
        return Err(Fail::from("a comparison"));
    };
    match compare(rt.alloc(), &words, TWO, other) {
        Ok(_) => Ok((0, String::new(rt.alloc()))),
        Err(end) => Ok((status(&end), format!(in rt.alloc(); "{end}")?)),
    }
}

#[test]
fn comparisons_are_refused(rt: HostRuntime) -> Result<(), Fail> {
    let refused: [(&[u8], u8, &str); 3] = [
        (TWO, 0, ""),
        (
            b"format = 2\nk = 2\nhorizon = 8\n",
            7,
            "lab: --compare: b.toml is not of k 1",
        ),
        (
            b"format = 2\nk = 7\nhorizon = 8\n",
            4,
            "lab: --compare: b.toml is refused as a project: 7",
        ),
    ];
    for (other, number, line) in refused {
        let (told, text) = comparing(&rt, other)?;
        assert!(rt; equal(&rt, told, number));
        assert!(rt; equal(&rt, text.as_str(), line));
    }
    Ok(())
}

const CURVES: &[Refused] = &[
    ("rates|--k|0", 7, "lab: --k: 0 is not within 1 to 6"),
    ("delays|--k|7", 7, "lab: --k: 7 is not within 1 to 6"),
    (
        "rates|--hot|1,,2",
        2,
        "lab: --hot: 1,,2 is not numbers with commas between",
    ),
    (
        "rates|--hot|0,1,2,3,4,5,6,7",
        2,
        "lab: --hot: 0,1,2,3,4,5,6,7 is not up to seven numbers",
    ),
    (
        "delays|--hot|0,101",
        7,
        "lab: --hot: 0,101 is not within 0 to 100",
    ),
    (
        "rates|--cycles|1",
        7,
        "lab: --cycles: 1 is not within 2 to 4096",
    ),
    (
        "rates|--cycles|4097",
        7,
        "lab: --cycles: 4097 is not within 2 to 4096",
    ),
    (
        "rates|--seed|4294967296",
        2,
        "lab: --seed: 4294967296 is not a number",
    ),
    (
        "rates|--seeds|21",
        7,
        "lab: --seeds: 21 is not within 1 to 20",
    ),
    (
        "rates|--of|issued",
        2,
        "lab: --of: issued is not answered or served",
    ),
];

const NO_PROJECT: &[Refused] = &[
    ("map|a.toml", 4, "lab: project refused: 5"),
    ("check|a.toml", 4, "lab: project refused: 5"),
    ("convert|a.toml", 4, "lab: project refused: 5"),
];

// No file is written over unasked, and that before the project is looked at.
const OVER: &[Refused] = &[(
    "convert|a.toml|--out|a.toml",
    2,
    "lab: --out: a.toml is the file that is read; --force writes over it",
)];

#[test]
fn curves_and_projects_are_refused(rt: HostRuntime) -> Result<(), Fail> {
    are_refused(&rt, CURVES, b"")?;
    are_refused(&rt, NO_PROJECT, b"format = 2\nhorizon = 8\n")?;
    are_refused(&rt, OVER, b"format = 4")?;
    are_refused(&rt, OVER, TWO)?;
    Ok(())
}

const DEPTHS: &[Refused] = &[
    (
        "sweep|two.toml|--depth|module|--ask|tree low 0",
        2,
        "lab: --depth: module is not QUEUES=FROM..TO, as low-forward=2..16",
    ),
    (
        "sweep|two.toml|--depth|all=2..3|--ask|tree low 0",
        2,
        "lab: --depth: all=2..3 is not QUEUES=FROM..TO, as low-forward=2..16",
    ),
    (
        "sweep|two.toml|--depth|module=2.3|--ask|tree low 0",
        2,
        "lab: --depth: module=2.3 is not QUEUES=FROM..TO, as low-forward=2..16",
    ),
    (
        "sweep|two.toml|--depth|comb-reverse=3..8|--ask|tree low 0",
        7,
        "lab: --depth: comb-reverse=3..8 is not within 4 to 16",
    ),
    (
        "sweep|two.toml|--depth|module=3..2|--ask|tree low 0",
        7,
        "lab: --depth: module=3..2 ends before it begins",
    ),
    // 15 depths of each of four queues are 50,625 rows.
    (
        "sweep|two.toml|--depth|low-forward=2..16|--depth|low-reverse=2..16|--depth|comb-forward=2..16|--depth|module=2..16|--ask|place 0",
        7,
        "lab: --depth: each with each is not within 1 to 10000",
    ),
];

const QUESTIONS: &[Refused] = &[
    (
        "sweep|two.toml|--depth|module=2..3|--ask|horizon 5",
        2,
        "lab: --ask: horizon 5 is not a question, as 'tree low 0', or a report of numbers, as 'latency'",
    ),
    (
        "sweep|two.toml|--depth|module=2..3|--ask|latency --proc 0",
        2,
        "lab: --ask: latency --proc 0 is not a question, as 'tree low 0', or a report of numbers, as 'latency'",
    ),
    (
        "sweep|two.toml|--depth|module=2..3|--ask|latency --processor 2",
        7,
        "lab: --ask: latency --processor 2 is answered bad 1",
    ),
    (
        "sweep|two.toml|--depth|module=2..3|--ask|latency --from 5 --to 4",
        7,
        "lab: --ask: latency --from 5 --to 4 is answered bad 5",
    ),
    (
        "sweep|two.toml|--depth|module=2..3|--ask|tree low 2",
        7,
        "lab: --ask: tree low 2 is answered bad 1",
    ),
];

const EDITS: &[Refused] = &[
    (
        "sweep|two.toml|--edit|word 7 {0..1|--ask|place 0",
        2,
        "lab: --edit: word 7 {0..1 is not an edit in each row, as 'combine {0..2} on'",
    ),
    (
        "sweep|two.toml|--edit|word 7 {1,x}|--ask|place 0",
        2,
        "lab: --edit: word 7 {1,x} is not an edit in each row, as 'combine {0..2} on'",
    ),
    (
        "sweep|two.toml|--edit|word 7 {2..1}|--ask|place 0",
        2,
        "lab: --edit: word 7 {2..1} is not an edit in each row, as 'combine {0..2} on'",
    ),
    (
        "sweep|two.toml|--edit|memory 7 {1,2}|--ask|place 0",
        2,
        "lab: --edit: memory 7 {1,2} is not an edit in each row, as 'combine {0..2} on'",
    ),
    (
        "sweep|two.toml|--edit|word 7 {0..10000}|--ask|place 0",
        7,
        "lab: --edit: word 7 {0..10000} is not within 1 to 10000",
    ),
    (
        "sweep|two.toml|--edit|word {0..99} {0..100}|--ask|place 0",
        7,
        "lab: --edit: word {0..99} {0..100} is not within 1 to 10000",
    ),
    (
        "sweep|two.toml|--edit|word 7 {0..99}|--edit|word 8 {0..100}|--ask|place 0",
        7,
        "lab: --edit: each with each is not within 1 to 10000",
    ),
    (
        "sweep|two.toml|--edit|word 7 {0..1}|--edit|word 8 {0..2}|--zip|--ask|place 0",
        2,
        "lab: --zip: each edit is not of as many rows as the first",
    ),
];

const SETUPS_AND_PLOTS: &[Refused] = &[
    (
        "sweep|two.toml|--setup|memory 7 8|--ask|place 0",
        2,
        "lab: --setup: memory 7 8 is not an edit, as 'horizon 500'",
    ),
    (
        "sweep|two.toml|--setup|horizon 2001|--ask|place 0",
        7,
        "lab: --setup: horizon 2001 is answered refused 12",
    ),
    (
        "sweep|two.toml|--ask|place 0|--plot|p.svg|--x|place 0 row",
        2,
        "lab: --plot: p.svg is not given with --x and --y",
    ),
    (
        "sweep|two.toml|--ask|place 0|--plot|p.svg|--x|place 0 row|--y|place 0",
        2,
        "lab: --y: place 0 is not a column of the table",
    ),
];

#[test]
fn sweeps_are_refused(rt: HostRuntime) -> Result<(), Fail> {
    are_refused(&rt, DEPTHS, TWO)?;
    are_refused(&rt, QUESTIONS, TWO)?;
    are_refused(&rt, EDITS, TWO)?;
    are_refused(&rt, SETUPS_AND_PLOTS, TWO)?;
    Ok(())
}

const LONG_PAGE: &[Refused] = &[(
    "page|a.toml|--to|390",
    2,
    "lab: FILE: a.toml is not within the 200000 states of components that a page shows; --from and --to take fewer cycles",
)];

// 512 components: 390 cycles have 199,680 states, and one more has too many.
#[test]
fn a_page_may_be_too_long(rt: HostRuntime) -> Result<(), Fail> {
    let shape = Shape::new(6).ok_or("a machine")?;
    assert!(rt; is_short(shape, 0, 389));
    are_refused(&rt, LONG_PAGE, b"format = 2\nk = 6\nhorizon = 400\n")?;
    Ok(())
}
