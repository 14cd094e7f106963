//! Which words are a command line, and what they say.
use expect::equal;
use lab_tasks::{Asked, End, read_words, refusal, status};
use std::alloc::Global;
use std::io::Eprint;
use std::process::Abort;
use std::test::Fail;

/// Compares what was told at some options, "-" where nothing was.
fn compare<R: Abort + Eprint>(rt: &R, told: &[Option<&str>], texts: &[&str]) {
    assert!(rt; equal(rt, told.len(), texts.len()));
    for (word, text) in told.iter().zip(texts) {
        assert!(rt; equal(rt, word.unwrap_or("-"), *text));
    }
}

#[test]
fn words_of_a_map_are_taken(rt: HostRuntime) -> Result<(), Fail> {
    let words = [
        "map",
        "a.toml",
        "--net=comb",
        "--dir",
        "reverse",
        "--queues=tree",
        "--module",
        "3",
        "--from",
        "4",
        "--to",
        "9",
        "--out",
        "b.svg",
    ];
    let asked = read_words(rt.alloc(), &words)?;
    let Asked::Map(map) = &asked else {
        return Err(Fail::from("a map"));
    };
    let first = [asked.file(), map.net, map.dir, map.queues, map.module];
    compare(&rt, &first, &["a.toml", "comb", "reverse", "tree", "3"]);
    compare(&rt, &[map.from, map.to, map.out], &["4", "9", "b.svg"]);
    Ok(())
}

#[test]
fn words_of_curves_are_taken(rt: HostRuntime) -> Result<(), Fail> {
    let words = [
        "rates", "--k", "3", "--hot", "0,8", "--cycles", "64", "--seed", "5", "--seeds", "2",
        "--of", "served", "--csv", "a.csv", "--out", "a.svg", "--keep", "kept",
    ];
    let asked = read_words(rt.alloc(), &words)?;
    let Asked::Rates(rates) = &asked else {
        return Err(Fail::from("rates"));
    };
    let first = [asked.file(), rates.k, rates.hot, rates.cycles, rates.seed];
    compare(&rt, &first, &["-", "3", "0,8", "64", "5"]);
    let last = [rates.seeds, rates.of, rates.csv, rates.out, rates.keep];
    compare(&rt, &last, &["2", "served", "a.csv", "a.svg", "kept"]);
    Ok(())
}

#[test]
fn curves_need_no_words(rt: HostRuntime) -> Result<(), Fail> {
    let asked = read_words(rt.alloc(), &["delays"])?;
    let Asked::Delays(delays) = &asked else {
        return Err(Fail::from("delays"));
    };
    let curves = delays.curves;
    let told = [delays.file, curves.k, curves.csv, curves.out, curves.keep];
    compare(&rt, &told, &["-", "-", "-", "-", "-"]);
    Ok(())
}

#[test]
fn words_of_a_sweep_of_edits_are_taken(rt: HostRuntime) -> Result<(), Fail> {
    let words = [
        "sweep",
        "a.toml",
        "--edit",
        "window {1,2}",
        "--zip",
        "--setup",
        "horizon 9",
        "--edit=combine {0..k} on",
        "--ask",
        "place 0",
    ];
    let asked = read_words(rt.alloc(), &words)?;
    let Asked::Sweep(sweep) = &asked else {
        return Err(Fail::from("a sweep"));
    };
    let edits = ["window {1,2}", "combine {0..k} on"];
    assert!(rt; sweep.edits.as_slice() == edits.as_slice());
    assert!(rt; sweep.setups.as_slice() == ["horizon 9"].as_slice());
    assert!(rt; sweep.zip);
    assert!(rt; sweep.depths.is_empty());
    Ok(())
}

#[test]
fn words_of_a_sweep_are_taken(rt: HostRuntime) -> Result<(), Fail> {
    let words = [
        "sweep",
        "--depth",
        "module=2..3",
        "a.toml",
        "--ask",
        "place 0",
        "--depth=low-forward=2..4",
        "--ask",
        "tree low 0",
    ];
    let asked = read_words(rt.alloc(), &words)?;
    let Asked::Sweep(sweep) = &asked else {
        return Err(Fail::from("a sweep"));
    };
    compare(&rt, &[asked.file(), sweep.csv], &["a.toml", "-"]);
    let depths = ["module=2..3", "low-forward=2..4"];
    assert!(rt; sweep.depths.as_slice() == depths.as_slice());
    let asks = ["place 0", "tree low 0"];
    assert!(rt; sweep.asks.as_slice() == asks.as_slice());
    Ok(())
}

#[test]
fn words_of_a_series_are_taken(rt: HostRuntime) -> Result<(), Fail> {
    let words = [
        "series",
        "--of",
        "served m0",
        "a.toml",
        "--bin=10",
        "--of=busy low 1",
        "--to",
        "40",
    ];
    let asked = read_words(rt.alloc(), &words)?;
    let Asked::Series(series) = &asked else {
        return Err(Fail::from("a series"));
    };
    compare(
        &rt,
        &[asked.file(), series.from, series.to, series.bin, series.csv],
        &["a.toml", "-", "40", "10", "-"],
    );
    let gauges = ["served m0", "busy low 1"];
    assert!(rt; series.gauges.as_slice() == gauges.as_slice());
    Ok(())
}

/// Whether this task with this file is of that file.
fn is_of_file<R: Eprint>(rt: &R, alloc: Global, task: &str, file: &str) -> Result<bool, Fail> {
    let words = [task, file];
    let asked = read_words(alloc, &words)?;
    Ok(equal(rt, asked.file(), Some(file)))
}

/// Compares what a conversion was told, and whether it may write over its source.
fn compare_conversion<R: Abort + Eprint>(
    rt: &R,
    alloc: Global,
    words: &[&str],
    texts: &[&str],
    force: bool,
) -> Result<(), Fail> {
    let asked = read_words(alloc, words)?;
    let Asked::Convert(told) = &asked else {
        return Err(Fail::from("a file"));
    };
    compare(rt, &[asked.file(), told.out], texts);
    assert!(rt; equal(rt, told.force, force));
    Ok(())
}

#[test]
fn words_of_a_file_are_taken(rt: HostRuntime) -> Result<(), Fail> {
    let alloc = rt.alloc();
    for task in ["check", "done", "full"] {
        assert!(rt; is_of_file(&rt, alloc, task, "a.toml")?);
    }
    let words = ["convert", "a.toml", "--out", "b.toml"];
    compare_conversion(&rt, alloc, &words, &["a.toml", "b.toml"], false)?;
    let words = ["convert", "--force", "a.toml"];
    compare_conversion(&rt, alloc, &words, &["a.toml", "-"], true)?;
    Ok(())
}

// Help and the version are no fault; a number that begins with a minus is an option that isn't known.
const REFUSED: [(&[&str], u8); 14] = [
    (&[], 2),
    (&["draw"], 2),
    (&["map"], 2),
    (&["map", "a.toml", "b.toml"], 2),
    (&["map", "a.toml", "--depth", "module=2..3"], 2),
    (&["convert", "a.toml", "--force=yes"], 2),
    (&["rates", "a.toml"], 2),
    (&["rates", "--k", "-1"], 2),
    (&["delays", "--seeds", "2"], 2),
    (&["rates", "--k", "1", "--k", "2"], 2),
    (&["sweep", "a.toml", "--zip=yes", "--ask", "place 0"], 2),
    (&["sweep", "a.toml", "--depth", "module=2..3"], 2),
    (&["--version"], 0),
    (&["sweep", "--help"], 0),
];

#[test]
fn words_are_refused(rt: HostRuntime) -> Result<(), Fail> {
    for (words, number) in &REFUSED {
        let error = read_words(rt.alloc(), words).err().ok_or("a refusal")?;
        assert!(rt; equal(&rt, status(&refusal(&error)), *number));
    }
    Ok(())
}

#[test]
fn the_version_is_told(rt: HostRuntime) -> Result<(), Fail> {
    let error = read_words(rt.alloc(), &["--version"])
        .err()
        .ok_or("a text")?;
    assert!(rt;
        equal(
            &rt,
            format!(in rt.alloc(); "{error}")?.as_str(),
            "lab 1.0.0\n"
        )
    );
    Ok(())
}

const ENDS: [(End<'static>, u8, &str); 5] = [
    (End::NotRead("a.toml"), 3, "lab: cannot read a.toml"),
    (End::NotWritten("a.svg"), 3, "lab: cannot write a.svg"),
    (End::Memory, 5, "lab: no memory"),
    (End::Spent, 5, "lab: the bench takes no more edits"),
    (End::Output, 5, "lab: cannot write to standard output"),
];

#[test]
fn ends_have_statuses_and_lines(rt: HostRuntime) -> Result<(), Fail> {
    for (end, number, line) in &ENDS {
        assert!(rt; equal(&rt, status(end), *number));
        let text = format!(in rt.alloc(); "{end}")?;
        assert!(rt; text.as_str() == *line);
    }
    Ok(())
}

#[test]
fn words_of_a_shell_are_taken(rt: HostRuntime) -> Result<(), Fail> {
    let asked = read_words(rt.alloc(), &["shell", "a.toml", "--strict", "--json"])?;
    let Asked::Shell(shell) = &asked else {
        return Err(Fail::from("a shell"));
    };
    compare(&rt, &[asked.file(), shell.file], &["a.toml", "a.toml"]);
    assert!(rt; shell.strict);
    assert!(rt; shell.json);
    Ok(())
}

#[test]
fn a_shell_needs_no_words(rt: HostRuntime) -> Result<(), Fail> {
    let asked = read_words(rt.alloc(), &["shell"])?;
    let Asked::Shell(shell) = &asked else {
        return Err(Fail::from("a shell"));
    };
    compare(&rt, &[asked.file(), shell.file], &["-", "-"]);
    assert!(rt; !shell.strict);
    assert!(rt; !shell.json);
    Ok(())
}
