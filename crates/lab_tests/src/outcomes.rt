//! What tasks print, and which files they write.
use expect::{equal, equal_at};
use lab_tasks::{Outcome, Silent, perform, read_words};
use machine_page::{HEAD, TAIL};
use omega_net::Net;
use std::alloc::Global;
use std::io::Eprint;
use std::process::Abort;
use std::test::Fail;
use std::thread::Threads;

/// Two processors: the first refers three times to word 5 and once to word 260, the second five times to word 260 at most.
const TWO: &[u8] = b"format = 2
k = 1
horizon = 8
window = 2

[[script]]
processor = 0
entries = [\"plain add 5 1 3\", \"plain load 260 0\", \"fence\"]

[[script]]
processor = 1
entries = [\"until plain load 260 0 9 5\"]
";

/// What is made for words, given with bars between, over the bytes of their file.
fn made<R: AllocGlobal + Threads + Sync>(
    rt: &R,
    words: &str,
    bytes: &[u8],
) -> Result<Outcome, Fail> {
    let words = parted(rt.alloc(), words)?;
    let asked = read_words(rt.alloc(), words.as_slice())?;
    match perform(rt, rt.alloc(), &asked, bytes, &mut Silent) {
        Ok(outcome) => Ok(outcome),
        Err(_) => Err(Fail::from("an outcome")),
    }
}

/// The words of a line that has bars between them.
pub(crate) fn parted(alloc: Global, line: &str) -> Result<Vec<&str>, Fail> {
    let mut words = Vec::new(alloc);
    for word in line.split('|') {
        words.push(word)?;
    }
    Ok(words)
}

const SUMMARY: &str = "\
2 processors, 2 modules, 1 stages; cycles 0 to 8; at most 2 unanswered
places: low-forward 4, low-reverse 4, comb-forward 4, comb-reverse 8, module 4, wait 4
combining: off
scripts: 2, with 4 entries, 9 references at most
hot words, by processors and references: 260 (2, 6), 5 (1, 3)
hot modules, by processors and references: 0 (2, 6), 1 (1, 3)
";

/// One processor that refers to ten words, once each.
const TEN: &[u8] = b"format = 2
k = 0
horizon = 8
[[script]]
processor = 0
entries = [\"plain load 19 0\", \"plain load 18 0\", \"plain load 17 0\", \"plain load 16 0\", \"plain load 15 0\", \"plain load 14 0\",
    \"plain load 13 0\", \"plain load 12 0\", \"plain load 11 0\", \"plain load 10 0\"]
";

const TEN_SUMMARY: &str = "\
1 processors, 1 modules, 0 stages; cycles 0 to 8; at most 1 unanswered
places: low-forward 4, low-reverse 4, comb-forward 4, comb-reverse 8, module 4, wait 4
combining:
scripts: 1, with 10 entries, 10 references at most
hot words, by processors and references: 10 (1, 1), 11 (1, 1), 12 (1, 1), 13 (1, 1), 14 (1, 1), 15 (1, 1), 16 (1, 1), 17 (1, 1)
hot modules, by processors and references: 0 (1, 10)
";

/// Two processors that refer once each to word 8, and one of them 98 times to word 7.
const RANKED: &[u8] = b"format = 2
k = 1
horizon = 8
script = [
{processor = 0, entries = [\"plain add 7 1 98\", \"sync add 8 1\"]},
{processor = 1, entries = [\"plain load 8 0\"]},
]
";

const RANKED_SUMMARY: &str = "\
2 processors, 2 modules, 1 stages; cycles 0 to 8; at most 1 unanswered
places: low-forward 4, low-reverse 4, comb-forward 4, comb-reverse 8, module 4, wait 4
combining: off
scripts: 2, with 3 entries, 100 references at most
hot words, by processors and references: 8 (2, 2), 7 (1, 98)
hot modules, by processors and references: 0 (2, 2), 1 (1, 98)
";

/// Two processors and nothing else.
const EMPTY: &[u8] = b"format = 2\nk = 1\nhorizon = 8\n";

const EMPTY_SUMMARY: &str = "\
2 processors, 2 modules, 1 stages; cycles 0 to 8; at most 1 unanswered
places: low-forward 4, low-reverse 4, comb-forward 4, comb-reverse 8, module 4, wait 4
combining: off
scripts: 0, with 0 entries, 0 references at most
hot words, by processors and references: none
hot modules, by processors and references: none
";

/// Two reports of latencies with a column for each figure, and when all is done.
const FIGURES: &str = "\
horizon {},latency --cold answered,latency --cold unanswered,latency --cold mean,latency --cold least,latency --cold p50,latency --cold p90,latency --cold p99,latency --cold greatest,latency --hot --processor 0 answered,latency --hot --processor 0 unanswered,latency --hot --processor 0 mean,latency --hot --processor 0 least,latency --hot --processor 0 p50,latency --hot --processor 0 p90,latency --hot --processor 0 p99,latency --hot --processor 0 greatest,done last_reply processors,done last_reply earliest,done last_reply latest,done last_reply spread,done script_end processors,done script_end earliest,done script_end latest,done script_end spread
6,1,2,5.00,5,5,5,5,5,0,0,,,,,,,2,6,6,0,0,,,
2001,refused 12,,,,,,,,refused 12,,,,,,,,refused 12,,,,,,,
";

/// Two processors that add 1 to word 0, which one switch combines.
const COMBINED: &[u8] = b"format = 2
k = 1
horizon = 8
combine = [true]

[[script]]
processor = 0
entries = [\"sync add 0 1\"]

[[script]]
processor = 1
entries = [\"sync add 0 1\"]
";

/// Four processors load word 0 of module 0 at once, and the last one then word 301 of module 1.
const LOADS: &[u8] = b"format = 2
k = 2
horizon = 40
script = [
{processor = 0, entries = [\"plain load 0 0\"]},
{processor = 1, entries = [\"plain load 0 0\"]},
{processor = 2, entries = [\"plain load 0 0\"]},
{processor = 3, entries = [\"plain load 0 0\", \"plain load 301 0\"]},
]
";

// Alone a reference takes 7 cycles; the module serves the four loads one after another.
const HOT: &str = "\
answered 4
unanswered 0
mean 8.50
least 7
p50 8
p90 10
p99 10
greatest 10

latency,references
7,1
8,1
9,1
10,1
";

const COLD: &str = "\
answered 1
unanswered 0
mean 7.00
least 7
p50 7
p90 7
p99 7
greatest 7

latency,references
7,1
";

// Two loads come to each of two queues of stage 0, and all four to one of stage 1, which gives one away in a cycle: 4 of 164 pairs of
// a cycle and a queue in each stage, and one more for the load of word 301.
const BUSY: &str = "\
cycles 0 to 40

gauge,sum,percent
busy low 0,5,3.05
busy low 1,5,3.05
busy comb 0,0,0.00
busy comb 1,0,0.00
served m0,4,9.76
served m1,1,2.44
served m2,0,0.00
served m3,0,0.00
";

/// Words with bars between, the bytes of their file, and what is printed.
const PRINTED: [(&str, &[u8], &str); 19] = [
    ("check|two.toml", TWO, SUMMARY),
    // Ten words with as many references: the first eight are named.
    ("check|ten.toml", TEN, TEN_SUMMARY),
    // A word that one processor refers to often is colder than one that two refer to once.
    ("check|ranked.toml", RANKED, RANKED_SUMMARY),
    ("check|a.toml", EMPTY, EMPTY_SUMMARY),
    // A word stands at its address of 256 a page, on the module of its page; whatever the depths are.
    (
        "sweep|two.toml|--depth|low-forward=2..3|--depth|module=4..5|--ask|counter issued p1 0 0|--ask|memory 7 8",
        TWO,
        "\
low-forward,module,counter issued p1 0 0,memory 7 8
2,4,0,0
2,5,0,0
3,4,0,0
3,5,0,0
",
    ),
    // Each row begins with the word that was set up, and none with that of the row before.
    (
        "sweep|two.toml|--setup|word 7 3|--edit|word {7,8} {1..2}|--ask|memory 7 8|--ask|memory 8 8",
        TWO,
        "\
word {} *,word * {},memory 7 8,memory 8 8
7,1,1,0
7,2,2,0
8,1,3,1
8,2,3,2
",
    ),
    // Two processors have one stage, so the second row's edit is refused.
    (
        "sweep|two.toml|--edit|word 7 {1..2}|--edit|combine {0..k} on|--zip|--ask|memory 7 8|--ask|memory 8 8",
        TWO,
        "\
word 7 {},combine {} on,memory 7 8,memory 8 8
1,0,1,0
2,1,refused 8,refused 8
",
    ),
    // Depths stand before edits.
    (
        "sweep|two.toml|--edit|word 7 {0..k}|--depth|module=4..5|--ask|memory 7 8",
        TWO,
        "\
module,word 7 {},memory 7 8
4,0,0
4,1,1
5,0,0
5,1,1
",
    ),
    (
        "sweep|two.toml|--setup|word 7 3|--ask|memory 7 8",
        TWO,
        "memory 7 8\n3\n",
    ),
    // By cycle 8 the first processor has issued references 0 and 1 of word 5, and never a fifth.
    (
        "sweep|two.toml|--depth|module=4..5|--ask|reply 0 9|--ask|memory 7 8",
        TWO,
        "\
module,reply 0 9,memory 7 8
4,bad 4,0
5,bad 4,0
",
    ),
    // Word 300 is word 44 of page 1, which is spread over two modules: row 256 + 44 / 2 of module 0. Where half of the references
    // of two processors are hot, the bound is 1 / (1 + 1/2).
    (
        "sweep|two.toml|--depth|module=4..5|--ask|reply 0 9|--ask|place 300|--ask|bound 1 2 2|--numbers",
        TWO,
        "\
module,reply 0 9 cycle,reply 0 9 word,place 300 module,place 300 row,bound 1 2 2 numerator,bound 1 2 2 denominator
4,bad 4,,0,278,2,3
5,bad 4,,0,278,2,3
",
    ),
    // The references of processor 0 to word 5 take five cycles each, from cycles 1 and 2; the third one has no reply by cycle 8.
    // Processor 1 tries word 260 once by cycle 5, and again by 8.
    (
        "sweep|two.toml|--edit|horizon {0,6}|--ask|latency --processor 0|--ask|latency --to 1|--ask|done|--ask|full",
        TWO,
        "\
horizon {},latency --processor 0,latency --to 1,done,full
0,mean none p50 none p90 none p99 none unanswered 0,bad 2,last_reply of 0 earliest none latest none spread none script_end of 0 earliest none latest none spread none,full 0 of 17 first none last none
6,mean 5.00 p50 5 p90 5 p99 5 unanswered 2,mean 5.00 p50 5 p90 5 p99 5 unanswered 0,last_reply of 2 earliest 6 latest 6 spread 0 script_end of 0 earliest none latest none spread none,full 0 of 17 first none last none
",
    ),
    // Word 260 is the hottest, and processor 0 has not come to it; the project refuses the second horizon.
    (
        "sweep|two.toml|--edit|horizon {6,2001}|--ask|latency --cold|--ask|latency --hot --processor 0|--ask|done|--numbers",
        TWO,
        FIGURES,
    ),
    // Where all references are hot there are none whose delay is a figure.
    (
        "delays|--k|1|--hot|100|--cycles|16",
        b"",
        "\
network,processors,combining,hot_percent,replies,cycles_waited,mean_delay
low,2,off,100,0,0,
combining,2,off,100,0,0,
combining,2,on,100,0,0,
",
    ),
    // Both are issued at cycle 1, served as one request at 4 and answered at 6.
    (
        "order|two.toml",
        COMBINED,
        "\
number,reference,word,issued,served,answered,old_word
1,0.0,0,1,4,6,0
2,1.0,0,1,4,6,1
",
    ),
    ("latency|four.toml|--hot", LOADS, HOT),
    ("latency|four.toml|--cold|--page|1", LOADS, COLD),
    ("latency|four.toml|--address|301", LOADS, COLD),
    ("busy|four.toml", LOADS, BUSY),
];

#[test]
fn tasks_print(rt: HostRuntime) -> Result<(), Fail> {
    for (words, bytes, text) in &PRINTED {
        let outcome = made(&rt, words, bytes)?;
        let printed = std::str::from_utf8(outcome.printed.as_slice())?;
        assert!(rt; equal_at(&rt, *words, printed, *text));
        assert!(rt; equal(&rt, outcome.files.len(), 0));
    }
    Ok(())
}

/// One processor with its module, in which nothing is asked for.
const ALONE: &[u8] = b"format = 2\nk = 0\nhorizon = 8\n";

/// Four processors and their modules.
const QUIET: &[u8] = b"format = 2\nk = 2\nhorizon = 8\n";

/// One processor with its module: three references in turn, each answered after three cycles.
const THREE: &[u8] = b"format = 2
k = 0
horizon = 8
window = 8

[[script]]
processor = 0
entries = [\"plain load 5 0 3\"]
";

/// Words with bars between, the bytes of their file, which picture they write first, and a line for each part that it has; behind a
/// dash, for one that it hasn't.
const DRAWN: [(&str, &[u8], &str, &str); 10] = [
    // The mean 5.00 stands where 5 does: on an axis of 500 hundredths, at its top; 7 of 8 across is 46 and 7/8 of 734 pixels.
    (
        "sweep|two.toml|--edit|horizon {7..8}|--ask|latency|--plot|p.svg|--x|horizon {}|--y|latency mean|--y|latency unanswered",
        TWO,
        "p.svg",
        "\
<polyline points=\"688.2,86 780,86 \"
<polyline points=\"688.2,206 780,206 \"",
    ),
    // The points 1, 1 and 2, 2 of axes from 0 to 2: half of 734 pixels from 46 on, half of 300 above 386, and the corner.
    (
        "sweep|two.toml|--edit|word 7 {1..2}|--ask|memory 7 8|--plot|p.svg|--csv|t.csv|--x|word 7 {}|--y|memory 7 8",
        TWO,
        "p.svg",
        "<polyline points=\"413,236 780,86 \"",
    ),
    // The file's name stands in the note, the level's first cycle beside its line.
    (
        "map|there/two.toml|--out|two.svg",
        TWO,
        "two.svg",
        "two.toml, cycles 0 to 8.",
    ),
    // One processor has no switches, so no row is told of.
    (
        "map|one.toml|--out|one.svg",
        ALONE,
        "one.svg",
        "\
>one.toml, cycles 0 to 8.</text>
>With one processor there are no switches: no queue to draw, and no level.</text>",
    ),
    // In a picture of cycles 0 to 8 the columns are 85 pixels apart from 90 on, and the middles of lanes 0 and 1 at 80.5 and 94.5.
    (
        "order|two.toml|--out|two.svg",
        COMBINED,
        "two.svg",
        "\
<rect x=\"175\" y=\"78.5\" width=\"425\" height=\"4\" fill=\"#08306b\"/>
<line x1=\"430\" y1=\"80.5\" x2=\"430\" y2=\"94.5\" stroke=\"#1a1a1a\" stroke-width=\"1.5\"/>
>processor 1</text>",
    ),
    // Replies from module 2 pass switch 1 of the last stage, and both switches of the first one, each by both inputs.
    (
        "map|four.toml|--dir|reverse|--module|2|--out|four.svg",
        QUIET,
        "four.svg",
        "\
>l1.1 r0<
>l1.1 r1<
>l0.0 r0<
>l0.0 r1<
>l0.1 r0<
>l0.1 r1<
>served<
->l1.0 r0<
->level<",
    ),
    // Of 4 places a module's queue is full with 4 requests.
    (
        "map|four.toml|--queues|module|--out|four.svg",
        QUIET,
        "four.svg",
        "\
>m0<
>m3<
>3<
>4 full<
>Full: no place free.<
->m4<
->3 full<",
    ),
    // The axis across goes from 2 to 4, the one up to one more than the three references.
    (
        "delays|one.toml|--out|one.svg",
        THREE,
        "one.svg",
        "\
<rect x=\"266.2\" y=\"161\" width=\"293.6\" height=\"225\" fill=\"#2171b5\"/>
>3 answered, 0 unanswered. Cycles: mean 3.00, p50 3, p90 3, p99 3.</text>
>one.toml: references issued in the cycles 0 to 8.</text>",
    ),
    // References are served in the cycles 3 to 5; four cycles are 183.5 pixels wide each.
    (
        "series|one.toml|--of|served|--from|2|--to|5|--out|s.svg",
        THREE,
        "s.svg",
        "\
<polyline points=\"46,386 229.5,386 229.5,236 413,236 413,236 596.5,236 596.5,236 780,236 \"
<path d=\"M137.7 386m-3.5 0a
>served</text>
>one.toml: cycles 2 to 5.</text>",
    ),
    // p1 1, c0.0 2 in p0.0, m0 3-4 in p0.0, c0.0 5, p1 6: six columns of 95 pixels, and three rows of 20 from 48 on.
    (
        "trace|two.toml|1|0|--out|t.svg",
        COMBINED,
        "t.svg",
        "\
>Where p1.0 was, cycle by cycle</text>
<rect x=\"290\" y=\"48\" width=\"190\" height=\"19.6\" fill=\"#08306b\"/>
<line x1=\"290\" y1=\"57.8\" x2=\"480\" y2=\"57.8\" stroke=\"#ffd75e\"
<rect x=\"480\" y=\"68\" width=\"95\" height=\"19.6\" fill=\"#6baed6\"/>
<rect x=\"195\" y=\"120\" width=\"47.5\" height=\"12\" fill=\"#1a1a1a\"/>
>in p0.0</text>",
    ),
];

/// Whether a text has this part, or, where the part begins with a dash, hasn't what follows.
fn is_as_said(text: &str, part: &str) -> bool {
    match part.strip_prefix("-") {
        Some(absent) => !text.contains(absent),
        None => text.contains(part),
    }
}

/// Compares the first file of an outcome, which is a picture, with its name and with lines of parts.
fn compare<R: Abort + Eprint>(
    rt: &R,
    outcome: &Outcome,
    name: &str,
    parts: &str,
) -> Result<(), Fail> {
    let file = outcome.files.first().ok_or("a file")?;
    assert!(rt; equal(rt, file.name.as_str(), name));
    let text = std::str::from_utf8(file.bytes.as_slice())?;
    assert!(rt; text.starts_with("<svg "));
    assert!(rt; text.ends_with("</svg>\n"));
    for part in parts.lines() {
        assert!(rt; equal_at(rt, (name, part), is_as_said(text, part), true));
    }
    Ok(())
}

#[test]
fn files_are_drawn(rt: HostRuntime) -> Result<(), Fail> {
    for (words, bytes, name, parts) in &DRAWN {
        let outcome = made(&rt, words, bytes)?;
        assert!(rt; equal_at(&rt, *words, outcome.printed.len(), 0));
        compare(&rt, &outcome, name, parts)?;
    }
    Ok(())
}

// A picture is printed where no file is named, and a table beside a picture is a file of its own.
#[test]
fn pictures_are_printed_or_written_beside_tables(rt: HostRuntime) -> Result<(), Fail> {
    let printed = made(&rt, "map|one.toml", ALONE)?;
    let written = made(&rt, "map|one.toml|--out|one.svg", ALONE)?;
    let file = written.files.first().ok_or("a file")?;
    assert!(rt; equal(&rt, printed.printed.as_slice(), file.bytes.as_slice()));
    let words =
        "sweep|two.toml|--edit|word 7 {1..2}|--ask|memory 7 8|--plot|p.svg|--csv|t.csv|--x|word 7 {}|--y|memory 7 8";
    let outcome = made(&rt, words, TWO)?;
    let table = outcome.files.get(1).ok_or("a table")?;
    let text = std::str::from_utf8(table.bytes.as_slice())?;
    assert!(rt; equal(&rt, text, "word 7 {},memory 7 8\n1,1\n2,2\n"));
    Ok(())
}

/// A file of format 1 with keys in another order, some of them as usual.
const OLD: &[u8] = b"script = [
{processor = 1, entries = [\"  sync  add 0 1 1\", \"fence\", \"idle 7\", \"plain load 260 0 12\", \"plain store-if-zero 5 4294967295\", \"fence\", \"fence\", \"fence\", \"idle 1000\"]},
{processor = 0, entries = []},
]
word = [{address = 300, value = 4294967295}, {address = 2, value = 7}, {address = 3, value = 0}]
page = [{number = 1, amount = 2, base = 0}, {number = 63, amount = 1, base = 2}, {number = 0, amount = 0, base = 3}]
depths = {wait = 3, module = 4, comb_reverse = 8, low_forward = 6}
combine = [false, true]
window = 1
horizon = 10
k = 2
format = 1
";

const NEW: &str = "format = 2
k = 2
horizon = 10
combine = [false, true]

[depths]
low_forward = 6
wait = 3

[[page]]
number = 0
amount = 0
base = 3

[[page]]
number = 63
amount = 1
base = 2

[[word]]
address = 2
value = 7

[[word]]
address = 300
value = 4294967295

[[script]]
processor = 1
entries = [\"sync add 0 1\", \"fence\", \"idle 7\", \"plain load 260 0 12\", \"plain store-if-zero 5 4294967295\", \"fence\", \"fence\", \"fence\",
    \"idle 1000\"]
";

/// Files that are written as `convert` writes them: the one that is made of `OLD`, the smallest, and each key alone.
const CONVERTED: [&str; 8] = [
    NEW,
    "format = 2\nk = 0\nhorizon = 8\n",
    "format = 2\nk = 6\nhorizon = 2000\nwindow = 8\n",
    "format = 2\nk = 1\nhorizon = 0\ncombine = [true]\n",
    "format = 2\nk = 0\nhorizon = 0\n\n[depths]\nlow_reverse = 2\ncomb_forward = 16\ncomb_reverse = 4\nmodule = 5\nwait = 1\n",
    "format = 2\nk = 1\nhorizon = 0\n\n[[page]]\nnumber = 7\namount = 0\nbase = 1\n",
    "format = 2\nk = 0\nhorizon = 0\n\n[[word]]\naddress = 16383\nvalue = 1\n",
    "format = 2\nk = 0\nhorizon = 0\n\n[[script]]\nprocessor = 0\nentries = [\"until sync load 256 0 1\", \"until plain and 0 3 4 5\"]\n",
];

#[test]
fn converted_files_stay(rt: HostRuntime) -> Result<(), Fail> {
    for text in &CONVERTED {
        let outcome = made(&rt, "convert|a.toml", text.as_bytes())?;
        assert!(rt; equal(&rt, outcome.printed.as_slice(), text.as_bytes()));
    }
    Ok(())
}

/// Compares what a conversion writes to this file.
fn converts<R: AllocGlobal + Threads + Sync + Abort + Eprint>(
    rt: &R,
    words: &str,
    bytes: &[u8],
) -> Result<(), Fail> {
    let outcome = made(rt, words, bytes)?;
    assert!(rt; equal(rt, outcome.printed.len(), 0));
    let file = outcome.files.first().ok_or("a file")?;
    assert!(rt; equal(rt, file.name.as_str(), "new.toml"));
    let text = std::str::from_utf8(file.bytes.as_slice())?;
    assert!(rt; equal(rt, text, NEW));
    Ok(())
}

#[test]
fn a_project_is_converted(rt: HostRuntime) -> Result<(), Fail> {
    converts(&rt, "convert|old.toml|--out|new.toml", OLD)?;
    converts(
        &rt,
        "convert|new.toml|--out|new.toml|--force",
        NEW.as_bytes(),
    )?;
    Ok(())
}

/// A number with three places behind its point, in thousandths.
fn thousandths(text: &str) -> Option<u64> {
    let (whole, part) = text.split_once('.')?;
    let whole = whole.parse::<u32>().ok()?;
    let part = part.parse::<u32>().ok()?;
    Some(u64::from(whole) * 1000 + u64::from(part))
}

/// What was answered in a cycle by a row of the table, and the bound.
fn rate_and_bound(row: &str) -> Option<(u64, u64)> {
    let mut fields = row.split(',');
    let rate = thousandths(fields.nth(8)?)?;
    let bound = thousandths(fields.nth(1)?)?;
    Some((rate, bound))
}

/// Whether the mean of five rates isn't above their bound by more than their spread.
fn keeps_to_bound(five: &[(u64, u64)]) -> bool {
    let (mut sum, mut least, mut most) = (0u64, u64::MAX, 0u64);
    let mut bound = 0u64;
    for (rate, its_bound) in five {
        sum = sum.saturating_add(*rate);
        least = least.min(*rate);
        most = most.max(*rate);
        bound = *its_bound;
    }
    let spread = most.saturating_sub(least);
    five.len() == 5 && sum / 5 <= bound.saturating_add(spread)
}

// What is drawn isn't exactly the share, so a mean may be above the bound, but by no more than its spread.
#[test]
fn means_keep_to_the_bound(rt: HostRuntime) -> Result<(), Fail> {
    let outcome = made(&rt, "rates|--k|3|--hot|0,8,32", b"")?;
    let text = std::str::from_utf8(outcome.printed.as_slice())?;
    let mut rows = Vec::new(rt.alloc());
    for row in text.lines() {
        if row.contains(",off,") {
            rows.push(rate_and_bound(row).ok_or("a rate and a bound")?)?;
        }
    }
    assert!(rt; equal(&rt, rows.len(), 60));
    for five in rows.chunks(5) {
        assert!(rt; keeps_to_bound(five));
    }
    Ok(())
}

// All of it is on the low network: the combining one has nothing to draw. The other project is on the combining one alone.
#[test]
fn a_map_of_nothing_is_told(rt: HostRuntime) -> Result<(), Fail> {
    let there = made(&rt, "map|two.toml", TWO)?;
    assert!(rt; there.elsewhere.is_none());
    let nothing = made(&rt, "map|two.toml|--net|comb", TWO)?;
    assert!(rt; nothing.elsewhere == Some(Net::Low));
    let nothing = made(&rt, "map|two.toml", COMBINED)?;
    assert!(rt; nothing.elsewhere == Some(Net::Comb));
    Ok(())
}

/// Compares where a curve's files are kept, and their names, a line each.
fn compare_names<R: Abort + Eprint>(rt: &R, outcome: &Outcome, names: &str) {
    let folder = match &outcome.folder {
        Some(folder) => folder.as_str(),
        None => "",
    };
    assert!(rt; equal(rt, folder, "kept"));
    assert!(rt; equal(rt, outcome.files.len(), names.lines().count()));
    for (file, name) in outcome.files.iter().zip(names.lines()) {
        assert!(rt; equal(rt, file.name.as_str(), name));
    }
}

const RATES: &str = "\
processors,combining,hot_percent,seed,first_cycle,cycles,answered,served,answered_per_cycle,served_per_cycle,bound
1,off,0,1,9,8,8,8,1.000,1.000,1.000
1,off,0,2,9,8,8,8,1.000,1.000,1.000
1,on,0,1,";

const RATES_FILES: &str = "\
a.svg
a.csv
kept/k0-hot0-off-seed1.toml
kept/k0-hot0-off-seed2.toml
kept/k0-hot0-on-seed1.toml
kept/k0-hot0-on-seed2.toml
kept/k1-hot0-off-seed1.toml
kept/k1-hot0-off-seed2.toml
kept/k1-hot0-on-seed1.toml
kept/k1-hot0-on-seed2.toml";

const OFFERED: &str = "\
network,processors,combining,hot_percent,offered,seed,first_cycle,cycles,answered,accepted,issued_to,replies,unanswered,mean_latency
low,2,off,0,0.050,24,17,16,2,0.062,24,1,0,5.00
combining,2,off,0,0.050,24,17,16,2,0.062,24,1,0,5.00
combining,2,on,0,0.050,24,17,16,2,0.062,24,1,0,5.00
";

const OFFERED_FILES: &str = "\
a.svg
a.csv
kept/k1-hot0-rate5-low-seed24.toml
kept/k1-hot0-rate5-off-seed24.toml
kept/k1-hot0-rate5-on-seed24.toml";

/// Curves, how their table begins, and their files.
const CURVES: [(&str, &str, &str); 2] = [
    // One processor whose references are all cold, its module alone: no queue delays it, and the bound of one is one.
    (
        "rates|--k|1|--hot|0|--cycles|16|--seeds|2|--csv|a.csv|--out|a.svg|--keep|kept",
        RATES,
        RATES_FILES,
    ),
    // By PCG's reference algorithm the streams 64 and 65 of seed 24 draw numbers below 5 of a hundred for the cycles 15 and 22 alone,
    // up to 32. Each of these two references is alone, so that it takes the 5 cycles of one stage; both are answered in the second
    // half, and the second one is issued in its first half.
    (
        "load|--k|1|--rate|5..9|--cycles|32|--seed|24|--seeds|1|--csv|a.csv|--out|a.svg|--keep|kept",
        OFFERED,
        OFFERED_FILES,
    ),
];

#[test]
fn curves_are_tabled(rt: HostRuntime) -> Result<(), Fail> {
    for (words, begin, names) in &CURVES {
        let outcome = made(&rt, words, b"")?;
        assert!(rt; equal(&rt, outcome.printed.len(), 0));
        compare_names(&rt, &outcome, names);
        let table = outcome.files.get(1).ok_or("a table")?;
        let text = std::str::from_utf8(table.bytes.as_slice())?;
        assert!(rt; text.starts_with(*begin));
    }
    Ok(())
}

/// The example of `docs/MACHINE.md`: four requests for word 0 set out together over the combining network, and become two at the
/// first stage and one at the second. Each wait buffer has one place.
const FOUR: &[u8] = b"format = 2
k = 2
horizon = 8
combine = [true, true]
depths = { wait = 1 }

[[page]]
number = 0
amount = 0
base = 0

[[script]]
processor = 0
entries = [\"sync add 0 1\"]

[[script]]
processor = 1
entries = [\"sync add 0 2\"]

[[script]]
processor = 2
entries = [\"sync add 0 4\"]

[[script]]
processor = 3
entries = [\"sync add 0 8\"]
";

/// What its page says of the cycles 2 and 3.
const FOUR_DATA: &str = "\
run 2 8 2 3
places 4 4 4 8 4 1
combining on on
components p0 p1 p2 p3 m0 m1 m2 m3 l0.0 l0.1 l1.0 l1.1 c0.0 c0.1 c1.0 c1.1
wires l,p0,0,l0.0,0 l,p1,1,l0.1,0 l,p2,0,l0.0,1 l,p3,1,l0.1,1 \
l,l0.0,0,l1.0,0 l,l0.0,1,l1.1,0 l,l0.1,0,l1.0,1 l,l0.1,1,l1.1,1 \
l,l1.0,0,m0,0 l,l1.0,1,m1,0 l,l1.1,0,m2,1 l,l1.1,1,m3,1 \
c,p0,0,c0.0,0 c,p1,1,c0.1,0 c,p2,0,c0.0,1 c,p3,1,c0.1,1 \
c,c0.0,0,c1.0,0 c,c0.0,1,c1.1,0 c,c0.1,0,c1.0,1 c,c0.1,1,c1.1,1 \
c,c1.0,0,m0,0 c,c1.0,1,m1,0 c,c1.1,0,m2,1 c,c1.1,1,m3,1
2;1,1,,,;1,1,,,;1,1,,,;1,1,,,;0,,,,;0,,,,;0,,,,;0,,,,;,,,;,,,;,,,;,,,; 0.0,,,, 2.0>0.0!; 1.0,,,, 3.0>1.0!;,,,,;,,,,
3;1,1,,,;1,1,,,;1,1,,,;1,1,,,;0,,,,;0,,,,;0,,,,;0,,,,;,,,;,,,;,,,;,,,;,,,, 2.0>0.0!;,,,, 3.0>1.0!; 0.0,,,, 1.0>0.0!;,,,,
";

#[test]
fn a_run_is_a_page(rt: HostRuntime) -> Result<(), Fail> {
    let outcome = made(&rt, "page|four.toml|--from|2|--to|3", FOUR)?;
    let mut page = String::from_str(rt.alloc(), HEAD)?;
    page.push_str(FOUR_DATA)?;
    page.push_str(TAIL)?;
    assert!(rt; equal(&rt, outcome.printed.as_slice(), page.as_bytes()));
    Ok(())
}
