//! Worked rows, a file of every fault, and a whole project.

use crate::words::has_words;
use expect::equal;
use omega_net::ScriptEntry;
use project_book::{Depths, FirstWord, Project};
use project_file::{ProjectFault, WriteFault, fault_place, read_project, write_project};
use std::alloc::Global;
use std::test::Fail;
use word_ops::{Kind, Op};

/// What the shortest project says.
const SMALL: &str = "format = 1\nk = 0\nhorizon = 0\n";

/// A project that says something at every key.
const FULL: &str = "format = 1
k = 1
horizon = 10
window = 2
combine = [true]
[depths]
low_forward = 5
low_reverse = 6
comb_forward = 7
comb_reverse = 9
module = 10
wait = 3
[[page]]
number = 1
amount = 0
base = 1
[[word]]
address = 300
value = 5
[[word]]
address = 7
value = 4294967295
[[word]]
address = 8
value = 0
[[script]]
processor = 1
entries = [\"sync add 0 1 2\", \"fence\", \"idle 4\"]
";

/// Two processors and the horizon 10; page 0 in module 0, page 1 in module 1; word 0 is 10.
const BASE: &str = "format = 1
k = 1
horizon = 10
page = [{number = 0, amount = 0, base = 0}, {number = 1, amount = 0, base = 1}]
word = [{address = 0, value = 10}]
";

/// The largest machine, whose last processor has every entry that there is.
const LARGEST: &str = "format = 2
k = 6
horizon = 2000
combine = [true, false, false, false, false, true]
[[script]]
processor = 63
entries = [\"until sync store-if-zero 0 1 0\", \"until plain load 16383 0 12 7\", \"fence\", \"idle 1000\", \"plain store 0 0\"]
";

/// The number of a file's fault, 0 where there is none; a refused growth is tried again.
fn number_of(alloc: Global, text: &[u8]) -> u8 {
    for _ in 0..2 {
        match read_project(alloc, text) {
            Ok(_) => return 0,
            Err(ProjectFault::Memory) => {}
            Err(fault) => return fault.number(),
        }
    }
    ProjectFault::Memory.number()
}

/// The number of the fault of the shortest project with more text behind it.
fn number_with(alloc: Global, more: &str) -> Result<u8, Fail> {
    let text = format!(in alloc; "{SMALL}{more}")?;
    Ok(number_of(alloc, text.as_str().as_bytes()))
}

/// The first fault of short files: in the order of the keys, after keys that aren't known.
#[test]
fn roots(rt: HostRuntime) -> Result<(), Fail> {
    let alloc = rt.alloc();
    for (text, number) in [
        ("", 3),
        ("format = 4", 3),
        ("format = 0", 3),
        ("format = true", 3),
        ("format = 1", 5),
        ("format = 2", 5),
        ("format = 2\nk = 7", 7),
        ("format = 2\nk = 6\nhorizon = 2001", 7),
        ("format = 2\nk = 6\nhorizon = 2000", 0),
        ("format = 3", 5),
        ("format = 3\nk = 7", 7),
        ("format = 3\nk = 6\nhorizon = 20001", 7),
        ("format = 3\nk = 6\nhorizon = 20000", 0),
        ("format = 1\nk = 6", 7),
        ("format = 1\nk = 5\nhorizon = 1001", 7),
        ("format = 1\nk = 5\nhorizon = 1000", 0),
        ("format = 1\nk = \"1\"", 6),
        ("format = 1\nk = true", 6),
        ("format = 1\nk = -1", 7),
        ("format = 1\nk = 0", 5),
        ("format = 1\nk = 9\ncolour = 1", 4),
        ("format = 1\nhorizon = 1001", 5),
        (SMALL, 0),
        ("k = [", 2),
        // An integer of more than 64 bits is no document.
        ("format = 2\nk = 9223372036854775808", 2),
    ] {
        assert!(rt; equal(&rt, number_of(alloc, text.as_bytes()), number));
    }
    // A byte that no UTF-8 has.
    assert!(rt; equal(&rt, number_of(alloc, &[255]), 2));
    Ok(())
}

/// The first fault at each key behind the first three.
#[test]
fn keys(rt: HostRuntime) -> Result<(), Fail> {
    let alloc = rt.alloc();
    for (more, number) in [
        ("colour = 1", 4),
        ("window = 9", 7),
        ("combine = [true]", 7),
        ("combine = [true, 1]", 6),
        ("depths = 4", 6),
        ("[depths]\ncomb_reverse = 3", 7),
        ("[depths]\ncomb_reverse = 3\nwidth = 1", 4),
        ("page = [1]", 6),
        ("[[page]]\nnumber = 64\namount = 0\nbase = 0", 7),
        // The amount is above k, which is looked at after the base was read.
        ("[[page]]\nnumber = 0\namount = 2", 5),
        ("[[page]]\nnumber = 0\namount = 2\nbase = 0", 7),
        (
            "[[page]]\nnumber = 0\namount = 0\nbase = 0\n[[page]]\nnumber = 0",
            9,
        ),
        (
            "[[word]]\naddress = 0\nvalue = 1\n[[word]]\naddress = 0\nvalue = 1",
            9,
        ),
        ("[[word]]\naddress = 0\nvalue = 4294967296", 7),
        ("[[word]]\nvalue = 1\nplace = 0", 4),
        ("[[script]]\nprocessor = 0\nentries = [\"jump 3\"]", 8),
        // An entry whose number is out of its limits stands before a text that is no entry.
        (
            "[[script]]\nprocessor = 0\nentries = [\"idle 0\", \"jump\"]",
            8,
        ),
        ("[[script]]\nprocessor = 0\nentries = [\"idle 0\"]", 7),
        ("[[script]]\nprocessor = 0\nentries = [\"jump\", 1]", 6),
        ("[[script]]\nprocessor = 1\nentries = []", 7),
        (
            "[[script]]\nprocessor = 0\nentries = []\n[[script]]\nprocessor = 0",
            9,
        ),
        ("[[script]]\nprocessor = 0\nentries = []", 0),
        // Format 1 has no entry that waits for a word.
        (
            "[[script]]\nprocessor = 0\nentries = [\"until sync load 0 0 12\"]",
            8,
        ),
    ] {
        assert!(rt; equal(&rt, number_with(alloc, more)?, number));
    }
    Ok(())
}

/// Format 2 has the entry that waits for a word.
#[test]
fn waiting_entries(rt: HostRuntime) -> Result<(), Fail> {
    let alloc = rt.alloc();
    let text =
        "format = 2\nk = 0\nhorizon = 0\n[[script]]\nprocessor = 0\nentries = [\"until sync load 0 0 12\"]";
    let until = ScriptEntry::Until {
        sync: true,
        op: Op {
            kind: Kind::Load,
            operand: 0,
        },
        address: 0,
        value: 12,
        times: 1_000,
    };
    for _ in 0..2 {
        if let Ok(project) = read_project(alloc, text.as_bytes()) {
            assert!(rt; equal(&rt, project.entry(0, 0), Some(until)));
            return Ok(());
        }
    }
    Err(Fail::from("within the limits"))
}

/// What a whole project says.
fn is_full(project: &Project) -> bool {
    let add = ScriptEntry::Reference {
        sync: true,
        op: Op {
            kind: Kind::Add,
            operand: 1,
        },
        address: 0,
        times: 2,
    };
    let words = [
        FirstWord {
            address: 7,
            word: u32::MAX,
        },
        FirstWord {
            address: 300,
            word: 5,
        },
    ];
    (
        project.k(),
        project.horizon(),
        project.window(),
        project.wait(),
    ) == (1, 10, 2, 3)
        && project.combine(0)
        && project.depth(Depths::LowForward) == 5
        && project.depth(Depths::LowReverse) == 6
        && project.depth(Depths::CombForward) == 7
        && project.depth(Depths::CombReverse) == 9
        && project.depth(Depths::ModuleQueue) == 10
        && project.pages().page(0) == Some((1, 0))
        && project.pages().page(1) == Some((0, 1))
        && has_words(project, &words)
        && project.length(0) == 0
        && project.entry(1, 0) == Some(add)
        && project.entry(1, 1) == Some(ScriptEntry::Fence)
        && project.entry(1, 2) == Some(ScriptEntry::Idle(4))
        && project.length(1) == 3
}

/// A whole project is read as it is written, and each growth that is refused says so.
#[test]
fn whole(rt: HostRuntime) -> Result<(), Fail> {
    let alloc = rt.alloc();
    let project = match read_project(alloc, FULL.as_bytes()) {
        Ok(project) => project,
        Err(fault) => {
            assert!(rt; equal(&rt, fault, ProjectFault::Memory));
            read_project(alloc, FULL.as_bytes())?
        }
    };
    assert!(rt; is_full(&project));
    Ok(())
}

/// What is written of a project is read as it; a refused growth says so and the project is written again.
fn comes_back(alloc: Global, project: &Project) -> Result<bool, Fail> {
    for _ in 0..2 {
        match write_project(alloc, project) {
            Ok(bytes) => return Ok(read_project(alloc, &bytes)?.same(project)),
            Err(WriteFault::Memory) => {}
            Err(_) => return Ok(false),
        }
    }
    Err(Fail::from("no memory twice"))
}

/// 15.3: projects are written and read: the base project, one that says something at every key, the largest one.
#[test]
fn written_and_read(rt: HostRuntime) -> Result<(), Fail> {
    let alloc = rt.alloc();
    for text in [BASE, FULL, LARGEST] {
        let project = match read_project(alloc, text.as_bytes()) {
            Ok(project) => project,
            Err(_) => read_project(alloc, text.as_bytes())?,
        };
        assert!(rt; comes_back(alloc, &project)?);
    }
    Ok(())
}

/// A file that is cut is a project only where its first three keys are there.
#[test]
fn prefixes(rt: HostRuntime) -> Result<(), Fail> {
    let alloc = rt.alloc();
    let bytes = FULL.as_bytes();
    let least = "format = 1\nk = 1\nhorizon = 1".len();
    for end in 0..bytes.len() {
        let number = number_of(alloc, &bytes[..end]);
        assert!(rt; number != 0 || end >= least);
    }
    Ok(())
}

/// Files of many bytes: too long, nested without end, and a script of 257 entries.
#[test]
fn many_bytes(rt: HostRuntime) -> Result<(), Fail> {
    let alloc = rt.alloc();
    let spaces = vec![in alloc; b' '; 4_194_305]?;
    assert!(rt; equal(&rt, number_of(alloc, &spaces), 1));
    assert!(rt; equal(&rt, number_of(alloc, &spaces[1..]), 3));
    let brackets = vec![in alloc; b'['; 100_000]?;
    assert!(rt; equal(&rt, number_of(alloc, &brackets), 2));
    for (count, number) in [(256, 0), (257, 7)] {
        let mut more = String::new(alloc);
        more.push_str("[[script]]\nprocessor = 0\nentries = [")?;
        for _ in 0..count {
            more.push_str("\"fence\",")?;
        }
        more.push_str("]")?;
        assert!(rt; equal(&rt, number_with(alloc, more.as_str())?, number));
    }
    Ok(())
}

/// The texts of faults.
#[test]
fn texts(rt: HostRuntime) -> Result<(), Fail> {
    let alloc = rt.alloc();
    for (fault, text) in [
        (
            ProjectFault::TooLong,
            "the file is longer than 4,194,304 bytes",
        ),
        (ProjectFault::Memory, "no memory"),
    ] {
        assert!(rt; equal(&rt, format!(in alloc; "{fault}")?.as_str(), text));
    }
    let unread = WriteFault::Unread;
    assert!(rt; equal(&rt, unread.number(), 3));
    assert!(rt;
        equal(
            &rt,
            format!(in alloc; "{unread}")?.as_str(),
            "the file is not read as the project"
        )
    );
    Ok(())
}

/// The line that says where a file is wrong.
fn place_of(alloc: Global, text: &[u8]) -> Result<String, Fail> {
    match fault_place(alloc, text)? {
        Some(line) => Ok(line),
        None => Ok(String::new(alloc)),
    }
}

/// What the shortest project says of more text behind it, and where.
const PLACES: &[(&str, &str)] = &[
    (
        "k = 3",
        "TOML parse error at line 4, column 1: duplicate key",
    ),
    (
        "colour = 1",
        "line 4, colour: no such key; there is format, k, horizon, window, combine, depths, page, word or script",
    ),
    ("widow = 1", "line 4, widow: no such key; is it window?"),
    ("window = 9", "line 4, window: 9 is not 1 to 8"),
    ("combine = [true]", "line 4, combine: 1 stages where k is 0"),
    (
        "combine = [4]",
        "line 4, combine: stage 0 is of type integer where true or false belongs",
    ),
    (
        "depths = 4",
        "line 4, depths: of type integer where a table belongs",
    ),
    (
        "[depths]\nmodule = 4\ncomb_reverse = 3",
        "line 6, depths, comb_reverse: 3 is not 4 to 16",
    ),
    (
        "page = [1]",
        "line 4, page: the first is of type integer where a table belongs",
    ),
    (
        "[[page]]\nnumber = 1\namount = 0\nbase = 0\n[[page]]\nnumber = 1",
        "line 9, page of number 1 (the second), number: 1 is given twice",
    ),
    (
        "[[page]]\nnumber = 0\namount = 2\nbase = 0",
        "line 6, page of number 0 (the first), amount: 2 with base 0 is no interleaving of 1 modules",
    ),
    ("word = [{ value = 1 }]", "the first word, address: missing"),
    (
        "[[word]]\naddress = 7",
        "line 4, word of address 7 (the first), value: missing",
    ),
    (
        "[[script]]\nprocessor = 0\nentries = [\n\"fence\",\n\"jump\\u0007 3\"]",
        "line 6, script of processor 0 (the first), entry 1, \"jump? 3\": no entry begins with \"jump?\"; there is sync, plain, until, fence or idle",
    ),
    (
        "[[script]]\nprocessor = 0\nentries = [\n\"fence\",\n\"snyc add 0 1\"]",
        "line 8, script of processor 0 (the first), entry 1, \"snyc add 0 1\": no entry begins with \"snyc\"; is it sync?",
    ),
    (
        "[[script]]\nprocessor = 0\nentries = [\"until sync load 0 0 1\"]",
        "line 6, script of processor 0 (the first), entry 0, \"until sync load 0 0 1\": format 1 has no such entry; format 2 has",
    ),
    (
        "[[script]]\nprocessor = 0\nentries = [\"idle 0\"]",
        "line 6, script of processor 0 (the first), entry 0, \"idle 0\": the number of turns 0 is not 1 to 1000",
    ),
];

/// Texts that are no entries within the limits, and what is said of each.
const ENTRIES: &[(&str, &str)] = &[
    ("", "no words"),
    ("sync ad 0 1", "\"ad\" is no operation; is it add?"),
    (
        "sync subtract 0 1",
        "\"subtract\" is no operation; there is load, add, and, or, min, max, store or store-if-zero",
    ),
    (
        "until both load 0 0 1",
        "\"both\" is no network; there is sync or plain",
    ),
    (
        "plain load x 0",
        "the address \"x\" is no whole number up to 4294967295",
    ),
    (
        "plain load 0",
        "a word is missing; it is plain OPERATION ADDRESS OPERAND [TIMES]",
    ),
    (
        "plain load 0 0 -1",
        "the number of times \"-1\" is no whole number up to 4294967295",
    ),
    (
        "plain load 0 0 1 1",
        "\"1\" is a word too many; it is plain OPERATION ADDRESS OPERAND [TIMES]",
    ),
    ("fence 3", "\"3\" is a word too many; it is fence"),
    ("sync load 16384 0", "the address 16384 is not 0 to 16383"),
    (
        "sync load 0 0 1001",
        "the number of times 1001 is not 1 to 1000",
    ),
];

/// Where files are wrong: by line and column, by key, or by item.
#[test]
fn places(rt: HostRuntime) -> Result<(), Fail> {
    let alloc = rt.alloc();
    assert!(rt;
        equal(
            &rt,
            place_of(alloc, &[b'k', 255])?.as_str(),
            "byte 1: no UTF-8"
        )
    );
    assert!(rt; equal(&rt, place_of(alloc, FULL.as_bytes())?.as_str(), ""));
    for (more, place) in PLACES {
        let text = format!(in alloc; "{SMALL}{more}")?;
        assert!(rt;
            equal(
                &rt,
                place_of(alloc, text.as_str().as_bytes())?.as_str(),
                place
            )
        );
    }
    Ok(())
}

/// Which word or number of an entry is wrong.
#[test]
fn entries(rt: HostRuntime) -> Result<(), Fail> {
    let alloc = rt.alloc();
    for (entry, fault) in ENTRIES {
        let text = format!(in alloc; "{SMALL}[[script]]\nprocessor = 0\nentries = [\"{entry}\"]")?;
        let told = format!(in alloc;
            "line 6, script of processor 0 (the first), entry 0, \"{entry}\": {fault}"
        )?;
        assert!(rt;
            equal(
                &rt,
                place_of(alloc, text.as_str().as_bytes())?.as_str(),
                told.as_str()
            )
        );
    }
    Ok(())
}

/// What another format allows.
#[test]
fn sizes(rt: HostRuntime) -> Result<(), Fail> {
    for (text, line) in [
        (
            "format = 1\nk = 6\nhorizon = 0\n",
            "line 2, k: 6 is not 0 to 5; format 2 allows 0 to 6",
        ),
        (
            "format = 1\nk = 5\nhorizon = 1001\n",
            "line 3, horizon: 1001 is not 0 to 1000; format 2 allows 0 to 2000",
        ),
        (
            "format = 2\nk = 6\nhorizon = 2001\n",
            "line 3, horizon: 2001 is not 0 to 2000; format 3 allows 0 to 20000",
        ),
        (
            "format = 3\nk = 6\nhorizon = 20001\n",
            "line 3, horizon: 20001 is not 0 to 20000",
        ),
    ] {
        assert!(rt; equal(&rt, place_of(rt.alloc(), text.as_bytes())?.as_str(), line));
    }
    Ok(())
}

/// So many spaces, and this text behind them.
fn behind_spaces(alloc: Global, spaces: usize, text: &str) -> Result<Vec<u8>, Fail> {
    let mut bytes = vec![in alloc; b' '; spaces]?;
    bytes.extend_from_slice(text.as_bytes())?;
    Ok(bytes)
}

/// A file of format 3 with so many entries in its script.
fn large_file(alloc: Global, entries: usize) -> Result<String, Fail> {
    let mut text = String::new(alloc);
    text.push_str("format = 3\nk = 0\nhorizon = 20000\n[[script]]\nprocessor = 0\nentries = [")?;
    for _ in 0..entries {
        text.push_str("\"fence\",")?;
    }
    text.push_str("]")?;
    Ok(text)
}

/// A large project has scripts of 4,096 entries, and comes back from its file.
#[test]
fn large_files(rt: HostRuntime) -> Result<(), Fail> {
    let alloc = rt.alloc();
    let text = large_file(alloc, 4_097)?;
    assert!(rt; equal(&rt, number_of(alloc, text.as_str().as_bytes()), 7));
    let text = large_file(alloc, 4_096)?;
    let project = read_project(alloc, text.as_str().as_bytes())?;
    assert!(rt; equal(&rt, (project.length(0), project.horizon()), (4_096, 20_000)));
    assert!(rt; comes_back(alloc, &project)?);
    Ok(())
}

/// A file of more than 4,194,304 bytes is read where it is of format 3, and is else too long, whatever else is wrong with it.
#[test]
fn long_files(rt: HostRuntime) -> Result<(), Fail> {
    let alloc = rt.alloc();
    for (text, number) in [
        ("\nformat = 3\nk = 0\nhorizon = 0", 0),
        ("\nformat = 3", 5),
        ("\nformat = 2\nk = 0\nhorizon = 0", 1),
        ("\nformat = 4", 1),
        ("\nk = [", 1),
    ] {
        let bytes = behind_spaces(alloc, 4_194_304, text)?;
        assert!(rt; equal(&rt, number_of(alloc, &bytes), number));
    }
    Ok(())
}

/// A machine of four processors in a file of format 3.
const FOUR: &str = "format = 3\nk = 2\nhorizon = 0\n";

/// Scripts in short forms, and the fault that each is; 0 where it is none.
const SHORT: &[(&str, u8)] = &[
    ("[[script]]\nprocessors = [0, 3]\nentries = [\"fence\"]", 0),
    ("[[script]]\nprocessors = []\nentries = []", 0),
    ("[[script]]\nprocessors = \"all\"\nentries = []", 0),
    ("[[script]]\nprocessors = \"0..3\"\nentries = []", 0),
    ("[[script]]\nprocessors = \"0..4\"\nentries = []", 7),
    ("[[script]]\nprocessors = \"2..1\"\nentries = []", 7),
    ("[[script]]\nprocessors = \"0.3\"\nentries = []", 6),
    ("[[script]]\nprocessors = \"every\"\nentries = []", 6),
    ("[[script]]\nprocessors = 1\nentries = []", 6),
    ("[[script]]\nprocessors = [4, \"0\"]\nentries = []", 6),
    ("[[script]]\nprocessors = [4]\nentries = []", 7),
    ("[[script]]\nprocessors = [1, 1]\nentries = []", 9),
    (
        "[[script]]\nprocessor = 2\nentries = []\n[[script]]\nprocessors = \"1..2\"",
        9,
    ),
    (
        "[[script]]\nprocessors = [1]\nprocessor = 0\nentries = []",
        4,
    ),
    ("[[script]]\nentries = []", 5),
    ("[[script]]\nprocessors = [1]", 5),
    (
        "[[script]]\nprocessor = 0\nentries = [\"sync add 16383 1 1000 step 16383\"]",
        0,
    ),
    (
        "[[script]]\nprocessor = 0\nentries = [\"sync add 0 1 2 step 16384\"]",
        7,
    ),
    (
        "[[script]]\nprocessor = 0\nentries = [\"sync add 0 1 0 step 1\"]",
        7,
    ),
    (
        "[[script]]\nprocessor = 0\nentries = [\"sync add 0 1 step 1\", \"sync add 16384 1 2 step 1\"]",
        8,
    ),
    (
        "[[script]]\nprocessor = 0\nentries = [\"sync add 16384 1 2 step 1\"]",
        7,
    ),
    (
        "[[script]]\nprocessor = 0\nentries = [\"sync add 0 1 1001 step 1\"]",
        7,
    ),
    // Numbers of other texts are judged last, those of a table at once.
    (
        "[[script]]\nprocessor = 0\nentries = [\"idle 0\", { repeat = 0, entries = [] }, \"jump\"]",
        7,
    ),
    (
        "[[script]]\nprocessor = 0\nentries = [\"idle 0\", { repeat = 1, entries = [] }, \"jump\"]",
        8,
    ),
    (
        "[[script]]\nprocessor = 0\nentries = [\"until sync add 0 1 1 2 step 1\"]",
        8,
    ),
    (
        "[[script]]\nprocessor = 0\nentries = [{ repeat = 4096, entries = [\"fence\"] }]",
        0,
    ),
    (
        "[[script]]\nprocessor = 0\nentries = [{ repeat = 2048, entries = [\"fence\", \"idle 1\"] }, \"fence\"]",
        7,
    ),
    // What is behind a script that is too long is still looked at.
    (
        "[[script]]\nprocessor = 0\nentries = [{ repeat = 4096, entries = [\"plain add 0 1 1000 step 1\"] }, \"jump\"]",
        8,
    ),
    (
        "[[script]]\nprocessor = 0\nentries = [{ repeat = 4096, entries = [\"plain add 0 1 1000 step 1\"] }]",
        7,
    ),
    (
        "[[script]]\nprocessor = 0\nentries = [{ repeat = 0, entries = [] }]",
        7,
    ),
    (
        "[[script]]\nprocessor = 0\nentries = [{ repeat = 4097, entries = [] }]",
        7,
    ),
    ("[[script]]\nprocessor = 0\nentries = [{ entries = [] }]", 5),
    ("[[script]]\nprocessor = 0\nentries = [{ repeat = 1 }]", 5),
    (
        "[[script]]\nprocessor = 0\nentries = [{ repeat = 1, entries = [], times = 1 }]",
        4,
    ),
    (
        "[[script]]\nprocessor = 0\nentries = [{ repeat = 1, entries = [{ repeat = 1, entries = [] }] }]",
        6,
    ),
    ("[[script]]\nprocessor = 0\nentries = [1]", 6),
];

/// The first fault of scripts in short forms.
#[test]
fn short_forms(rt: HostRuntime) -> Result<(), Fail> {
    let alloc = rt.alloc();
    for (more, number) in SHORT {
        let text = format!(in alloc; "{FOUR}{more}")?;
        assert!(rt; equal(&rt, number_of(alloc, text.as_str().as_bytes()), *number));
    }
    Ok(())
}

/// Formats 1 and 2 know no short forms.
#[test]
fn no_short_forms(rt: HostRuntime) -> Result<(), Fail> {
    let alloc = rt.alloc();
    for (script, number) in [
        ("processors = [0]\nentries = []", 4),
        ("entries = []", 5),
        ("processor = 0\nentries = [\"sync add 0 1 2 step 1\"]", 8),
        ("processor = 0\nentries = [{ repeat = 1, entries = [] }]", 6),
    ] {
        for format in 1..3 {
            let text = format!(in alloc;
                "format = {format}\nk = 0\nhorizon = 0\n[[script]]\n{script}"
            )?;
            assert!(rt; equal(&rt, number_of(alloc, text.as_str().as_bytes()), number));
        }
    }
    Ok(())
}

/// A script in short forms is that of the entries that it stands for.
#[test]
fn expanded(rt: HostRuntime) -> Result<(), Fail> {
    let alloc = rt.alloc();
    let short =
        "[[script]]\nprocessors = \"1..2\"\nentries = [\"fence\", { repeat = 2, entries = [\"plain load 16380 7 3 step 3\", \"idle 5\"] }]
[[script]]\nprocessors = [3, 0]\nentries = [\"sync add 4 1 2 step 0\"]";
    let long = "script = [
{ processor = 1, entries = [\"fence\", \"plain load 16380 7\", \"plain load 16383 7\", \"plain load 2 7\", \"idle 5\", \"plain load 16380 7\", \"plain load 16383 7\", \"plain load 2 7\", \"idle 5\"] },
{ processor = 2, entries = [\"fence\", \"plain load 16380 7\", \"plain load 16383 7\", \"plain load 2 7\", \"idle 5\", \"plain load 16380 7\", \"plain load 16383 7\", \"plain load 2 7\", \"idle 5\"] },
{ processor = 0, entries = [\"sync add 4 1\", \"sync add 4 1\"] },
{ processor = 3, entries = [\"sync add 4 1\", \"sync add 4 1\"] },
]";
    let short = format!(in alloc; "{FOUR}{short}")?;
    let long = format!(in alloc; "{FOUR}{long}")?;
    let short = read_project(alloc, short.as_str().as_bytes())?;
    let long = read_project(alloc, long.as_str().as_bytes())?;
    assert!(rt; short.same(&long));
    Ok(())
}

/// What `traffic` asks for, but for its processors.
const DRAWN: &str = "hot = 1\nword = 0\npage = 1\nreferences = 2\nseed = 3";

/// Items of `traffic` before what else they need, and the fault that each is; 0 where it is none.
const TRAFFIC: &[(&str, u8)] = &[
    ("[[traffic]]\nprocessors = \"all\"\n", 0),
    (
        "[[traffic]]\nprocessor = 3\nnetwork = \"plain\"\nrate = 1\n",
        0,
    ),
    ("[[traffic]]\nprocessor = 3\nrate = 0.01\n", 0),
    ("[[traffic]]\nprocessor = 3\nrate = 1.0\n", 0),
    ("[[traffic]]\nprocessor = 3\nrate = 0.405\n", 7),
    ("[[traffic]]\nprocessor = 3\nrate = 0.0\n", 7),
    ("[[traffic]]\nprocessor = 3\nrate = 1.01\n", 7),
    ("[[traffic]]\nprocessor = 3\nrate = nan\n", 7),
    ("[[traffic]]\nprocessor = 3\nrate = 2\n", 7),
    ("[[traffic]]\nprocessor = 3\nrate = \"1\"\n", 6),
    ("[[traffic]]\nprocessor = 3\nnetwork = \"low\"\n", 6),
    ("[[traffic]]\nprocessor = 3\nnetwork = 1\n", 6),
    ("[[traffic]]\nprocessor = 4\n", 7),
    ("[[traffic]]\nprocessors = \"0..4\"\n", 7),
    ("[[traffic]]\nprocessor = 3\ncycles = 1\n", 4),
    ("[[traffic]]\nprocessor = 3\nprocessors = \"all\"\n", 4),
    ("[[traffic]]\n", 5),
    (
        "[[script]]\nprocessor = 1\nentries = []\n[[traffic]]\nprocessors = \"0..1\"\n",
        9,
    ),
    (
        "[[traffic]]\nprocessor = 3\n[[traffic]]\nprocessor = 1\n",
        5,
    ),
    ("[traffic]\nprocessor = 3\n", 6),
];

/// The numbers of `traffic`: a number is within its limits, or refused with 7.
const DRAWN_NUMBERS: &[(&str, u8)] = &[
    (
        "hot = 100\nword = 16383\npage = 63\nreferences = 2048\nseed = 4294967295",
        0,
    ),
    ("hot = 101\nword = 0\npage = 0\nreferences = 1\nseed = 0", 7),
    (
        "hot = 0\nword = 16384\npage = 0\nreferences = 1\nseed = 0",
        7,
    ),
    ("hot = 0\nword = 0\npage = 64\nreferences = 1\nseed = 0", 7),
    ("hot = 0\nword = 0\npage = 0\nreferences = 0\nseed = 0", 7),
    (
        "hot = 0\nword = 0\npage = 0\nreferences = 2049\nseed = 0",
        7,
    ),
    (
        "hot = 0\nword = 0\npage = 0\nreferences = 1\nseed = 4294967296",
        7,
    ),
    ("hot = 0\nword = 0\npage = 0\nreferences = 1", 5),
];

/// The first fault of `traffic`.
#[test]
fn traffic_faults(rt: HostRuntime) -> Result<(), Fail> {
    let alloc = rt.alloc();
    for (more, number) in TRAFFIC {
        let text = format!(in alloc; "{FOUR}{more}{DRAWN}")?;
        assert!(rt; equal(&rt, number_of(alloc, text.as_str().as_bytes()), *number));
    }
    for (numbers, number) in DRAWN_NUMBERS {
        let text = format!(in alloc; "{FOUR}[[traffic]]\nprocessor = 0\n{numbers}")?;
        assert!(rt; equal(&rt, number_of(alloc, text.as_str().as_bytes()), *number));
    }
    let usual = format!(in alloc; "{SMALL}[[traffic]]\nprocessor = 0\n{DRAWN}")?;
    assert!(rt; equal(&rt, number_of(alloc, usual.as_str().as_bytes()), 4));
    Ok(())
}

/// Traffic is the scripts that are drawn for it. The entries were drawn apart from this program.
#[test]
fn traffic_is_drawn(rt: HostRuntime) -> Result<(), Fail> {
    let alloc = rt.alloc();
    let short =
        "[[traffic]]\nprocessors = [0, 2]\nrate = 0.4\nhot = 30\nword = 7\npage = 2\nreferences = 6\nseed = 9
[[traffic]]\nprocessor = 1\nnetwork = \"plain\"\nhot = 0\nword = 0\npage = 63\nreferences = 3\nseed = 4294967295";
    let long = "script = [
{ processor = 0, entries = [\"sync load 753 0\", \"idle 1\", \"sync load 745 0\", \"sync load 658 0\", \"idle 5\", \"sync load 603 0\", \"idle 2\", \"sync load 612 0\", \"idle 2\", \"sync load 631 0\"] },
{ processor = 2, entries = [\"idle 2\", \"sync load 518 0\", \"sync load 561 0\", \"idle 8\", \"sync add 7 1\", \"sync add 7 1\", \"idle 1\", \"sync load 592 0\", \"idle 1\", \"sync load 702 0\"] },
{ processor = 1, entries = [\"plain load 16141 0\", \"plain load 16164 0\", \"plain load 16214 0\"] },
]";
    let short = format!(in alloc; "{FOUR}{short}")?;
    let long = format!(in alloc; "{FOUR}{long}")?;
    let short = read_project(alloc, short.as_str().as_bytes())?;
    let long = read_project(alloc, long.as_str().as_bytes())?;
    assert!(rt; short.same(&long));
    Ok(())
}

/// Where scripts in short forms are wrong, behind the three lines of a file of four processors.
const SHORT_PLACES: &[(&str, &str)] = &[
    (
        "[[script]]\nprocessors = \"0..4\"\nentries = []",
        "line 5, the first script, processors: 0..4 is not within 0..3",
    ),
    (
        "[[script]]\nprocessors = \"some\"\nentries = []",
        "line 5, the first script, processors: \"some\" is neither all nor, as 0..3, from one to another",
    ),
    (
        "[[script]]\nprocessors = [1, 2, 1]\nentries = []",
        "line 5, the first script, processors: 1 is given twice",
    ),
    (
        "[[script]]\nprocessor = 1\nprocessors = [2]\nentries = []",
        "line 6, script of processor 1 (the first), processors: no such key beside processor",
    ),
    (
        "[[script]]\nprocessor = 1\nentries = [\"fence\", { repeat = 5000, entries = [] }]",
        "line 6, script of processor 1 (the first), entry 1, repeat: 5000 is not 1 to 4096",
    ),
    (
        "[[script]]\nprocessor = 1\nentries = [\"fence\", { repeat = 2, entries = [\"snyc add 0 1\"] }]",
        "line 6, script of processor 1 (the first), entry 1, entry 0, \"snyc add 0 1\": no entry begins with \"snyc\"; is it sync?",
    ),
    (
        "[[script]]\nprocessor = 1\nentries = [\"plain load 0 0 1 step 16384\"]",
        "line 6, script of processor 1 (the first), entry 0, \"plain load 0 0 1 step 16384\": the step 16384 is not 0 to 16383",
    ),
    (
        "[[script]]\nprocessor = 1\nentries = [\"plain load 0 0 1 step\"]",
        "line 6, script of processor 1 (the first), entry 0, \"plain load 0 0 1 step\": a word is missing; it is plain OPERATION ADDRESS OPERAND [TIMES [step STEP]]",
    ),
    (
        "[[script]]\nprocessor = 1\nentries = [{ repeat = 4096, entries = [\"fence\", \"fence\"] }]",
        "line 6, script of processor 1 (the first), entries: more than 4096 of them",
    ),
    (
        "\n[[scripts]]\nprocessor = 1",
        "line 5, scripts: no such key; is it script?",
    ),
    (
        "[[page]]\nnumber = 1\namount = 0\nbase = 0\n[word]",
        "line 8, word: of type table where an array belongs",
    ),
    (
        "[[traffic]]\nprocessor = 1\nrate = 0.405",
        "line 6, traffic of processor 1 (the first), rate: not 0.01 to 1 in steps of 0.01",
    ),
    (
        "[[traffic]]\nprocessor = 1\nnetwork = \"snyc\"",
        "line 6, traffic of processor 1 (the first), network: \"snyc\" is no network; is it sync?",
    ),
    (
        "[[traffic]]\nprocessor = 1\nrates = 0.4",
        "line 6, traffic of processor 1 (the first), rates: no such key; is it rate?",
    ),
    (
        "[[script]]\nprocessor = 1\nentries = []\n[[traffic]]\nprocessors = \"all\"\nhot = 4",
        "line 8, the first traffic, processors: 1 is given twice",
    ),
    (
        "[[traffic]]\nprocessors = \"all\"\nhot = 4\nword = 0\npage = 64",
        "line 8, the first traffic, page: 64 is not 0 to 63",
    ),
];

/// The line for people tells which key or entry of a script in short forms is wrong.
#[test]
fn short_places(rt: HostRuntime) -> Result<(), Fail> {
    let alloc = rt.alloc();
    for (more, place) in SHORT_PLACES {
        let text = format!(in alloc; "{FOUR}{more}")?;
        assert!(rt;
            equal(
                &rt,
                place_of(alloc, text.as_str().as_bytes())?.as_str(),
                place
            )
        );
    }
    Ok(())
}
