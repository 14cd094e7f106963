//! What a session of the shell says of its project, and how it ends.
use bench_core::Bench;
use bench_shell::Writing;
use expect::equal;
use lab_shell::{Manner, Voice};
use lab_tasks::{OutFile, Shelf, hold, session_voice};
use project_file::read_project;
use std::alloc::Global;
use std::test::Fail;
use std::thread::Threads;

/// Two processors: the first refers three times to word 5 and once to word 260, the second five times to word 260 at most.
const TWO: &[u8] = b"format = 2
k = 1
horizon = 8
window = 2

[[script]]
processor = 0
entries = [\"plain add 5 1 3\", \"plain load 260 0\", \"fence\"]

[[script]]
processor = 1
entries = [\"until plain load 260 0 9 5\"]
";

/// The same behind `cut 1 0` and `window 1`, as it is written.
const CUT: &[u8] = b"format = 2
k = 1
horizon = 8

[[script]]
processor = 0
entries = [\"plain add 5 1 3\", \"plain load 260 0\", \"fence\"]
";

/// Takes one file alone.
struct Drawer {
    name: &'static str,
    bytes: &'static [u8],
}

impl Shelf for Drawer {
    ghost saves = { λ _ _ _ _. Unit {0} };

    fn save(&self, file: &OutFile) -> bool {
        file.name.as_str() == self.name && file.bytes.as_slice() == self.bytes
    }
}

const DRAWER: Drawer = Drawer {
    name: "cut.toml",
    bytes: CUT,
};

fn bench(alloc: Global) -> Result<Box<Bench>, Fail> {
    let Ok(project) = read_project(alloc, TWO) else {
        return Err(Fail::from("a project"));
    };
    let bench = Bench::new(alloc, project, 0).ok().ok_or("no memory")?;
    Ok(Box::new(alloc, bench)?)
}

/// The status of a session, and what it writes.
fn held<R: AllocGlobal + Threads + Sync>(
    rt: &R,
    manner: Manner,
    input: &[u8],
) -> Result<(Option<u8>, Vec<u8>), Fail> {
    let mut desk = bench(rt.alloc())?;
    let mut reader = input;
    let mut written = Vec::new(rt.alloc());
    let status = {
        let mut sink = Writing::new(&mut written);
        hold(
            rt,
            rt.alloc(),
            manner,
            &DRAWER,
            &mut reader,
            &mut sink,
            &mut *desk,
        )
    };
    Ok((status.ok(), written))
}

const SESSION: &[u8] =
    b"script 0\nscript 1\nscript 2\nsave cut.toml\ncut 1 0\nwindow 1\nsave cut.toml\nshow\nscript x\nsave\n";

const PLAIN: Manner = Manner {
    voice: Voice::Plain,
    strict: false,
};

const PLAIN_ANSWERS: &str = "\
entry 0 0 plain add 5 1 3
entry 0 1 plain load 260 0
entry 0 2 fence
entry 1 0 until plain load 260 0 9 5
bad 1
bad file
ok 1
ok 2
saved cut.toml
2 processors, 2 modules, 1 stages; cycles 0 to 8; at most 1 unanswered
places: low-forward 4, low-reverse 4, comb-forward 4, comb-reverse 8, module 4, wait 4
combining: off
scripts: 1, with 3 entries, 4 references at most
hot words, by processors and references: 5 (1, 3), 260 (1, 1)
hot modules, by processors and references: 1 (1, 3), 0 (1, 1)
bad command
bad command
";

#[test]
fn a_shell_says_what_its_project_is(rt: HostRuntime) -> Result<(), Fail> {
    let (status, written) = held(&rt, PLAIN, SESSION)?;
    assert!(rt; equal(&rt, status, Some(0)));
    assert!(rt; equal(&rt, written.as_slice(), PLAIN_ANSWERS.as_bytes()));
    Ok(())
}

const PEOPLE: Manner = Manner {
    voice: Voice::People,
    strict: true,
};

const PEOPLE_ANSWERS: [(&[u8], &str); 3] = [
    (
        b"script 2\nshow\n",
        "> bad 1: there is no such processor, module, component or stage\n",
    ),
    (
        b"window 1\nsave cut.toml\nshow\n",
        "> ok 1\n> bad file: it can't be written\n",
    ),
    (
        b"script p0\nshow\n",
        "> bad command: there is no such command; help lists them\n",
    ),
];

#[test]
fn a_strict_shell_ends_at_a_refusal(rt: HostRuntime) -> Result<(), Fail> {
    for (input, answers) in PEOPLE_ANSWERS {
        let (status, written) = held(&rt, PEOPLE, input)?;
        assert!(rt; equal(&rt, status, Some(1)));
        assert!(rt; equal(&rt, written.as_slice(), answers.as_bytes()));
    }
    Ok(())
}

const REPORTS: &[u8] =
    b"done\ntrace 0 1\nfull\norder all\nlatency --processor 0 --to 3\nlatency --from 9\ntrace 2 0\nlatency --to x\ndone \xff\n";

const REPORT_ANSWERS: &str = "\
last_reply of 2: earliest 6 latest 7 spread 1
script_end of 0: earliest none latest none spread none

processor,last_reply,script_end
0,7,
1,6,
p0 2, l0.0 3, m1 4-5, l0.0 6, p0 7
full 0 of 17

cycle,component,queue
number,reference,word,issued,served,answered,old_word
1,1.0,260,1,4,6,0
2,0.0,5,1,4,6,0
3,0.1,5,2,5,7,1
answered 2
unanswered 0
mean 5.00
least 5
p50 5
p90 5
p99 5
greatest 5

latency,references
5,2
bad 2
bad 1
bad command
bad command
";

/// A word behind `--of` goes on to the next one that begins with a dash.
const GAUGES: &[u8] =
    b"busy --to 5\nseries --of served m1 --of queue  l0.0 f1 --from 2 --to 7 --bin 3\nseries --of served m2\nseries --of waiting --csv F\nbusy --from 9\nseries --of waiting --from 5 --to 4\n";

const GAUGE_ANSWERS: &str = "\
cycles 0 to 5

gauge,sum,percent
busy low 0,3,25.00
busy comb 0,0,0.00
served m0,1,16.67
served m1,2,33.33
cycle,served m1,queue l0.0 f1
2,1,2
5,1,1
bad command
bad command
bad 2
bad 5
";

#[test]
fn a_shell_reads_gauges_of_several_words(rt: HostRuntime) -> Result<(), Fail> {
    let (status, written) = held(&rt, PLAIN, GAUGES)?;
    assert!(rt; equal(&rt, status, Some(0)));
    assert!(rt; equal(&rt, written.as_slice(), GAUGE_ANSWERS.as_bytes()));
    Ok(())
}

#[test]
fn a_shell_reports_a_run(rt: HostRuntime) -> Result<(), Fail> {
    let (status, written) = held(&rt, PLAIN, REPORTS)?;
    assert!(rt; equal(&rt, status, Some(0)));
    assert!(rt; equal(&rt, written.as_slice(), REPORT_ANSWERS.as_bytes()));
    Ok(())
}

const JSON: Manner = Manner {
    voice: Voice::Json,
    strict: false,
};

/// Each kind of question, two edits that are refused, and requests.
const ASKED: &[u8] = b"\
window 9
reply 0 0
reply 0 2
reply 0 3
state l0.0 3
memory 5 8
counter answered all 0 8
profile low 0
tree low 1
level low 1 8
depth low-forward 2
tree low 1
level low 1 2
bound 1 4 8
place 260
order 260
order 16384
cut 0..1 0
undo
script 1
save cut.toml
trace 0 0
";

const OBJECTS: &str = "\
{\"refused\":10,\"why\":\"a window is 1 to 8\"}
{\"ok\":0,\"cycle\":6,\"word\":0}
{\"ok\":0,\"cycle\":null,\"word\":null}
{\"ok\":0,\"cycle\":null,\"word\":null}
{\"ok\":0,\"state\":\"low f0 [] f1 [0.1>1:2=add:1] turn 0 1 r0 [] r1 [] rturn 0 0\"}
{\"ok\":0,\"word\":2}
{\"ok\":0,\"count\":3}
{\"ok\":0,\"profile\":[12,6,0,0,0,0,0,0,0,0,0,0,0,0,0,0,0]}
{\"ok\":0,\"first\":[null]}
{\"ok\":0,\"level\":0}
{\"ok\":1}
{\"ok\":1,\"first\":[2]}
{\"ok\":1,\"level\":1}
{\"ok\":1,\"numerator\":4,\"denominator\":11}
{\"ok\":1,\"module\":0,\"row\":258}
{\"ok\":1,\"order\":[{\"processor\":1,\"reference\":0}]}
{\"bad\":3,\"why\":\"an address is below 16384\"}
{\"answers\":[{\"ok\":2},{\"ok\":3}]}
{\"answers\":[{\"ok\":4}]}
{\"text\":\"entry 1 0 until plain load 260 0 9 5\\n\"}
{\"bad\":\"file\",\"why\":\"it can't be written\"}
{\"text\":\"none\\n\"}
";

#[test]
fn a_shell_answers_a_program(rt: HostRuntime) -> Result<(), Fail> {
    let (status, written) = held(&rt, JSON, ASKED)?;
    assert!(rt; equal(&rt, status, Some(0)));
    assert!(rt; equal(&rt, written.as_slice(), OBJECTS.as_bytes()));
    Ok(())
}

#[test]
fn a_program_is_asked_for_before_a_terminal(rt: HostRuntime) {
    assert!(rt; equal(&rt, session_voice(true, true), Voice::Json));
    assert!(rt; equal(&rt, session_voice(true, false), Voice::Json));
    assert!(rt; equal(&rt, session_voice(false, true), Voice::People));
    assert!(rt; equal(&rt, session_voice(false, false), Voice::Plain));
}
