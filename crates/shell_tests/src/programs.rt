//! Command lines that are taken and refused, and how the program begins and ends.
use bench_shell::{Reading, RunFault, Writing};
use command_line::{
    CommandLine, Disk, End, Folder, MOST_BYTES, Stop, arguments, ended, opening, read_bytes,
    refusal, serve_words, status,
};
use expect::equal;
use project_file::ProjectFault;
use std::alloc::Global;
use std::cell::Cell;
use std::fmt::Display;
use std::io;
use std::io::{Eprint, Error, ErrorKind, Print};
use std::test::Fail;
use worker_sessions::Hall;

#[test]
fn command_lines_are_taken(rt: HostRuntime) -> Result<(), Fail> {
    let taken: [(&[&str], Option<&str>, u32); 8] = [
        (&[], None, 0),
        (&["p.toml"], Some("p.toml"), 0),
        (&["--workers", "0"], None, 0),
        (&["--workers=16"], None, 16),
        (&["m.toml", "--workers", "4"], Some("m.toml"), 4),
        (&["--workers", "4", "p.toml"], Some("p.toml"), 4),
        (&["--", "--workers"], Some("--workers"), 0),
        (&["-"], Some("-"), 0),
    ];
    for (words, file, workers) in taken {
        assert!(rt; arguments(rt.alloc(), words)? == CommandLine { file, workers });
    }
    Ok(())
}

#[test]
fn command_lines_are_refused(rt: HostRuntime) {
    let refused: [(&[&str], i32); 12] = [
        (&["--workers", "17"], 2),
        (&["--workers", "-1"], 2),
        (&["--workers=-1"], 2),
        (&["--workers", "two"], 2),
        (&["--workers"], 2),
        (&["--workers", "1", "--workers", "1"], 2),
        (&["a.toml", "b.toml"], 2),
        (&["--unknown"], 2),
        (&["--help"], 0),
        (&["-h"], 0),
        (&["--version"], 0),
        (&["-V"], 0),
    ];
    for (words, status) in refused {
        match arguments(rt.alloc(), words) {
            Ok(_) => assert!(rt; false),
            Err(error) => assert!(rt; equal(&rt, error.exit_code(), status)),
        }
    }
}

fn text_of(alloc: Global, words: &[&str]) -> Result<String, Fail> {
    let error = arguments(alloc, words).err().ok_or("a text")?;
    Ok(format!(in alloc; "{error}")?)
}

#[test]
fn the_version_is_told(rt: HostRuntime) -> Result<(), Fail> {
    assert!(rt;
        equal(
            &rt,
            text_of(rt.alloc(), &["--version"])?.as_str(),
            "hotspot 1.0.0\n"
        )
    );
    Ok(())
}

// The whole text, so that no number of a fault stands beside another's meaning.
const HELP: &str = "\
A workbench for hot-spot experiments on a machine with interleaved memory and a combining network

Usage: hotspot [OPTIONS] [FILE]

Arguments:
  [FILE]
          The project file; without it a machine of one processor and one module is opened

Options:
      --workers <N>
          How many workers compute beside the shell, each in a thread of its own, from 0 to 16
          
          [default: 0]

  -h, --help
          Print help (see a summary with '-h')

  -V, --version
          Print version

One command a line is read from standard input, and one line is written for each to standard output.

Edits, answered `ok V` with the new version V, or `refused N`:
  entry P I ENTRY           entry I of processor P's script; at the script's length it is appended
  cut P L                   keep the first L entries of P's script
  word A V                  the word of address A before cycle 0
  page G AMOUNT BASE        spread page G over 2^AMOUNT modules from BASE on
  depth Q D                 places of the queues Q: low-forward, low-reverse, comb-forward, comb-reverse, module
  wait D                    places of the wait buffers of combining switches
  combine S on|off          whether the switches of stage S combine
  window W                  how many references of a processor may be unanswered
  horizon H                 the last cycle that is simulated
An ENTRY is `sync KIND A V [T]` or `plain KIND A V [T]` (a reference over the combining or the low network, T times),
`until sync KIND A V W [T]` or `until plain KIND A V W [T]` (again until a reply has the word W, T times at most),
`fence` or `idle T`; KIND is load, add, and, or, min, max, store or store-if-zero.

Queries, answered `ok V BODY` by the project as it then stands, or `bad N`:
  reply P I                 when P received the reply to its reference I, and which word
  state C T                 the state of a component (p0, m0, l1.0, c1.0) at cycle T
  memory A T                the word of address A at cycle T
  counter NAME WHO T0 T1    NAME issued, answered, served, combined or waiting; WHO a component or all
  profile NET S             how often the queues of stage S of low or comb had each length
  tree NET M                the first cycle of each level of saturation towards module M
  level NET M T             that level at cycle T
  bound A B P               the bound on the rate of each of P processors where A of B references are hot
  place A                   the module and the row of address A
  order A                   a serial order of the references to address A

refused N                              bad N
   1  65,535 edits were made              1  no such processor, module, component or stage
   2  no such processor                   2  a cycle past the horizon
   3  no such entry of the script         3  no such address
   4  a script of 256 entries             4  no reference of that number was issued
   5  no such address                     5  an empty window of cycles
   6  no such page                        6  no such fraction
   7  a page can't be spread so
   8  no such stage                    A line that is no command is answered `bad command`, one over 4,096 bytes
   9  a depth out of its limits        `bad line`, one that the end of the input cuts `bad cut`.
  10  a window not within 1 to 8
  11  times not within 1 to 1,000
  12  a horizon above 2,000

A project file that is refused ends the program with status 4, `hotspot: project refused: N`, and a line that says where:
   1  longer than 4,194,304 bytes          6  a value of another type
   2  not UTF-8, or not TOML               7  a number out of its range
   3  `format` is missing, or not 1 to 3   8  a text that is no script entry
   4  an unknown key                       9  a page, address or processor given twice
   5  a missing key                       10  no memory
Of format 3 a file has up to 67,108,864 bytes, a script up to 4,096 entries, and a horizon is up to 20,000.

Status: 0 the input ended; 2 the command line; 3 FILE can't be read; 4 the project; 5 a fault of reading, writing, memory
or clock; 6 no memory at the start. docs/COMMANDS.md says more of commands, docs/PROJECT_FILE.md of project files.
";

const SHORT_HELP: &str = "\
A workbench for hot-spot experiments on a machine with interleaved memory and a combining network

Usage: hotspot [OPTIONS] [FILE]

Arguments:
  [FILE]  The project file; without it a machine of one processor and one module is opened

Options:
      --workers <N>  How many workers compute beside the shell, each in a thread of its own, from 0 to 16 [default: 0]
  -h, --help         Print help (see more with '--help')
  -V, --version      Print version

One command a line is read from standard input, and one line is written for each to standard output.

Edits:    entry, cut, word, page, depth, wait, combine, window, horizon
Queries:  reply, state, memory, counter, profile, tree, level, bound, place, order

`--help` lists them with their arguments, and the numbers of refusals.
";

#[test]
fn the_help_is_told(rt: HostRuntime) -> Result<(), Fail> {
    assert!(rt; equal(&rt, text_of(rt.alloc(), &["--help"])?.as_str(), HELP));
    assert!(rt; equal(&rt, text_of(rt.alloc(), &["-h"])?.as_str(), SHORT_HELP));
    Ok(())
}

#[test]
fn ends_have_statuses_and_lines(rt: HostRuntime) -> Result<(), Fail> {
    let ends = [
        (End::Ended, 0, ""),
        (End::Words, 2, ""),
        (End::NoFile("a b.toml"), 3, "hotspot: cannot read a b.toml"),
        (
            End::Project(ProjectFault::Memory),
            4,
            "hotspot: project refused: 10",
        ),
        (End::Served(RunFault::Read), 5, "hotspot: read failed"),
        (End::Served(RunFault::Write), 5, "hotspot: write failed"),
        (
            End::Served(RunFault::OtherEditor),
            5,
            "hotspot: other editor",
        ),
        (End::Served(RunFault::Memory), 5, "hotspot: no memory"),
        (End::Served(RunFault::Clock), 5, "hotspot: clock spent"),
        (End::CannotStart, 6, "hotspot: cannot start"),
    ];
    for (end, number, line) in ends {
        assert!(rt; equal(&rt, status(&end), number));
        assert!(rt; equal(&rt, format!(in rt.alloc(); "{end}")?.as_str(), line));
    }
    Ok(())
}

// Help is no fault; a flag that isn't known is one of the words.
#[test]
fn refusals_end_the_program(rt: HostRuntime) -> Result<(), Fail> {
    let refused: [(&[&str], End<'_>); 3] = [
        (&["--help"], End::Ended),
        (&["--version"], End::Ended),
        (&["--unknown"], End::Words),
    ];
    for (words, end) in refused {
        let error = arguments(rt.alloc(), words).err().ok_or("a refusal")?;
        assert!(rt; refusal(&error) == end);
    }
    Ok(())
}

// A file may have 67,108,864 bytes; one more is read, and no other.
#[test]
fn a_file_is_read_or_not(rt: HostRuntime) -> Result<(), Fail> {
    assert!(rt; equal(&rt, MOST_BYTES, 67_108_865));
    for (length, read) in [
        (67_108_864, 67_108_864),
        (67_108_865, 67_108_865),
        (67_108_866, 67_108_865),
    ] {
        let bytes = vec![in rt.alloc(); b'#'; length]?;
        assert!(rt; equal(&rt, read_bytes(rt.alloc(), bytes.as_slice())?.len(), read));
    }
    assert!(rt;
        Disk::new(&rt)
            .read("no such folder/no such file.toml")
            .is_err()
    );
    Ok(())
}

/// Two files: `one.toml`, a project of two processors, and the empty ` empty.toml `.
#[derive(Drop)]
struct TwoFiles {
    alloc: Global,
}

impl Folder for TwoFiles {
    ghost gives = { λ _ _ _. Unit {0} };

    fn read(&self, name: &str) -> io::Result<Vec<u8>> {
        let mut bytes = Vec::new(self.alloc);
        match name {
            "one.toml" => bytes.extend_from_slice(b"format = 1\nk = 1\nhorizon = 9\n")?,
            " empty.toml " => {}
            _ => return Err(Error::from(ErrorKind::NotFound)),
        }
        Ok(bytes)
    }
}

/// How the program ends on these words, and what it writes to one line.
fn served<T: AllocGlobal + Hall>(rt: &T, words: &[&str]) -> Result<String, Fail> {
    let mut reader = b"state p1 0\n".as_slice();
    let mut writer = Vec::new(rt.alloc());
    let files = TwoFiles { alloc: rt.alloc() };
    let mut source = Reading::within(&mut reader, u32::MAX);
    let mut sink = Writing::new(&mut writer);
    let stop = serve_words(rt, rt.alloc(), words, &files, &mut source, &mut sink);
    let end = stop.end();
    Ok(format!(in rt.alloc(); "{}{} {end}", String::from_utf8(writer)?, status(&end))?)
}

/// What the project of `one.toml` answers.
const ONE: &str = "ok 0 proc index 0 spent 0 issued 0 pending 0 out - got - - sent 0\n0 ";

#[test]
fn the_program_ends_as_its_words_say(rt: HostRuntime) -> Result<(), Fail> {
    let ends: [(&[&str], &str); 9] = [
        (&[], "bad 1\n0 "),
        (&["one.toml"], ONE),
        (&["--help"], "0 "),
        (&["one.toml", "two.toml"], "2 "),
        (&["one.toml", "--workers", "1"], ONE),
        (&["one.toml", "--workers", "16"], ONE),
        (&["two.toml"], "3 hotspot: cannot read two.toml"),
        (&["one.toml "], "3 hotspot: cannot read one.toml "),
        (&[" empty.toml "], "4 hotspot: project refused: 3"),
    ];
    for (words, end) in ends {
        assert!(rt; equal(&rt, served(&rt, words)?.as_str(), end));
    }
    Ok(())
}

#[test]
fn a_beginning_has_its_workers_and_a_refusal_its_place(rt: HostRuntime) {
    let files = TwoFiles { alloc: rt.alloc() };
    let opened = opening(rt.alloc(), &["one.toml"], &files);
    assert!(rt; opened.is_ok_and(|beginning| beginning.workers == 0));
    match opening(rt.alloc(), &[" empty.toml "], &files) {
        Err(Stop::Refused(ProjectFault::Format, Some(place))) => {
            assert!(rt; equal(&rt, place.as_str(), "format: missing"));
        }
        _ => assert!(rt; false),
    }
}

/// Keeps what is printed on standard error.
#[derive(Drop)]
struct Listening {
    alloc: Global,
    heard: Cell<String>,
}

impl Print for Listening {
    fn print<D: Display + Drop>(&self, _value: D) -> io::Result<()> {
        Ok(())
    }

    fn println<D: Display + Drop>(&self, _value: D) -> io::Result<()> {
        Ok(())
    }

    fn write_all(&self, _bytes: &[u8]) -> io::Result<()> {
        Ok(())
    }
}

impl Eprint for Listening {
    fn eprint<D: Display + Drop>(&self, value: D) -> io::Result<()> {
        let heard = self.heard.replace(String::new(self.alloc));
        self.heard.set(format!(in self.alloc; "{heard}{value}")?);
        Ok(())
    }

    fn eprintln<D: Display + Drop>(&self, value: D) -> io::Result<()> {
        let heard = self.heard.replace(String::new(self.alloc));
        self.heard.set(format!(in self.alloc; "{heard}{value}\n")?);
        Ok(())
    }
}

/// With which status the program ends on words with which it doesn't begin, and what it prints then.
fn heard(alloc: Global, words: &[&str]) -> Result<String, Fail> {
    let files = TwoFiles { alloc };
    let stop = opening(alloc, words, &files).err().ok_or("a stop")?;
    let host = Listening {
        alloc,
        heard: Cell::new(String::new(alloc)),
    };
    let status = ended(&host, &stop);
    Ok(format!(in alloc; "{status:?} {}", host.heard.into_inner())?)
}

// What `clap` says of the words, the end's line, and the place where a file is wrong.
#[test]
fn an_end_is_printed_with_its_place(rt: HostRuntime) -> Result<(), Fail> {
    let says = text_of(rt.alloc(), &["--unknown"])?;
    let refused = format!(in rt.alloc(); "ExitCode(unix_exit_status(2)) {says}")?;
    let ends: [(&[&str], &str); 3] = [
        (&["--unknown"], refused.as_str()),
        (
            &["two.toml"],
            "ExitCode(unix_exit_status(3)) hotspot: cannot read two.toml\n",
        ),
        (
            &[" empty.toml "],
            "ExitCode(unix_exit_status(4)) hotspot: project refused: 3\nhotspot: format: missing\n",
        ),
    ];
    for (words, want) in ends {
        assert!(rt; equal(&rt, heard(rt.alloc(), words)?.as_str(), want));
    }
    Ok(())
}
