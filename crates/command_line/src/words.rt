//! The words behind the program's name.
ghost use Rattle.std.specs.Prelude.{◌≡◌, ◌≤◌, IfOk, false, option_map};
ghost use Rattle.clap.specs.Walk.{texts};
ghost use Rattle.clap.specs.Words.{FailsBy, IsPlainArg, fault_of, matches_of, rule_of};
ghost use Rattle.command_line.specs.Arguments.{hotspot, file_in, file_rule, IsNumberHeld, IsHotspot, IsWorkers};

use clap::{Arg, ArgAction, Command, Error, value_parser};
use std::alloc::{AllocError, Global};
use word_ops::kinds_told;

/// What the program is told by its words.
#[derive(Clone, Copy, PartialEq, Eq, Debug)]
pub struct CommandLine<'a> {
    /// The project file, as it was written; without it the built-in project is opened.
    pub file: Option<&'a str>,
    /// How many workers run beside the shell, from 0 to 16.
    pub workers: u32,
}

/// The lines under the options in the short help.
const SHORT_HELP: &str = "\
One command a line is read from standard input, and one line is written for each to standard output.

Edits:    entry, cut, word, page, depth, wait, combine, window, horizon
Queries:  reply, state, memory, counter, profile, tree, level, bound, place, order

`--help` lists them with their arguments, and the numbers of refusals.";

/// The lines under the options in the whole help.
const HELP: &str = kinds_told!(
    "\
One command a line is read from standard input, and one line is written for each to standard output.

Edits, answered `ok V` with the new version V, or `refused N`:
  entry P I ENTRY           entry I of processor P's script; at the script's length it is appended
  cut P L                   keep the first L entries of P's script
  word A V                  the word of address A before cycle 0
  page G AMOUNT BASE        spread page G over 2^AMOUNT modules from BASE on
  depth Q D                 places of the queues Q: low-forward, low-reverse, comb-forward, comb-reverse, module
  wait D                    places of the wait buffers of combining switches
  combine S on|off          whether the switches of stage S combine
  window W                  how many references of a processor may be unanswered
  horizon H                 the last cycle that is simulated
An ENTRY is `sync KIND A V [T]` or `plain KIND A V [T]` (a reference over the combining or the low network, T times),
`until sync KIND A V W [T]` or `until plain KIND A V W [T]` (again until a reply has the word W, T times at most),
`fence` or `idle T`; KIND is ",
    ".

Queries, answered `ok V BODY` by the project as it then stands, or `bad N`:
  reply P I                 when P received the reply to its reference I, and which word
  state C T                 the state of a component (p0, m0, l1.0, c1.0) at cycle T
  memory A T                the word of address A at cycle T
  counter NAME WHO T0 T1    NAME issued, answered, served, combined or waiting; WHO a component or all
  profile NET S             how often the queues of stage S of low or comb had each length
  tree NET M                the first cycle of each level of saturation towards module M
  level NET M T             that level at cycle T
  bound A B P               the bound on the rate of each of P processors where A of B references are hot
  place A                   the module and the row of address A
  order A                   a serial order of the references to address A

refused N                              bad N
   1  65,535 edits were made              1  no such processor, module, component or stage
   2  no such processor                   2  a cycle past the horizon
   3  no such entry of the script         3  no such address
   4  a script of 256 entries             4  no reference of that number was issued
   5  no such address                     5  an empty window of cycles
   6  no such page                        6  no such fraction
   7  a page can't be spread so
   8  no such stage                    A line that is no command is answered `bad command`, one over 4,096 bytes
   9  a depth out of its limits        `bad line`, one that the end of the input cuts `bad cut`.
  10  a window not within 1 to 8
  11  times not within 1 to 1,000
  12  a horizon above 2,000

A project file that is refused ends the program with status 4, `hotspot: project refused: N`, and a line that says where:
   1  longer than 4,194,304 bytes          6  a value of another type
   2  not UTF-8, or not TOML               7  a number out of its range
   3  `format` is missing, or not 1 to 3   8  a text that is no script entry
   4  an unknown key                       9  a page, address or processor given twice
   5  a missing key                       10  no memory
Of format 3 a file has up to 67,108,864 bytes, a script up to 4,096 entries, and a horizon is up to 20,000.

Status: 0 the input ended; 2 the command line; 3 FILE can't be read; 4 the project; 5 a fault of reading, writing, memory
or clock; 6 no memory at the start. docs/COMMANDS.md says more of commands, docs/PROJECT_FILE.md of project files."
);

fn file_argument<'a>(alloc: Global) -> Arg<'a>
    ensures rule { rule_of result ≡ file_rule }
    ensures plain { IsPlainArg result }
    ensures global { result.global ≡ false }
{
    Arg::new(alloc, "FILE").help(
        "The project file; without it a machine of one processor and one module is opened",
    )
}

fn workers_argument<'a>(alloc: Global) -> Arg<'a>
    ensures is { IsWorkers result }
    ensures plain { IsPlainArg result }
    ensures global { result.global ≡ false }
{
    Arg::new(alloc, "workers")
        .long("workers")
        .value_name("N")
        .action(ArgAction::Set)
        .default_value("0")
        .value_parser(value_parser!(u8).range(0..=16))
        .help(
            "How many workers compute beside the shell, each in a thread of its own, from 0 to 16",
        )
}

fn hotspot_command<'a>(alloc: Global) -> Result<Command<'a>, AllocError>
    ensures { IfOk result IsHotspot }
{
    let described = Command::new(alloc, "hotspot")
        .no_binary_name(true)
        .version("1.0.0")
        .about(
            "A workbench for hot-spot experiments on a machine with interleaved memory and a combining network",
        )
        .after_help(SHORT_HELP)
        .after_long_help(HELP);
    let with_file = described.arg(file_argument(alloc))?;
    let whole = with_file.arg(workers_argument(alloc))?;
    Ok(whole)
}

/// Reads the words behind the program's name.
///
/// # Errors
///
/// Where the words are no command line of the program, or ask for help or the version, or a growth was refused. The
/// error's text is for the user, and its `exit_code` is 0 where it was asked for.
pub fn arguments<'a>(alloc: Global, words: &'a [&'a str]) -> Result<CommandLine<'a>, Error>
    ensures file { IfOk result (λ a. option_map (λ name. name.now) a.file ≡ file_in (texts words.entry.now)) }
    ensures workers { IfOk result (λ a. IsNumberHeld (matches_of hotspot (texts words.entry.now)) a.workers) }
    ensures most { IfOk result (λ a. a.workers ≤ 16) }
    ensures refused { FailsBy (fault_of hotspot (texts words.entry.now)) result }
{
    let command = match hotspot_command(alloc) {
        Ok(command) => command,
        Err(fault) => return Err(Error::from(fault)),
    };
    let matches = match command.try_get_matches_from(words) {
        Ok(matches) => matches,
        Err(fault) => return Err(fault),
    };
    let workers = matches.get_one::<u8>("workers").unwrap_or(0);
    Ok(CommandLine {
        file: matches.get_str("FILE"),
        workers: u32::from(workers),
    })
}
