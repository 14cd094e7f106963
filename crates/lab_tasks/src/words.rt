//! The words behind the program's name.
ghost use Rattle.std.specs.Prelude.{◌≡◌, [], codes, IfNone, IfOk, IfSome, Some, false, map};
ghost use Rattle.std.specs.Option.{option_map_or};
ghost use Rattle.clap.specs.Matches.{matched_of, raw_values};
ghost use Rattle.clap.specs.Walk.{texts};
ghost use Rattle.clap.specs.Words.{FailsBy, fault_of, first_of, found_of, new_app, rows_of, rule_of, subcommand_of};
ghost use Rattle.lab_tasks.specs.CommandLine.{any_number_rule, bare, busy_task, check_task, convert_task, delays_task, done_task, file_rule, flag_rule, full_task, kept_rules, lab, load_task, map_task, latency_task, measured_task, option_rule, optional_rule, order_task, other_tasks, page_task, position_rule, rates_task, reports, series_task, several_rule, shell_task, sweep_task, trace_task, drawn_rules, HasAll, HasMore, HasTask, IsApp, IsLab, IsNoTask, IsNoneOf, IsTask};
ghost use Rattle.lab_tasks.specs.Words.{file_at, is_given, text_of, texts_at, AreBusyWords, AreConvertWords, AreCurveWords, AreDelayWords, AreLatencyWords, AreLoadWords, AreMapWords, AreOrderWords, AreSeriesWords, AreShellWords, AreSweepWords, AreTraceWords, AsksFor};

use crate::busy::BusyWords;
use crate::convert::ConvertWords;
use crate::latency::LatencyWords;
use crate::order::OrderWords;
use crate::series::SeriesWords;
use crate::shell::ShellWords;
use crate::trace::TraceWords;
use clap::{Arg, ArgAction, ArgMatches, Command, Error};
use std::alloc::{AllocError, Global};

/// What `map` is told, as it was written.
#[derive(Clone, Copy)]
pub struct MapWords<'a> {
    pub file: &'a str,
    pub net: Option<&'a str>,
    pub dir: Option<&'a str>,
    pub queues: Option<&'a str>,
    pub module: Option<&'a str>,
    pub from: Option<&'a str>,
    pub to: Option<&'a str>,
    pub out: Option<&'a str>,
}

/// What `map` is told where it compares two files.
#[derive(Clone, Copy)]
pub struct CompareWords<'a> {
    pub map: MapWords<'a>,
    pub other: &'a str,
}

/// What `rates` and `delays` are told.
#[derive(Clone, Copy)]
pub struct CurveWords<'a> {
    pub k: Option<&'a str>,
    pub hot: Option<&'a str>,
    pub cycles: Option<&'a str>,
    pub seed: Option<&'a str>,
    /// Of `rates` alone.
    pub seeds: Option<&'a str>,
    pub of: Option<&'a str>,
    pub csv: Option<&'a str>,
    pub out: Option<&'a str>,
    pub keep: Option<&'a str>,
}

/// What `delays` is told.
#[derive(Clone, Copy)]
pub struct DelayWords<'a> {
    /// What `rates` is told too.
    pub curves: CurveWords<'a>,
    /// The file whose latencies are drawn in the place of what is measured, where one is named, and of which references.
    pub file: Option<&'a str>,
    pub latency: LatencyWords<'a>,
}

/// What `load` is told.
#[derive(Clone, Copy)]
pub struct LoadWords<'a> {
    /// What `rates` is told too, but for what is drawn.
    pub curves: CurveWords<'a>,
    pub rate: Option<&'a str>,
    pub step: Option<&'a str>,
}

/// What `sweep` is told.
#[derive(Drop)]
pub struct SweepWords<'a> {
    pub file: &'a str,
    pub setups: Vec<&'a str>,
    pub depths: Vec<&'a str>,
    pub edits: Vec<&'a str>,
    pub zip: bool,
    pub asks: Vec<&'a str>,
    pub csv: Option<&'a str>,
    pub numbers: bool,
    pub plot: Option<&'a str>,
    pub x: Option<&'a str>,
    pub ys: Vec<&'a str>,
}

/// What the program is asked for.
#[derive(Drop)]
pub enum Asked<'a> {
    Map(MapWords<'a>),
    Compare(CompareWords<'a>),
    Order(OrderWords<'a>),
    Latency(LatencyWords<'a>),
    Done { file: &'a str },
    Trace(TraceWords<'a>),
    Full { file: &'a str },
    Series(SeriesWords<'a>),
    Busy(BusyWords<'a>),
    Rates(CurveWords<'a>),
    Delays(DelayWords<'a>),
    Load(LoadWords<'a>),
    Sweep(SweepWords<'a>),
    Check { file: &'a str },
    Convert(ConvertWords<'a>),
    Page(OrderWords<'a>),
    Shell(ShellWords<'a>),
}

impl<'a> Asked<'a> {
    ghost use Rattle.lab_tasks.specs.Words.{file_of};

    /// The project file that is to be read, where there is one.
    pub fn file(&self) -> Option<&'a str>
        ensures { text_of result ≡ file_of self.now }
    {
        match self {
            Asked::Map(words) => Some(words.file),
            Asked::Compare(words) => Some(words.map.file),
            Asked::Order(words) => Some(words.file),
            Asked::Latency(words) => Some(words.file),
            Asked::Done { file } => Some(*file),
            Asked::Trace(words) => Some(words.file),
            Asked::Full { file } => Some(*file),
            Asked::Series(words) => Some(words.file),
            Asked::Busy(words) => Some(words.file),
            Asked::Rates(_) | Asked::Load(_) => None,
            Asked::Delays(words) => words.file,
            Asked::Sweep(words) => Some(words.file),
            Asked::Check { file } => Some(*file),
            Asked::Convert(words) => Some(words.file),
            Asked::Page(words) => Some(words.file),
            Asked::Shell(words) => words.file,
        }
    }
}

const FILE_HELP: &str = "The project file";

const MAP_ABOUT: &str =
    "Draws queues cycle by cycle: tree saturation towards a module, replies, or those of all modules";

const ORDER_ABOUT: &str =
    "Draws or tabulates the one order of all references: when each was issued, served and answered";

const LATENCY_ABOUT: &str =
    "Says how long references waited for their replies: the mean, percentiles and a table";

const DONE_ABOUT: &str =
    "Says when each processor had its last reply and came to the end of its script: the earliest, the latest and a table";

const TRACE_ABOUT: &str =
    "Says or draws where a reference, or the one that it was combined into, was at each cycle";

const FULL_ABOUT: &str =
    "Says which queues and wait buffers were full, in the order in which they first were";

const SERIES_ABOUT: &str =
    "Tabulates or draws what a run shows, cycle by cycle or by bins of cycles: counters, lengths of queues, stages";

const BUSY_ABOUT: &str =
    "Says how busy the stages of the networks and the modules were: a table in percent";

const SHARED: &str = "\
A row has a gauge, its sum over the cycles, and how much that is of a hundred of the most that it could be. 'busy NET S' is how many
output queues of stage S of NET held a message, of which there are as many as processors; 'served mN' how many requests module N
served, which are one in a cycle at most.

Status: 0 done; 2 the command line; 3 a file can't be read or written; 4 the project is refused; 5 no memory, or standard
output can't be written; 7 a number outside of what there is.";

const RATES_ABOUT: &str =
    "Measures references answered per cycle against the number of processors, for some shares of hot references";

const DELAYS_ABOUT: &str =
    "Measures how long references that aren't hot wait for their replies, against the share of hot ones; or draws the latencies of a file";

const LOAD_ABOUT: &str =
    "Measures latency and accepted traffic against offered load, for the low network and the combining one without and with combining";

const SWEEP_ABOUT: &str =
    "Asks a project the same for each depth of some queues, and after each of some edits";

const CHECK_ABOUT: &str = "Says in words what a project file is, or where it is wrong";

const CONVERT_ABOUT: &str =
    "Writes a project as a file of format 2, a large one of format 3, without what is as usual: comments aren't kept";

const PAGE_ABOUT: &str =
    "Makes a page for a browser: the machine as a drawing, stepped cycle by cycle";

const SIZES_HELP: &str = "2^K processors at most, from 1 to 6; without it 6";

const SIZE_HELP: &str = "2^K processors, from 1 to 6; without it 6";

const SHARES_HELP: &str =
    "How many of a hundred references are hot, up to seven numbers; without it 0,1,2,4,8,16,32";

const HOT_HELP: &str =
    "How many of a hundred references are hot, up to seven numbers, each with curves of its own; without it 0";

const SHELL_ABOUT: &str =
    "Answers commands line by line, as hotspot does, and words of its own: help, show, script, save, undo, and reports: latency, done, trace, full, order all";

const TALKED: &str = "\
Where standard input is a terminal there is a prompt before each line, and a reason behind each refusal, and 'quit' ends the
session. Else nothing is written but answers: what 'hotspot FILE < commands' writes, where no line begins with a word of the
shell's own or has a range of processors. 'help' lists them all. With --json there is no prompt, and for each line one object:
{\"ok\":V,..} with the version and the answer's parts by name, {\"refused\":N,\"why\":\"..\"}, {\"bad\":..,\"why\":\"..\"}, {\"text\":\"..\"} of a
request, or {\"answers\":[..]} where a line stands for several.

Status: 0 the input ended, or somebody typed quit; 1 a line was refused, with --strict; 2 the command line; 3 FILE or standard input
can't be read; 4 the project is refused; 5 no memory, or standard output can't be written.";

const RATES_MEASURED: &str = "\
Each processor issues a reference a cycle while it may, with at most 8 unanswered: of a hundred as many as --hot says add 1 to word 0,
the others load a word of page 1, which is spread over all modules. They are drawn anew for each seed. The start is left out, until
the rate is steady. Without --csv and --out the table goes to standard output.";

const DELAYS_MEASURED: &str = "\
Each processor issues a reference a cycle while it may, with at most 8 unanswered: of a hundred as many as --hot says add 1 to word 0,
the others load a word of page 1, which is spread over all modules. They are drawn from --seed. The second half of the cycles is
measured. Without --csv and --out the table goes to standard output.

With FILE nothing is measured: the latencies of its references, as 'lab latency FILE' tables them, are drawn as a histogram, to
standard output without --out. --processor, --network, --from and --to say of which; --k, --hot, --cycles, --seed, --csv and
--keep aren't taken then.";

const LOAD_MEASURED: &str = "\
In as many of a hundred cycles as the rate says a processor offers a reference, in the others none, as a seed draws them; it issues
it once it can, with at most 8 unanswered. Of a hundred references as many as --hot says add 1 to word 0, the others load a word of
page 1, which is spread over all modules. The start is left out, until the rate of answers is steady. Without --csv and --out the
table goes to standard output.";

const GAUGED: &str = "\
A GAUGE is a counter, which is issued, answered, served, combined or waiting, of the whole machine, or of one component, as
'served m0'; 'queue PLACE PART', the length of a queue that the table of full names, as 'queue c0.1 f0'; 'stage NET S', how many
messages the output queues of stage S of NET hold, low or comb; or 'busy NET S', how many of these queues hold any. A row has the
first cycle of its bin, and of each gauge the sum over the cycles of the bin.

Status: 0 done; 2 the command line; 3 a file can't be read or written; 4 the project is refused; 5 no memory, or standard
output can't be written; 7 a number outside of what there is. A file is written beside its name and then renamed, so none
stays half written.";

const SWEPT: &str = "\
A TEMPLATE is an edit of the workbench with braces in it: a range of numbers {A..B}, where k is the project's k, or words
{A,B,..}. Each number or word makes a row, and all of them have to make edits. --depth and --edit may be given several times:
each with each, those of --depth before those of --edit, and the first varying slowest. Each row stands for the project of
the file, after --setup, with the row's own edits alone. An edit that the project refuses puts 'refused N' in the place of
the answers; 'bad N' is a question that it has no answer to. With --numbers each number of an answer has a column: 'reply 7 0
cycle' and 'reply 7 0 word'; what is no number, as 'none' or 'bad N', stands in the first of them. --plot draws such columns,
a point for each row that has both numbers; without --csv there is no table then. --ask 'latency ..', with words of lab latency,
and --ask done and --ask full ask for the figures of these reports: 'latency mean', 'done last_reply latest' are columns.

Status: 0 done; 2 the command line; 3 a file can't be read or written; 4 the project is refused; 5 no memory, or standard
output can't be written; 7 a number outside of what there is. A file is written beside its name and then renamed, so none
stays half written.";

const ENDS: &str = "\
Status: 0 done; 2 the command line; 3 a file can't be read or written; 4 the project is refused; 5 no memory, or standard
output can't be written; 7 a number outside of what there is. A file is written beside its name and then renamed, so none
stays half written.";

fn option<'a>(alloc: Global, id: &'a str, value: &'a str, help: &'a str) -> Arg<'a>
    ensures rule { rule_of result ≡ option_rule id.entry.now }
    ensures global { result.global ≡ false }
{
    Arg::new(alloc, id)
        .long(id)
        .value_name(value)
        .action(ArgAction::Set)
        .help(help)
}

fn several<'a>(alloc: Global, id: &'a str, value: &'a str, help: &'a str) -> Arg<'a>
    ensures rule { rule_of result ≡ several_rule id.entry.now }
    ensures global { result.global ≡ false }
{
    Arg::new(alloc, id)
        .long(id)
        .value_name(value)
        .action(ArgAction::Append)
        .required(true)
        .help(help)
}

fn any_number<'a>(alloc: Global, id: &'a str, value: &'a str, help: &'a str) -> Arg<'a>
    ensures rule { rule_of result ≡ any_number_rule id.entry.now }
    ensures global { result.global ≡ false }
{
    Arg::new(alloc, id)
        .long(id)
        .value_name(value)
        .action(ArgAction::Append)
        .help(help)
}

fn flag<'a>(alloc: Global, id: &'a str, help: &'a str) -> Arg<'a>
    ensures rule { rule_of result ≡ flag_rule id.entry.now }
    ensures global { result.global ≡ false }
{
    Arg::new(alloc, id)
        .long(id)
        .action(ArgAction::SetTrue)
        .help(help)
}

fn position<'a>(alloc: Global, id: &'a str, help: &'a str) -> Arg<'a>
    ensures rule { rule_of result ≡ position_rule id.entry.now }
    ensures global { result.global ≡ false }
{
    Arg::new(alloc, id).required(true).help(help)
}

fn optional<'a>(alloc: Global, id: &'a str, help: &'a str) -> Arg<'a>
    ensures rule { rule_of result ≡ optional_rule id.entry.now }
    ensures global { result.global ≡ false }
{
    Arg::new(alloc, id).help(help)
}

fn file_argument<'a>(alloc: Global) -> Arg<'a>
    ensures rule { rule_of result ≡ file_rule }
    ensures global { result.global ≡ false }
{
    position(alloc, "FILE", FILE_HELP)
}

/// A task without arguments, with a text behind its help.
fn named<'a>(alloc: Global, name: &'a str, about: &'a str, behind: &'a str) -> Command<'a>
    ensures { IsApp (new_app name.entry.now) result }
{
    Command::new(alloc, name).about(about).after_help(behind)
}

/// The task with one argument more.
fn with<'a>(task: Command<'a>, argument: Arg<'a>) -> Result<Command<'a>, AllocError>
    requires { argument.global ≡ false }
    ensures { IfOk result (HasMore task.entry (rule_of argument.entry)) }
{
    task.arg(argument)
}

fn with_file<'a>(alloc: Global, task: Command<'a>) -> Result<Command<'a>, AllocError>
    ensures { IfOk result (HasMore task.entry file_rule) }
{
    with(task, file_argument(alloc))
}

fn with_position<'a>(
    alloc: Global,
    task: Command<'a>,
    id: &'a str,
    help: &'a str,
) -> Result<Command<'a>, AllocError>
    ensures { IfOk result (HasMore task.entry (position_rule id.entry.now)) }
{
    with(task, position(alloc, id, help))
}

fn with_optional<'a>(
    alloc: Global,
    task: Command<'a>,
    id: &'a str,
    help: &'a str,
) -> Result<Command<'a>, AllocError>
    ensures { IfOk result (HasMore task.entry (optional_rule id.entry.now)) }
{
    with(task, optional(alloc, id, help))
}

fn with_option<'a>(
    alloc: Global,
    task: Command<'a>,
    id: &'a str,
    value: &'a str,
    help: &'a str,
) -> Result<Command<'a>, AllocError>
    ensures { IfOk result (HasMore task.entry (option_rule id.entry.now)) }
{
    with(task, option(alloc, id, value, help))
}

fn with_several<'a>(
    alloc: Global,
    task: Command<'a>,
    id: &'a str,
    value: &'a str,
    help: &'a str,
) -> Result<Command<'a>, AllocError>
    ensures { IfOk result (HasMore task.entry (several_rule id.entry.now)) }
{
    with(task, several(alloc, id, value, help))
}

fn with_any_number<'a>(
    alloc: Global,
    task: Command<'a>,
    id: &'a str,
    value: &'a str,
    help: &'a str,
) -> Result<Command<'a>, AllocError>
    ensures { IfOk result (HasMore task.entry (any_number_rule id.entry.now)) }
{
    with(task, any_number(alloc, id, value, help))
}

fn with_flag<'a>(
    alloc: Global,
    task: Command<'a>,
    id: &'a str,
    help: &'a str,
) -> Result<Command<'a>, AllocError>
    ensures { IfOk result (HasMore task.entry (flag_rule id.entry.now)) }
{
    with(task, flag(alloc, id, help))
}

fn map_command<'a>(alloc: Global) -> Result<Command<'a>, AllocError>
    ensures { IfOk result (IsTask map_task) }
{
    let task = with_file(alloc, named(alloc, "map", MAP_ABOUT, ENDS))?;
    let task = with_option(alloc, task, "net", "NET", "low or comb; without it low")?;
    let task = with_option(
        alloc,
        task,
        "dir",
        "DIR",
        "forward, for requests, or reverse, for replies; without it forward",
    )?;
    let task = with_option(
        alloc,
        task,
        "queues",
        "QUEUES",
        "tree, those on the way of one module, or module, those of all modules; without it tree",
    )?;
    let task = with_option(
        alloc,
        task,
        "module",
        "M",
        "The module of the tree, from 0; without it 0",
    )?;
    let task = with_option(alloc, task, "from", "T", "The first cycle; without it 0")?;
    let task = with_option(
        alloc,
        task,
        "to",
        "T",
        "The last cycle; without it the horizon",
    )?;
    let task = with_option(
        alloc,
        task,
        "out",
        "MAP.svg",
        "Where the picture goes; without it to standard output",
    )?;
    let task = with_option(
        alloc,
        task,
        "compare",
        "B.toml",
        "Another project file: the picture shows how much longer queues are in its run",
    )?;
    Ok(task)
}

fn order_command<'a>(alloc: Global) -> Result<Command<'a>, AllocError>
    ensures { IfOk result (IsTask order_task) }
{
    let task = with_file(alloc, named(alloc, "order", ORDER_ABOUT, ENDS))?;
    let task = with_option(alloc, task, "from", "T", "The first cycle; without it 0")?;
    let task = with_option(
        alloc,
        task,
        "to",
        "T",
        "The last cycle; without it the horizon",
    )?;
    let task = with_option(
        alloc,
        task,
        "out",
        "ORDER.svg",
        "Where a picture goes; without it a table to standard output",
    )?;
    Ok(task)
}

fn latency_command<'a>(alloc: Global) -> Result<Command<'a>, AllocError>
    ensures { IfOk result (IsTask latency_task) }
{
    let task = with_file(alloc, named(alloc, "latency", LATENCY_ABOUT, ENDS))?;
    let task = with_option(
        alloc,
        task,
        "processor",
        "P",
        "The processor that issued them; without it all",
    )?;
    let task = with_option(
        alloc,
        task,
        "network",
        "NET",
        "low or comb: the network that they went over; without it both",
    )?;
    let task = with_option(
        alloc,
        task,
        "address",
        "A",
        "The address of the word that they were to; without it all",
    )?;
    let task = with_option(
        alloc,
        task,
        "page",
        "N",
        "The page of that word, which is 256 words; without it all",
    )?;
    let task = with_flag(
        alloc,
        task,
        "hot",
        "Those to the hottest word of the scripts, which is the first that check names",
    )?;
    let task = with_flag(alloc, task, "cold", "Those to any other word")?;
    let task = with_option(
        alloc,
        task,
        "from",
        "T",
        "The first cycle that shows one issued; without it 0",
    )?;
    let task = with_option(
        alloc,
        task,
        "to",
        "T",
        "The last cycle that shows one issued; without it the horizon",
    )?;
    Ok(task)
}

fn done_command<'a>(alloc: Global) -> Result<Command<'a>, AllocError>
    ensures { IfOk result (IsTask done_task) }
{
    let task = with_file(alloc, named(alloc, "done", DONE_ABOUT, ENDS))?;
    Ok(task)
}

fn trace_command<'a>(alloc: Global) -> Result<Command<'a>, AllocError>
    ensures { IfOk result (IsTask trace_task) }
{
    let task = with_file(alloc, named(alloc, "trace", TRACE_ABOUT, ENDS))?;
    let task = with_position(alloc, task, "P", "The processor that issues it")?;
    let task = with_position(
        alloc,
        task,
        "I",
        "Its number among the references of that processor, from 0",
    )?;
    let task = with_option(
        alloc,
        task,
        "out",
        "TRACE.svg",
        "Where a picture goes; without it a line to standard output",
    )?;
    Ok(task)
}

fn full_command<'a>(alloc: Global) -> Result<Command<'a>, AllocError>
    ensures { IfOk result (IsTask full_task) }
{
    let task = with_file(alloc, named(alloc, "full", FULL_ABOUT, ENDS))?;
    Ok(task)
}

fn series_command<'a>(alloc: Global) -> Result<Command<'a>, AllocError>
    ensures { IfOk result (IsTask series_task) }
{
    let task = with_file(alloc, named(alloc, "series", SERIES_ABOUT, GAUGED))?;
    let task = with_several(
        alloc,
        task,
        "of",
        "GAUGE",
        "What is tabulated, as 'served m0'; where given several times, a column for each",
    )?;
    let task = with_option(alloc, task, "from", "T", "The first cycle; without it 0")?;
    let task = with_option(
        alloc,
        task,
        "to",
        "T",
        "The last cycle; without it the horizon",
    )?;
    let task = with_option(
        alloc,
        task,
        "bin",
        "N",
        "How many cycles a row stands for; without it 1",
    )?;
    let task = with_option(
        alloc,
        task,
        "csv",
        "TABLE.csv",
        "Where the table goes; without it and --out to standard output",
    )?;
    let task = with_option(
        alloc,
        task,
        "out",
        "SERIES.svg",
        "Where a picture goes: a curve for each gauge",
    )?;
    Ok(task)
}

fn busy_command<'a>(alloc: Global) -> Result<Command<'a>, AllocError>
    ensures { IfOk result (IsTask busy_task) }
{
    let task = with_file(alloc, named(alloc, "busy", BUSY_ABOUT, SHARED))?;
    let task = with_option(alloc, task, "from", "T", "The first cycle; without it 0")?;
    let task = with_option(
        alloc,
        task,
        "to",
        "T",
        "The last cycle; without it the horizon",
    )?;
    Ok(task)
}

/// A task of curves, with the arguments that say what is measured.
fn measured_command<'a>(
    alloc: Global,
    name: &'a str,
    about: &'a str,
    behind: &'a str,
    size: &'a str,
    shares: &'a str,
) -> Result<Command<'a>, AllocError>
    ensures { IfOk result (IsTask (measured_task name.entry.now)) }
{
    let task = named(alloc, name, about, behind);
    let task = with_option(alloc, task, "k", "K", size)?;
    let task = with_option(alloc, task, "hot", "PERCENT,..", shares)?;
    let task = with_option(
        alloc,
        task,
        "cycles",
        "N",
        "How many cycles are run, from 2 to 4096; without it 256",
    )?;
    let task = with_option(
        alloc,
        task,
        "seed",
        "S",
        "The seed of the references; without it 1",
    )?;
    Ok(task)
}

/// A task with the arguments that say where tables, pictures and files go.
fn kept_command<'a>(alloc: Global, task: Command<'a>) -> Result<Command<'a>, AllocError>
    ensures { IfOk result (HasAll task.entry kept_rules) }
{
    let task = with_option(alloc, task, "csv", "TABLE.csv", "Where the table goes")?;
    let task = with_option(alloc, task, "out", "PICTURE.svg", "Where the picture goes")?;
    let task = with_option(
        alloc,
        task,
        "keep",
        "DIR",
        "A folder for the project files of all points",
    )?;
    Ok(task)
}

fn rates_command<'a>(alloc: Global) -> Result<Command<'a>, AllocError>
    ensures { IfOk result (IsTask rates_task) }
{
    let task = measured_command(
        alloc,
        "rates",
        RATES_ABOUT,
        RATES_MEASURED,
        SIZES_HELP,
        SHARES_HELP,
    )?;
    let task = with_option(
        alloc,
        task,
        "seeds",
        "N",
        "How many seeds, from --seed on, from 1 to 20; without it 5",
    )?;
    let task = with_option(
        alloc,
        task,
        "of",
        "WHAT",
        "What is drawn: answered, the references answered, or served, the requests that modules served; without it answered",
    )?;
    let task = kept_command(alloc, task)?;
    Ok(task)
}

/// A task with the arguments that say which references of a file are drawn.
fn drawn_command<'a>(alloc: Global, task: Command<'a>) -> Result<Command<'a>, AllocError>
    ensures { IfOk result (HasAll task.entry drawn_rules) }
{
    let task = with_optional(
        alloc,
        task,
        "FILE",
        "The project file whose latencies are drawn; without it loads are measured",
    )?;
    let task = with_option(
        alloc,
        task,
        "processor",
        "P",
        "With FILE: the processor that issued them; without it all",
    )?;
    let task = with_option(
        alloc,
        task,
        "network",
        "NET",
        "With FILE: low or comb, the network that they went over; without it both",
    )?;
    let task = with_option(
        alloc,
        task,
        "from",
        "T",
        "With FILE: the first cycle that shows one issued; without it 0",
    )?;
    let task = with_option(
        alloc,
        task,
        "to",
        "T",
        "With FILE: the last cycle that shows one issued; without it the horizon",
    )?;
    Ok(task)
}

fn delays_command<'a>(alloc: Global) -> Result<Command<'a>, AllocError>
    ensures { IfOk result (IsTask delays_task) }
{
    let task = measured_command(
        alloc,
        "delays",
        DELAYS_ABOUT,
        DELAYS_MEASURED,
        SIZE_HELP,
        SHARES_HELP,
    )?;
    let task = kept_command(alloc, task)?;
    let task = drawn_command(alloc, task)?;
    Ok(task)
}

fn load_command<'a>(alloc: Global) -> Result<Command<'a>, AllocError>
    ensures { IfOk result (IsTask load_task) }
{
    let task = measured_command(
        alloc,
        "load",
        LOAD_ABOUT,
        LOAD_MEASURED,
        SIZE_HELP,
        HOT_HELP,
    )?;
    let task = with_option(
        alloc,
        task,
        "seeds",
        "N",
        "How many seeds, from --seed on, from 1 to 20; without it 5",
    )?;
    let task = with_option(
        alloc,
        task,
        "rate",
        "FROM..TO",
        "In how many of a hundred cycles a reference is offered, from 1 to 100; without it 5..100",
    )?;
    let task = with_option(
        alloc,
        task,
        "step",
        "N",
        "From one rate to the next, from 1 to 100; without it 5",
    )?;
    let task = kept_command(alloc, task)?;
    Ok(task)
}

fn sweep_command<'a>(alloc: Global) -> Result<Command<'a>, AllocError>
    ensures { IfOk result (IsTask sweep_task) }
{
    let task = with_file(alloc, named(alloc, "sweep", SWEEP_ABOUT, SWEPT))?;
    let task = with_any_number(
        alloc,
        task,
        "setup",
        "EDIT",
        "An edit of the workbench that is made before all rows, as 'horizon 500'",
    )?;
    let task = with_any_number(
        alloc,
        task,
        "depth",
        "QUEUES=FROM..TO",
        "The depths of some queues, as low-forward=2..16; where given several times, each with each",
    )?;
    let task = with_any_number(
        alloc,
        task,
        "edit",
        "TEMPLATE",
        "Edits of the workbench, as 'combine {0..2} on' or 'window {1,2,4,8}'",
    )?;
    let task = with_flag(
        alloc,
        task,
        "zip",
        "Takes the first rows of all --edit, then the second ones and so on, and not each with each",
    )?;
    let task = with_several(
        alloc,
        task,
        "ask",
        "QUESTION",
        "A question of the workbench, as 'tree low 0', or a report of numbers: 'latency ..', 'done' or 'full'",
    )?;
    let task = with_option(
        alloc,
        task,
        "csv",
        "TABLE.csv",
        "Where the table goes; without it to standard output",
    )?;
    let task = with_flag(
        alloc,
        task,
        "numbers",
        "Gives each number of an answer a column of its own",
    )?;
    let task = with_option(
        alloc,
        task,
        "plot",
        "PICTURE.svg",
        "Where a picture of curves goes, of the columns at --y against that at --x",
    )?;
    let task = with_option(
        alloc,
        task,
        "x",
        "COLUMN",
        "The column to the right, as 'window {}'",
    )?;
    let task = with_any_number(
        alloc,
        task,
        "y",
        "COLUMN",
        "A column upwards, as 'reply 7 0 cycle'; where given several times, a curve for each",
    )?;
    Ok(task)
}

fn check_command<'a>(alloc: Global) -> Result<Command<'a>, AllocError>
    ensures { IfOk result (IsTask check_task) }
{
    let task = with_file(alloc, named(alloc, "check", CHECK_ABOUT, ENDS))?;
    Ok(task)
}

fn convert_command<'a>(alloc: Global) -> Result<Command<'a>, AllocError>
    ensures { IfOk result (IsTask convert_task) }
{
    let task = with_file(alloc, named(alloc, "convert", CONVERT_ABOUT, ENDS))?;
    let task = with_option(
        alloc,
        task,
        "out",
        "FILE.toml",
        "Where it goes; without it to standard output",
    )?;
    let task = with_flag(
        alloc,
        task,
        "force",
        "Lets --out name the file that is read, which is then written over",
    )?;
    Ok(task)
}

fn page_command<'a>(alloc: Global) -> Result<Command<'a>, AllocError>
    ensures { IfOk result (IsTask page_task) }
{
    let task = with_file(alloc, named(alloc, "page", PAGE_ABOUT, ENDS))?;
    let task = with_option(alloc, task, "from", "T", "The first cycle; without it 0")?;
    let task = with_option(
        alloc,
        task,
        "to",
        "T",
        "The last cycle; without it the horizon",
    )?;
    let task = with_option(
        alloc,
        task,
        "out",
        "PAGE.html",
        "Where the page goes; without it to standard output",
    )?;
    Ok(task)
}

fn shell_command<'a>(alloc: Global) -> Result<Command<'a>, AllocError>
    ensures { IfOk result (IsTask shell_task) }
{
    let task = named(alloc, "shell", SHELL_ABOUT, TALKED);
    let task = with_optional(
        alloc,
        task,
        "FILE",
        "The project file; without it the built-in project",
    )?;
    let task = with_flag(
        alloc,
        task,
        "strict",
        "Ends with status 1 at the first line that is refused",
    )?;
    let task = with_flag(
        alloc,
        task,
        "json",
        "Answers each line by one object of JSON in a line, for programs",
    )?;
    Ok(task)
}

/// The program's command without its tasks.
fn bare_command<'a>(alloc: Global) -> Result<Command<'a>, AllocError>
    ensures { IfOk result (IsApp bare) }
{
    let command = Command::new(alloc, "lab")
        .no_binary_name(true)
        .bin_name("lab")?;
    Ok(
        command
            .version("1.0.0")
            .about(
                "Pictures and tables of hot-spot experiments on a machine with a combining network",
            )
            .after_help(ENDS)
            .subcommand_required(true),
    )
}

/// The command with one task more.
fn with_task<'a>(
    command: Command<'a>,
    task: Result<Command<'a>, AllocError>,
) -> Result<Command<'a>, AllocError>
    ensures { IfOk result (HasTask command.entry task.entry) }
{
    match task {
        Ok(task) => command.subcommand(task),
        Err(fault) => Err(fault),
    }
}

fn lab_command<'a>(alloc: Global) -> Result<Command<'a>, AllocError>
    ensures { IfOk result IsLab }
{
    let command = bare_command(alloc)?;
    let command = with_task(command, map_command(alloc))?;
    let command = with_task(command, order_command(alloc))?;
    let command = with_task(command, latency_command(alloc))?;
    let command = with_task(command, done_command(alloc))?;
    let command = with_task(command, trace_command(alloc))?;
    let command = with_task(command, full_command(alloc))?;
    let command = with_task(command, series_command(alloc))?;
    let command = with_task(command, busy_command(alloc))?;
    let command = with_task(command, rates_command(alloc))?;
    let command = with_task(command, delays_command(alloc))?;
    let command = with_task(command, load_command(alloc))?;
    let command = with_task(command, sweep_command(alloc))?;
    let command = with_task(command, check_command(alloc))?;
    let command = with_task(command, convert_command(alloc))?;
    let command = with_task(command, page_command(alloc))?;
    let command = with_task(command, shell_command(alloc))?;
    Ok(command)
}

/// The texts that the matches hold of an option.
fn held<'a>(alloc: Global, matches: &ArgMatches<'a>, id: &str) -> Result<Vec<&'a str>, AllocError>
    ensures { IfOk result (λ v. map (λ w. w.now) v.items ≡ option_map_or raw_values (matched_of (found_of matches.now) id.now) []) }
{
    match matches.get_strs(id) {
        Some(texts) => texts.to_vec(alloc),
        None => Ok(Vec::new(alloc)),
    }
}

/// The texts of all uses of an option.
fn all_of<'a>(alloc: Global, matches: &ArgMatches<'a>, id: &str) -> Result<Vec<&'a str>, AllocError>
    ensures { IfOk result (λ v. map (λ w. w.now) v.items ≡ texts_at (rows_of (found_of matches.now)) id.now) }
{
    held(alloc, matches, id)
}

/// The first text at an option.
fn text_in<'a>(matches: &ArgMatches<'a>, id: &str) -> Option<&'a str>
    ensures { text_of result ≡ first_of id.now (rows_of (found_of matches.now)) }
{
    matches.get_str(id)
}

fn file_in<'a>(matches: &ArgMatches<'a>) -> &'a str
    ensures { result.now ≡ file_at (rows_of (found_of matches.now)) }
{
    text_in(matches, "FILE").unwrap_or("")
}

/// Whether a flag was given.
fn flag_in(matches: &ArgMatches<'_>, id: &str) -> bool
    ensures { result ≡ is_given (rows_of (found_of matches.now)) id.now }
{
    match text_in(matches, id) {
        Some(text) => text == "true",
        None => false,
    }
}

fn map_words<'a>(matches: &ArgMatches<'a>) -> MapWords<'a>
    ensures { AreMapWords (rows_of (found_of matches.now)) result }
{
    MapWords {
        file: file_in(matches),
        net: text_in(matches, "net"),
        dir: text_in(matches, "dir"),
        queues: text_in(matches, "queues"),
        module: text_in(matches, "module"),
        from: text_in(matches, "from"),
        to: text_in(matches, "to"),
        out: text_in(matches, "out"),
    }
}

/// A map of one file, or of two.
fn map_asked<'a>(matches: &ArgMatches<'a>) -> Asked<'a>
    ensures { AsksFor (Some (codes "map", rows_of (found_of matches.now))) result }
{
    let map = map_words(matches);
    match text_in(matches, "compare") {
        None => Asked::Map(map),
        Some(other) => Asked::Compare(CompareWords { map, other }),
    }
}

fn order_words<'a>(matches: &ArgMatches<'a>) -> OrderWords<'a>
    ensures { AreOrderWords (rows_of (found_of matches.now)) result }
{
    OrderWords {
        file: file_in(matches),
        from: text_in(matches, "from"),
        to: text_in(matches, "to"),
        out: text_in(matches, "out"),
    }
}

fn latency_words<'a>(matches: &ArgMatches<'a>) -> LatencyWords<'a>
    ensures { AreLatencyWords (rows_of (found_of matches.now)) result }
{
    LatencyWords {
        file: file_in(matches),
        processor: text_in(matches, "processor"),
        network: text_in(matches, "network"),
        address: text_in(matches, "address"),
        page: text_in(matches, "page"),
        hot: flag_in(matches, "hot"),
        cold: flag_in(matches, "cold"),
        from: text_in(matches, "from"),
        to: text_in(matches, "to"),
    }
}

fn trace_words<'a>(matches: &ArgMatches<'a>) -> TraceWords<'a>
    ensures { AreTraceWords (rows_of (found_of matches.now)) result }
{
    TraceWords {
        file: file_in(matches),
        processor: text_in(matches, "P"),
        number: text_in(matches, "I"),
        out: text_in(matches, "out"),
    }
}

fn curve_words<'a>(matches: &ArgMatches<'a>) -> CurveWords<'a>
    ensures { AreCurveWords (rows_of (found_of matches.now)) result }
{
    CurveWords {
        k: text_in(matches, "k"),
        hot: text_in(matches, "hot"),
        cycles: text_in(matches, "cycles"),
        seed: text_in(matches, "seed"),
        seeds: text_in(matches, "seeds"),
        of: text_in(matches, "of"),
        csv: text_in(matches, "csv"),
        out: text_in(matches, "out"),
        keep: text_in(matches, "keep"),
    }
}

fn load_words<'a>(matches: &ArgMatches<'a>) -> LoadWords<'a>
    ensures { AreLoadWords (rows_of (found_of matches.now)) result }
{
    LoadWords {
        curves: curve_words(matches),
        rate: text_in(matches, "rate"),
        step: text_in(matches, "step"),
    }
}

fn delay_words<'a>(matches: &ArgMatches<'a>) -> DelayWords<'a>
    ensures { AreDelayWords (rows_of (found_of matches.now)) result }
{
    DelayWords {
        curves: curve_words(matches),
        file: text_in(matches, "FILE"),
        latency: latency_words(matches),
    }
}

fn sweep_words<'a>(alloc: Global, matches: &ArgMatches<'a>) -> Result<SweepWords<'a>, AllocError>
    ensures { IfOk result (AreSweepWords (rows_of (found_of matches.now))) }
{
    let setups = all_of(alloc, matches, "setup")?;
    let depths = all_of(alloc, matches, "depth")?;
    let edits = all_of(alloc, matches, "edit")?;
    let asks = all_of(alloc, matches, "ask")?;
    let ys = all_of(alloc, matches, "y")?;
    Ok(SweepWords {
        file: file_in(matches),
        setups,
        depths,
        edits,
        zip: flag_in(matches, "zip"),
        asks,
        csv: text_in(matches, "csv"),
        numbers: flag_in(matches, "numbers"),
        plot: text_in(matches, "plot"),
        x: text_in(matches, "x"),
        ys,
    })
}

fn series_words<'a>(alloc: Global, matches: &ArgMatches<'a>) -> Result<SeriesWords<'a>, AllocError>
    ensures { IfOk result (AreSeriesWords (rows_of (found_of matches.now))) }
{
    let gauges = all_of(alloc, matches, "of")?;
    Ok(SeriesWords {
        file: file_in(matches),
        gauges,
        from: text_in(matches, "from"),
        to: text_in(matches, "to"),
        bin: text_in(matches, "bin"),
        csv: text_in(matches, "csv"),
        out: text_in(matches, "out"),
    })
}

fn busy_words<'a>(matches: &ArgMatches<'a>) -> BusyWords<'a>
    ensures { AreBusyWords (rows_of (found_of matches.now)) result }
{
    BusyWords {
        file: file_in(matches),
        from: text_in(matches, "from"),
        to: text_in(matches, "to"),
    }
}

fn convert_words<'a>(matches: &ArgMatches<'a>) -> ConvertWords<'a>
    ensures { AreConvertWords (rows_of (found_of matches.now)) result }
{
    ConvertWords {
        file: file_in(matches),
        out: text_in(matches, "out"),
        force: flag_in(matches, "force"),
    }
}

fn shell_words<'a>(matches: &ArgMatches<'a>) -> ShellWords<'a>
    ensures { AreShellWords (rows_of (found_of matches.now)) result }
{
    ShellWords {
        file: text_in(matches, "FILE"),
        strict: flag_in(matches, "strict"),
        json: flag_in(matches, "json"),
    }
}

/// What the report of a name is asked for by its matches; None where no report has the name.
fn report_asked<'a>(
    alloc: Global,
    name: &str,
    matches: &ArgMatches<'a>,
) -> Result<Option<Asked<'a>>, AllocError>
    ensures asked { IfOk result (λ o. IfSome o (AsksFor (Some (name.now, rows_of (found_of matches.now))))) }
    ensures none { IfOk result (λ o. IfNone o (IsNoneOf reports name.now)) }
{
    Ok(match name {
        "latency" => Some(Asked::Latency(latency_words(matches))),
        "done" => Some(Asked::Done {
            file: file_in(matches),
        }),
        "trace" => Some(Asked::Trace(trace_words(matches))),
        "full" => Some(Asked::Full {
            file: file_in(matches),
        }),
        "series" => Some(Asked::Series(series_words(alloc, matches)?)),
        "busy" => Some(Asked::Busy(busy_words(matches))),
        _ => None,
    })
}

/// What the other task of a name is asked for by its matches; None where none has the name.
fn other_asked<'a>(
    alloc: Global,
    name: &str,
    matches: &ArgMatches<'a>,
) -> Result<Option<Asked<'a>>, AllocError>
    ensures asked { IfOk result (λ o. IfSome o (AsksFor (Some (name.now, rows_of (found_of matches.now))))) }
    ensures none { IfOk result (λ o. IfNone o (IsNoneOf other_tasks name.now)) }
{
    Ok(match name {
        "map" => Some(map_asked(matches)),
        "order" => Some(Asked::Order(order_words(matches))),
        "rates" => Some(Asked::Rates(curve_words(matches))),
        "delays" => Some(Asked::Delays(delay_words(matches))),
        "load" => Some(Asked::Load(load_words(matches))),
        "sweep" => Some(Asked::Sweep(sweep_words(alloc, matches)?)),
        "check" => Some(Asked::Check {
            file: file_in(matches),
        }),
        "convert" => Some(Asked::Convert(convert_words(matches))),
        "page" => Some(Asked::Page(order_words(matches))),
        "shell" => Some(Asked::Shell(shell_words(matches))),
        _ => None,
    })
}

/// What the task of a name is asked for by its matches; None where no task has the name.
fn asked_of<'a>(
    alloc: Global,
    name: &str,
    matches: &ArgMatches<'a>,
) -> Result<Option<Asked<'a>>, AllocError>
    ensures asked { IfOk result (λ o. IfSome o (AsksFor (Some (name.now, rows_of (found_of matches.now))))) }
    ensures none { IfOk result (λ o. IfNone o (IsNoTask name.now)) }
{
    let report = report_asked(alloc, name, matches)?;
    match report {
        Some(asked) => Ok(Some(asked)),
        None => other_asked(alloc, name, matches),
    }
}

/// Reads the words behind the program's name.
///
/// # Errors
///
/// Where the words are no command line of the program, or ask for help or the version, or a growth was refused. The
/// error's text is for the user.
pub fn read_words<'a>(alloc: Global, words: &'a [&'a str]) -> Result<Asked<'a>, Error>
    ensures asked { IfOk result (AsksFor (subcommand_of lab (texts words.entry.now))) }
    ensures refused { FailsBy (fault_of lab (texts words.entry.now)) result }
{
    let command = match lab_command(alloc) {
        Ok(command) => command,
        Err(fault) => return Err(Error::from(fault)),
    };
    let matches = match command.try_get_matches_from(words) {
        Ok(matches) => matches,
        Err(fault) => return Err(fault),
    };
    let Some((name, rows)) = matches.subcommand() else {
        unreachable!()
    };
    let asked = match asked_of(alloc, name, rows) {
        Ok(asked) => asked,
        Err(fault) => return Err(Error::from(fault)),
    };
    match asked {
        Some(asked) => Ok(asked),
        None => unreachable!(),
    }
}
