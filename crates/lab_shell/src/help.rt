//! What `help` says.

use word_ops::kinds_told;

/// All commands.
pub const HELP: &str = "\
Edits:
  entry P I ENTRY       cut P L               word A V          page G AMOUNT BASE
  depth QUEUES D        wait D                combine S on|off  window W
  horizon H
Questions:
  reply P I             state C T             memory A T        counter NAME WHO T0 T1
  profile NET S         tree NET M            level NET M T     bound A B P
  place A               order A
Reports:
  latency [--processor P] [--network low|comb] [--address A] [--page N] [--hot|--cold]
    [--from T] [--to T]
  busy [--from T] [--to T]
  series --of GAUGE [--of GAUGE ..] [--from T] [--to T] [--bin N]
  done                  trace P I             full                  order all
Of the shell:
  show                  script P              save F                undo
  help                  help COMMAND          quit
P of entry and cut may be a range A..B of processors
";

/// A command, as it is written, with what it does; None where there is no such command.
pub(crate) fn usage(word: &[u8]) -> Option<&'static str> {
    match edit_usage(word) {
        Some(text) => Some(text),
        None => match question_usage(word) {
            Some(text) => Some(text),
            None => match report_usage(word) {
                Some(text) => Some(text),
                None => shell_usage(word),
            },
        },
    }
}

fn edit_usage(word: &[u8]) -> Option<&'static str> {
    let Ok(word) = str::from_utf8(word) else {
        return None;
    };
    Some(match word {
        "entry" => kinds_told!(
            "\
entry P I ENTRY: replaces entry I of the script of processor P, or appends where I is its length
entry A..B I ENTRY: does so for each of the processors A to B, at most 64 of them
an ENTRY is sync KIND A V [T], plain KIND A V [T], until sync KIND A V W [T], until plain KIND A V W [T], fence, or idle T
KIND is ",
            "; A an address, V an operand, W a word, T how many times\n"
        ),
        "cut" => "\
cut P L: keeps the first L entries of the script of processor P
cut A..B L: does so for each of the processors A to B, at most 64 of them
",
        "word" => "word A V: the word of address A before cycle 0 is V\n",
        "page" => "page G AMOUNT BASE: spreads page G over 2^AMOUNT modules from BASE on\n",
        "depth" => "\
depth QUEUES D: how deep queues are: low-forward, low-reverse, comb-forward, comb-reverse or module
",
        "wait" => "wait D: how deep wait buffers are\n",
        "combine" => "combine S on, combine S off: whether the switches of stage S combine\n",
        "window" => "window W: how many references of a processor may be unanswered\n",
        "horizon" => "horizon H: the last cycle that is simulated\n",
        _ => return None,
    })
}

fn question_usage(word: &[u8]) -> Option<&'static str> {
    let Ok(word) = str::from_utf8(word) else {
        return None;
    };
    Some(match word {
        "reply" =>
            "reply P I: when processor P received the reply to its reference I, from 0, and with which word\n",
        "state" => "state C T: the state of component C (pI, mI, lS.J or cS.J) at cycle T\n",
        "memory" => "memory A T: the word of address A at cycle T\n",
        "counter" => "\
counter NAME WHO T0 T1: how much was counted in the cycles T0 to T1
NAME is issued, answered, served, combined or waiting; WHO is all or a component
",
        "profile" =>
            "profile NET S: how often the output queues of stage S of NET, low or comb, had each length from 0 to 16\n",
        "tree" => "tree NET M: the first cycle of each level of saturation towards module M\n",
        "level" => "level NET M T: the level of saturation towards module M at cycle T\n",
        "bound" =>
            "bound A B P: the bound on the rate of each of P processors, where A of B references go to one module\n",
        "place" => "place A: the module and the row of address A\n",
        "order" => "\
order A: the references to address A in their serial order
order all: the table of all references in the one order, with when each was issued, served and answered
",
        _ => return None,
    })
}

fn report_usage(word: &[u8]) -> Option<&'static str> {
    let Ok(word) = str::from_utf8(word) else {
        return None;
    };
    Some(match word {
        "latency" => "\
latency [--processor P] [--network low|comb] [--address A] [--page N] [--hot|--cold] [--from T] [--to T]:
how long references waited for their replies: those of processor P alone, on one network, to address A, to page N,
to the hottest word or to all others, issued in the cycles from T to T; without these all
",
        "done" =>
            "done: when each processor had its last reply and came to the end of its script\n",
        "trace" =>
            "trace P I: where reference I of processor P, from 0, or the one that it was combined into, was at each cycle\n",
        "full" =>
            "full: which queues and wait buffers were full, in the order in which they first were\n",
        "busy" => "\
busy [--from T] [--to T]: how busy each stage of each network and each module was in the cycles from T to T, in percent;
without these in all
",
        "series" => "\
series --of GAUGE [--of GAUGE ..] [--from T] [--to T] [--bin N]: what the run shows at each of the cycles from T to T, or
summed over bins of N of them: a table with a column for each gauge
GAUGE is issued, answered, served, combined or waiting, with or without a component behind it, as served m0; or queue l0.0 f0,
stage low 1, busy low 1
",
        _ => return None,
    })
}

fn shell_usage(word: &[u8]) -> Option<&'static str> {
    let Ok(word) = str::from_utf8(word) else {
        return None;
    };
    Some(match word {
        "show" => "show: what the project is, in words\n",
        "script" => "script P: the entries of the script of processor P\n",
        "save" => "save F: writes the project as a file of format 2, a large one of format 3\n",
        "undo" =>
            "undo: takes back the last edit of this session that was accepted and not yet taken back, by edits that make it what it was\n",
        "help" => "help, help COMMAND: all commands, or what one does\n",
        "quit" => "quit: ends the session, where input is a terminal\n",
        _ => return None,
    })
}
