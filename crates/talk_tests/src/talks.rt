//! What a session writes.
use bench_core::Bench;
use bench_shell::{Answer, RunFault, Writing};
use expect::equal;
use lab_shell::{Clerk, Ended, Manner, Said, ShellWord, Voice, lines_of_range, request, talk};
use project_book::Project;
use std::alloc::{AllocError, Global};
use std::test::Fail;
use std::thread::Threads;

/// Somebody who says how many processors there are, to `done` an odd text, and refuses to save.
struct Counting;

/// A quote, a backslash, a byte that is no sign, and a letter of two bytes.
const ODD: &str = "\"a\\b\"\u{1b}\u{e9}\n";

impl Clerk for Counting {
    ghost says = { λ _ _ _ _ _. Unit {0} };

    fn say(
        &self,
        alloc: Global,
        project: &Project,
        word: ShellWord,
        _argument: &[u8],
    ) -> Result<Said, AllocError> {
        if word == ShellWord::Save {
            return Ok(Said::Unsaved);
        }
        if word == ShellWord::Latency {
            return Ok(Said::Refused(Answer::BadCommand));
        }
        if word == ShellWord::Done {
            let text = format!(in alloc; "{ODD}")?;
            return Ok(Said::Text(text));
        }
        let processors = project.processors();
        let text = format!(in alloc; "{processors} processors\n")?;
        Ok(Said::Text(text))
    }
}

fn bench(alloc: Global) -> Result<Box<Bench>, Fail> {
    let project = Project::built_in(alloc)?;
    let bench = Bench::new(alloc, project, 0).ok().ok_or("no memory")?;
    Ok(Box::new(alloc, bench)?)
}

/// How a session on the built-in project ends, and what it writes.
fn talked<R: AllocGlobal + Threads + Sync>(
    rt: &R,
    manner: Manner,
    input: &[u8],
) -> Result<(Result<Ended, RunFault>, Vec<u8>), Fail> {
    let mut desk = bench(rt.alloc())?;
    let mut reader = input;
    let mut written = Vec::new(rt.alloc());
    let ended = {
        let mut sink = Writing::new(&mut written);
        talk(
            rt,
            rt.alloc(),
            manner,
            &Counting,
            &mut reader,
            &mut sink,
            &mut *desk,
        )
    };
    Ok((ended, written))
}

const PLAIN: Manner = Manner {
    voice: Voice::Plain,
    strict: false,
};

const FOR_PEOPLE: Manner = Manner {
    voice: Voice::People,
    strict: false,
};

const STRICT: Manner = Manner {
    voice: Voice::Plain,
    strict: true,
};

const JSON: Manner = Manner {
    voice: Voice::Json,
    strict: false,
};

const STRICT_JSON: Manner = Manner {
    voice: Voice::Json,
    strict: true,
};

const SESSION: &[u8] =
    b"word 0 10\nentry 0 0 sync add 0 1\nshow\nreply 0 0\nhelp quit\nhelp wrod\nreply 0 1\nquit\nword 0 1\n";

#[test]
fn sessions_are_answered(rt: HostRuntime) -> Result<(), Fail> {
    let told: [(Manner, &[u8], Ended, &[u8]); 14] = [
        (
            PLAIN,
            SESSION,
            Ended::Input,
            b"ok 1\nok 2\n1 processors\nok 2 at 4 word 10\nquit: ends the session, where input is a terminal\nbad command\nbad 4\n\
bad command\nok 3\n",
        ),
        (
            FOR_PEOPLE,
            b"depth wait 1\nwait 0\nquit",
            Ended::Input,
            b"> bad command: there is no such command; help lists them\n\
> refused 9: a depth is 2 to 16, of comb-reverse 4 to 16, of wait 1 to 16\n\
> bad cut: the input ends within the line\n",
        ),
        (
            FOR_PEOPLE,
            b"depth low_forward 3\nhorizn 9\nfoo 0\nexit\nquit\n",
            Ended::Quit,
            b"> bad command: there is no such command; is it low-forward?\n\
> bad command: there is no such command; is it horizon?\n\
> bad command: there is no such command; help lists them\n\
> bad command: there is no such command; is it quit?\n> ",
        ),
        (
            PLAIN,
            b"depth low_forward 3\n",
            Ended::Input,
            b"bad command\n",
        ),
        (FOR_PEOPLE, b"", Ended::Input, b"> "),
        (
            STRICT,
            b"word 0 1\nword 0 2\n",
            Ended::Input,
            b"ok 1\nok 2\n",
        ),
        (
            STRICT,
            b"word 0 1\nword 16384 2\nword 0 2\n",
            Ended::Refused,
            b"ok 1\nrefused 5\n",
        ),
        (STRICT, b"save f\nshow\n", Ended::Refused, b"bad file\n"),
        (STRICT, b"quit\nshow\n", Ended::Refused, b"bad command\n"),
        (
            FOR_PEOPLE,
            b"save f\nlatency --form 3\nlatency x\n",
            Ended::Input,
            b"> bad file: it can't be written\n\
> bad command: there is no such command; is it --from?\n\
> bad command: there is no such command; help lists them\n> ",
        ),
        (
            PLAIN,
            b"undo\nword 0 10\nentry 0 0 sync add 0 1\nentry 0 1 fence\ncut 0 0\nundo\nreply 0 0\n\
undo\nundo\nundo\nreply 0 0\nundo\n",
            Ended::Input,
            b"bad command\nok 1\nok 2\nok 3\nok 4\nok 5\nok 6\nok 6 at 4 word 10\n\
ok 7\nok 8\nok 9\nbad 4\nbad command\n",
        ),
        (
            FOR_PEOPLE,
            b"undo\nwindow 0\nwindow 2\nundo\n",
            Ended::Input,
            b"> bad command: there is nothing to undo\n> refused 10: a window is 1 to 8\n> ok 1\n> ok 2\n> ",
        ),
        (
            PLAIN,
            b"entry 0..1 0 sync add 0 1\ncut 0..0 0\nentry 1..0 0 fence\n",
            Ended::Input,
            b"ok 1\nrefused 2\nok 2\nbad command\n",
        ),
        (
            STRICT,
            b"entry 0..2 0 fence\nundo\n",
            Ended::Refused,
            b"ok 1\nrefused 2\n",
        ),
    ];
    for (manner, input, want, answers) in told {
        let (ended, written) = talked(&rt, manner, input)?;
        assert!(rt; equal(&rt, ended, Ok(want)));
        assert!(rt; equal(&rt, written.as_slice(), answers));
    }
    Ok(())
}

/// A line for each line, whatever that is answered.
#[test]
fn objects_are_answered(rt: HostRuntime) -> Result<(), Fail> {
    let told: [(Manner, &[u8], Ended, &[u8]); 5] = [
        (
            JSON,
            b"word 0 10\nentry 0..1 0 sync add 0 1\nreply 0 0\nreply 0 1\nundo\nundo\nundo\nquit\nword 0 1",
            Ended::Input,
            b"{\"ok\":1}\n\
{\"answers\":[{\"ok\":2},{\"refused\":2,\"why\":\"there is no such processor\"}]}\n\
{\"ok\":2,\"cycle\":4,\"word\":10}\n\
{\"bad\":4,\"why\":\"the processor issues no such reference by the horizon\"}\n\
{\"answers\":[{\"ok\":3}]}\n\
{\"answers\":[{\"ok\":4}]}\n\
{\"bad\":\"command\",\"why\":\"there is nothing to undo\"}\n\
{\"bad\":\"command\",\"why\":\"there is no such command; help lists them\"}\n\
{\"bad\":\"cut\",\"why\":\"the input ends within the line\"}\n",
        ),
        (
            JSON,
            b"entry 0 0 fence\nentry 0 1 fence\nentry 0 2 fence\ncut 0 1\nundo\n",
            Ended::Input,
            b"{\"ok\":1}\n{\"ok\":2}\n{\"ok\":3}\n{\"ok\":4}\n{\"answers\":[{\"ok\":5},{\"ok\":6}]}\n",
        ),
        (
            JSON,
            b"help quit\nhelp wrod\nshow\ndone\nsave f\nlatency x\n",
            Ended::Input,
            b"{\"text\":\"quit: ends the session, where input is a terminal\\n\"}\n\
{\"bad\":\"command\",\"why\":\"there is no such command; help lists them\"}\n\
{\"text\":\"1 processors\\n\"}\n\
{\"text\":\"\\\"a\\\\b\\\"\\u001b\xc3\xa9\\n\"}\n\
{\"bad\":\"file\",\"why\":\"it can't be written\"}\n\
{\"bad\":\"command\",\"why\":\"there is no such command; help lists them\"}\n",
        ),
        (
            STRICT_JSON,
            b"entry 0..2 0 fence\nundo\n",
            Ended::Refused,
            b"{\"answers\":[{\"ok\":1},{\"refused\":2,\"why\":\"there is no such processor\"}]}\n",
        ),
        (JSON, b"", Ended::Input, b""),
    ];
    for (manner, input, want, answers) in told {
        let (ended, written) = talked(&rt, manner, input)?;
        assert!(rt; equal(&rt, ended, Ok(want)));
        assert!(rt; equal(&rt, written.as_slice(), answers));
    }
    Ok(())
}

#[test]
fn a_long_line_is_an_object(rt: HostRuntime) -> Result<(), Fail> {
    let mut line = Vec::new(rt.alloc());
    for _ in 0..4097 {
        line.push(b'a')?;
    }
    line.push(b'\n')?;
    let (ended, written) = talked(&rt, JSON, line.as_slice())?;
    assert!(rt; equal(&rt, ended, Ok(Ended::Input)));
    assert!(rt;
        equal(
            &rt,
            written.as_slice(),
            b"{\"bad\":\"line\",\"why\":\"a line has at most 4096 bytes\"}\n".as_slice()
        )
    );
    Ok(())
}

#[test]
fn lines_are_requests(rt: HostRuntime) {
    let asked: [(&[u8], Option<ShellWord>); 16] = [
        (b"quit", Some(ShellWord::Quit)),
        (b" help\t", Some(ShellWord::Help)),
        (b"help page", Some(ShellWord::HelpOn)),
        (b"script 3", Some(ShellWord::Script)),
        (b"save a.toml", Some(ShellWord::Save)),
        (b"save", None),
        (b"save a b", None),
        (b"word 0 1", None),
        (b"latency --from 3 --to 5", Some(ShellWord::Latency)),
        (b"busy", Some(ShellWord::Busy)),
        (b"series --of served m0", Some(ShellWord::Series)),
        (b"order all", Some(ShellWord::OrderAll)),
        (b"order 3", None),
        (b"show all", None),
        (b"undo", Some(ShellWord::Undo)),
        (b"undo 1", None),
    ];
    for (line, want) in asked {
        assert!(rt; equal(&rt, request(true, line).map(|(word, _argument)| word), want));
    }
    assert!(rt; equal(&rt, request(false, b"quit").is_none(), true));
    assert!(rt; equal(&rt, request(false, b"show").is_some(), true));
}

#[test]
fn ranges_are_lines(rt: HostRuntime) -> Result<(), Fail> {
    let ranged: [(&[u8], usize); 7] = [
        (b"entry 0..63 0 fence", 64),
        (b"entry 0..64 0 fence", 0),
        (b"cut 3..3 0", 1),
        (b"cut 4..3 0", 0),
        (b"cut 1.3 0", 0),
        (b"word 0..1 0", 0),
        (b"entry 0 0 fence", 0),
    ];
    for (line, want) in ranged {
        let lines = lines_of_range(rt.alloc(), line)?;
        assert!(rt; equal(&rt, lines.len(), want));
    }
    let lines = lines_of_range(rt.alloc(), b" entry  9..10 4\tidle 2 ")?;
    assert!(rt; equal(&rt, lines[0].as_slice(), b"entry 9 4 idle 2".as_slice()));
    assert!(rt; equal(&rt, lines[1].as_slice(), b"entry 10 4 idle 2".as_slice()));
    Ok(())
}
