//! Runs of the shell and of the program.
use crate::again::again;
use crate::benches::fresh;
use bench_shell::{Reading, RunFault, Writing, run};
use command_line::{End, Folder, read_bytes, serve_words};
use project_file::ProjectFault;
use std::alloc::Global;
use std::io;
use std::io::{Error, ErrorKind};
use std::thread::Threads;
use worker_sessions::Hall;

const TYPED: &str = "reply 1 0
word 0 20
reply 1 0
state m0 6
counter served all 0 6
profile comb 0
tree comb 0
order 0
";

const ANSWERED: &str = "ok 0 at 6 word 11
ok 1
ok 1 at 6 word 21
ok 1 mod q0 [] q1 [] a0 [] a1 [] turn 0 served 0 mem [0=23]
ok 1 1
ok 1 13 1 0 0 0 0 0 0 0 0 0 0 0 0 0 0 0
ok 1 first -
ok 1 order 0.0 1.0
";

/// A list with room for all of the answers, so that no write is refused.
pub(crate) fn room(alloc: Global) -> Option<Vec<u8>> {
    again!(Vec::with_capacity(alloc, 1_024))
}

/// The bytes of a file.
pub(crate) fn read(alloc: Global) -> bool {
    match again!(read_bytes(alloc, TYPED.as_bytes())) {
        Some(bytes) => bytes.as_slice() == TYPED.as_bytes(),
        None => false,
    }
}

/// All of the answers, or a beginning of them with want of memory told.
pub(crate) fn answered<R: Threads + Sync>(rt: &R, alloc: Global) -> bool {
    let Some(mut bench) = fresh(alloc) else {
        return false;
    };
    let mut reader = TYPED.as_bytes();
    let Some(mut writer) = room(alloc) else {
        return false;
    };
    let ended = run(rt, alloc, &mut reader, &mut writer, &mut *bench);
    holds(
        ended == Ok(()),
        ended == Err(RunFault::Memory),
        &writer,
        ANSWERED.as_bytes(),
    )
}

/// Whether a run has written all answers, or was refused and has written a beginning of them.
pub(crate) fn holds(is_whole: bool, is_refused: bool, written: &[u8], answers: &[u8]) -> bool {
    (is_whole && written == answers) || (is_refused && answers.starts_with(written))
}

/// One file.
#[derive(Drop)]
struct OneFile {
    alloc: Global,
}

impl Folder for OneFile {
    ghost gives = { λ _ _ _. Unit {0} };

    fn read(&self, name: &str) -> io::Result<Vec<u8>> {
        if name != "m.toml" {
            return Err(Error::from(ErrorKind::NotFound));
        }
        Ok(Vec::from_slice(self.alloc, crate::projects::FILE.as_bytes())?)
    }
}

/// The program on these words ends well, or at its start for want of memory or of a thread, or as its run does.
pub(crate) fn served<R: Hall>(rt: &R, alloc: Global, words: &[&str]) -> bool {
    let folder = OneFile { alloc };
    let mut reader = TYPED.as_bytes();
    let Some(mut writer) = room(alloc) else {
        return false;
    };
    let mut source = Reading::within(&mut reader, u32::MAX);
    let mut sink = Writing::new(&mut writer);
    let stop = serve_words(rt, alloc, words, &folder, &mut source, &mut sink);
    let end = stop.end();
    let is_refused = matches!(
        end,
        End::CannotStart
            | End::NoFile(_)
            | End::Project(ProjectFault::Memory)
            | End::Served(RunFault::Memory)
    );
    holds(end == End::Ended, is_refused, &writer, ANSWERED.as_bytes())
}
