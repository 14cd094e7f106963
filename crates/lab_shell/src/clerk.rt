//! Who answers what the bench doesn't.
use crate::word::ShellWord;
use bench_shell::Answer;
use project_book::Project;
use std::alloc::{AllocError, Global};

/// What a request is answered.
#[derive(Drop)]
pub enum Said {
    /// Whole lines.
    Text(String),
    /// The request was refused, with this answer.
    Refused(Answer),
    /// The file can't be written.
    Unsaved,
}

/// Who answers requests about a project that stands as it is.
pub trait Clerk {
    ghost use Rattle.std.specs.Prelude.{ℕ, List, IfOk};
    ghost use Rattle.line_words.specs.Words.{words_of};
    ghost use Rattle.project_book.specs.Project.{Project as AnyProject};
    ghost use Rattle.lab_shell.specs.declared.clerk.Said.{Said as AnySaid};
    ghost use Rattle.lab_shell.specs.declared.word.ShellWord.{ShellWord as AnyWord};

    /// What may be said to a word, and to those behind it, about a project.
    ghost says: { Self → AnyProject → AnyWord → List (List ℕ) → AnySaid → Type 0 };

    /// The answer to a word of the shell and the words behind it.
    ///
    /// # Errors
    ///
    /// Where a growth was refused.
    fn say(
        &self,
        alloc: Global,
        project: &Project,
        word: ShellWord,
        argument: &[u8],
    ) -> Result<Said, AllocError>
        ensures { IfOk result (λ said. says self.now project.now word (words_of argument.now) said) };
}
