//! What references are: hot ones and others.
ghost use Rattle.std.specs.Prelude.{◌≡◌, All, IfOk, length};
ghost use Rattle.project_book.specs.Scripts.{IsEntry};
ghost use Rattle.drawn_scripts.specs.Draws.{IsMix, later, next_reference, next_references, reference};

use page_map::PAGE_WORDS;
use project_book::ScriptEntry;
use rand_pcg::Pcg32;
use rand_pcg::rand_core::utils::NextWord;
use std::alloc::{AllocError, Global};
use word_ops::{Kind, Op};

/// What references are: a share of them adds 1 to one hot word, each of the others loads a word of a page.
#[derive(Clone, Copy, PartialEq, Eq, Debug)]
pub struct Mix {
    /// Whether they go by the combining network.
    pub sync: bool,
    /// How many of a hundred are hot.
    pub hot: u32,
    /// The address of the hot word.
    pub word: u32,
    /// The page that the others are spread over.
    pub page: u32,
}

impl Mix {
    /// The reference that two drawn numbers make. Of a hundred values of the first number `hot` make the hot one; the second
    /// says which word of the page another one loads.
    pub fn reference(self, first: u32, second: u32) -> ScriptEntry
        requires { IsMix self }
        ensures drawn { result ≡ reference self first second }
        ensures entry { IsEntry result }
    {
        if first % 100 < self.hot {
            ScriptEntry::Reference {
                sync: self.sync,
                op: Op {
                    kind: Kind::Add,
                    operand: 1,
                },
                address: self.word,
                times: 1,
            }
        } else {
            ScriptEntry::Reference {
                sync: self.sync,
                op: Op {
                    kind: Kind::Load,
                    operand: 0,
                },
                address: self.page * PAGE_WORDS + second % PAGE_WORDS,
                times: 1,
            }
        }
    }

    /// The reference that the next two numbers of a generator make.
    pub(crate) fn next(self, generator: &mut Pcg32) -> ScriptEntry
        requires { IsMix self }
        ensures drawn { result ≡ next_reference self generator.old }
        ensures entry { IsEntry result }
        ensures later { generator.new ≡ later generator.old }
    {
        let first = generator.next_word();
        let second = generator.next_word();
        self.reference(first, second)
    }
}

/// So many references, each made by the next two numbers of a generator.
///
/// # Errors
///
/// Where a growth was refused. What was taken is given back.
pub fn references(
    alloc: Global,
    mix: Mix,
    generator: Pcg32,
    count: u32,
) -> Result<Vec<ScriptEntry>, AllocError>
    requires { IsMix mix }
    ensures count { IfOk result (λ es. length es.items ≡ count) }
    ensures entries { IfOk result (λ es. All IsEntry es.items) }
    ensures drawn { IfOk result (λ es. es.items ≡ next_references mix count generator) }
{
    let mut generator = generator;
    let mut entries = Vec::new(alloc);
    'drawn: for nth in 0..count {
        let _nth = nth;
        let reference = mix.next(&mut generator);
        entries.push(reference)?;
    }
    Ok(entries)
}
