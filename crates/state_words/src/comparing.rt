//! Components compared with words, word by word as they would be written. It takes no memory.
ghost use Rattle.std.specs.Prelude.{◌≡◌, ◌+◌, ◌*◌, ◌^◌, ◌↔◌, ℕ, IsTrue, List, [], ◌∷◌, Some, option_copied};
ghost use Rattle.state_words.specs.Messages.{message_words};
ghost use Rattle.state_words.specs.Words.{ports_words, option_words, proc_head, proc_body, module_head, module_body, low_head, low_body, comb_head, comb_body};

use crate::TwoWords;
use crate::heads::{comb_head, low_head, module_head, proc_head};
use comb_switch::CombState;
use low_switch::LowState;
use mem_module::ModuleState;
use omega_net::Queue;
use ref_proc::ProcState;

/// What follows a word where it is the first of these; nothing where it isn't.
fn past_word(words: Option<&[u64]>, word: u64) -> Option<&[u64]>
    ensures { (rest : List ℕ) → (option_copied words.entry ≡ Some (word ∷ rest)) ↔ (option_copied result ≡ Some rest) }
{
    match words {
        Some([first, rest @ ..]) if *first == word => Some(rest),
        _ => None,
    }
}

/// What follows a message.
fn past<'a, T: TwoWords>(words: Option<&'a [u64]>, message: &T) -> Option<&'a [u64]>
    ensures { (rest : List ℕ) → (option_copied words.entry ≡ Some (T.first message.now ∷ T.second message.now ∷ rest)) ↔ (option_copied result ≡ Some rest) }
{
    past_word(past_word(words, message.first()), message.second())
}

/// What follows messages in their order.
fn past_messages<'a, T: TwoWords>(words: Option<&'a [u64]>, messages: &[T]) -> Option<&'a [u64]>
    ensures { (rest : List ℕ) → (option_copied words.entry ≡ Some (message_words T.first T.second messages.now rest)) ↔ (option_copied result ≡ Some rest) }
{
    let mut left = words;
    for i in 0..messages.len() {
        left = past(left, &messages[i]);
    }
    left
}

/// What follows the messages of two ports.
fn past_ports<'a, T: TwoWords>(
    words: Option<&'a [u64]>,
    queues: &[Queue<T>; 2],
) -> Option<&'a [u64]>
    ensures { (rest : List ℕ) → (option_copied words.entry ≡ Some (ports_words T.first T.second queues.now rest)) ↔ (option_copied result ≡ Some rest) }
{
    let left = past_messages(words, queues[0].as_slice());
    past_messages(left, queues[1].as_slice())
}

/// What follows a message that is there; all of them where none is.
fn past_option<'a, T: TwoWords>(words: Option<&'a [u64]>, message: &Option<T>) -> Option<&'a [u64]>
    ensures { (rest : List ℕ) → (option_copied words.entry ≡ Some (option_words T.first T.second message.now rest)) ↔ (option_copied result ≡ Some rest) }
{
    match message {
        Some(message) => past(words, message),
        None => words,
    }
}

/// Whether nothing follows.
fn is_end(words: Option<&[u64]>) -> bool
    ensures { IsTrue result ↔ (option_copied words.entry ≡ Some []) }
{
    match words {
        Some([]) => true,
        _ => false,
    }
}

/// What a processor has spent and issued, as its second word has them.
fn counts(s: &ProcState) -> u64
    ensures { result ≡ s.now.spent + 2 ^ 32 * s.now.issued }
{
    s.spent as u64 + ((s.issued as u64) << 32)
}

fn is_proc_body(s: &ProcState, body: &[u64]) -> bool
    ensures { IsTrue result ↔ (proc_body s.now ≡ body.now) }
{
    let left = past_word(Some(body), counts(s));
    let left = past_option(left, &s.out);
    let left = past_option(left, &s.got[0]);
    is_end(past_option(left, &s.got[1]))
}

fn is_module_body(s: &ModuleState, body: &[u64]) -> bool
    ensures { IsTrue result ↔ (module_body s.now ≡ body.now) }
{
    let left = past_ports(Some(body), &s.requests);
    is_end(past_ports(left, &s.replies))
}

fn is_low_body(s: &LowState, body: &[u64]) -> bool
    ensures { IsTrue result ↔ (low_body s.now ≡ body.now) }
{
    let left = past_ports(Some(body), &s.fwd);
    is_end(past_ports(left, &s.rev))
}

fn is_comb_body(s: &CombState, body: &[u64]) -> bool
    ensures { IsTrue result ↔ (comb_body s.now ≡ body.now) }
{
    let left = past_ports(Some(body), &s.fwd);
    let left = past_ports(left, &s.rev);
    is_end(past_messages(left, s.wait.as_slice()))
}

/// Whether a processor's words are this head and what follows it here.
pub fn proc_has_words(s: &ProcState, head: u64, body: &[u64]) -> bool
    ensures { IsTrue result ↔ ((proc_head s.now ≡ head) × (proc_body s.now ≡ body.now)) }
{
    proc_head(s) == head && is_proc_body(s, body)
}

/// Whether a module's are, whatever its memory is.
pub fn module_has_words(s: &ModuleState, head: u64, body: &[u64]) -> bool
    ensures { IsTrue result ↔ ((module_head s.now ≡ head) × (module_body s.now ≡ body.now)) }
{
    module_head(s) == head && is_module_body(s, body)
}

/// Whether a low switch's are.
pub fn low_has_words(s: &LowState, head: u64, body: &[u64]) -> bool
    ensures { IsTrue result ↔ ((low_head s.now ≡ head) × (low_body s.now ≡ body.now)) }
{
    low_head(s) == head && is_low_body(s, body)
}

/// Whether a combining switch's are.
pub fn comb_has_words(s: &CombState, head: u64, body: &[u64]) -> bool
    ensures { IsTrue result ↔ ((comb_head s.now ≡ head) × (comb_body s.now ≡ body.now)) }
{
    comb_head(s) == head && is_comb_body(s, body)
}
