//! Components written as words, all of them or none.
ghost use Rattle.std.specs.Prelude.{◌≡◌, ◌+◌, ◌≤◌, ◌++◌, ◌∷◌, length, vec_len, vec_capacity, OnOk, OnErr, IsOk};
ghost use Rattle.state_words.specs.Words.{proc_head, proc_body, module_head, module_body, low_head, low_body, comb_head, comb_body};

use crate::heads::{comb_head, low_head, module_head, one_if, proc_head, sizes};
use crate::writing::{write_messages, write_option, write_ports, write_word};
use comb_switch::CombState;
use low_switch::LowState;
use mem_module::ModuleState;
use ref_proc::ProcState;
use std::alloc::AllocError;

/// Appends a processor's words: its head, and what follows it. It takes memory only where there is no room for them, as those below.
///
/// # Errors
///
/// Where the growth was refused. Then nothing was appended.
#[tactic(auto, using(crate::proofs::Measuring::proc_long))]
#[inline(always)]
pub fn write_proc(words: &mut Vec<u64>, s: &ProcState) -> Result<(), AllocError>
    ensures ok { OnOk result (words.new.items ≡ words.old.items ++ proc_head s.now ∷ proc_body s.now) }
    ensures err { OnErr result (words.new.items ≡ words.old.items) }
    ensures room { vec_len words.old + 1 + length (proc_body s.now) ≤ vec_capacity words.old → IsOk result }
{
    let messages = one_if(s.out.is_some())
        + one_if(s.got[0].is_some())
        + one_if(s.got[1].is_some());
    words.reserve(2 + 2 * messages as usize)?;
    write_word(words, proc_head(s));
    write_word(words, s.spent as u64 + ((s.issued as u64) << 32));
    write_option(words, &s.out);
    write_option(words, &s.got[0]);
    write_option(words, &s.got[1]);
    Ok(())
}

/// Appends a module's words, those of its memory left out.
///
/// # Errors
///
/// Where the growth was refused. Then nothing was appended.
#[tactic(auto, using(crate::proofs::Measuring::module_long))]
pub fn write_module(words: &mut Vec<u64>, s: &ModuleState) -> Result<(), AllocError>
    ensures ok { OnOk result (words.new.items ≡ words.old.items ++ module_head s.now ∷ module_body s.now) }
    ensures err { OnErr result (words.new.items ≡ words.old.items) }
    ensures room { vec_len words.old + 1 + length (module_body s.now) ≤ vec_capacity words.old → IsOk result }
{
    let (requests, replies) = (sizes(&s.requests), sizes(&s.replies));
    words.reserve(1 + 2 * (requests.0 + requests.1 + replies.0 + replies.1))?;
    write_word(words, module_head(s));
    write_ports(words, &s.requests);
    write_ports(words, &s.replies);
    Ok(())
}

/// Appends a low switch's words.
///
/// # Errors
///
/// Where the growth was refused. Then nothing was appended.
#[tactic(auto, using(crate::proofs::Measuring::low_long))]
pub fn write_low(words: &mut Vec<u64>, s: &LowState) -> Result<(), AllocError>
    ensures ok { OnOk result (words.new.items ≡ words.old.items ++ low_head s.now ∷ low_body s.now) }
    ensures err { OnErr result (words.new.items ≡ words.old.items) }
    ensures room { vec_len words.old + 1 + length (low_body s.now) ≤ vec_capacity words.old → IsOk result }
{
    let (requests, replies) = (sizes(&s.fwd), sizes(&s.rev));
    words.reserve(1 + 2 * (requests.0 + requests.1 + replies.0 + replies.1))?;
    write_word(words, low_head(s));
    write_ports(words, &s.fwd);
    write_ports(words, &s.rev);
    Ok(())
}

/// Appends a combining switch's words.
///
/// # Errors
///
/// Where the growth was refused. Then nothing was appended.
#[tactic(auto, using(crate::proofs::Measuring::comb_long))]
pub fn write_comb(words: &mut Vec<u64>, s: &CombState) -> Result<(), AllocError>
    ensures ok { OnOk result (words.new.items ≡ words.old.items ++ comb_head s.now ∷ comb_body s.now) }
    ensures err { OnErr result (words.new.items ≡ words.old.items) }
    ensures room { vec_len words.old + 1 + length (comb_body s.now) ≤ vec_capacity words.old → IsOk result }
{
    let (requests, replies) = (sizes(&s.fwd), sizes(&s.rev));
    let waits = s.wait.len();
    words.reserve(1 + 2 * (requests.0 + requests.1 + replies.0 + replies.1 + waits))?;
    write_word(words, comb_head(s));
    write_ports(words, &s.fwd);
    write_ports(words, &s.rev);
    write_messages(words, s.wait.as_slice());
    Ok(())
}
