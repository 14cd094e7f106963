//! Answers as objects of JSON.
ghost use Rattle.std.specs.Prelude.{◌≡◌, ◌<◌, [], ◌∷◌, ◌++◌, codes, decimal, string_bytes, IfOk, OnOk};
ghost use Rattle.std.specs.Option.{unwrap_or};
ghost use Rattle.machine_cells.specs.Texts.{state_text};
ghost use Rattle.std.specs.List.{flat_map};
ghost use Rattle.run_queries.specs.declared.body.Body.{Body as AnyBody};
ghost use Rattle.bench_shell.specs.declared.answer.Answer.{Answer as AnyAnswer};
ghost use Rattle.lab_shell.specs.Json.{answer_object, array, body_fields, escaped_byte, field, fields, hex_digit, or_null, quoted, refusal, seated, tag_object, text_object};

use crate::manner::Seat;
use crate::reason::{bad_reason, reason_of, refused_reason};
use bench_shell::Answer;
use omega_net::Tag;
use run_queries::{Body, Received, SharedState};
use std::alloc::{AllocError, Global};

/// A digit in base 16.
fn hex_digit(value: u8) -> u8
    requires { value < 16 }
    ensures { result ≡ hex_digit value }
{
    if value < 10 {
        b'0' + value
    } else {
        b'W' + value
    }
}

/// Adds a byte of a string, escaped where it can't stand in one.
fn add_byte(out: &mut Vec<u8>, byte: u8) -> Result<(), AllocError>
    ensures { OnOk result (out.new.items ≡ out.old.items ++ escaped_byte byte) }
{
    if byte == b'"' {
        return out.extend_from_slice(b"\\\"".as_slice());
    }
    if byte == b'\\' {
        return out.extend_from_slice(b"\\\\".as_slice());
    }
    if byte == b'\n' {
        return out.extend_from_slice(b"\\n".as_slice());
    }
    if byte >= 32 {
        out.push(byte)?;
        return Ok(());
    }
    out.extend_from_slice(b"\\u00".as_slice())?;
    out.push(b'0' + byte / 16)?;
    out.push(hex_digit(byte % 16))?;
    Ok(())
}

/// Adds the bytes of a string, escaped where they can't stand in one.
fn add_bytes(out: &mut Vec<u8>, text: &[u8]) -> Result<(), AllocError>
    ensures { OnOk result (out.new.items ≡ out.old.items ++ flat_map escaped_byte text.now) }
{
    for byte in text {
        add_byte(out, *byte)?;
    }
    Ok(())
}

/// Adds a text as a string.
fn add_quoted(out: &mut Vec<u8>, text: &[u8]) -> Result<(), AllocError>
    ensures { OnOk result (out.new.items ≡ out.old.items ++ quoted text.now) }
{
    out.push(b'"')?;
    add_bytes(out, text)?;
    out.push(b'"')?;
    Ok(())
}

/// Adds the name of a field, and what stands before its value.
fn add_name(out: &mut Vec<u8>, name: &str) -> Result<(), AllocError>
    ensures { OnOk result (out.new.items ≡ out.old.items ++ field name.now []) }
{
    out.push(b'"')?;
    out.extend_from_slice(name.as_bytes())?;
    out.extend_from_slice(b"\":".as_slice())
}

/// Adds a number.
fn add_number(alloc: Global, out: &mut Vec<u8>, value: u64) -> Result<(), AllocError>
    ensures { OnOk result (out.new.items ≡ out.old.items ++ decimal value) }
{
    let text = format!(in alloc; "{value}")?;
    out.extend_from_slice(text.as_bytes())
}

/// Adds a field whose value is a number.
fn add_field(alloc: Global, out: &mut Vec<u8>, name: &str, value: u64) -> Result<(), AllocError>
    ensures { OnOk result (out.new.items ≡ out.old.items ++ field name.now (decimal value)) }
{
    add_name(out, name)?;
    add_number(alloc, out, value)
}

/// Adds a field whose value is a string.
fn add_string(out: &mut Vec<u8>, name: &str, text: &[u8]) -> Result<(), AllocError>
    ensures { OnOk result (out.new.items ≡ out.old.items ++ field name.now (quoted text.now)) }
{
    add_name(out, name)?;
    add_quoted(out, text)
}

/// Adds two fields whose values are numbers.
fn add_two(
    alloc: Global,
    out: &mut Vec<u8>,
    one: &str,
    value: u64,
    other: &str,
    more: u64,
) -> Result<(), AllocError>
    ensures { OnOk result (out.new.items ≡ out.old.items ++ fields (field one.now (decimal value)) (field other.now (decimal more))) }
{
    add_field(alloc, out, one, value)?;
    out.push(b',')?;
    add_field(alloc, out, other, more)
}

/// Adds a reply, or that there is none.
fn add_reply(alloc: Global, out: &mut Vec<u8>, received: Option<Received>) -> Result<(), AllocError>
    ensures { OnOk result (out.new.items ≡ out.old.items ++ body_fields (AnyBody.Reply received)) }
{
    match received {
        Some(received) => add_two(
            alloc,
            out,
            "cycle",
            u64::from(received.cycle),
            "word",
            u64::from(received.word),
        ),
        None => out.extend_from_slice(b"\"cycle\":null,\"word\":null".as_slice()),
    }
}

/// A state's text.
fn text_of_state(alloc: Global, state: &SharedState) -> Result<String, AllocError>
    ensures { IfOk result (λ text. string_bytes text ≡ unwrap_or (state_text state.now) []) }
{
    let text = format!(in alloc; "{state}")?;
    Ok(text)
}

/// Adds a state.
fn add_state(alloc: Global, out: &mut Vec<u8>, state: &SharedState) -> Result<(), AllocError>
    ensures { OnOk result (out.new.items ≡ out.old.items ++ body_fields (AnyBody.State state.now)) }
{
    let text = text_of_state(alloc, state)?;
    add_string(out, "state", text.as_bytes())
}

/// Adds a number, or that there is none.
fn add_or_null(alloc: Global, out: &mut Vec<u8>, value: Option<u32>) -> Result<(), AllocError>
    ensures { OnOk result (out.new.items ≡ out.old.items ++ or_null value) }
{
    match value {
        Some(value) => add_number(alloc, out, u64::from(value)),
        None => out.extend_from_slice(b"null".as_slice()),
    }
}

/// Adds a reference.
fn add_tag(alloc: Global, out: &mut Vec<u8>, tag: Tag) -> Result<(), AllocError>
    ensures { OnOk result (out.new.items ≡ out.old.items ++ tag_object tag) }
{
    let proc = u64::from(tag.proc);
    let issue = u64::from(tag.issue);
    out.push(b'{')?;
    add_two(alloc, out, "processor", proc, "reference", issue)?;
    out.push(b'}')?;
    Ok(())
}

/// What an array may hold.
trait Item {
    ghost use Rattle.std.specs.Prelude.{◌≡◌, ◌++◌, ℕ, List, OnOk};

    ghost text: { Self → List ℕ };

    /// Adds the item's text.
    fn add(&self, alloc: Global, out: &mut Vec<u8>) -> Result<(), AllocError>
        ensures { OnOk result (out.new.items ≡ out.old.items ++ text self.now) };
}

impl Item for u64 {
    ghost use Rattle.std.specs.Prelude.{decimal};

    ghost text = { decimal };

    fn add(&self, alloc: Global, out: &mut Vec<u8>) -> Result<(), AllocError> {
        add_number(alloc, out, *self)
    }
}

impl Item for Option<u32> {
    ghost use Rattle.lab_shell.specs.Json.{or_null};

    ghost text = { or_null };

    fn add(&self, alloc: Global, out: &mut Vec<u8>) -> Result<(), AllocError> {
        add_or_null(alloc, out, *self)
    }
}

impl Item for Tag {
    ghost use Rattle.lab_shell.specs.Json.{tag_object};

    ghost text = { tag_object };

    fn add(&self, alloc: Global, out: &mut Vec<u8>) -> Result<(), AllocError> {
        add_tag(alloc, out, *self)
    }
}

/// Adds an item behind a comma.
fn add_behind<T: Item>(alloc: Global, out: &mut Vec<u8>, item: &T) -> Result<(), AllocError>
    ensures { OnOk result (out.new.items ≡ out.old.items ++ 44 ∷ T.text item.now) }
{
    out.push(b',')?;
    item.add(alloc, out)
}

/// Adds items, each behind a comma.
fn add_later<T: Item>(alloc: Global, out: &mut Vec<u8>, items: &[T]) -> Result<(), AllocError>
    ensures { OnOk result (out.new.items ≡ out.old.items ++ flat_map (λ x. 44 ∷ T.text x) items.now) }
{
    for item in items {
        add_behind(alloc, out, item)?;
    }
    Ok(())
}

/// Adds an array that holds something.
fn add_some<T: Item>(
    alloc: Global,
    out: &mut Vec<u8>,
    first: &T,
    rest: &[T],
) -> Result<(), AllocError>
    ensures { OnOk result (out.new.items ≡ out.old.items ++ array T.text (first.now ∷ rest.now)) }
{
    out.push(b'[')?;
    first.add(alloc, out)?;
    add_later(alloc, out, rest)?;
    out.push(b']')?;
    Ok(())
}

/// Adds an array.
fn add_array<T: Item>(alloc: Global, out: &mut Vec<u8>, items: &[T]) -> Result<(), AllocError>
    ensures { OnOk result (out.new.items ≡ out.old.items ++ array T.text items.now) }
{
    match items {
        [] => out.extend_from_slice(b"[]".as_slice()),
        [first, rest @ ..] => add_some(alloc, out, first, rest),
    }
}

/// Adds a field whose value is an array.
fn add_list<T: Item>(
    alloc: Global,
    out: &mut Vec<u8>,
    name: &str,
    items: &[T],
) -> Result<(), AllocError>
    ensures { OnOk result (out.new.items ≡ out.old.items ++ field name.now (array T.text items.now)) }
{
    add_name(out, name)?;
    add_array(alloc, out, items)
}

/// Adds the fields of what a question is answered.
fn add_body(alloc: Global, out: &mut Vec<u8>, body: &Body) -> Result<(), AllocError>
    ensures { OnOk result (out.new.items ≡ out.old.items ++ body_fields body.now) }
{
    match body {
        Body::Reply(received) => add_reply(alloc, out, *received),
        Body::State(state) => add_state(alloc, out, state),
        Body::Word(word) => add_field(alloc, out, "word", u64::from(*word)),
        Body::Count(count) => add_field(alloc, out, "count", *count),
        Body::Profile(counts) => add_list(alloc, out, "profile", counts.as_slice()),
        Body::Tree(tree) => add_list(alloc, out, "first", tree.first.as_slice()),
        Body::Level(level) => add_field(alloc, out, "level", u64::from(*level)),
        Body::Fraction(numerator, denominator) => add_two(
            alloc,
            out,
            "numerator",
            *numerator,
            "denominator",
            *denominator,
        ),
        Body::Place(place) => add_two(
            alloc,
            out,
            "module",
            u64::from(place.module),
            "row",
            u64::from(place.row),
        ),
        Body::Order(tags) => add_list(alloc, out, "order", tags.as_slice()),
    }
}

/// Adds that something was accepted or answered, at a version, and what stands behind that.
fn add_ok(alloc: Global, out: &mut Vec<u8>, version: u32) -> Result<(), AllocError>
    ensures { OnOk result (out.new.items ≡ out.old.items ++ 123 ∷ field (codes "ok") (decimal version)) }
{
    out.push(b'{')?;
    add_field(alloc, out, "ok", u64::from(version))
}

/// Adds an accepted edit.
fn add_accepted(alloc: Global, out: &mut Vec<u8>, version: u32) -> Result<(), AllocError>
    ensures { OnOk result (out.new.items ≡ out.old.items ++ answer_object (AnyAnswer.Accepted version)) }
{
    add_ok(alloc, out, version)?;
    out.push(b'}')?;
    Ok(())
}

/// Adds the answer to a question.
fn add_told(alloc: Global, out: &mut Vec<u8>, version: u32, body: &Body) -> Result<(), AllocError>
    ensures { OnOk result (out.new.items ≡ out.old.items ++ answer_object (AnyAnswer.Told version body.now)) }
{
    add_ok(alloc, out, version)?;
    out.push(b',')?;
    add_body(alloc, out, body)?;
    out.push(b'}')?;
    Ok(())
}

/// Adds why something was refused, and the end of the object.
fn add_why(out: &mut Vec<u8>, why: &str) -> Result<(), AllocError>
    ensures { OnOk result (out.new.items ≡ out.old.items ++ 44 ∷ (field (codes "why") (quoted why.now) ++ 125 ∷ [])) }
{
    out.push(b',')?;
    add_string(out, "why", why.as_bytes())?;
    out.push(b'}')?;
    Ok(())
}

/// Adds a refusal with a number.
fn add_refused(
    alloc: Global,
    out: &mut Vec<u8>,
    name: &str,
    number: u8,
    why: &str,
) -> Result<(), AllocError>
    ensures { OnOk result (out.new.items ≡ out.old.items ++ refusal name.now (decimal number) why.now) }
{
    out.push(b'{')?;
    add_field(alloc, out, name, u64::from(number))?;
    add_why(out, why)
}

/// Adds a refusal with a word.
fn add_bad(out: &mut Vec<u8>, word: &str, why: &str) -> Result<(), AllocError>
    ensures { OnOk result (out.new.items ≡ out.old.items ++ refusal (codes "bad") (quoted word.now) why.now) }
{
    out.push(b'{')?;
    add_string(out, "bad", word.as_bytes())?;
    add_why(out, why)
}

/// Adds an answer as an object.
fn add_answer(alloc: Global, out: &mut Vec<u8>, answer: &Answer) -> Result<(), AllocError>
    ensures { OnOk result (out.new.items ≡ out.old.items ++ answer_object answer.now) }
{
    match answer {
        Answer::Accepted(version) => add_accepted(alloc, out, *version),
        Answer::Told(version, body) => add_told(alloc, out, *version, body),
        Answer::Refused(number) => {
            add_refused(alloc, out, "refused", *number, refused_reason(*number))
        }
        Answer::Bad(number) => add_refused(alloc, out, "bad", *number, bad_reason(*number)),
        Answer::BadLine => add_bad(out, "line", reason_of(answer)),
        Answer::BadCut => add_bad(out, "cut", reason_of(answer)),
        Answer::BadCommand => add_bad(out, "command", reason_of(answer)),
    }
}

/// An answer as an object, as it stands among those to one line.
pub(crate) fn answer_object(
    alloc: Global,
    seat: Seat,
    answer: &Answer,
) -> Result<Vec<u8>, AllocError>
    ensures { IfOk result (λ v. v.items ≡ seated seat (answer_object answer.now)) }
{
    let mut out = Vec::new(alloc);
    match seat {
        Seat::Alone => {
            add_answer(alloc, &mut out, answer)?;
            out.push(b'\n')?;
        }
        Seat::First => add_answer(alloc, &mut out, answer)?,
        Seat::Later => {
            out.push(b',')?;
            add_answer(alloc, &mut out, answer)?;
        }
    }
    Ok(out)
}

/// A text as an object in a line.
pub(crate) fn text_object(alloc: Global, text: &[u8]) -> Result<Vec<u8>, AllocError>
    ensures { IfOk result (λ v. v.items ≡ text_object text.now) }
{
    let mut out = Vec::new(alloc);
    out.push(b'{')?;
    add_string(&mut out, "text", text)?;
    out.push(b'}')?;
    out.push(b'\n')?;
    Ok(out)
}
