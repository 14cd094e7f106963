//! A trace as text.
ghost use Rattle.std.specs.Prelude.{◌≡◌, ◌++◌, IfOk, OnOk, codes, string_bytes};
ghost use Rattle.run_reports.specs.TraceTexts.{further_text, period_text, place_text, span_text, trace_text, within_text};

use crate::Span;
use omega_net::{Component, Shape, Tag};
use std::alloc::{AllocError, Global};
use std::fmt;
use std::fmt::Write;

/// A component, under its name.
#[derive(Clone, Copy)]
pub(crate) struct Place(pub(crate) Option<Component>);

impl fmt::Display for Place {
    ghost use Rattle.std.specs.Prelude.{Some};

    ghost output = { λ p. Some (place_text p.0) };

    fn fmt<W: fmt::Write>(&self, f: &mut fmt::Formatter<W>) -> fmt::Result {
        match self.0 {
            Some(component) => write!(f, "{component}"),
            None => Ok(()),
        }
    }
}

/// The cycles from one to another.
#[derive(Clone, Copy)]
struct Period {
    from: u32,
    to: u32,
}

impl fmt::Display for Period {
    ghost use Rattle.std.specs.Prelude.{Some};

    ghost output = { λ p. Some (period_text p.from p.to) };

    fn fmt<W: fmt::Write>(&self, f: &mut fmt::Formatter<W>) -> fmt::Result {
        let Period { from, to } = *self;
        if from == to {
            write!(f, "{from}")
        } else {
            write!(f, "{from}-{to}")
        }
    }
}

/// The reference in whose message another one is.
#[derive(Clone, Copy)]
struct Within {
    tag: Tag,
    carrier: Tag,
}

impl fmt::Display for Within {
    ghost use Rattle.std.specs.Prelude.{Some};

    ghost output = { λ w. Some (within_text w.tag w.carrier) };

    fn fmt<W: fmt::Write>(&self, f: &mut fmt::Formatter<W>) -> fmt::Result {
        let Within { tag, carrier } = *self;
        if carrier == tag {
            Ok(())
        } else {
            write!(f, " in p{carrier}")
        }
    }
}

/// Adds a span.
fn add_span(text: &mut String, shape: Shape, tag: Tag, span: &Span) -> Result<(), AllocError>
    ensures { OnOk result (string_bytes text.new ≡ string_bytes text.old ++ span_text shape tag span.now) }
{
    let place = Place(shape.component(span.spot.place));
    let (from, to) = (span.from, span.to);
    let period = Period { from, to };
    let carrier = span.spot.carrier;
    let within = Within { tag, carrier };
    write!(text, "{place} {period}{within}")
}

/// Adds further spans, each behind a comma.
fn add_further(text: &mut String, shape: Shape, tag: Tag, spans: &[Span]) -> Result<(), AllocError>
    ensures { OnOk result (string_bytes text.new ≡ string_bytes text.old ++ further_text shape tag spans.now) }
{
    for span in spans {
        write!(text, ", ")?;
        add_span(text, shape, tag, span)?;
    }
    Ok(())
}

/// The trace of a reference as a line: each span with its component, its cycles, and the other reference in whose message it was,
/// as `p3 12-13, c0.3 14-18, c1.2 19-23 in p1.4, m0 28 in p1.4`; `none` where there is none.
///
/// # Errors
///
/// Where a growth was refused. What was taken is given back.
pub fn trace_text(
    alloc: Global,
    shape: Shape,
    tag: Tag,
    spans: &[Span],
) -> Result<String, AllocError>
    ensures { IfOk result (λ text. string_bytes text ≡ trace_text shape tag spans.now) }
{
    let mut text = String::new(alloc);
    match spans {
        [] => write!(text, "none")?,
        [first, rest @ ..] => {
            add_span(&mut text, shape, tag, first)?;
            add_further(&mut text, shape, tag, rest)?;
        }
    }
    write!(text, "\n")?;
    Ok(text)
}
