//! The one order of a run's references, as a table or a diagram.
ghost use Rattle.std.specs.Prelude.{◌≡◌, ◌≤◌, IfErr, IfOk, IsOkUnless, Some, string_bytes};
ghost use Rattle.lab_tasks.specs.Orders.{issue_text, order_row, reply_text, rows_in, IsNoOrder, IsTableOrPicture, IsWindow};
ghost use Rattle.lab_tasks.specs.Tables.{table_text};
ghost use Rattle.lab_tasks.specs.Words.{text_of};

use crate::end::{End, Reason};
use crate::order_picture::order_picture;
use crate::plan::number_at;
use experiments::{Issue, OrderRow, Window, order_rows, rows_shown};
use project_book::Project;
use run_queries::Received;
use std::alloc::{AllocError, Global};
use std::fmt;
use std::fmt::Write;

/// What `order` and `page` are told.
#[derive(Clone, Copy)]
pub struct OrderWords<'a> {
    pub file: &'a str,
    pub from: Option<&'a str>,
    pub to: Option<&'a str>,
    pub out: Option<&'a str>,
}

/// The window of cycles that the words name.
pub(crate) fn order_window<'a>(words: &OrderWords<'a>, project: &Project) -> Result<Window, End<'a>>
    ensures told { IfOk result (IsWindow project.now words.now) }
    ensures refused { IfErr result (IsNoOrder project.now words.now) }
    ensures forward { IfOk result (λ window. window.from ≤ window.to) }
    ensures within { IfOk result (λ window. window.to ≤ project.now.horizon) }
{
    let horizon = project.horizon();
    let from = number_at("--from", words.from, 0, 0, horizon)?;
    let to = number_at("--to", words.to, horizon, 0, horizon)?;
    if to < from {
        return Err(End::Word {
            option: "--to",
            word: words.to.unwrap_or(""),
            reason: Reason::Backwards,
        });
    }
    Ok(Window { from, to })
}

/// The first row of the table.
const ORDER_HEADER: &str = "number,reference,word,issued,served,answered,old_word\n";

/// The address and the cycle of an issue; two empty fields where there is none.
#[derive(Clone, Copy)]
struct Issued(Option<Issue>);

impl fmt::Display for Issued {
    ghost output = { λ i. Some (issue_text i.0) };

    fn fmt<W: fmt::Write>(&self, f: &mut fmt::Formatter<W>) -> fmt::Result {
        match self.0 {
            Some(Issue { cycle, address, .. }) => write!(f, "{address},{cycle}"),
            None => write!(f, ","),
        }
    }
}

/// The cycle and the word of a reply; two empty fields where there is none.
#[derive(Clone, Copy)]
struct Replied(Option<Received>);

impl fmt::Display for Replied {
    ghost output = { λ r. Some (reply_text r.0) };

    fn fmt<W: fmt::Write>(&self, f: &mut fmt::Formatter<W>) -> fmt::Result {
        match self.0 {
            Some(Received { cycle, word }) => write!(f, "{cycle},{word}"),
            None => write!(f, ","),
        }
    }
}

/// A reference as a row of the table.
#[derive(Clone, Copy)]
struct Line(OrderRow);

impl fmt::Display for Line {
    ghost output = { λ line. Some (order_row line.0) };

    fn fmt<W: fmt::Write>(&self, f: &mut fmt::Formatter<W>) -> fmt::Result {
        let OrderRow {
            number,
            tag,
            issue,
            served,
            reply,
        } = self.0;
        let issued = Issued(issue);
        let replied = Replied(reply);
        write!(f, "{number},{tag},{issued},{served},{replied}")
    }
}

/// The table of some references.
fn order_table(alloc: Global, rows: &[OrderRow]) -> Result<String, AllocError>
    ensures { IfOk result (λ text. string_bytes text ≡ table_text ORDER_HEADER.now order_row rows.now) }
{
    let mut text = String::from_str(alloc, ORDER_HEADER)?;
    for row in rows {
        let line = Line(*row);
        writeln!(text, "{line}")?;
    }
    Ok(text)
}

/// The diagram where a file is named for it, else the table, of the references that waited in a window of cycles.
pub(crate) fn order_text<'a>(
    alloc: Global,
    words: &OrderWords<'a>,
    project: &Project,
    window: Window,
) -> Result<String, End<'a>>
    ensures text { IfOk result (λ text. IsTableOrPicture (text_of words.now.out) project.now window (rows_in project.now window) (string_bytes text)) }
    ensures memory { IsOkUnless result End.Memory }
{
    let all = order_rows(alloc, project)?;
    let rows = rows_shown(alloc, all.as_slice(), window)?;
    match words.out {
        Some(_) => {
            let processors = project.shape().lines() as u8;
            Ok(order_picture(alloc, processors, window, rows.as_slice())?)
        }
        None => Ok(order_table(alloc, rows.as_slice())?),
    }
}
