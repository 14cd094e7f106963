//! Tables as text: rows of fields with commas between.
ghost use Rattle.std.specs.Prelude.{◌≡◌, ◌≤◌, ◌<◌, ◌^◌, ◌==◌, Some};
ghost use Rattle.std.specs.List.{list_any};
ghost use Rattle.std.specs.Fmt.{WritesOnOk};
ghost use Rattle.lab_tasks.specs.Tables.{thousandths_text, processors_of, bound_of, cycles_of, rate_of, mean_of, delay_row, switch_text, network_text, machine_text, bound_text, is_quoted, doubled_char, doubled_text, field_text};

use experiments::Load;
use std::fmt;

/// A number with three places behind its point.
#[derive(Clone, Copy)]
pub struct Thousandths(pub u64);

impl fmt::Display for Thousandths {
    ghost use Rattle.lab_tasks.specs.Tables.{thousandths_text};

    ghost output = { λ n. Some (thousandths_text n.0) };

    fn fmt<W: fmt::Write>(&self, f: &mut fmt::Formatter<W>) -> fmt::Result {
        let whole = self.0 / 1000;
        let (tenths, hundredths, last) = (self.0 / 100 % 10, self.0 / 10 % 10, self.0 % 10);
        write!(f, "{whole}.{tenths}{hundredths}{last}")
    }
}

/// The processors of a machine: there are at most 2^6.
pub(crate) fn processors_of(k: u32) -> u64
    ensures number { result ≡ processors_of k }
    ensures some { 1 ≤ result }
    ensures most { result ≤ 64 }
{
    match k {
        0 => 1,
        1 => 2,
        2 => 4,
        3 => 8,
        4 => 16,
        5 => 32,
        _ => 64,
    }
}

/// The bound of Pfister and Norton (1985) on what so many processors are served in a cycle, in thousandths:
/// p / (1 + h (p - 1)), where h is a number of hundredths.
#[tactic(auto, unfolding(crate::specs::Tables::bound_of))]
pub(crate) fn bound_thousandths(processors: u64, hot: u32) -> u64
    requires { processors ≤ 64 }
    ensures { result ≡ bound_of processors hot }
{
    processors * 100_000 / (100 + u64::from(hot) * processors.saturating_sub(1))
}

/// What came of a load's run, from a cycle on to its last one.
#[derive(Clone, Copy)]
pub struct RatePoint {
    pub load: Load,
    /// The first cycle that is counted.
    pub first: u32,
    /// How many references were answered.
    pub answered: u32,
    /// How many requests modules served.
    pub served: u32,
}

/// The first row of the table of `rates`.
pub(crate) const RATE_HEADER: &str =
    "processors,combining,hot_percent,seed,first_cycle,cycles,answered,served,answered_per_cycle,served_per_cycle,bound\n";

pub(crate) fn switch(on: bool) -> &'static str
    ensures { result.now ≡ switch_text on }
{
    if on { "on" } else { "off" }
}

impl RatePoint {
    /// How many cycles are counted.
    pub fn cycles(&self) -> u64
        ensures { result ≡ cycles_of self.now }
    {
        (u64::from(self.load.cycles) + 1).saturating_sub(u64::from(self.first))
    }

    /// So many in these cycles are in one cycle, in thousandths.
    fn rate(&self, number: u32) -> u64
        ensures { result ≡ rate_of self.now number }
    {
        u64::from(number) * 1000 / self.cycles().max(1)
    }

    /// How many references were answered in a cycle, in thousandths.
    pub fn answered_rate(&self) -> u64
        ensures { result ≡ rate_of self.now self.now.answered }
    {
        self.rate(self.answered)
    }

    /// How many requests were served in a cycle, in thousandths.
    pub fn served_rate(&self) -> u64
        ensures { result ≡ rate_of self.now self.now.served }
    {
        self.rate(self.served)
    }
}

/// The machine of a load: how many processors, whether combining is on, how many of a hundred references are hot.
#[derive(Clone, Copy)]
pub(crate) struct Machine(pub Load);

impl fmt::Display for Machine {
    ghost output = { λ m. Some (machine_text m.0) };

    fn fmt<W: fmt::Write>(&self, f: &mut fmt::Formatter<W>) -> fmt::Result {
        let processors = processors_of(self.0.k);
        let combining = switch(self.0.combine);
        let hot = self.0.hot;
        write!(f, "{processors},{combining},{hot}")
    }
}

/// The bound of a load, as text.
#[derive(Clone, Copy)]
struct Bound(Load);

impl fmt::Display for Bound {
    ghost output = { λ b. Some (bound_text b.0) };

    fn fmt<W: fmt::Write>(&self, f: &mut fmt::Formatter<W>) -> fmt::Result {
        let processors = processors_of(self.0.k);
        let bound = Thousandths(bound_thousandths(processors, self.0.hot));
        write!(f, "{bound}")
    }
}

/// Which run it is, and which of its cycles are counted.
#[derive(Clone, Copy)]
struct Span(RatePoint);

impl fmt::Display for Span {
    ghost use Rattle.lab_tasks.specs.Tables.{span_text};

    ghost output = { λ s. Some (span_text s.0) };

    fn fmt<W: fmt::Write>(&self, f: &mut fmt::Formatter<W>) -> fmt::Result {
        let (seed, first) = (self.0.load.seed, self.0.first);
        let cycles = self.0.cycles();
        write!(f, "{seed},{first},{cycles}")
    }
}

/// What was counted.
#[derive(Clone, Copy)]
struct Counted(RatePoint);

impl fmt::Display for Counted {
    ghost use Rattle.lab_tasks.specs.Tables.{counted_text};

    ghost output = { λ s. Some (counted_text s.0) };

    fn fmt<W: fmt::Write>(&self, f: &mut fmt::Formatter<W>) -> fmt::Result {
        let (answered, served) = (self.0.answered, self.0.served);
        write!(f, "{answered},{served}")
    }
}

/// What was counted, in a cycle.
#[derive(Clone, Copy)]
struct Rates(RatePoint);

impl fmt::Display for Rates {
    ghost use Rattle.lab_tasks.specs.Tables.{rates_text};

    ghost output = { λ s. Some (rates_text s.0) };

    fn fmt<W: fmt::Write>(&self, f: &mut fmt::Formatter<W>) -> fmt::Result {
        let answered = Thousandths(self.0.answered_rate());
        let served = Thousandths(self.0.served_rate());
        write!(f, "{answered},{served}")
    }
}

/// All that was measured.
#[derive(Clone, Copy)]
struct Measured(RatePoint);

impl fmt::Display for Measured {
    ghost use Rattle.lab_tasks.specs.Tables.{measured_text};

    ghost output = { λ s. Some (measured_text s.0) };

    fn fmt<W: fmt::Write>(&self, f: &mut fmt::Formatter<W>) -> fmt::Result {
        let (span, counted, rates) = (Span(self.0), Counted(self.0), Rates(self.0));
        write!(f, "{span},{counted},{rates}")
    }
}

impl fmt::Display for RatePoint {
    ghost use Rattle.lab_tasks.specs.Tables.{rate_row};

    ghost output = { λ p. Some (rate_row p) };

    fn fmt<W: fmt::Write>(&self, f: &mut fmt::Formatter<W>) -> fmt::Result {
        let machine = Machine(self.load);
        let measured = Measured(*self);
        let bound = Bound(self.load);
        write!(f, "{machine},{measured},{bound}")
    }
}

/// How long the references of a load that aren't hot waited.
#[derive(Clone, Copy)]
pub struct DelayPoint {
    pub load: Load,
    /// How many replies came, and how many cycles they took in all.
    pub replies: u32,
    pub waited: u32,
}

/// The first row of the table of `delays`.
pub(crate) const DELAY_HEADER: &str =
    "network,processors,combining,hot_percent,replies,cycles_waited,mean_delay\n";

impl DelayPoint {
    /// The mean number of cycles in thousandths; 0 where there was no reply.
    pub fn mean(&self) -> u64
        ensures { result ≡ mean_of self.now }
    {
        u64::from(self.waited) * 1000 / u64::from(self.replies.max(1))
    }
}

/// The mean of a point, and nothing where there is no reply.
#[derive(Clone, Copy)]
struct Mean(DelayPoint);

impl fmt::Display for Mean {
    ghost use Rattle.lab_tasks.specs.Tables.{mean_text};

    ghost output = { λ m. Some (mean_text m.0) };

    #[tactic(auto, unfolding(crate::specs::Tables::mean_text))]
    fn fmt<W: fmt::Write>(&self, f: &mut fmt::Formatter<W>) -> fmt::Result {
        if self.0.replies == 0 {
            return Ok(());
        }
        let mean = Thousandths(self.0.mean());
        write!(f, "{mean}")
    }
}

pub(crate) fn network(sync: bool) -> &'static str
    ensures { result.now ≡ network_text sync }
{
    if sync { "combining" } else { "low" }
}

impl fmt::Display for DelayPoint {
    ghost output = { λ p. Some (delay_row p) };

    fn fmt<W: fmt::Write>(&self, f: &mut fmt::Formatter<W>) -> fmt::Result {
        let network = network(self.load.sync);
        let machine = Machine(self.load);
        let replies = self.replies;
        let waited = self.waited;
        let mean = Mean(*self);
        write!(f, "{network},{machine},{replies},{waited},{mean}")
    }
}

/// Whether a byte is in a text.
fn has(text: &str, byte: u8) -> bool
    ensures { result ≡ list_any (λ b. b == byte) text.now }
{
    text.as_bytes().iter().any(|b| *b == byte)
}

/// Whether a text has a comma or a quote.
fn is_quoted(text: &str) -> bool
    ensures { result ≡ is_quoted text.now }
{
    has(text, b',') || has(text, b'"')
}

/// Writes a character, and a quote twice.
fn write_doubled_char<W: fmt::Write>(f: &mut fmt::Formatter<W>, character: char) -> fmt::Result
    ensures { WritesOnOk W.write_str_gives f.old result (doubled_char character) f.new }
{
    if character == '"' {
        f.write_str("\"\"")
    } else {
        f.write_char(character)
    }
}

fn write_doubled<W: fmt::Write>(f: &mut fmt::Formatter<W>, text: &str) -> fmt::Result
    ensures { WritesOnOk W.write_str_gives f.old result (doubled_text text.now) f.new }
{
    for character in text.chars() {
        write_doubled_char(f, character)?;
    }
    Ok(())
}

/// A text that prints with each of its quotes twice.
#[derive(Clone, Copy)]
struct Doubled<'a>(&'a str);

impl fmt::Display for Doubled<'_> {
    ghost output = { λ text. Some (doubled_text text.0.now) };

    fn fmt<W: fmt::Write>(&self, f: &mut fmt::Formatter<W>) -> fmt::Result {
        write_doubled(f, self.0)
    }
}

/// A text as one field of a table: in quotes where it has a comma or a quote, and each quote is then written twice.
#[derive(Clone, Copy)]
pub struct Field<'a>(pub &'a str);

impl fmt::Display for Field<'_> {
    ghost output = { λ text. Some (field_text text.0.now) };

    #[tactic(auto, unfolding(crate::specs::Tables::field_text))]
    fn fmt<W: fmt::Write>(&self, f: &mut fmt::Formatter<W>) -> fmt::Result {
        if !is_quoted(self.0) {
            return f.write_str(self.0);
        }
        let doubled = Doubled(self.0);
        write!(f, "\"{doubled}\"")
    }
}
