//! Time and memory, and the rows that they go to.
use crate::load::Load;
use anyhow::{Context, Result};
use std::io::Read;
use std::time::Instant;
use std::{fmt, fs};

/// How many nanoseconds it took since then.
pub fn taken(rt: &HostRuntime, since: Instant) -> Result<u64> {
    let nanoseconds = since.elapsed(rt)?.as_nanos();
    Ok(u64::try_from(nanoseconds).unwrap_or(u64::MAX))
}

/// How many nanoseconds something took that was done several times.
#[derive(Clone, Copy)]
pub struct Times {
    first: Option<u64>,
    least: u64,
    most: u64,
}

impl Times {
    /// It wasn't done yet.
    pub fn none() -> Times {
        Times {
            first: None,
            least: u64::MAX,
            most: 0,
        }
    }

    /// It was done once more, and took so long.
    pub fn and(self, nanoseconds: u64) -> Times {
        Times {
            first: self.first.or(Some(nanoseconds)),
            least: self.least.min(nanoseconds),
            most: self.most.max(nanoseconds),
        }
    }

    /// The shortest time.
    pub fn best(self) -> u64 {
        self.least
    }

    /// The longest time.
    pub fn worst(self) -> u64 {
        self.most
    }
}

/// So many things among so many.
#[derive(Clone, Copy)]
struct Each {
    all: u64,
    count: u64,
}

impl Each {
    /// So many hundredths.
    fn hundredths(self) -> u128 {
        u128::from(self.all)
            .saturating_mul(100)
            .checked_div(u128::from(self.count))
            .unwrap_or(0)
    }

    fn against(self, other: Each) -> Ratio {
        Ratio {
            one: self.all.saturating_mul(other.count),
            other: other.all.saturating_mul(self.count),
        }
    }
}

impl fmt::Display for Each {
    /// With one digit behind the point.
    fn fmt<W: fmt::Write>(&self, f: &mut fmt::Formatter<W>) -> fmt::Result {
        let tenths = self.hundredths() / 10;
        write!(f, "{}.{}", tenths / 10, tenths % 10)
    }
}

/// One number against another.
#[derive(Clone, Copy)]
pub struct Ratio {
    one: u64,
    other: u64,
}

impl Ratio {
    pub fn of(one: u64, other: u64) -> Ratio {
        Ratio { one, other }
    }

    /// The larger one.
    pub fn max(self, ratio: Ratio) -> Ratio {
        let (left, right) = (self.one as u128, ratio.one as u128);
        if left.saturating_mul(ratio.other as u128) < right.saturating_mul(self.other as u128) {
            ratio
        } else {
            self
        }
    }
}

impl fmt::Display for Ratio {
    /// So many times the other, or a part of it, with two digits behind the point.
    fn fmt<W: fmt::Write>(&self, f: &mut fmt::Formatter<W>) -> fmt::Result {
        let is_part = self.one < self.other;
        let (all, count) = if is_part {
            (self.other, self.one)
        } else {
            (self.one, self.other)
        };
        let times = Each { all, count }.hundredths();
        let (whole, tenth, hundredth) = (times / 100, times / 10 % 10, times % 10);
        if is_part {
            write!(f, "1/{whole}.{tenth}{hundredth}")
        } else {
            write!(f, "{whole}.{tenth}{hundredth} times")
        }
    }
}

/// So many nanoseconds, told as microseconds.
#[derive(Clone, Copy)]
pub struct Micros(pub u64);

impl fmt::Display for Micros {
    fn fmt<W: fmt::Write>(&self, f: &mut fmt::Formatter<W>) -> fmt::Result {
        let each = Each {
            all: self.0,
            count: 1_000,
        };
        write!(f, "{each} us")
    }
}

/// How many of so many things a second sees, of which all take so many nanoseconds.
pub fn a_second(count: u64, nanoseconds: u64) -> u64 {
    let each = u128::from(count)
        .saturating_mul(1_000_000_000)
        .checked_div(u128::from(nanoseconds))
        .unwrap_or(0);
    u64::try_from(each).unwrap_or(u64::MAX)
}

/// What something else took that was done beside it, so often at once.
#[derive(Clone, Copy)]
pub struct Beside<'a> {
    pub name: &'a str,
    pub all: u64,
    pub count: u64,
}

impl Beside<'_> {
    fn each(self) -> Each {
        Each {
            all: self.all,
            count: self.count,
        }
    }
}

/// Writes a row: what each of so many took at best and at first, in nanoseconds, and what the other took.
pub fn row_beside(
    rt: &HostRuntime,
    load: Load,
    what: &str,
    times: Times,
    count: u64,
    beside: Beside,
) -> Result<()> {
    let one = Each {
        all: times.least,
        count,
    };
    let first = Each {
        all: times.first.unwrap_or(0),
        count,
    };
    let (name, other) = (beside.name, beside.each());
    let ratio = one.against(other);
    eprintln!(rt; "{load}, {what}: {one} ns, at first {first} ns; {name} {other} ns: {ratio}")?;
    Ok(())
}

/// Writes a row: the bytes that each of so many cells takes, and that it takes elsewhere.
pub fn bytes_beside(
    rt: &HostRuntime,
    load: Load,
    bytes: u64,
    cells: u64,
    beside: Beside,
) -> Result<()> {
    let one = Each {
        all: bytes,
        count: cells,
    };
    let (name, other) = (beside.name, beside.each());
    let ratio = one.against(other);
    eprintln!(rt; "{load}, memory: {one} bytes a cell; {name} {other} bytes: {ratio}")?;
    Ok(())
}

/// The bytes of a page of memory.
const PAGE: u64 = 4096;

/// How many bytes of memory this process has of its own: pages of files, as those of its code, are left out.
pub fn resident(rt: &HostRuntime) -> Result<u64> {
    let pages = pages(rt).context("no /proc/self/statm")?;
    Ok(pages.saturating_mul(PAGE))
}

/// How many pages of memory the system says that this process has: all, less those of files.
fn pages(rt: &HostRuntime) -> Option<u64> {
    let mut bytes = Vec::new(rt.alloc());
    let file = fs::open(rt, "/proc/self/statm").ok()?;
    file.take(64).read_to_end(&mut bytes).ok()?;
    let text = std::str::from_utf8(&bytes).ok()?;
    let mut numbers = text.split(' ').skip(1);
    let all = numbers.next()?.parse::<u64>().ok()?;
    let of_files = numbers.next()?.parse::<u64>().ok()?;
    all.checked_sub(of_files)
}
