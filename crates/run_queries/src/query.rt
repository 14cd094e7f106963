//! Questions about the run of a project: what is wrong with their numbers, how far their answers look, and the numbers of these.
ghost use Rattle.std.specs.Prelude.{◌≡◌, ◌==◌, if◌then◌else◌, Some};
ghost use Rattle.run_queries.specs.Queries.{is_who, bad_window, bad_query, last_of, numbers_of, number_name, reach};

use grid_law::Grid;
use machine_cells::Rp3;
use monitor_sums::Counter;
use omega_net::Net;
use page_map::ADDRESSES;
use project_book::Project;
use saturation::bound;
use std::fmt;

/// A question about the run of a project. The numbers may be any: what the project doesn't have is refused.
#[derive(Clone, Copy, PartialEq, Eq, Hash, Debug)]
pub enum Query {
    /// When a processor received the reply to its reference of that issue number, and which word. Issue numbers count
    /// a processor's references from 0.
    Reply {
        proc: u32,
        issue: u32,
    },
    /// The state of a component, by its number, at a cycle.
    State {
        component: u32,
        cycle: u32,
    },
    /// The word of an address at a cycle.
    Memory {
        address: u32,
        cycle: u32,
    },
    /// The total of a counter over the cycles from one to another, both included, for one component by its number, or
    /// for all of them.
    Counter {
        counter: Counter,
        who: Option<u32>,
        from: u32,
        to: u32,
    },
    /// How often the output queues of a stage had each length, over all cycles up to the horizon.
    Profile {
        net: Net,
        stage: u32,
    },
    /// How far the queues towards a module were full, cycle by cycle: the growth of a saturated tree.
    Tree {
        net: Net,
        module: u32,
    },
    /// The same at one cycle.
    Level {
        net: Net,
        module: u32,
        cycle: u32,
    },
    /// The bound on the rate of each of `p` processors, where `a` of `b` references are hot.
    Bound {
        a: u32,
        b: u32,
        p: u32,
    },
    /// The module and the row of an address.
    Place {
        address: u32,
    },
    /// The serial order of the references to the word of an address.
    Order {
        address: u32,
    },
}

/// The cells of a run that the answer to a query looks at.
#[derive(Clone, Copy, PartialEq, Eq, Debug)]
pub enum Reach {
    /// None.
    Nothing,
    /// That of a component, by its number, at a cycle.
    State { component: u32, cycle: u32 },
    /// That of the module in which an address stands, at a cycle.
    Word { address: u32, cycle: u32 },
    /// All up to a cycle.
    To(u32),
}

impl Reach {
    /// The last cycle of these cells, where there are any.
    pub fn last(self) -> Option<u32>
        ensures { result ≡ last_of self }
    {
        match self {
            Reach::Nothing => None,
            Reach::State { cycle, .. } | Reach::Word { cycle, .. } | Reach::To(cycle) => Some(
                cycle,
            ),
        }
    }
}

/// Whether a component is there, where one is asked for.
fn is_there(project: &Project, who: Option<u32>) -> bool
    ensures { result ≡ is_who (project.now).k who }
{
    match who {
        Some(component) => component < Rp3::components(project),
        None => true,
    }
}

/// The reason against a window of cycles.
fn bad_window(project: &Project, from: u32, to: u32) -> Option<u8>
    ensures { result ≡ bad_window (project.now).horizon from to }
{
    if from > project.horizon() || to > project.horizon() {
        Some(2)
    } else if from > to {
        Some(5)
    } else {
        None
    }
}

impl Query {
    /// The first reason against the query that its numbers alone give: 1 where there is no such component, network
    /// stage, processor or module, 2 where a cycle is past the horizon, 3 where there is no such address, 5 where the
    /// window of cycles is empty, 6 where there is no such fraction.
    pub fn bad(self, project: &Project) -> Option<u8>
        ensures { result ≡ bad_query project.now self }
    {
        match self {
            Query::Reply { proc, .. } if proc >= project.processors() => Some(1),
            Query::State { component, .. } if component >= Rp3::components(project) => Some(1),
            Query::Counter { who, .. } if !is_there(project, who) => Some(1),
            Query::Profile { stage, .. } if stage >= project.k() => Some(1),
            Query::Tree { module, .. } | Query::Level { module, .. }
                if module >= project.processors() => { Some(1) }
            Query::State { cycle, .. } | Query::Memory { cycle, .. } | Query::Level { cycle, .. }
                if cycle > project.horizon() => { Some(2) }
            Query::Memory { address, .. } | Query::Place { address } | Query::Order { address }
                if address >= ADDRESSES => { Some(3) }
            Query::Counter { from, to, .. } => bad_window(project, from, to),
            Query::Bound { a, b, p } if bound(a, b, p).is_none() => Some(6),
            _ => None,
        }
    }

    /// The cells that the answer looks at, whatever the query's numbers are.
    pub fn reach(self, project: &Project) -> Reach
        ensures { result ≡ reach project.now self }
    {
        match self {
            Query::State { component, cycle } => Reach::State { component, cycle },
            Query::Memory { address, cycle } => Reach::Word { address, cycle },
            Query::Counter { to, .. } => Reach::To(to),
            Query::Level { cycle, .. } => Reach::To(cycle),
            Query::Reply { .. }
            | Query::Profile { .. }
            | Query::Tree { .. }
            | Query::Order { .. } => { Reach::To(project.horizon()) }
            Query::Bound { .. } | Query::Place { .. } => Reach::Nothing,
        }
    }

    /// How many numbers the answer has, in a machine of that k. A state and an order are texts, and count as one.
    pub fn numbers(self, k: u32) -> u32
        ensures { result ≡ numbers_of k self }
    {
        match self {
            Query::Reply { .. } | Query::Bound { .. } | Query::Place { .. } => 2,
            Query::Profile { .. } => 17,
            Query::Tree { .. } => k,
            Query::State { .. } | Query::Memory { .. } => 1,
            Query::Counter { .. } | Query::Level { .. } => 1,
            Query::Order { .. } => 1,
        }
    }
}

/// The first of two texts, or the other one.
fn one_of<'a>(first: &'a str, other: &'a str, place: u32) -> &'a str
    ensures { result.now ≡ (if place == 0 then first.now else other.now) }
{
    if place == 0 { first } else { other }
}

/// Which number of an answer one is, by its place from 0. It prints as what stands behind the query to tell it from the
/// answer's other numbers, ` cycle` and ` word` of a reply; as nothing where there is one alone.
#[derive(Clone, Copy, PartialEq, Eq, Debug)]
pub struct NumberName {
    pub query: Query,
    pub place: u32,
}

impl fmt::Display for NumberName {
    ghost output = { λ name. Some (number_name name.query name.place) };

    fn fmt<W: fmt::Write>(&self, f: &mut fmt::Formatter<W>) -> fmt::Result {
        let place = self.place;
        match self.query {
            Query::Reply { .. } => f.write_str(one_of(" cycle", " word", place)),
            Query::Profile { .. } => write!(f, " length {place}"),
            Query::Tree { .. } => {
                let level = u64::from(place) + 1;
                write!(f, " level {level}")
            }
            Query::Bound { .. } => f.write_str(one_of(" numerator", " denominator", place)),
            Query::Place { .. } => f.write_str(one_of(" module", " row", place)),
            Query::State { .. } | Query::Memory { .. } => Ok(()),
            Query::Counter { .. } | Query::Level { .. } => Ok(()),
            Query::Order { .. } => Ok(()),
        }
    }
}
