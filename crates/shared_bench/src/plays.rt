// The table of the passes: its rule, and what each step of a seat tells.
use crate::carried::Carried;
use crate::view::{Opening, View};
use atomic_table::{Join, Play, Seat, Shared, Split, Table, TableRule};
use std::alloc::Global;

/// The rule. Word 0 is the length of the journal, word 1 how many tickets were handed out, word 2 the ticket that is
/// served, word 3 has a bit for each number drawn; the slot holds the bench.
pub struct Turns;

impl TableRule<Option<Carried>, View, Opening> for Turns {
    ghost use Rattle.shared_bench.specs.Rule.{Kept, first_view};

    ghost holds = { Kept };

    ghost first = { first_view };
}

/// The place of the journal's length among the words.
pub const LENGTH: usize = 0;

/// The place of the tickets handed out.
pub const TICKETS: usize = 1;

/// The place of the ticket that is served.
pub const SERVING: usize = 2;

/// The place of the numbers drawn.
pub const NUMBERS: usize = 3;

pub type TurnTable = Table<Option<Carried>, View, Opening, Turns, Global>;

pub type SharedTurns = Shared<Option<Carried>, View, Opening, Turns>;

pub type TurnSeat = Seat<Option<Carried>, View>;

/// A ticket is taken.
pub struct Takes;

impl Play<Option<Carried>, View> for Takes {
    ghost use Rattle.shared_bench.specs.Turn.{took};

    ghost then = { took };
}

/// The seat comes in where its ticket is served, and takes the slot.
pub struct Comes;

impl Play<Option<Carried>, View> for Comes {
    ghost use Rattle.shared_bench.specs.Turn.{comes};

    ghost then = { comes };
}

/// The first seat takes the slot, which is empty.
pub struct Fills;

impl Play<Option<Carried>, View> for Fills {
    ghost use Rattle.shared_bench.specs.Turn.{fills};

    ghost then = { fills };
}

/// The turn is passed, and the slot given back.
pub struct Leaves;

impl Play<Option<Carried>, View> for Leaves {
    ghost use Rattle.shared_bench.specs.Turn.{leaves};

    ghost then = { leaves };
}

/// The length of the journal is read.
pub struct Looks;

impl Play<Option<Carried>, View> for Looks {
    ghost use Rattle.shared_bench.specs.Turn.{lengths};

    ghost then = { lengths };
}

/// An edit is counted.
pub struct Counts;

impl Play<Option<Carried>, View> for Counts {
    ghost use Rattle.shared_bench.specs.Turn.{counts};

    ghost then = { counts };
}

/// A number is drawn.
pub struct Draws;

impl Play<Option<Carried>, View> for Draws {
    ghost use Rattle.shared_bench.specs.Turn.{draws};

    ghost then = { draws };
}

/// A new seat is split off.
pub struct Splits;

impl Split<View> for Splits {
    ghost use Rattle.shared_bench.specs.Turn.{newcomer};

    ghost left = { λ v. v };

    ghost right = { newcomer };
}

/// A seat is joined into another.
pub struct Joins;

impl Join<View> for Joins {
    ghost use Rattle.shared_bench.specs.Turn.{joined, nobody};

    ghost both = { joined };

    ghost spent = { nobody };
}
