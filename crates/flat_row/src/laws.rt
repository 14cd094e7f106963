//! What the sets of labels are to the machine.
ghost use Rattle.flat_row.specs.Shows.{StagesDecide, EndsDecide};
ghost use Rattle.flat_row.specs.Rows.{RowsDecide, RowsTurn};

/// On every project and every whole state: where the marks of two levels and the turns between them are those of the state, what
/// a stage decides from them is what moves over its wires.
pub fn stages_decide()
    ensures { StagesDecide }
{}

/// The same of the wires at modules and at processors, and of which network a module serves.
pub fn ends_decide()
    ensures { EndsDecide }
{}

/// On every project and every row of its machine: what is decided from the marks of the row's levels is what moves in the whole state
/// that the row is.
pub fn rows_decide()
    ensures { RowsDecide }
{}

/// The same of the turns one cycle later.
pub fn rows_turn()
    ensures { RowsTurn }
{}
