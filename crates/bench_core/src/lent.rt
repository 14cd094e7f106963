//! States that are shared, lent.
ghost use Rattle.std.specs.Prelude.{◌≡◌, IfOk, map, option_map};
ghost use Rattle.std.specs.Arc.{arc_value};
ghost use Rattle.std.specs.Option.{option_copied};

use grid_law::NoMemory;
use machine_cells::MachineState;
use std::alloc::Global;
use std::sync::Arc;

/// The state of which this is one more owner, where there is one.
pub(crate) fn lent(held: &Option<Arc<MachineState>>) -> Option<&MachineState>
    ensures { option_copied result ≡ option_map arc_value held.now }
{
    match held {
        Some(state) => Some(&**state),
        None => None,
    }
}

/// The states of a row.
///
/// # Errors
///
/// Where a growth was refused.
pub(crate) fn lend(alloc: Global, row: &[Arc<MachineState>]) -> Result<Vec<&MachineState>, NoMemory>
    ensures { IfOk result (λ lent. map (λ r. r.now) lent.items ≡ map arc_value row.now) }
{
    let mut lent = Vec::new(alloc);
    for state in row {
        lent.push(&**state)?;
    }
    Ok(lent)
}

/// The states of each row.
///
/// # Errors
///
/// As `lend`.
pub(crate) fn lend_all(
    alloc: Global,
    rows: &[Vec<Arc<MachineState>>],
) -> Result<Vec<Vec<&MachineState>>, NoMemory>
    ensures { IfOk result (λ lent. map (λ row. map (λ r. r.now) row.items) lent.items ≡ map (λ row. map arc_value row.items) rows.now) }
{
    let mut lent = Vec::new(alloc);
    for row in rows {
        lent.push(lend(alloc, row.as_slice())?)?;
    }
    Ok(lent)
}
