//! How much a page shows.
ghost use Rattle.std.specs.Prelude.{◌≡◌, ◌≤◌, nat_le};
ghost use Rattle.project_book.specs.Limits.{max_horizon};
ghost use Rattle.machine_page.specs.Limits.{most_states, states_in};

use omega_net::Shape;

/// How many states of components a page shows at most: its cycles times the machine's components.
pub const MOST_STATES: u32 = 200_000;

/// The constant is the limit that the definitions have.
pub fn constants_are_limits()
    ensures { MOST_STATES ≡ most_states }
{}

/// Whether a page shows the cycles from one to another: whether they have at most [`MOST_STATES`] states.
pub fn is_short(shape: Shape, from: u32, to: u32) -> bool
    requires forward { from ≤ to }
    requires within { to ≤ max_horizon }
    ensures { result ≡ nat_le (states_in shape from to) most_states }
{
    (to - from + 1) * shape.components() <= MOST_STATES
}
