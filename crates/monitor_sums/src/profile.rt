//! How often the output queues of a stage were of each length.
ghost use Rattle.std.specs.Prelude.{◌≡◌, ℕ, ◌+◌, ◌*◌, ◌<◌, ◌≤◌, ◌^◌, ◌==◌, length, slice_index, slice_index_or, vec_len, []};
ghost use Rattle.omega_net.specs.declared.component.Net.{Net as NetIs};
ghost use Rattle.omega_net.specs.Numbers.{components};
ghost use Rattle.monitor_sums.specs.Counts.{one, AreShort};
ghost use Rattle.monitor_sums.specs.Sums.{of_length, in_profile};
ghost use Rattle.monitor_sums.specs.Whole.{profile_place, profile_at};
ghost use Rattle.monitor_sums.specs.Limits.{profile_lengths};

use omega_net::{Component, Net, QUEUE_PLACES, Shape};

/// How many lengths a queue can have: from 0 to the places that it has.
pub const LENGTHS: usize = QUEUE_PLACES + 1;

/// At place n the pairs of a queue and a cycle at which its length is n.
pub type Profile = [u64; LENGTHS];

/// So many queues of that length less.
fn less(profile: &mut Profile, length: u8, cells: u32)
    requires short { length < profile_lengths }
    requires held { cells ≤ slice_index profile.old length }
    ensures { (n : ℕ) → n < profile_lengths → slice_index profile.new n + one (length == n) * cells ≡ slice_index profile.old n }
{
    profile[usize::from(length)] -= u64::from(cells);
}

/// So many queues of that length more.
fn more(profile: &mut Profile, length: u8, cells: u32)
    requires short { length < profile_lengths }
    requires few { cells ≤ 32 }
    requires room { slice_index profile.old length < 2 ^ 33 }
    ensures { (n : ℕ) → n < profile_lengths → slice_index profile.new n ≡ slice_index profile.old n + one (length == n) * cells }
{
    profile[usize::from(length)] += u64::from(cells);
}

/// Counts the lengths of so many cells no more.
fn take_lengths(profile: &mut Profile, lengths: Option<[u8; 2]>, cells: u32)
    requires short { AreShort lengths }
    requires held { (n : ℕ) → n < profile_lengths → of_length n lengths * cells ≤ slice_index profile.old n }
    ensures { (n : ℕ) → n < profile_lengths → slice_index profile.new n + of_length n lengths * cells ≡ slice_index profile.old n }
{
    if let Some(lengths) = lengths {
        less(profile, lengths[0], cells);
        less(profile, lengths[1], cells);
    }
}

/// Counts the lengths of so many cells too.
fn add_lengths(profile: &mut Profile, lengths: Option<[u8; 2]>, cells: u32)
    requires short { AreShort lengths }
    requires few { cells ≤ 32 }
    requires room { (n : ℕ) → n < profile_lengths → slice_index profile.old n < 2 ^ 32 }
    ensures { (n : ℕ) → n < profile_lengths → slice_index profile.new n ≡ slice_index profile.old n + of_length n lengths * cells }
{
    if let Some(lengths) = lengths {
        more(profile, lengths[0], cells);
        more(profile, lengths[1], cells);
    }
}

/// An output queue's lengths of `old` are `new` now, at so many cells of a component.
pub fn move_lengths(
    shape: Shape,
    profiles: &mut Vec<Profile>,
    component: u32,
    old: Option<[u8; 2]>,
    new: Option<[u8; 2]>,
    cells: u32,
)
    requires there { component < components shape }
    requires stages { vec_len profiles.old ≡ shape + shape }
    requires few { cells ≤ 32 }
    requires short_old { AreShort old }
    requires short_new { AreShort new }
    requires held { (net : NetIs) (stage n : ℕ) → stage < shape → n < profile_lengths
        → in_profile shape net stage n component old * cells ≤ slice_index (profile_at shape profiles.old.items net stage) n }
    requires room { (net : NetIs) (stage n : ℕ) → stage < shape → n < profile_lengths → slice_index (profile_at shape profiles.old.items net stage) n < 2 ^ 32 }
    ensures stages { length profiles.new.items ≡ length profiles.old.items }
    ensures moved { (net : NetIs) (stage n : ℕ) → stage < shape → n < profile_lengths
        → slice_index (profile_at shape profiles.new.items net stage) n + in_profile shape net stage n component old * cells
        ≡ slice_index (profile_at shape profiles.old.items net stage) n + in_profile shape net stage n component new * cells }
{
    if old == new {
        return;
    }
    if let Some(Component::Switch { net, stage, .. }) = shape.component(component) {
        let place = place_of(shape, net, u32::from(stage));
        move_in(&mut profiles[place], old, new, cells);
    }
}

/// The profile at a place.
pub fn profile_at(profiles: &Vec<Profile>, place: usize) -> Profile
    requires { place < vec_len profiles.now }
    ensures { result ≡ slice_index_or profiles.now.items place [] }
{
    profiles[place]
}

/// The lengths of a queue at so many cells were `old` and are `new`.
fn move_in(profile: &mut Profile, old: Option<[u8; 2]>, new: Option<[u8; 2]>, cells: u32)
    requires few { cells ≤ 32 }
    requires short_old { AreShort old }
    requires short_new { AreShort new }
    requires held { (n : ℕ) → n < profile_lengths → of_length n old * cells ≤ slice_index profile.old n }
    requires room { (n : ℕ) → n < profile_lengths → slice_index profile.old n < 2 ^ 32 }
    ensures { (n : ℕ) → n < profile_lengths → slice_index profile.new n + of_length n old * cells ≡ slice_index profile.old n + of_length n new * cells }
{
    take_lengths(profile, old, cells);
    add_lengths(profile, new, cells);
}

/// The place of a stage's profile.
pub fn place_of(shape: Shape, net: Net, stage: u32) -> usize
    ensures { result ≡ profile_place shape net stage }
{
    match net {
        Net::Low => stage as usize,
        Net::Comb => shape.k() as usize + stage as usize,
    }
}
