//! What begins at one cycle, and how it is found among others.
ghost use Rattle.std.specs.Prelude.{◌≡◌, ℕ, ◌+◌, ◌<◌, ◌≤◌, ◌^◌, None, IfSome, is_some, true, false, length, take, drop, slice_index_or};
ghost use Rattle.std.specs.Option.{option_copied};
ghost use Rattle.change_lists.specs.declared.begun.Begun.{Begun};
ghost use Rattle.change_lists.specs.Changes.{standing, standing_before, begins, starts, first_or, Rises, IsPlace};

/// A value, or nothing, from a cycle on.
#[derive(Drop)]
pub(crate) struct Begun<V> {
    pub from: u32,
    pub value: Option<V>,
}

/// What a cell holds at which something begins, and what the cell before it does.
#[derive(Drop)]
pub struct Sides<'a, V> {
    pub before: Option<&'a V>,
    pub at: Option<&'a V>,
}

/// How many begin before a cycle, sought among all.
#[tactic(auto, using(crate::proofs::Places::behind_more))]
fn sought<V>(begun: &[Begun<V>], t: u32) -> usize
    requires { Rises 0 begun.now (2 ^ 32) }
    ensures { IsPlace begun.now t result }
{
    let mut low = 0;
    let mut high = begun.len();
    while low < high {
        let middle = low + (high - low) / 2;
        if begun[middle].from < t {
            low = middle + 1;
        } else {
            high = middle;
        }
    }
    low
}

/// Whether all that stand before a place begin before a cycle.
fn are_before<V>(begun: &[Begun<V>], i: usize, t: u32) -> bool
    requires rises { Rises 0 begun.now (2 ^ 32) }
    requires within { i ≤ length begun.now }
    ensures { result ≡ true → (k : ℕ) (d : Begun V) → k < i → (slice_index_or begun.now k d).from < t }
{
    if i == 0 {
        return true;
    }
    if begun[i - 1].from < t { true } else { false }
}

/// Whether none that stands at a place or behind it begins before a cycle.
#[tactic(auto, using(crate::proofs::Places::behind_more))]
fn are_behind<V>(begun: &[Begun<V>], i: usize, t: u32) -> bool
    requires { Rises 0 begun.now (2 ^ 32) }
    ensures { result ≡ true → (k : ℕ) (d : Begun V) → i ≤ k → k < length begun.now → t ≤ (slice_index_or begun.now k d).from }
{
    i >= begun.len() || begun[i].from >= t
}

/// Whether so many begin before a cycle.
fn is_place<V>(begun: &[Begun<V>], i: usize, t: u32) -> bool
    requires { Rises 0 begun.now (2 ^ 32) }
    ensures { result ≡ true → IsPlace begun.now t i }
{
    i <= begun.len() && are_before(begun, i, t) && are_behind(begun, i, t)
}

/// How many begin before a cycle. A guess is tried first, and one more.
pub(crate) fn place<V>(begun: &[Begun<V>], near: usize, t: u32) -> usize
    requires { Rises 0 begun.now (2 ^ 32) }
    ensures { IsPlace begun.now t result }
{
    if is_place(begun, near, t) {
        return near;
    }
    let next = near.saturating_add(1);
    if is_place(begun, next, t) {
        return next;
    }
    sought(begun, t)
}

/// Whether the one at a place begins at a cycle.
pub(crate) fn is_at<V>(begun: &[Begun<V>], i: usize, t: u32) -> bool
    ensures { result ≡ starts (drop i begun.now) t }
{
    i < begun.len() && begun[i].from == t
}

/// The cycle at which the one at a place begins, if it is before `to`; else that.
fn begin_or<V>(begun: &[Begun<V>], i: usize, to: u32) -> u32
    ensures { result ≡ first_or (drop i begun.now) to }
{
    if i < begun.len() {
        begun[i].from.min(to)
    } else {
        to
    }
}

/// The value of the last of the first n.
fn last_of<V>(begun: &[Begun<V>], n: usize, t: u32) -> Option<&V>
    requires within { n ≤ length begun.now }
    requires begun { Rises 0 (take n begun.now) (t + 1) }
    ensures { option_copied result ≡ standing (take n begun.now) t None }
{
    let _ = t;
    if n == 0 {
        return None;
    }
    begun[n - 1].value.as_ref()
}

/// The value of the last that begins at a cycle or before; how many begin before that cycle may be guessed, as for `place`.
pub(crate) fn value_at<V>(begun: &[Begun<V>], near: usize, t: u32) -> Option<&V>
    requires { Rises 0 begun.now (2 ^ 32) }
    ensures { option_copied result ≡ standing begun.now t None }
{
    let i = place(begun, near, t);
    if is_at(begun, i, t) {
        return last_of(begun, i + 1, t);
    }
    last_of(begun, i, t)
}

/// The value that stands before a cycle, and the one that begins there; nothing where none begins. How many begin before that cycle may
/// be guessed, as for `place`.
pub(crate) fn sides_at<V>(begun: &[Begun<V>], near: usize, t: u32) -> Option<Sides<'_, V>>
    requires { Rises 0 begun.now (2 ^ 32) }
    ensures begins { is_some result ≡ begins begun.now t }
    ensures before { IfSome result (λ s. option_copied s.before ≡ standing_before begun.now t) }
    ensures at { IfSome result (λ s. option_copied s.at ≡ standing begun.now t None) }
{
    let i = place(begun, near, t);
    if !is_at(begun, i, t) {
        return None;
    }
    Some(Sides {
        before: last_of(begun, i, t),
        at: last_of(begun, i + 1, t),
    })
}

/// Whether one begins at a cycle.
pub(crate) fn has_begin<V>(begun: &[Begun<V>], near: usize, t: u32) -> bool
    requires { Rises 0 begun.now (2 ^ 32) }
    ensures { result ≡ begins begun.now t }
{
    is_at(begun, place(begun, near, t), t)
}

/// The first cycle from t on, and before `to`, at which one begins, or else `to`.
pub(crate) fn next_begin<V>(begun: &[Begun<V>], near: usize, t: u32, to: u32) -> u32
    requires { Rises 0 begun.now (2 ^ 32) }
    ensures from { t ≤ to → t ≤ result }
    ensures to { result ≤ to }
    ensures none { (u : ℕ) → t ≤ u → u < result → begins begun.now u ≡ false }
    ensures there { result < to → begins begun.now result ≡ true }
{
    begin_or(begun, place(begun, near, t), to)
}
