//! What a step moved, by the numbers of components.
ghost use Rattle.std.specs.Prelude.{◌≡◌, ℕ, ◌<◌, ◌≤◌, ◌*◌, ◌+◌, ◌%◌, ◌==◌, ◌&&◌, ◌||◌, length, nat_lt, not};
ghost use Rattle.omega_net.specs.Numbers.{components, component_of, half, lines};
ghost use Rattle.cell_states.specs.Filling.{is_awake};
ghost use Rattle.flat_row.specs.Labels.{switch_label};
ghost use Rattle.flat_row.specs.Masks.{has};
ghost use Rattle.whole_rows.specs.Among.{is_among, in_stage, in_stages};
ghost use Rattle.whole_rows.specs.Rows.{is_outside, wrote_in};

use cell_marks::Row as Marks;
use flat_row::{Changed, line_of};
use omega_net::Shape;

/// Marks the components of a set of as many as there are lines, whose numbers begin with one and lie within one word.
fn mark_lines(shape: Shape, set: u64, first: u32, marks: &mut Marks)
    requires word { first % 64 + lines shape ≤ 64 }
    requires room { first + lines shape ≤ length marks.old }
    ensures len { length marks.new ≡ length marks.old }
    ensures marks { (c : ℕ) → c < length marks.old → is_awake marks.new c ≡ (is_awake marks.old c || is_among first (lines shape) (has set) c) }
{
    let within = set & (u64::MAX >> (64 - shape.lines()));
    marks.add_word(first as usize / 64, within << (first % 64));
}

/// The bit of a switch of a stage with a label, by its number within the stage.
fn switch_bit(shape: Shape, stage: u32, label: u32) -> u64
    requires { stage < shape }
    ensures few { lines shape ≤ 64 }
    ensures bits { (j : ℕ) → j < 64 → has result j ≡ (nat_lt j (half shape) && (switch_label shape stage j == label)) }
{
    if label >= shape.lines() {
        return 0;
    }
    let index = line_of(shape, stage, label);
    if index < shape.half() { 1 << index } else { 0 }
}

/// The switches of a stage that a set has by their labels, by their numbers within the stage.
fn switch_bits(shape: Shape, stage: u32, set: u64) -> u64
    requires { stage < shape }
    ensures { (j : ℕ) → j < 64 → has result j ≡ (nat_lt j (half shape) && in_stage shape stage set j) }
{
    let mut rest = set;
    let mut bits = 0;
    while rest != 0 {
        let label = rest.trailing_zeros();
        rest &= !(1 << label);
        bits |= switch_bit(shape, stage, label);
    }
    bits
}

/// Marks the switches of a stage that a set has by their labels, whose numbers begin with one and lie within one word.
fn mark_stage(shape: Shape, stage: u32, set: u64, first: u32, marks: &mut Marks)
    requires stage { stage < shape }
    requires word { first % 64 + half shape ≤ 64 }
    requires room { first + half shape ≤ length marks.old }
    ensures len { length marks.new ≡ length marks.old }
    ensures marks { (c : ℕ) → c < length marks.old → is_awake marks.new c ≡ (is_awake marks.old c || is_among first (half shape) (in_stage shape stage set) c) }
{
    if set == 0 {
        return;
    }
    let bits = switch_bits(shape, stage, set);
    marks.add_word(first as usize / 64, bits << (first % 64));
}

/// The same of all stages of a network.
fn mark_stages(shape: Shape, sets: &[u64; 6], first: u32, marks: &mut Marks)
    requires words { (s : ℕ) → s < shape → (first + s * half shape) % 64 + half shape ≤ 64 }
    requires room { first + shape * half shape ≤ components shape }
    requires width { length marks.old ≡ components shape }
    ensures len { length marks.new ≡ length marks.old }
    ensures marks { (c : ℕ) → c < components shape → is_awake marks.new c ≡ (is_awake marks.old c || is_among first (shape * half shape) (in_stages shape sets.now) c) }
{
    for stage in 0..shape.k() {
        let from = first + stage * shape.half();
        mark_stage(shape, stage, sets[stage as usize], from, marks);
    }
}

/// Marks just the components that a step may have moved.
pub(crate) fn mark_moved(step: &Changed, shape: Shape, moved: &mut Marks)
    requires { length moved.old ≡ components shape }
    ensures len { length moved.new ≡ length moved.old }
    ensures marks { (c : ℕ) → c < components shape → is_awake moved.new c ≡ not (is_outside shape step.now (component_of shape c)) }
{
    let lines = shape.lines();
    moved.clear_all();
    mark_lines(shape, step.procs, 0, moved);
    mark_lines(shape, step.modules, lines, moved);
    mark_stages(shape, &step.low, 2 * lines, moved);
    let comb = 2 * lines + shape.k() * shape.half();
    mark_stages(shape, &step.comb, comb, moved);
}

/// Marks just the modules in which a word of memory is another one.
pub(crate) fn mark_written(step: &Changed, shape: Shape, written: &mut Marks)
    requires { length written.old ≡ components shape }
    ensures len { length written.new ≡ length written.old }
    ensures marks { (c : ℕ) → c < components shape → is_awake written.new c ≡ wrote_in step.now (component_of shape c) }
{
    written.clear_all();
    mark_lines(shape, step.wrote, shape.lines(), written);
}
