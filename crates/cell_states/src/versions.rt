//! The versions of the cells.
ghost use Rattle.std.specs.Prelude.{◌≡◌, ◌⊎◌, ℕ, ◌+◌, ◌-◌, ◌<◌, ◌≤◌, ◌^◌, ◌++◌, IfOk, OnOk, OnErr, replicate, slice_index_or, length, [], All, true, false, ◌==◌, ◌&&◌, if◌then◌else◌, None, Some, option_map, vec_capacity};
ghost use Rattle.std.specs.Arc.{arc_value};
ghost use Rattle.cell_states.specs.Versions.{version_at, room_at, lists, IsOtherRow, versions_of, IsEach, version_by, shown};
ghost use Rattle.cell_states.specs.Near.{has, near_at};
ghost use Rattle.cell_states.specs.Filling.{is_awake};

use crate::Neighbours;
use cell_marks::Row;
use grid_law::NoMemory;
use std::alloc::Global;
use std::marker::Model;
use std::mem::swap;
use std::sync::Arc;

/// Room for a version of each component of a cycle, taken before a change, which then takes no memory.
#[derive(Drop)]
pub struct Room {
    versions: Vec<u64>,
}

impl Model for Room {
    ghost use Rattle.std.specs.Prelude.{ℕ, ◌≡◌, [], vec_capacity};

    ghost Value = { ℕ };

    ghost view = { λ r. vec_capacity r.versions };

    ghost invariant = { λ r. r.versions.items ≡ [] };
}

impl Room {
    /// For none.
    pub fn new(alloc: Global) -> Room
        ensures { result ≡ 0 }
    {
        Room {
            versions: Vec::new(alloc),
        }
    }

    /// Takes memory for that many, where there isn't as much.
    ///
    /// # Errors
    ///
    /// Where the growth was refused.
    #[inline(always)]
    pub fn make(&mut self, count: u32) -> Result<(), NoMemory>
        ensures { OnOk result (count ≤ self.new) }
    {
        if self.versions.capacity() < count as usize {
            self.versions.reserve_exact(count as usize)?;
        }
        Ok(())
    }
}

/// A version for each component, at one cycle. While all have the same it stands once. Where they don't, each has one of its own; the
/// room for these is taken when they first come, by `make_room` or out of a `Room`, and most cycles never have any.
///
/// Where components changed one cycle earlier and were stored in turn, that alone may be noted: which they are, the clock before them,
/// and what is near each component. Then a cell near one of them has the version that the last of these stores gave it, and any other
/// cell the one that stands.
#[derive(Drop)]
pub struct Versions {
    count: u32,
    all: u64,
    each: Vec<u64>,
    near: Option<Arc<Neighbours>>,
    changes: Row,
    clock: u64,
}

impl Model for Versions {
    ghost use Rattle.std.specs.Prelude.{ℕ, ◌≡◌, ◌<◌, ◌+◌, ◌^◌, length, option_map, vec_capacity};
    ghost use Rattle.std.specs.Arc.{arc_value};
    ghost use Rattle.cell_states.specs.Versions.{VersionRow, versions_of, IsEach, shown};

    ghost Value = { VersionRow };

    ghost view = { λ v. record { at = shown (option_map arc_value v.near) v.changes v.clock (versions_of v.count v.all v.each.items); room = vec_capacity v.each } };

    ghost invariant = { λ v. IsEach v.count v.each.items × (length v.changes ≡ v.count) × (v.clock + v.count < 2 ^ 64) };
}

/// Adds a version for each of so many components.
fn spread(each: &mut Vec<u64>, count: u32, version: u64)
    requires none { each.old.items ≡ [] }
    requires room { count ≤ vec_capacity each.old }
    ensures capacity { vec_capacity each.new ≡ vec_capacity each.old }
    ensures all { each.new.items ≡ replicate count version }
{
    for _c in 0..count {
        each.push_reserved(version);
    }
}

/// Puts a version in some places.
fn put_all(each: &mut [u64], places: &[u32], version: u64)
    requires { All (λ c. c < length each.old) places.now }
    ensures len { length each.new ≡ length each.old }
    ensures at { (c : ℕ) → slice_index_or each.new c 0 ≡ (if has places.now c then version else slice_index_or each.old c 0) }
{
    for place in places {
        each[*place as usize] = version;
    }
}

/// The version that stands for a component.
fn standing(each: &Vec<u64>, count: u32, all: u64, c: u32) -> u64
    ensures { result ≡ slice_index_or (versions_of count all each.now.items) c 0 }
{
    if each.is_empty() {
        return if c < count { all } else { 0 };
    }
    match each.get(c as usize) {
        Some(version) => *version,
        None => 0,
    }
}

/// One more than the last of these components that is marked, or 0.
fn last_marked(marks: &Row, components: &[u32]) -> u32
    ensures within { result ≤ length marks.now }
    ensures last { 0 < result → (is_awake marks.now (result - 1) && has components.now (result - 1)) ≡ true }
    ensures behind { (k : ℕ) → result ≤ k → (is_awake marks.now k && has components.now k) ≡ false }
{
    let len = marks.len();
    let mut last = 0;
    for component in components {
        let component = *component;
        if last <= component && component < len && marks.has(component) {
            last = component + 1;
        }
    }
    last
}

/// The version of a cell near these components, once those that changed were stored in turn, the clock being `clock` before them.
fn version_near(changes: &Row, near: &[u32], clock: u64, own: u64) -> u64
    requires { clock + length changes.now < 2 ^ 64 }
    ensures { result ≡ version_by changes.now near.now clock own (length changes.now) }
{
    let last = last_marked(changes, near);
    if last == 0 {
        return own;
    }
    clock + u64::from(changes.count_to(last))
}

/// Puts the versions that follow from the changes in the place of those that stand.
fn follow(each: &mut [u64], near: &Neighbours, changes: &Row, clock: u64)
    requires width { length each.old ≡ length changes.now }
    requires fits { clock + length changes.now < 2 ^ 64 }
    ensures len { length each.new ≡ length each.old }
    ensures at { (c : ℕ) → c < length each.old → slice_index_or each.new c 0 ≡ version_by changes.now (near_at near.now c) clock (slice_index_or each.old c 0) (length changes.now) }
{
    for c in 0..changes.len() {
        let at = c as usize;
        each[at] = version_near(changes, near.of(c), clock, each[at]);
    }
}

/// Gives each component a version that stands for it alone.
fn spread_out(each: &mut Vec<u64>, count: u32, all: u64)
    requires room { count ≤ vec_capacity each.old }
    requires each { IsEach count each.old.items }
    ensures capacity { vec_capacity each.new ≡ vec_capacity each.old }
    ensures len { length each.new.items ≡ count }
    ensures each { each.new.items ≡ versions_of count all each.old.items }
{
    if each.is_empty() {
        spread(each, count, all);
    }
}

/// Takes room out of another place, where there isn't enough.
fn take_room(each: &mut Vec<u64>, count: u32, room: &mut Room)
    requires each { IsEach count each.old.items }
    requires room { count ≤ room.old }
    ensures items { each.new.items ≡ each.old.items }
    ensures room { count ≤ vec_capacity each.new }
{
    if each.capacity() < count as usize {
        swap(each, &mut room.versions);
    }
}

/// One more owner of what is near, where it can be counted.
fn own_too(near: &mut Option<Arc<Neighbours>>, other: &Arc<Neighbours>) -> bool
    ensures no { result ≡ false → option_map arc_value near.new ≡ option_map arc_value near.old }
    ensures yes { result ≡ true → option_map arc_value near.new ≡ Some (arc_value other.now) }
{
    match Arc::try_clone(other) {
        Ok(mine) => {
            *near = Some(mine);
            true
        }
        Err(_) => false,
    }
}

/// Writes down for each component the version that it has.
fn write_down(
    each: &mut Vec<u64>,
    near: &mut Option<Arc<Neighbours>>,
    changes: &Row,
    clock: u64,
    count: u32,
    all: u64,
)
    requires room { count ≤ vec_capacity each.old }
    requires each { IsEach count each.old.items }
    requires width { length changes.now ≡ count }
    requires fits { clock + count < 2 ^ 64 }
    ensures none { option_map arc_value near.new ≡ None }
    ensures capacity { vec_capacity each.new ≡ vec_capacity each.old }
    ensures len { length each.new.items ≡ count }
    ensures each { each.new.items ≡ shown (option_map arc_value near.old) changes.now clock (versions_of count all each.old.items) }
{
    spread_out(each, count, all);
    match near.take() {
        Some(near) => follow(each.as_mut_slice(), &near, changes, clock),
        None => {}
    }
}

impl Versions {
    fn new(alloc: Global, count: u32, version: u64) -> Result<Versions, NoMemory>
        ensures { IfOk result (λ v. v.at ≡ replicate count version) }
    {
        let changes = Row::new(alloc, count, false)?;
        Ok(Versions {
            count,
            all: version,
            each: Vec::new(alloc),
            near: None,
            changes,
            clock: 0,
        })
    }

    /// The version of a component; 0 of one that isn't there.
    pub fn of(&self, c: u32) -> u64
        ensures { result ≡ slice_index_or self.now.at c 0 }
    {
        if c >= self.count {
            return 0;
        }
        let own = standing(&self.each, self.count, self.all, c);
        match &self.near {
            Some(near) => version_near(&self.changes, near.of(c), self.clock, own),
            None => own,
        }
    }

    /// Whether all components are known at once to have this version.
    #[inline(always)]
    fn is_all(&self, version: u64) -> bool
        ensures { result ≡ true → (c : ℕ) → c < length self.now.at → slice_index_or self.now.at c 0 ≡ version }
    {
        self.all == version && self.each.is_empty() && self.near.is_none()
    }

    /// Takes room for a version of each component, where there isn't any.
    fn make_room(&mut self) -> Result<(), NoMemory>
        ensures at { self.new.at ≡ self.old.at }
        ensures room { OnOk result (length self.new.at ≤ self.new.room) }
    {
        if self.each.capacity() < self.count as usize {
            self.each.reserve_exact(self.count as usize)?;
        }
        Ok(())
    }

    /// The same, out of room that was taken before.
    fn take_room(&mut self, room: &mut Room)
        requires { length self.old.at ≤ room.old }
        ensures at { self.new.at ≡ self.old.at }
        ensures room { length self.new.at ≤ self.new.room }
    {
        take_room(&mut self.each, self.count, room);
    }

    /// Gives some components a version. Where there is no room for one each, all get it.
    fn give(&mut self, components: &[u32], version: u64)
        requires { All (λ c. c < length self.old.at) components.now }
        ensures len { length self.new.at ≡ length self.old.at }
        ensures room { self.new.room ≡ self.old.room }
        ensures given { (c : ℕ) → has components.now c ≡ true → slice_index_or self.new.at c 0 ≡ version }
        ensures others { length self.old.at ≤ self.old.room → (c : ℕ) → has components.now c ≡ false → slice_index_or self.new.at c 0 ≡ slice_index_or self.old.at c 0 }
        ensures either { (c : ℕ) → c < length self.old.at → (slice_index_or self.new.at c 0 ≡ slice_index_or self.old.at c 0) ⊎ (slice_index_or self.new.at c 0 ≡ version) }
    {
        if self.is_all(version) {
            return;
        }
        if self.each.capacity() < self.count as usize {
            self.begin(version);
            return;
        }
        write_down(
            &mut self.each,
            &mut self.near,
            &self.changes,
            self.clock,
            self.count,
            self.all,
        );
        put_all(self.each.as_mut_slice(), components, version);
    }

    /// Writes down the versions that follow where these components changed one cycle earlier and were stored in turn.
    fn follow(&mut self, near: &Neighbours, changes: &Row, clock: u64, room: &mut Room)
        requires width { length changes.now ≡ length self.old.at }
        requires fits { clock + length changes.now < 2 ^ 64 }
        requires room { length self.old.at ≤ room.old }
        ensures len { length self.new.at ≡ length self.old.at }
        ensures at { (c : ℕ) → c < length changes.now → slice_index_or self.new.at c 0
            ≡ version_by changes.now (near_at near.now c) clock (slice_index_or self.old.at c 0) (length changes.now) }
    {
        take_room(&mut self.each, self.count, room);
        write_down(
            &mut self.each,
            &mut self.near,
            &self.changes,
            self.clock,
            self.count,
            self.all,
        );
        follow(self.each.as_mut_slice(), near, changes, clock);
    }

    /// Notes that these components changed one cycle earlier and were stored in turn, the clock being `clock` before them. Where
    /// changes are noted already, or what is near has as many owners as can be counted, the versions that follow are written down.
    fn note(&mut self, near: &Arc<Neighbours>, changes: &Row, clock: u64, room: &mut Room)
        requires width { length changes.now ≡ length self.old.at }
        requires fits { clock + length changes.now < 2 ^ 64 }
        requires room { length self.old.at ≤ room.old }
        ensures len { length self.new.at ≡ length self.old.at }
        ensures noted { (c : ℕ) → c < length changes.now → slice_index_or self.new.at c 0
            ≡ version_by changes.now (near_at (arc_value near.now) c) clock (slice_index_or self.old.at c 0) (length changes.now) }
    {
        if self.near.is_some() {
            self.follow(near, changes, clock, room);
            return;
        }
        if !own_too(&mut self.near, near) {
            self.follow(near, changes, clock, room);
            return;
        }
        self.changes.clear_all();
        self.changes.add(changes);
        self.clock = clock;
    }

    /// Gives all components one version. Changes that are noted are let go.
    #[inline(always)]
    fn begin(&mut self, version: u64)
        ensures at { self.new.at ≡ replicate (length self.old.at) version }
        ensures room { self.new.room ≡ self.old.room }
    {
        drop(self.near.take());
        self.each.clear();
        self.all = version;
    }
}

/// Gives all cells of a cycle one version, and lets go of the changes that are noted there.
pub fn begin_in(rows: &mut Vec<Versions>, t: u32, version: u64)
    ensures row { IsOtherRow rows.old.items rows.new.items t }
    ensures room { room_at rows.new.items t ≡ room_at rows.old.items t }
    ensures begun { (c : ℕ) → c < length (slice_index_or (lists rows.old.items) t []) → version_at (lists rows.new.items) t c ≡ version }
{
    if (t as usize) < rows.len() {
        let row = &mut rows[t as usize];
        row.begin(version);
    }
}

/// Takes room for a version of each cell of a cycle, where there isn't any. No version changes.
///
/// # Errors
///
/// Where the growth was refused.
pub fn make_room_in(rows: &mut Vec<Versions>, t: u32) -> Result<(), NoMemory>
    requires { t < length rows.old.items }
    ensures row { IsOtherRow rows.old.items rows.new.items t }
    ensures same { (c : ℕ) → version_at (lists rows.new.items) t c ≡ version_at (lists rows.old.items) t c }
    ensures room { OnOk result (length (slice_index_or (lists rows.new.items) t []) ≤ room_at rows.new.items t) }
{
    let row = &mut rows[t as usize];
    row.make_room()
}

/// The same, out of room that was taken before. Takes no memory.
pub fn take_room_in(rows: &mut Vec<Versions>, t: u32, room: &mut Room)
    requires cycle { t < length rows.old.items }
    requires room { length (slice_index_or (lists rows.old.items) t []) ≤ room.old }
    ensures row { IsOtherRow rows.old.items rows.new.items t }
    ensures same { (c : ℕ) → version_at (lists rows.new.items) t c ≡ version_at (lists rows.old.items) t c }
    ensures room { length (slice_index_or (lists rows.new.items) t []) ≤ room_at rows.new.items t }
{
    let row = &mut rows[t as usize];
    row.take_room(room);
}

/// Notes at a cycle that these components changed one cycle earlier and were stored in turn, the clock being `clock` before them. Takes
/// no memory but that room.
pub fn note_in(
    rows: &mut Vec<Versions>,
    t: u32,
    near: &Arc<Neighbours>,
    changes: &Row,
    clock: u64,
    room: &mut Room,
)
    requires cycle { t < length rows.old.items }
    requires width { length changes.now ≡ length (slice_index_or (lists rows.old.items) t []) }
    requires fits { clock + length changes.now < 2 ^ 64 }
    requires room { length changes.now ≤ room.old }
    ensures row { IsOtherRow rows.old.items rows.new.items t }
    ensures noted { (c : ℕ) → c < length changes.now → version_at (lists rows.new.items) t c
        ≡ version_by changes.now (near_at (arc_value near.now) c) clock (version_at (lists rows.old.items) t c) (length changes.now) }
{
    let row = &mut rows[t as usize];
    row.note(near, changes, clock, room);
}

/// Gives some cells of a cycle a version. Where there is no room for one each, all cells of the cycle get it.
pub fn give_in(rows: &mut Vec<Versions>, t: u32, components: &[u32], version: u64)
    requires cycle { t < length rows.old.items }
    requires components { All (λ c. c < length (slice_index_or (lists rows.old.items) t [])) components.now }
    ensures row { IsOtherRow rows.old.items rows.new.items t }
    ensures room { room_at rows.new.items t ≡ room_at rows.old.items t }
    ensures given { (c : ℕ) → has components.now c ≡ true → version_at (lists rows.new.items) t c ≡ version }
    ensures others { length (slice_index_or (lists rows.old.items) t []) ≤ room_at rows.old.items t → (c : ℕ) → has components.now c ≡ false
        → version_at (lists rows.new.items) t c ≡ version_at (lists rows.old.items) t c }
    ensures either { (c : ℕ) → c < length (slice_index_or (lists rows.old.items) t [])
        → (version_at (lists rows.new.items) t c ≡ version_at (lists rows.old.items) t c) ⊎ (version_at (lists rows.new.items) t c ≡ version) }
{
    let row = &mut rows[t as usize];
    row.give(components, version);
}

/// Rows of that version.
pub fn rows_of(alloc: Global, m: u32, count: u32, version: u64) -> Result<Vec<Versions>, NoMemory>
    ensures { IfOk result (λ rows. lists rows.items ≡ replicate m (replicate count version)) }
{
    let mut rows = Vec::with_capacity(alloc, m as usize)?;
    for _t in 0..m {
        match rows.push(Versions::new(alloc, count, version)?) {
            Ok(()) => {}
            Err(_) => return Err(NoMemory),
        }
    }
    Ok(rows)
}

/// Adds m rows of that version; where memory is wanting, nothing is changed.
pub fn grow_rows(
    rows: &mut Vec<Versions>,
    alloc: Global,
    m: u32,
    count: u32,
    version: u64,
) -> Result<(), NoMemory>
    ensures ok { OnOk result (lists rows.new.items ≡ lists rows.old.items ++ replicate m (replicate count version)) }
    ensures err { OnErr result (rows.new.items ≡ rows.old.items) }
{
    let mut more = rows_of(alloc, m, count, version)?;
    match rows.append(&mut more) {
        Ok(()) => Ok(()),
        Err(_) => Err(NoMemory),
    }
}

/// The version of a cell.
pub fn version_in(rows: &Vec<Versions>, t: u32, c: u32) -> u64
    ensures { result ≡ version_at (lists rows.now.items) t c }
{
    match rows.get(t as usize) {
        Some(row) => row.of(c),
        None => 0,
    }
}
