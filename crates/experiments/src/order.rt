//! The one order of a run's references, with the cycles that each took.
ghost use Rattle.std.specs.Prelude.{◌≡◌, ◌<◌, ◌≤◌, ◌++◌, ℕ, suc, IfOk, OnOk, map};
ghost use Rattle.std.specs.Arc.{arc_value};
ghost use Rattle.std.specs.Option.{option_copied};
ghost use Rattle.page_map.specs.Limits.{max_k};
ghost use Rattle.project_book.specs.Project.{page_of, place_in};
ghost use Rattle.machine_cells.specs.Run.{run};
ghost use Rattle.machine_cells.specs.Runs.{state_in};
ghost use Rattle.serial_order.specs.OneOrder.{one_order};
ghost use Rattle.memory_order.specs.Linearizable.{Linearizes};
ghost use Rattle.run_queries.specs.Answers.{first_reply};
ghost use Rattle.experiments.specs.Orders.{address_at, first_issue, is_issued_by, is_open_from, is_shown, issued_in, order_rows, place_out, place_sent, row_of, rows_shown, services, step_services};

use crate::Window;
use crate::queues::state_at;
use grid_law::NoMemory;
use machine_cells::{MachineState, from_scratch};
use memory_order::one_orders;
use omega_net::{Net, Request, Tag};
use page_map::{PAGE_WORDS, Place};
use project_book::Project;
use ref_proc::Outgoing;
use run_queries::{Received, word_got};
use serial_order::{States, second_of, served_by, served_in_step};
use std::alloc::{AllocError, Global};
use std::sync::Arc;

/// Where a reference was issued, and in which cycle: that of the first state that shows it.
#[derive(Clone, Copy)]
pub struct Issue {
    pub cycle: u32,
    pub place: Place,
    /// The address that stands at the place.
    pub address: u32,
}

/// A reference that was served, and the cycle of the state after the step in which it was.
#[derive(Clone, Copy)]
struct Service {
    cycle: u32,
    tag: Tag,
}

/// A reference in the one order of a run.
#[derive(Clone, Copy)]
pub struct OrderRow {
    /// Its number in the order, from 1.
    pub number: u64,
    pub tag: Tag,
    /// Each reference that was served was issued.
    pub issue: Option<Issue>,
    /// The cycle of the state after the step in which it was served.
    pub served: u32,
    /// None where it wasn't answered by the horizon.
    pub reply: Option<Received>,
}

/// The states of a run, by cycle and component.
#[derive(Clone, Copy)]
struct Rows<'a> {
    rows: &'a [Vec<Arc<MachineState>>],
}

impl<'a> States for Rows<'a> {
    ghost at = { λ s t c. state_in (map (λ row. map arc_value row.items) s.rows.now) t c };

    fn served(
        &self,
        cycle: u32,
        component: u32,
        depth: u32,
    ) -> Result<Option<(Net, Request)>, NoMemory> {
        Ok(served_by(state_at(self.rows, cycle, component), depth))
    }

    fn second(&self, cycle: u32, component: u32, tag: Tag) -> Result<Option<Tag>, NoMemory> {
        Ok(second_of(state_at(self.rows, cycle, component), tag))
    }
}

/// The amount and base of a page; those of module 0 alone where there is no such page.
fn spread_of(project: &Project, page: u32) -> (u32, u32)
    ensures amount { result.0 ≡ (page_of project.now page).amount }
    ensures base { result.1 ≡ (page_of project.now page).base }
    ensures small { result.0 ≤ max_k }
{
    project.is_project();
    match project.pages().page(page) {
        Some(spread) => spread,
        None => (0, 0),
    }
}

/// The address that stands at a place.
fn address_at(project: &Project, place: Place) -> u32
    ensures address { result ≡ address_at project.now place }
    ensures back { (a : ℕ) → place_in project.now a ≡ place → result ≡ a }
{
    let row = u32::from(place.row);
    let (amount, base) = spread_of(project, row / PAGE_WORDS);
    let first = PAGE_WORDS * (row / PAGE_WORDS);
    let modules = 1 << amount;
    first + row % PAGE_WORDS * modules + u32::from(place.module).saturating_sub(base)
}

/// The place of the request that waits to leave a processor, where it is for that issue number.
fn place_out(out: Option<Outgoing>, issue: u32) -> Option<Place>
    ensures { result ≡ place_out issue out }
{
    match out {
        Some(out) if out.request.tag.issue == issue => Some(out.request.place),
        _ => None,
    }
}

/// The place for which a state shows a reference to have just been issued, where it has that issue number.
fn place_sent(state: Option<&MachineState>, issue: u32) -> Option<Place>
    ensures { result ≡ place_sent issue (option_copied state.entry) }
{
    match state {
        Some(MachineState::Proc(proc)) if proc.sent => place_out(proc.out, issue),
        _ => None,
    }
}

/// The issue of that number that a processor's state shows.
fn issued_in(
    project: &Project,
    state: Option<&MachineState>,
    cycle: u32,
    issue: u32,
) -> Option<Issue>
    ensures { result ≡ issued_in project.now issue cycle (option_copied state.entry) }
{
    let place = place_sent(state, issue)?;
    Some(Issue {
        cycle,
        place,
        address: address_at(project, place),
    })
}

/// The first issue of that number in the cycles up to the horizon.
fn first_issue(project: &Project, rows: &[Vec<Arc<MachineState>>], tag: Tag) -> Option<Issue>
    ensures { result ≡ first_issue project.now (λ t. state_in (map (λ row. map arc_value row.items) rows.now) t tag.proc) tag.issue (suc project.now.horizon) }
{
    let proc = u32::from(tag.proc);
    for cycle in 0..project.horizon() + 1 {
        if let Some(issue) = issued_in(project, state_at(rows, cycle, proc), cycle, tag.issue) {
            return Some(issue);
        }
    }
    None
}

/// The first reply to a reference in the cycles up to the horizon.
fn first_reply(project: &Project, rows: &[Vec<Arc<MachineState>>], tag: Tag) -> Option<Received>
    ensures { result ≡ first_reply (λ t. state_in (map (λ row. map arc_value row.items) rows.now) t tag.proc) tag.issue (suc project.now.horizon) }
{
    let proc = u32::from(tag.proc);
    for cycle in 0..project.horizon() + 1 {
        if let Some(word) = word_got(state_at(rows, cycle, proc), tag.issue) {
            return Some(Received { cycle, word });
        }
    }
    None
}

/// Adds what is served in the step from a cycle.
fn add_services(
    alloc: Global,
    project: &Project,
    rows: &[Vec<Arc<MachineState>>],
    cycle: u32,
    services: &mut Vec<Service>,
) -> Result<(), NoMemory>
    requires { cycle < project.now.horizon }
    ensures { OnOk result (services.new.items ≡ services.old.items ++ step_services project.now (state_in (map (λ row. map arc_value row.items) rows.now)) cycle) }
{
    project.is_project();
    let tags = served_in_step(alloc, project, &Rows { rows }, cycle)?;
    for tag in &tags {
        services.push(Service {
            cycle: cycle + 1,
            tag: *tag,
        })?;
    }
    Ok(())
}

/// What is served in the run, in the one order.
fn services(
    alloc: Global,
    project: &Project,
    rows: &[Vec<Arc<MachineState>>],
) -> Result<Vec<Service>, NoMemory>
    ensures { IfOk result (λ v. v.items ≡ services project.now (state_in (map (λ row. map arc_value row.items) rows.now))) }
{
    let mut services = Vec::new(alloc);
    for cycle in 0..project.horizon() {
        add_services(alloc, project, rows, cycle, &mut services)?;
    }
    Ok(services)
}

/// The row of a reference by its number.
fn row_of(
    project: &Project,
    rows: &[Vec<Arc<MachineState>>],
    number: u64,
    service: Service,
) -> OrderRow
    ensures { result ≡ row_of project.now (state_in (map (λ row. map arc_value row.items) rows.now)) number service }
{
    OrderRow {
        number,
        tag: service.tag,
        issue: first_issue(project, rows, service.tag),
        served: service.cycle,
        reply: first_reply(project, rows, service.tag),
    }
}

/// The references that the run of a project served, in their one order: when each was issued, served and answered. It
/// simulates the project from cycle 0.
///
/// # Errors
///
/// Where a growth was refused. What was taken is given back.
pub fn order_rows(alloc: Global, project: &Project) -> Result<Vec<OrderRow>, NoMemory>
    ensures rows { IfOk result (λ v. v.items ≡ order_rows project.now (state_in (run project.now))) }
    ensures order { IfOk result (λ v. map (λ r. r.tag) v.items ≡ one_order project.now) }
    ensures linearizes { IfOk result (λ v. Linearizes project.now (map (λ r. r.tag) v.items)) }
{
    project.is_project();
    one_orders();
    let rows = from_scratch(alloc, project)?;
    let services = services(alloc, project, rows.as_slice())?;
    let mut listed = Vec::new(alloc);
    for (place, service) in services.iter().enumerate() {
        let number = place as u64 + 1;
        listed.push(row_of(project, rows.as_slice(), number, *service))?;
    }
    Ok(listed)
}

/// Whether a reference was issued by a cycle.
fn is_issued_by(issue: Option<Issue>, cycle: u32) -> bool
    ensures { result ≡ is_issued_by cycle issue }
{
    match issue {
        Some(issue) => issue.cycle <= cycle,
        None => false,
    }
}

/// Whether a reference wasn't answered before a cycle.
pub(crate) fn is_open_from(reply: Option<Received>, cycle: u32) -> bool
    ensures { result ≡ is_open_from cycle reply }
{
    match reply {
        Some(reply) => cycle <= reply.cycle,
        None => true,
    }
}

/// Whether a reference waited in a window of cycles.
fn is_shown(row: &OrderRow, window: Window) -> bool
    ensures { result ≡ is_shown window.from window.to row.now }
{
    is_issued_by(row.issue, window.to) && is_open_from(row.reply, window.from)
}

/// Those of some references that waited in a window of cycles: issued by its end, and not answered before it begins.
///
/// # Errors
///
/// Where a growth was refused. What was taken is given back.
pub fn rows_shown(
    alloc: Global,
    rows: &[OrderRow],
    window: Window,
) -> Result<Vec<OrderRow>, AllocError>
    ensures { IfOk result (λ v. v.items ≡ rows_shown window.from window.to rows.now) }
{
    let mut shown = Vec::new(alloc);
    for row in rows {
        if is_shown(row, window) {
            shown.push(*row)?;
        }
    }
    Ok(shown)
}
