//! A component's state one cycle later, from its near states.
ghost use Rattle.std.specs.Prelude.{◌≡◌, ◌-◌, map, option_map, slice_get, IfOk, IfSome, Some};
ghost use Rattle.std.specs.Arc.{arc_value};
ghost use Rattle.omega_net.specs.Numbers.{Exists};
ghost use Rattle.project_book.specs.Project.{place_for};
ghost use Rattle.project_book.specs.Scripts.{IsEntry};
ghost use Rattle.low_switch.specs.LowSwitch.{low_after};
ghost use Rattle.comb_switch.specs.CombSwitch.{comb_after};
ghost use Rattle.ref_proc.specs.RefProc.{proc_after};
ghost use Rattle.mem_module.specs.MemModule.{module_after};
ghost use Rattle.project_book.specs.Project.{depth_of};
ghost use Rattle.project_book.specs.declared.edit.Depths.TheVariants.{ModuleQueue};
ghost use Rattle.machine_cells.specs.Quiet.{IsNextOf};
ghost use Rattle.machine_cells.specs.Pulls.{traffic, module_traffic};
ghost use Rattle.machine_cells.specs.Cycle.{blank_of, proc_settings, comb_settings};
ghost use Rattle.machine_cells.specs.Cells.{beside_on, proc_pulls, module_pulls, switch_pulls, pulled};

use crate::MachineState;
use crate::near::{NearState, state_at};
use crate::pull::{
    reply_in, reply_leaves, reply_pulled, request_in, request_leaves, request_pulled,
};
use crate::pulls::{ModulePulls, SwitchPulls};
use crate::rest::{comb_rests, low_rests, module_rests};
use crate::start::blank_of;
use crate::switch::Switch;
use comb_switch::{CombSettings, CombState};
use grid_law::NoMemory;
use low_switch::LowState;
use mem_module::ModuleState;
use omega_net::{Component, Net, ScriptEntry, Shape};
use page_map::Place;
use project_book::{Depths, Project};
use ref_proc::{ProcSettings, ProcState, ProcTraffic};
use std::alloc::Global;
use std::sync::Arc;

/// The place of a network's neighbour among the near states of a processor or a module.
fn beside_on(shape: Shape, net: Net) -> usize
    ensures { result ≡ beside_on shape net }
{
    match net {
        Net::Comb if shape.k() > 0 => 2,
        _ => 1,
    }
}

/// What the near states are to a processor.
fn proc_pulls<S: NearState>(project: &Project, shape: Shape, near: &[S], proc: u8) -> ProcTraffic
    requires shape { shape ≡ project.now.k }
    requires there { Exists shape (Component.Proc proc) }
    ensures { result ≡ proc_pulls project.now (map S.state near.now) proc }
{
    let low = shape.entry(Net::Low, proc);
    let comb = shape.entry(Net::Comb, proc);
    let low_at = beside_on(shape, Net::Low);
    let comb_at = beside_on(shape, Net::Comb);
    let on_low = request_pulled(project, shape, near, low, 0, low_at).is_some();
    let on_comb = request_pulled(project, shape, near, comb, 0, comb_at).is_some();
    ProcTraffic {
        replies: [
            reply_pulled(project, shape, near, low, 0, low_at).copied(),
            reply_pulled(project, shape, near, comb, 0, comb_at).copied(),
        ],
        request_leaves: on_low || on_comb,
    }
}

/// What the near states are to a module.
#[inline(always)]
fn module_pulls<'a, S: NearState>(
    project: &Project,
    shape: Shape,
    near: &'a [S],
    number: u8,
) -> ModulePulls<'a>
    requires shape { shape ≡ project.now.k }
    requires there { Exists shape (Component.Module number) }
    ensures { module_traffic result ≡ module_pulls project.now (map S.state near.now) number }
{
    let low = shape.exit(Net::Low, number);
    let comb = shape.exit(Net::Comb, number);
    let low_at = beside_on(shape, Net::Low);
    let comb_at = beside_on(shape, Net::Comb);
    ModulePulls {
        requests: (
            request_pulled(project, shape, near, low, low_at, 0),
            request_pulled(project, shape, near, comb, comb_at, 0),
        ),
        replies_leave: (
            reply_pulled(project, shape, near, low, low_at, 0).is_some(),
            reply_pulled(project, shape, near, comb, comb_at, 0).is_some(),
        ),
    }
}

/// What the near states are to a switch, which is the first of them.
#[inline(always)]
fn switch_pulls<'a, S: NearState, W: Switch>(
    project: &Project,
    shape: Shape,
    near: &'a [S],
    net: Net,
    stage: u8,
    index: u8,
    own: &W,
) -> SwitchPulls<'a>
    requires shape { shape ≡ project.now.k }
    requires there { Exists shape (Component.Switch net stage index) }
    requires net { net ≡ W.net }
    requires own { slice_get (map S.state near.now) 0 ≡ Some (W.state own.now) }
    ensures { traffic result ≡ switch_pulls project.now (map S.state near.now) net stage index }
{
    let in_0 = shape.before(net, stage, index, 0);
    let in_1 = shape.before(net, stage, index, 1);
    let out_0 = shape.after(net, stage, index, 0);
    let out_1 = shape.after(net, stage, index, 1);
    let above_0 = state_at(near, 1);
    let above_1 = state_at(near, 2);
    let below_0 = state_at(near, 3);
    let below_1 = state_at(near, 4);
    SwitchPulls {
        requests: (
            request_in(project, shape, in_0, 0, above_0, own),
            request_in(project, shape, in_1, 1, above_1, own),
        ),
        replies: (
            reply_in(project, shape, out_0, stage, 0, own, below_0),
            reply_in(project, shape, out_1, stage, 1, own, below_1),
        ),
        requests_leave: (
            request_leaves(project, shape, out_0, 0, own, below_0),
            request_leaves(project, shape, out_1, 1, own, below_1),
        ),
        replies_leave: (
            reply_leaves(project, shape, in_0, 0, above_0, own),
            reply_leaves(project, shape, in_1, 1, above_1, own),
        ),
    }
}

/// What a processor reads of a project where its script has come to that index.
fn proc_settings(project: &Project, proc: u8, index: u16) -> ProcSettings
    ensures { result ≡ proc_settings project.now proc index }
{
    let entry = project.entry(u32::from(proc), u32::from(index));
    ProcSettings {
        proc,
        entry,
        place: place_for(project, entry),
        window: project.window(),
    }
}

/// The place of the address that an entry names; without one, any.
fn place_for(project: &Project, entry: Option<ScriptEntry>) -> Place
    requires { IfSome entry IsEntry }
    ensures { result ≡ place_for project.now entry }
{
    let nowhere = Place { module: 0, row: 0 };
    match entry {
        Some(ScriptEntry::Reference { address, .. } | ScriptEntry::Until { address, .. }) => {
            project.place(address).unwrap_or(nowhere)
        }
        _ => nowhere,
    }
}

/// What a combining switch of a stage reads of a project.
fn comb_settings(project: &Project, shape: Shape, stage: u8) -> CombSettings
    requires { shape ≡ project.now.k }
    ensures { result ≡ comb_settings project.now stage }
{
    CombSettings {
        bit: shape.deciding_bit(stage),
        combine: project.combine(u32::from(stage)),
        wait: project.wait(),
    }
}

/// A low switch one cycle later; nothing where it stays as it is.
fn low_step<S: NearState>(
    alloc: Global,
    project: &Project,
    shape: Shape,
    near: &[S],
    stage: u8,
    index: u8,
    own: &LowState,
) -> Result<Option<Arc<MachineState>>, NoMemory>
    requires shape { shape ≡ project.now.k }
    requires there { Exists shape (Component.Switch Net.Low stage index) }
    requires own { slice_get (map S.state near.now) 0 ≡ Some (MachineState.Low own.now) }
    ensures { IfOk result (λ next. IsNextOf (MachineState.Low own.now) (MachineState.Low (low_after (project.now.k - 1 - stage) (switch_pulls project.now (map S.state near.now) Net.Low stage index) own.now)) (option_map arc_value next)) }
{
    let pulls = switch_pulls(project, shape, near, Net::Low, stage, index, own);
    if low_rests(own, &pulls) {
        return Ok(None);
    }
    let next = own.step(alloc, shape.deciding_bit(stage), &pulls.traffic())?;
    Ok(Some(Arc::new(alloc, MachineState::Low(next))?))
}

/// A combining switch one cycle later; nothing where it stays as it is.
fn comb_step<S: NearState>(
    alloc: Global,
    project: &Project,
    shape: Shape,
    near: &[S],
    stage: u8,
    index: u8,
    own: &CombState,
) -> Result<Option<Arc<MachineState>>, NoMemory>
    requires shape { shape ≡ project.now.k }
    requires there { Exists shape (Component.Switch Net.Comb stage index) }
    requires own { slice_get (map S.state near.now) 0 ≡ Some (MachineState.Comb own.now) }
    ensures { IfOk result (λ next. IsNextOf (MachineState.Comb own.now) (MachineState.Comb (comb_after (comb_settings project.now stage) (switch_pulls project.now (map S.state near.now) Net.Comb stage index) own.now)) (option_map arc_value next)) }
{
    let pulls = switch_pulls(project, shape, near, Net::Comb, stage, index, own);
    if comb_rests(own, &pulls) {
        return Ok(None);
    }
    let settings = comb_settings(project, shape, stage);
    let next = own.step(alloc, &settings, &pulls.traffic())?;
    Ok(Some(Arc::new(alloc, MachineState::Comb(next))?))
}

/// A processor one cycle later; nothing where it stays as it is.
fn proc_step<S: NearState>(
    alloc: Global,
    project: &Project,
    shape: Shape,
    near: &[S],
    proc: u8,
    own: &ProcState,
) -> Result<Option<Arc<MachineState>>, NoMemory>
    requires shape { shape ≡ project.now.k }
    requires there { Exists shape (Component.Proc proc) }
    ensures { IfOk result (λ next. IsNextOf (MachineState.Proc own.now) (MachineState.Proc (proc_after (proc_settings project.now proc own.now.index) (proc_pulls project.now (map S.state near.now) proc) own.now)) (option_map arc_value next)) }
{
    let settings = proc_settings(project, proc, own.index);
    let next = own.step(&settings, &proc_pulls(project, shape, near, proc));
    if next.same(own) {
        return Ok(None);
    }
    Ok(Some(Arc::new(alloc, MachineState::Proc(next))?))
}

/// A module one cycle later; nothing where it stays as it is.
fn module_step<S: NearState>(
    alloc: Global,
    project: &Project,
    shape: Shape,
    near: &[S],
    number: u8,
    own: &ModuleState,
) -> Result<Option<Arc<MachineState>>, NoMemory>
    requires shape { shape ≡ project.now.k }
    requires there { Exists shape (Component.Module number) }
    ensures { IfOk result (λ next. IsNextOf (MachineState.Module own.now) (MachineState.Module (module_after (depth_of project.now ModuleQueue) (module_pulls project.now (map S.state near.now) number) own.now)) (option_map arc_value next)) }
{
    let pulls = module_pulls(project, shape, near, number);
    if module_rests(own, &pulls) {
        return Ok(None);
    }
    let next = own.step(alloc, project.depth(Depths::ModuleQueue), &pulls.traffic())?;
    Ok(Some(Arc::new(alloc, MachineState::Module(next))?))
}

/// The blank state of a component that holds one of another kind.
#[inline(never)]
fn blank(alloc: Global, component: Component) -> Result<Option<Arc<MachineState>>, NoMemory>
    ensures { IfOk result (λ next. option_map arc_value next ≡ Some (blank_of (Some component))) }
{
    let blank = blank_of(alloc, component)?;
    Ok(Some(Arc::new(alloc, blank)?))
}

/// A component's state one cycle later, from its own state and the near states, its own first; nothing
/// where it stays as it is. It takes memory only for another state.
pub(crate) fn moved<S: NearState>(
    alloc: Global,
    project: &Project,
    shape: Shape,
    near: &[S],
    component: Component,
    own: &MachineState,
) -> Result<Option<Arc<MachineState>>, NoMemory>
    requires shape { shape ≡ project.now.k }
    requires there { Exists shape component }
    requires own { slice_get (map S.state near.now) 0 ≡ Some own.now }
    ensures { IfOk result (λ next. IsNextOf own.now (pulled project.now (map S.state near.now) (Some component) own.now) (option_map arc_value next)) }
{
    match (component, own) {
        (Component::Proc(p), MachineState::Proc(s)) => proc_step(alloc, project, shape, near, p, s),
        (Component::Module(m), MachineState::Module(s)) => {
            module_step(alloc, project, shape, near, m, s)
        }
        (
            Component::Switch {
                net: Net::Low,
                stage,
                index,
            },
            MachineState::Low(s),
        ) => low_step(alloc, project, shape, near, stage, index, s),
        (
            Component::Switch {
                net: Net::Comb,
                stage,
                index,
            },
            MachineState::Comb(s),
        ) => comb_step(alloc, project, shape, near, stage, index, s),
        _ => blank(alloc, component),
    }
}

/// The same, and where it stays as it is the own state, with one more owner.
pub(crate) fn pulled<S: NearState>(
    alloc: Global,
    project: &Project,
    shape: Shape,
    near: &[S],
    component: Component,
    own: &Arc<MachineState>,
) -> Result<Arc<MachineState>, NoMemory>
    requires shape { shape ≡ project.now.k }
    requires there { Exists shape component }
    requires own { slice_get (map S.state near.now) 0 ≡ Some (arc_value own.now) }
    ensures { IfOk result (λ next. arc_value next ≡ pulled project.now (map S.state near.now) (Some component) (arc_value own.now)) }
{
    match moved(alloc, project, shape, near, component, own)? {
        Some(next) => Ok(next),
        None => Ok(Arc::try_clone(own)?),
    }
}
