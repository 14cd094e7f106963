//! The machine as the page has it.
ghost use Rattle.std.specs.Prelude.{◌≡◌, ◌≤◌, ◌<◌, ◌++◌, OnOk, Some, string_bytes};
ghost use Rattle.std.specs.List.{flat_map};
ghost use Rattle.omega_net.specs.Numbers.{component_of, components};
ghost use Rattle.omega_net.specs.Wires.{below};
ghost use Rattle.project_book.specs.Project.{combines_at};
ghost use Rattle.machine_page.specs.Machines.{combining_line, components_line, lower_text, machine_text, name_text, net_wires, on_text, places_line, run_line, stage_wires, upper_text, wire_text, wires_line};

use omega_net::{Net, Shape, Wire};
use project_book::{Depths, Project};
use std::alloc::AllocError;
use std::fmt;
use std::fmt::Write;

/// Adds the line on the run and the page.
fn add_run(text: &mut String, project: &Project, from: u32, to: u32) -> Result<(), AllocError>
    ensures { OnOk result (string_bytes text.new ≡ string_bytes text.old ++ run_line project.now from to) }
{
    let (k, horizon) = (project.k(), project.horizon());
    write!(text, "run {k} {horizon} {from} {to}\n")
}

/// Adds the line on places.
fn add_places(text: &mut String, project: &Project) -> Result<(), AllocError>
    ensures { OnOk result (string_bytes text.new ≡ string_bytes text.old ++ places_line project.now) }
{
    let low_forward = project.depth(Depths::LowForward);
    let low_reverse = project.depth(Depths::LowReverse);
    write!(text, "places {low_forward} {low_reverse}")?;
    let comb_forward = project.depth(Depths::CombForward);
    let comb_reverse = project.depth(Depths::CombReverse);
    write!(text, " {comb_forward} {comb_reverse}")?;
    let module = project.depth(Depths::ModuleQueue);
    let wait = project.wait();
    write!(text, " {module} {wait}\n")
}

/// Whether a stage combines.
fn on(combines: bool) -> &'static str
    ensures { result.now ≡ on_text combines }
{
    if combines { " on" } else { " off" }
}

/// Adds for each stage whether it combines.
fn add_stages(text: &mut String, project: &Project) -> Result<(), AllocError>
    ensures { OnOk result (string_bytes text.new ≡ string_bytes text.old ++ flat_map (λ stage. on_text (combines_at project.now stage)) (below project.now.k)) }
{
    for stage in 0..project.k() {
        text.push_str(on(project.combine(stage)))?;
    }
    Ok(())
}

/// Adds the line on combining.
fn add_combining(text: &mut String, project: &Project) -> Result<(), AllocError>
    ensures { OnOk result (string_bytes text.new ≡ string_bytes text.old ++ combining_line project.now) }
{
    text.push_str("combining")?;
    add_stages(text, project)?;
    text.push_str("\n")
}

/// Adds the name of a component.
fn add_name(text: &mut String, shape: Shape, number: u32) -> Result<(), AllocError>
    ensures { OnOk result (string_bytes text.new ≡ string_bytes text.old ++ name_text (component_of shape number)) }
{
    match shape.component(number) {
        Some(component) => write!(text, " {component}"),
        None => Ok(()),
    }
}

/// Adds the names of all components.
fn add_names(text: &mut String, shape: Shape) -> Result<(), AllocError>
    ensures { OnOk result (string_bytes text.new ≡ string_bytes text.old ++ flat_map (λ c. name_text (component_of shape c)) (below (components shape))) }
{
    for number in 0..shape.components() {
        add_name(text, shape, number)?;
    }
    Ok(())
}

/// Adds the line on components.
fn add_components(text: &mut String, shape: Shape) -> Result<(), AllocError>
    ensures { OnOk result (string_bytes text.new ≡ string_bytes text.old ++ components_line shape) }
{
    text.push_str("components")?;
    add_names(text, shape)?;
    text.push_str("\n")
}

/// The end of a wire towards the processors.
#[derive(Clone, Copy)]
struct Upper(Wire);

impl fmt::Display for Upper {
    ghost output = { λ end. Some (upper_text end.0) };

    fn fmt<W: fmt::Write>(&self, f: &mut fmt::Formatter<W>) -> fmt::Result {
        let (component, output) = (self.0.upper_end(), self.0.output());
        write!(f, "{component},{output}")
    }
}

/// The end of a wire towards the modules.
#[derive(Clone, Copy)]
struct Lower {
    shape: Shape,
    wire: Wire,
}

impl fmt::Display for Lower {
    ghost output = { λ end. Some (lower_text end.shape end.wire) };

    fn fmt<W: fmt::Write>(&self, f: &mut fmt::Formatter<W>) -> fmt::Result {
        let component = self.shape.lower_end(self.wire);
        let input = self.shape.input(self.wire);
        write!(f, "{component},{input}")
    }
}

/// Adds a wire.
fn add_wire(text: &mut String, shape: Shape, wire: Wire) -> Result<(), AllocError>
    ensures { OnOk result (string_bytes text.new ≡ string_bytes text.old ++ wire_text shape wire) }
{
    let (upper, lower) = (Upper(wire), Lower { shape, wire });
    match wire.net {
        Net::Low => write!(text, " l,{upper},{lower}"),
        Net::Comb => write!(text, " c,{upper},{lower}"),
    }
}

/// Adds the wires before a stage, or behind the last.
fn add_stage_wires(text: &mut String, shape: Shape, net: Net, stage: u32) -> Result<(), AllocError>
    requires { stage ≤ shape }
    ensures { OnOk result (string_bytes text.new ≡ string_bytes text.old ++ stage_wires shape net stage) }
{
    for line in 0..shape.lines() {
        let wire = Wire {
            net,
            stage: stage as u8,
            line: line as u8,
        };
        add_wire(text, shape, wire)?;
    }
    Ok(())
}

/// Adds the wires of a network.
fn add_net_wires(text: &mut String, shape: Shape, net: Net) -> Result<(), AllocError>
    ensures { OnOk result (string_bytes text.new ≡ string_bytes text.old ++ net_wires shape net) }
{
    for stage in 0..shape.k() + 1 {
        add_stage_wires(text, shape, net, stage)?;
    }
    Ok(())
}

/// Adds the line on wires.
fn add_wires(text: &mut String, shape: Shape) -> Result<(), AllocError>
    ensures { OnOk result (string_bytes text.new ≡ string_bytes text.old ++ wires_line shape) }
{
    text.push_str("wires")?;
    add_net_wires(text, shape, Net::Low)?;
    add_net_wires(text, shape, Net::Comb)?;
    text.push_str("\n")
}

/// Adds the machine, and the cycles of the page.
pub(crate) fn add_machine(
    text: &mut String,
    project: &Project,
    from: u32,
    to: u32,
) -> Result<(), AllocError>
    ensures { OnOk result (string_bytes text.new ≡ string_bytes text.old ++ machine_text project.now from to) }
{
    let shape = project.shape();
    add_run(text, project, from, to)?;
    add_places(text, project)?;
    add_combining(text, project)?;
    add_components(text, shape)?;
    add_wires(text, shape)
}
