//! What is wrong with a workflow, in the order of the report.
ghost use Rattle.std.specs.Prelude.{◌≡◌, ◌++◌, map, option_to_list, slice_get, IfOk, OnOk};
ghost use Rattle.fly_types.specs.Lookup.{AreVariablesSorted};
ghost use Rattle.fly_docs.specs.Closures as closures;
ghost use Rattle.fly_docs.specs.Form.{IsBundleInForm, IsWorkflowInForm};
ghost use Rattle.fly_faults.specs.FaultList as spec;
ghost use Rattle.fly_faults.specs.Places as places;

use crate::binding_faults::{push_bindings_faults, push_unbound_faults};
use crate::node_faults::push_faults_of_node;
use crate::site::{Inputs, Site};
use crate::sources::Sources;
use crate::{Code, Fault};
use fly_docs::{END_NODE, Node, Workflow};
use fly_faults::{concatenated, joined, report_at, report_with};
use fly_links::{Directory, Layout, Links};
use fly_types::{NoMemory, Text};
use std::alloc::Global;

/// How many nodes a workflow may have, with the cases.
const MAX_NODES: usize = 1024;

/// NoNodes, or TooManyNodes, with the cases.
fn push_size_faults(
    alloc: Global,
    faults: &mut Vec<Fault>,
    layout: &Layout<'_>,
) -> Result<(), NoMemory>
    ensures { OnOk result (faults.new.items ≡ faults.old.items ++ spec.size_faults layout.now) }
{
    let count = layout.nodes().len();
    let name = &layout.workflow().id.name;
    if count == 0 {
        return report_at(alloc, faults, Code::NoNodes, name);
    }
    if count > MAX_NODES {
        return report_at(alloc, faults, Code::TooManyNodes, name);
    }
    Ok(())
}

/// The faults of the nodes, in plan order.
fn push_nodes_faults<'a>(
    alloc: Global,
    faults: &mut Vec<Fault>,
    sources: &Sources<'_, 'a>,
) -> Result<(), NoMemory>
    requires form { IsBundleInForm sources.now.bundle }
    ensures { OnOk result (faults.new.items ≡ faults.old.items ++ spec.nodes_faults sources.now.bundle sources.now.workflow) }
{
    let nodes = sources.layout().nodes();
    for (index, node) in nodes.iter().enumerate() {
        push_faults_of_node(alloc, faults, sources, index, node)?;
    }
    Ok(())
}

/// The place of the outputs.
fn outputs_place(alloc: Global, workflow: &Workflow) -> Result<Text, NoMemory>
    ensures { IfOk result (λ t. t ≡ places.outputs_place workflow.now) }
{
    concatenated(alloc, workflow.id.name.as_str(), "/", END_NODE)
}

/// The faults of the outputs, which are bound as inputs are.
fn push_output_faults<'a>(
    alloc: Global,
    faults: &mut Vec<Fault>,
    sources: &Sources<'_, 'a>,
) -> Result<(), NoMemory>
    requires sorted { AreVariablesSorted sources.now.workflow.interface.outputs }
    ensures { OnOk result (faults.new.items ≡ faults.old.items ++ spec.output_faults sources.now.bundle sources.now.workflow) }
{
    let workflow: &'a Workflow = sources.layout().workflow();
    let outputs = &workflow.interface.outputs;
    let place = outputs_place(alloc, workflow)?;
    let site = Site {
        place,
        sources,
        inputs: Inputs::Values(outputs),
    };
    let names = push_bindings_faults(alloc, faults, &site, workflow.outputs.as_slice())?;
    let code = Code::OutputNotBound;
    push_unbound_faults(alloc, faults, code, &site.place, outputs.as_slice(), &names)
}

/// Adds the id of the node at this place, where there is one.
fn push_id<'a>(ids: &mut Vec<&'a Text>, nodes: &[&'a Node], place: usize) -> Result<(), NoMemory>
    ensures { OnOk result (map (λ id. id.now) ids.new.items
        ≡ map (λ id. id.now) ids.old.items ++ map (λ n. n.id) (option_to_list (slice_get (map (λ n. n.now) nodes.now) place))) }
{
    if place >= nodes.len() {
        return Ok(());
    }
    let node = nodes[place];
    ids.push(&node.id)?;
    Ok(())
}

/// The ids of the nodes at these places.
fn ids_at<'a>(
    alloc: Global,
    layout: &Layout<'a>,
    places: &[usize],
) -> Result<Vec<&'a Text>, NoMemory>
    ensures { IfOk result (λ ids. map (λ id. id.now) ids.items ≡ closures.ids_at layout.now places.now) }
{
    let nodes = layout.nodes();
    let mut ids = Vec::with_capacity(alloc, places.len())?;
    for place in places {
        push_id(&mut ids, nodes, *place)?;
    }
    Ok(ids)
}

/// CycleDetected, where nodes reach themselves.
fn push_cycle_fault(
    alloc: Global,
    faults: &mut Vec<Fault>,
    layout: &Layout<'_>,
    places: &[usize],
) -> Result<(), NoMemory>
    ensures { OnOk result (faults.new.items ≡ faults.old.items ++ spec.cycle_fault layout.now places.now) }
{
    if places.is_empty() {
        return Ok(());
    }
    let ids = ids_at(alloc, layout, places)?;
    let detail = joined(alloc, &ids)?;
    let name = &layout.workflow().id.name;
    report_with(alloc, faults, Code::CycleDetected, name, detail)
}

/// The faults of a workflow of the bundle.
pub(crate) fn push_faults_of_workflow<'a>(
    alloc: Global,
    faults: &mut Vec<Fault>,
    directory: &Directory<'a>,
    workflow: &'a Workflow,
) -> Result<(), NoMemory>
    requires form { IsBundleInForm directory.now }
    requires workflow { IsWorkflowInForm workflow.now }
    ensures { OnOk result (faults.new.items ≡ faults.old.items ++ spec.faults_of_workflow directory.now workflow.now) }
{
    let sources = Sources::of(alloc, directory, workflow)?;
    push_size_faults(alloc, faults, sources.layout())?;
    push_nodes_faults(alloc, faults, &sources)?;
    push_output_faults(alloc, faults, &sources)?;
    let links = Links::of(alloc, sources.layout())?;
    let places = links.cyclic_places(alloc)?;
    push_cycle_fault(alloc, faults, sources.layout(), places.as_slice())
}
