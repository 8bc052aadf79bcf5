//! What is wrong with a node, in the order of the report.
ghost use Rattle.std.specs.Prelude.{◌≡◌, ◌++◌, [], Some, map, flat_map, is_some, unwrap_or, option_to_list, slice_get, IfOk, OnOk};
ghost use Rattle.std.specs.List.{list_all};
ghost use Rattle.fly_types.specs.Lookup.{AreVariablesSorted};
ghost use Rattle.fly_docs.specs.declared.node.Target.{out-Target};
ghost use Rattle.fly_docs.specs.Bindings.{binding_of};
ghost use Rattle.fly_docs.specs.Form.{IsBundleInForm};
ghost use Rattle.fly_docs.specs.Plans.{nodes_of};
ghost use Rattle.fly_faults.specs.BindingFaults as faulty;
ghost use Rattle.fly_compile.specs.BoundNames.{HasNames, unnamed};
ghost use Rattle.fly_faults.specs.NodeFaults as spec;
ghost use Rattle.fly_faults.specs.Places as places;
ghost use Rattle.fly_compile.specs.Sites.{HasSortedNames, IsSiteOf, input_variables, site_of};

use crate::array_faults::{push_depth_faults, push_unmapped_faults};
use crate::binding_faults::{push_bindings_faults, push_unbound_faults};
use crate::condition_faults::push_condition_faults;
use crate::node_checks::{
    cases_of, push_id_faults, push_no_condition_faults, push_target_faults, push_upstream_faults,
};
use crate::node_inputs::node_inputs;
use crate::site::{Inputs, Site};
use crate::sources::Sources;
use crate::{Code, Fault};
use fly_docs::{Binding, Node, Target, Task, Workflow};
use fly_faults::concatenated;
use fly_types::{NoMemory, Text, Variable};
use std::alloc::Global;
use std::collections::BTreeSet;

/// The place of a node.
fn node_place(alloc: Global, workflow: &Workflow, node: &Node) -> Result<Text, NoMemory>
    ensures { IfOk result (λ t. t ≡ places.node_place workflow.now node.now) }
{
    concatenated(alloc, workflow.id.name.as_str(), "/", node.id.as_str())
}

/// The faults of the bindings. The answer is the names that are bound, and whether there is no fault.
fn push_checked_bindings<'a>(
    alloc: Global,
    faults: &mut Vec<Fault>,
    site: &Site<'_, '_, 'a>,
    inputs: &'a [Binding],
) -> Result<(BTreeSet<&'a str>, bool), NoMemory>
    requires sorted { HasSortedNames site.now.inputs }
    ensures faults { OnOk result (faults.new.items ≡ faults.old.items ++ faulty.bindings_faults (site_of site.now) inputs.now) }
    ensures names { IfOk result (λ r. HasNames inputs.now r.0) }
    ensures sound { IfOk result (λ r. r.1 ≡ spec.is_empty (faulty.bindings_faults (site_of site.now) inputs.now)) }
{
    let before = faults.len();
    let names = push_bindings_faults(alloc, faults, site, inputs)?;
    let are_sound = faults.len() == before;
    Ok((names, are_sound))
}

/// NotBound for each of the variables that is not among the names. The answer is whether there is none.
fn push_missing_inputs(
    alloc: Global,
    faults: &mut Vec<Fault>,
    place: &Text,
    variables: &[Variable],
    names: &BTreeSet<&str>,
) -> Result<bool, NoMemory>
    ensures faults { OnOk result (faults.new.items ≡ faults.old.items
        ++ map (λ v. places.fault_at Code.NotBound (places.variable_place place.now v.name)) (unnamed names.now variables.now)) }
    ensures none { IfOk result (λ r. r ≡ spec.is_empty (map (λ v. places.fault_at Code.NotBound (places.variable_place place.now v.name)) (unnamed names.now variables.now))) }
{
    let before = faults.len();
    push_unbound_faults(alloc, faults, Code::NotBound, place, variables, names)?;
    Ok(faults.len() == before)
}

/// The same for the inputs of a node.
fn push_input_faults(
    alloc: Global,
    faults: &mut Vec<Fault>,
    site: &Site<'_, '_, '_>,
    names: &BTreeSet<&str>,
) -> Result<bool, NoMemory>
    ensures faults { OnOk result (faults.new.items ≡ faults.old.items
        ++ map (λ v. places.fault_at Code.NotBound (places.variable_place site.now.place v.name)) (unnamed names.now (unwrap_or (input_variables site.now.inputs) []))) }
    ensures none { IfOk result (λ r. r ≡ spec.is_empty (map (λ v. places.fault_at Code.NotBound (places.variable_place site.now.place v.name))
        (unnamed names.now (unwrap_or (input_variables site.now.inputs) [])))) }
{
    match site.inputs {
        Inputs::Values(variables) | Inputs::Lists(variables) => {
            push_missing_inputs(alloc, faults, &site.place, variables.as_slice(), names)
        }
        Inputs::Unknown | Inputs::Primitives => Ok(true),
    }
}

/// The faults of an array over the task.
fn push_task_array_faults(
    alloc: Global,
    faults: &mut Vec<Fault>,
    site: &Site<'_, '_, '_>,
    node: &Node,
    task: &Task,
    min_successes: Option<u32>,
    are_bound: bool,
) -> Result<(), NoMemory>
    requires sorted { AreVariablesSorted task.now.interface.inputs }
    requires bound { are_bound ≡ list_all (λ v. is_some (binding_of v.name node.now.inputs)) task.now.interface.inputs }
    ensures { OnOk result (faults.new.items ≡ faults.old.items ++ spec.task_array_faults (site_of site.now) node.now min_successes (Some task.now)) }
{
    let inputs = node.inputs.as_slice();
    push_unmapped_faults(
        alloc,
        faults,
        site,
        &task.interface.inputs,
        inputs,
        are_bound,
    )?;
    let outputs = task.interface.outputs.as_slice();
    push_depth_faults(alloc, faults, &site.place, min_successes.is_some(), outputs)
}

/// The faults of an array, none of another node. All inputs are bound or not.
fn push_array_faults<'a>(
    alloc: Global,
    faults: &mut Vec<Fault>,
    site: &Site<'_, '_, 'a>,
    node: &'a Node,
    are_bound: bool,
) -> Result<(), NoMemory>
    requires form { IsBundleInForm site.now.sources.now.bundle }
    requires site { IsSiteOf node.now site.now }
    requires bound { are_bound ≡ list_all (λ v. is_some (binding_of v.name node.now.inputs)) (unwrap_or (input_variables site.now.inputs) []) }
    ensures { OnOk result (faults.new.items ≡ faults.old.items
        ++ spec.array_faults_in site.now.sources.now.bundle (site_of site.now) node.now (out-Target node.now.target)) }
{
    match &node.target {
        Target::Array {
            task,
            min_successes,
        } => match site.sources.directory().task(task) {
            Some(task) => push_task_array_faults(
                alloc,
                faults,
                site,
                node,
                task,
                *min_successes,
                are_bound,
            ),
            None => Ok(()),
        },
        _ => Ok(()),
    }
}

/// The faults of what is bound in a node.
fn push_node_bindings<'a>(
    alloc: Global,
    faults: &mut Vec<Fault>,
    site: &Site<'_, '_, 'a>,
    node: &'a Node,
) -> Result<(), NoMemory>
    requires form { IsBundleInForm site.now.sources.now.bundle }
    requires site { IsSiteOf node.now site.now }
    ensures { OnOk result (faults.new.items ≡ faults.old.items
        ++ (faulty.bindings_faults (site_of site.now) node.now.inputs
        ++ flat_map (λ variables. faulty.unbound_faults Code.NotBound site.now.place variables node.now.inputs) (option_to_list (input_variables site.now.inputs))
        ++ spec.array_faults_in site.now.sources.now.bundle (site_of site.now) node.now (out-Target node.now.target)
        ++ spec.condition_faults (site_of site.now) node.now)) }
{
    let inputs = node.inputs.as_slice();
    let (names, are_sound) = push_checked_bindings(alloc, faults, site, inputs)?;
    let are_bound = push_input_faults(alloc, faults, site, &names)?;
    push_array_faults(alloc, faults, site, node, are_bound)?;
    push_condition_faults(alloc, faults, site, inputs, cases_of(node), are_sound)
}

/// The faults of the ids that a node names.
fn push_node_checks(
    alloc: Global,
    faults: &mut Vec<Fault>,
    site: &Site<'_, '_, '_>,
    index: usize,
    node: &Node,
) -> Result<(), NoMemory>
    requires there { slice_get (nodes_of site.now.sources.now.workflow) index ≡ Some node.now }
    requires site { IsSiteOf node.now site.now }
    ensures { OnOk result (faults.new.items ≡ faults.old.items
        ++ (spec.id_faults site.now.sources.now.workflow index node.now
        ++ spec.target_faults site.now.sources.now.bundle site.now.sources.now.workflow node.now
        ++ spec.upstream_faults site.now.sources.now.workflow node.now
        ++ spec.no_condition_faults site.now.sources.now.workflow node.now)) }
{
    let layout = site.sources.layout();
    push_id_faults(alloc, faults, layout, index, node, &site.place)?;
    push_target_faults(alloc, faults, site, node)?;
    push_upstream_faults(alloc, faults, layout, node.upstream.as_slice(), &site.place)?;
    push_no_condition_faults(alloc, faults, cases_of(node), &site.place)
}

/// The faults of the node at this place of the workflow.
pub(crate) fn push_faults_of_node<'a>(
    alloc: Global,
    faults: &mut Vec<Fault>,
    sources: &Sources<'_, 'a>,
    index: usize,
    node: &'a Node,
) -> Result<(), NoMemory>
    requires form { IsBundleInForm sources.now.bundle }
    requires there { slice_get (nodes_of sources.now.workflow) index ≡ Some node.now }
    ensures { OnOk result (faults.new.items ≡ faults.old.items ++ spec.faults_of_node sources.now.bundle sources.now.workflow index node.now) }
{
    let place = node_place(alloc, sources.layout().workflow(), node)?;
    let inputs = node_inputs(sources.directory(), node);
    let site = Site {
        place,
        sources,
        inputs,
    };
    push_node_checks(alloc, faults, &site, index, node)?;
    push_node_bindings(alloc, faults, &site, node)
}
