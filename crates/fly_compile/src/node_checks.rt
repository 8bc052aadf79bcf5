//! What is wrong with the ids that a node names, and with its cases.
ghost use Rattle.std.specs.Prelude.{◌≡◌, ◌++◌, ◌∷◌, [], ◌<◌, ◌||◌, if◌then◌else◌, not, map, filter, take, length, is_none, IfOk, OnOk};
ghost use Rattle.std.specs.List.{list_any};
ghost use Rattle.std.specs.Str.{bytes_eq};
ghost use Rattle.fly_docs.specs.Names.{start_node, end_node};
ghost use Rattle.fly_docs.specs.Plans.{nodes_of, node_ids};
ghost use Rattle.fly_links.specs.Layout.{id_at};
ghost use Rattle.fly_faults.specs.NodeFaults as spec;
ghost use Rattle.fly_faults.specs.Places as places;
ghost use Rattle.fly_compile.specs.Sites.{IsSiteOf};

use crate::site::Site;
use crate::{Code, Fault};
use fly_docs::{Case, END_NODE, Node, START_NODE, Target};
use fly_faults::{report_at, report_with};
use fly_links::Layout;
use fly_types::{NoMemory, Text};
use std::alloc::Global;

/// Whether the node's id is that of the start, of the end or of an earlier node.
fn is_taken(layout: &Layout<'_>, index: usize, node: &Node) -> bool
    requires there { index < length (nodes_of layout.now) }
    requires id { id_at layout.now index ≡ node.now.id }
    ensures { result ≡ (bytes_eq node.now.id start_node || bytes_eq node.now.id end_node || list_any (bytes_eq node.now.id) (take index (node_ids layout.now))) }
{
    if node.id.as_str() == START_NODE {
        return true;
    }
    if node.id.as_str() == END_NODE {
        return true;
    }
    layout.is_repeated(index)
}

/// DuplicateId, where the id is taken.
pub(crate) fn push_id_faults(
    alloc: Global,
    faults: &mut Vec<Fault>,
    layout: &Layout<'_>,
    index: usize,
    node: &Node,
    place: &Text,
) -> Result<(), NoMemory>
    requires there { index < length (nodes_of layout.now) }
    requires id { id_at layout.now index ≡ node.now.id }
    requires place { place.now ≡ places.node_place layout.now node.now }
    ensures { OnOk result (faults.new.items ≡ faults.old.items ++ spec.id_faults layout.now index node.now) }
{
    if !is_taken(layout, index, node) {
        return Ok(());
    }
    report_at(alloc, faults, Code::DuplicateId, place)
}

/// TaskNotFound or WorkflowNotFound, where what the node runs is not in the bundle.
pub(crate) fn push_target_faults(
    alloc: Global,
    faults: &mut Vec<Fault>,
    site: &Site<'_, '_, '_>,
    node: &Node,
) -> Result<(), NoMemory>
    requires { IsSiteOf node.now site.now }
    ensures { OnOk result (faults.new.items ≡ faults.old.items ++ spec.target_faults site.now.sources.now.bundle site.now.sources.now.workflow node.now) }
{
    if !site.inputs.is_unknown() {
        return Ok(());
    }
    match &node.target {
        Target::Workflow(_) => report_at(alloc, faults, Code::WorkflowNotFound, &site.place),
        _ => report_at(alloc, faults, Code::TaskNotFound, &site.place),
    }
}

/// NodeNotFound for an id upstream that is neither the start nor a node.
fn push_upstream_fault(
    alloc: Global,
    faults: &mut Vec<Fault>,
    layout: &Layout<'_>,
    id: &Text,
    place: &Text,
) -> Result<(), NoMemory>
    ensures { OnOk result (faults.new.items ≡ faults.old.items
        ++ (if spec.is_node_or_start layout.now id.now then [] else places.fault_with Code.NodeNotFound place.now id.now ∷ [])) }
{
    if id.as_str() == START_NODE {
        return Ok(());
    }
    if layout.node(id).is_some() {
        return Ok(());
    }
    let detail = id.copy(alloc)?;
    report_with(alloc, faults, Code::NodeNotFound, place, detail)
}

pub(crate) fn push_upstream_faults(
    alloc: Global,
    faults: &mut Vec<Fault>,
    layout: &Layout<'_>,
    upstream: &[Text],
    place: &Text,
) -> Result<(), NoMemory>
    ensures { OnOk result (faults.new.items ≡ faults.old.items
        ++ map (λ id. places.fault_with Code.NodeNotFound place.now id) (filter (λ id. not (spec.is_node_or_start layout.now id)) upstream.now)) }
{
    for id in upstream {
        push_upstream_fault(alloc, faults, layout, id, place)?;
    }
    Ok(())
}

/// The cases of a branch, none of another node.
pub(crate) fn cases_of(node: &Node) -> &[Case]
    ensures { result.now ≡ spec.cases_of node.now }
{
    match &node.target {
        Target::Branch { cases, .. } => cases.as_slice(),
        _ => &[],
    }
}

/// BranchNoCondition for a case without a condition.
fn push_no_condition_fault(
    alloc: Global,
    faults: &mut Vec<Fault>,
    case: &Case,
    place: &Text,
) -> Result<(), NoMemory>
    ensures { OnOk result (faults.new.items ≡ faults.old.items
        ++ (if is_none case.now.condition then places.fault_at Code.BranchNoCondition place.now ∷ [] else [])) }
{
    if case.condition.is_some() {
        return Ok(());
    }
    report_at(alloc, faults, Code::BranchNoCondition, place)
}

pub(crate) fn push_no_condition_faults(
    alloc: Global,
    faults: &mut Vec<Fault>,
    cases: &[Case],
    place: &Text,
) -> Result<(), NoMemory>
    ensures { OnOk result (faults.new.items ≡ faults.old.items
        ++ map (λ case. places.fault_at Code.BranchNoCondition place.now) (filter (λ case. is_none case.condition) cases.now)) }
{
    for case in cases {
        push_no_condition_fault(alloc, faults, case, place)?;
    }
    Ok(())
}
