//! The form of nodes, and of the nodes of their cases.
ghost use Rattle.std.specs.Prelude.{◌≡◌, ◌⊎◌, ◌↔◌, ◌≤◌, length, None, IfSome, IsTrue};
ghost use Rattle.std.specs.List.{All};
ghost use Rattle.fly_docs.specs.declared.node.Node.{out-Node};
ghost use Rattle.fly_docs.specs.Form.{IsNodeLayerInForm, IsNodeInForm};
ghost use Rattle.fly_forms.specs.Nodes.{IsTargetInForm, IsCaseInForm};

use crate::bindings::are_bindings_in_form;
use crate::conditions::is_condition_in_form;
use fly_docs::{Case, Node, Target, is_id};
use fly_types::{Boxed, Text};

/// The most attempts that may follow the first.
pub(crate) const MOST_RETRIES: u32 = 10;

pub(crate) fn are_nodes_in_form(nodes: &[Node]) -> bool
    ensures { IsTrue result ↔ All IsNodeInForm nodes.now }
{
    for node in nodes {
        if !is_node_in_form(node) {
            return false;
        }
    }
    true
}

#[cycle(node_in_form)]
fn is_node_in_form(node: &Node) -> bool
    ensures { IsTrue result ↔ IsNodeInForm node.now }
{
    is_own_part_in_form(node) && is_target_in_form(&node.target)
}

/// Whether all but what the node runs is in form.
fn is_own_part_in_form(node: &Node) -> bool
    ensures { IsTrue result ↔ IsNodeLayerInForm (out-Node node.now) }
{
    is_id(node.id.as_str())
        && node.retries <= MOST_RETRIES
        && are_bindings_in_form(node.inputs.as_slice())
}

#[cycle(node_in_form)]
fn is_target_in_form(target: &Target) -> bool
    ensures { IsTrue result ↔ IsTargetInForm target.now }
{
    let Target::Branch {
        cases,
        otherwise,
        error,
    } = target
    else {
        return true;
    };
    if !has_ways(cases.as_slice(), otherwise, error) {
        return false;
    }
    are_cases_in_form(cases.as_slice()) && is_otherwise_in_form(otherwise)
}

/// Whether a branch has a case, and not both a node and an error for where no condition holds.
fn has_ways(cases: &[Case], otherwise: &Option<Boxed<Node>>, error: &Option<Text>) -> bool
    ensures { IsTrue result ↔ ((1 ≤ length cases.now) × ((otherwise.now ≡ None) ⊎ (error.now ≡ None))) }
{
    !cases.is_empty() && (otherwise.is_none() || error.is_none())
}

#[cycle(node_in_form)]
fn are_cases_in_form(cases: &[Case]) -> bool
    ensures { IsTrue result ↔ All IsCaseInForm cases.now }
{
    for case in cases {
        if !is_case_in_form(case) {
            return false;
        }
    }
    true
}

#[cycle(node_in_form)]
fn is_case_in_form(case: &Case) -> bool
    ensures { IsTrue result ↔ IsCaseInForm case.now }
{
    is_condition_in_form(&case.condition) && is_node_in_form(&case.then)
}

#[cycle(node_in_form)]
fn is_otherwise_in_form(otherwise: &Option<Boxed<Node>>) -> bool
    ensures { IsTrue result ↔ IfSome otherwise.now IsNodeInForm }
{
    match otherwise {
        Some(node) => is_node_in_form(node.get()),
        None => true,
    }
}
