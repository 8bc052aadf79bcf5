//! What the promises in a workflow are of.
ghost use Rattle.std.specs.Prelude.{◌≡◌, IfOk};
ghost use Rattle.fly_types.specs.Lookup.{AreVariablesSorted};
ghost use Rattle.std.specs.Str.{bytes_eq};
ghost use Rattle.fly_docs.specs.Names.{start_node};
ghost use Rattle.fly_docs.specs.Bindings.{source_node};
ghost use Rattle.fly_docs.specs.Form.{IsBundleInForm};
ghost use Rattle.fly_docs.specs.NodeInterfaces.{source_in};
ghost use Rattle.fly_compile.specs.Outputs.{AreOutputsOf};
ghost use Rattle.fly_faults.specs.OutputTypes.{source_of_origin};
ghost use Rattle.fly_compile.specs.Scopes as scopes;
ghost use Rattle.fly_compile.specs.Scopes.{source_there};

use crate::outputs::{Outputs, outputs_of};
use fly_docs::{START_NODE, Workflow};
use fly_faults::{Origin, OutputType};
use fly_links::{Directory, Layout};
use fly_types::{List, NoMemory, Text, Variable, find_variable};
use std::alloc::Global;
use std::marker::Model;

/// What the promises in a workflow are of. The outputs of each node are found once. A look-up takes no memory. Contracts
/// see the workflow and its bundle.
#[derive(Drop)]
pub(crate) struct Sources<'d, 'a> {
    directory: &'d Directory<'a>,
    layout: Layout<'a>,
    outputs: Vec<Outputs<'a>>,
}

impl<'d, 'a> Model for Sources<'d, 'a> {
    ghost use Rattle.std.specs.Coded.{codes};
    ghost use Rattle.fly_types.specs.contracts.kinds.LiteralType as types;
    ghost use Rattle.fly_types.specs.contracts.literals.Literal as literals;
    ghost use Rattle.fly_types.specs.contracts.literals.Tree as trees;
    ghost use Rattle.fly_exprs.specs.contracts.expr.Expr as exprs;
    ghost use Rattle.fly_docs.specs.contracts.binding.Bound as bounds;
    ghost use Rattle.fly_docs.specs.contracts.node.Node as steps;
    ghost use Rattle.fly_compile.specs.Scopes.{Scope};
    ghost use Rattle.fly_compile.specs.Outputs.{AreOutputsOf};

    ghost Value = { Scope };

    ghost coded = { Prim.hlevel (codes, types.the_row.coded, literals.the_row.coded, trees.the_row.coded, exprs.the_row.coded, bounds.the_row.coded, steps.the_row.coded) };

    ghost view = { λ s. record { bundle = s.directory.now; workflow = s.layout } };

    ghost invariant = { λ s. AreOutputsOf s.directory.now s.layout s.outputs.items };
}

impl<'d, 'a> Sources<'d, 'a> {
    /// What the promises in the workflow are of.
    pub(crate) fn of(
        alloc: Global,
        directory: &'d Directory<'a>,
        workflow: &'a Workflow,
    ) -> Result<Sources<'d, 'a>, NoMemory>
        requires form { IsBundleInForm directory.now }
        requires inputs { AreVariablesSorted workflow.now.interface.inputs }
        ensures { IfOk result (λ s. s ≡ scopes.scope_of directory.now workflow.now) }
    {
        let layout = Layout::of(alloc, workflow)?;
        let outputs = outputs_of_nodes(alloc, directory, &layout)?;
        Ok(Sources {
            directory,
            layout,
            outputs,
        })
    }

    pub(crate) fn directory(&self) -> &'d Directory<'a>
        ensures { result.now ≡ self.now.bundle }
    {
        self.directory
    }

    pub(crate) fn layout(&self) -> &Layout<'a>
        ensures { result.now ≡ self.now.workflow }
    {
        &self.layout
    }

    /// What a promise is of.
    pub(crate) fn find(&self, node: &Text, var: &Text) -> Origin<'a>
        ensures { source_of_origin result ≡ source_there self.now (source_node node.now, var.now) }
    {
        if is_start(node) {
            return input_origin(&self.layout.workflow().interface.inputs, var);
        }
        match self.layout.place(node) {
            Some(place) => self.outputs[place].find(var),
            None => Origin::NoNode,
        }
    }
}

/// The outputs of the nodes, by their places.
fn outputs_of_nodes<'a>(
    alloc: Global,
    directory: &Directory<'a>,
    layout: &Layout<'a>,
) -> Result<Vec<Outputs<'a>>, NoMemory>
    requires form { IsBundleInForm directory.now }
    requires inputs { AreVariablesSorted layout.now.interface.inputs }
    ensures { IfOk result (λ outputs. AreOutputsOf directory.now layout.now outputs.items) }
{
    let nodes = layout.nodes();
    let mut outputs = Vec::with_capacity(alloc, nodes.len())?;
    for node in nodes {
        outputs.push(outputs_of(alloc, directory, node)?)?;
    }
    Ok(outputs)
}

/// Whether the id names the start.
fn is_start(node: &Text) -> bool
    ensures { result ≡ bytes_eq (source_node node.now) start_node }
{
    if node.is_empty() {
        return true;
    }
    node.as_str() == START_NODE
}

/// What a promise of the workflow's input of this name is of.
fn input_origin<'a>(inputs: &'a List<Variable>, var: &Text) -> Origin<'a>
    requires { AreVariablesSorted inputs.now }
    ensures { source_of_origin result ≡ source_in var.now inputs.now }
{
    match find_variable(inputs, var) {
        Some(variable) => Origin::Output(OutputType::Plain(&variable.kind)),
        None => Origin::NoVariable,
    }
}
