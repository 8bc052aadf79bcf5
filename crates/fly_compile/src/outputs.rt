//! What nodes give.
ghost use Rattle.std.specs.Prelude.{◌≡◌, ◌++◌, [], ◌∷◌, Some, None, map, filter, option_map, option_to_list, is_none, is_some, IfOk, OnOk};
ghost use Rattle.std.specs.List.{All, list_any, list_all};
ghost use Rattle.fly_types.specs.Lookup.{AreVariablesSorted};
ghost use Rattle.fly_docs.specs.Form.{IsBundleInForm};
ghost use Rattle.fly_docs.specs.Interfaces.{type_of, has_variable};
ghost use Rattle.fly_docs.specs.NodeInterfaces as interfaces;
ghost use Rattle.fly_docs.specs.declared.node.Target.TheOpen.{Target-F};
ghost use Rattle.std.specs.Ordering.{nat_cmp};
ghost use Rattle.std.specs.Cmp.Lexicographic.{slice_cmp};
ghost use Rattle.fly_faults.specs.OutputTypes.{type_of_output, source_of_origin};
ghost use Rattle.fly_compile.specs.Outputs.{output_variable, item_variable, outputs_value, known_variables, AreOutputsSorted, source_found, common_of};

use fly_docs::{Case, Identifier, Node, Target};
use fly_faults::{Origin, OutputType};
use fly_links::Directory;
use fly_types::{Boxed, List, NoMemory, Text, Variable, find_variable};
use std::alloc::Global;

/// An output of a node.
#[derive(Clone, Copy)]
pub(crate) struct Output<'a> {
    pub name: &'a Text,
    pub kind: OutputType<'a>,
}

/// The outputs of a node, by their names.
#[derive(Drop)]
pub(crate) enum Outputs<'a> {
    /// What the node runs, or what a node inside it runs, is not in the bundle.
    Unknown,
    /// Those of a task or a workflow.
    Plain(&'a List<Variable>),
    /// Lists of the outputs of an array's task, where items may lack them or not.
    Items(&'a List<Variable>, bool),
    /// What all cases of a branch give.
    Common(Vec<Output<'a>>),
}

impl<'a> Outputs<'a> {
    /// What a promise of the output of this name is of.
    pub(crate) fn find(&self, name: &Text) -> Origin<'a>
        requires sorted { AreOutputsSorted self.now }
        ensures { source_of_origin result ≡ source_found name.now (outputs_value self.now) }
    {
        match self {
            Outputs::Unknown => Origin::Anything,
            Outputs::Plain(variables) => match find_variable(variables, name) {
                Some(variable) => Origin::Output(OutputType::Plain(&variable.kind)),
                None => Origin::NoVariable,
            },
            Outputs::Items(variables, may_lack) => find_items(variables, *may_lack, name),
            Outputs::Common(outputs) => find_output(outputs, name),
        }
    }

    /// Whether there is an output of the same name and type.
    fn has(&self, output: Output<'a>) -> bool
        requires sorted { AreOutputsSorted self.now }
        ensures { result ≡ has_variable (known_variables self.now) (output_variable output.entry) }
    {
        match self.find(output.name) {
            Origin::Output(kind) => kind.is_same(output.kind),
            _ => false,
        }
    }

    fn is_unknown(&self) -> bool
        ensures { result ≡ is_none (outputs_value self.now) }
    {
        matches!(self, Outputs::Unknown)
    }

    /// The outputs in a list, none where they are unknown.
    fn listed(&self, alloc: Global) -> Result<Vec<Output<'a>>, NoMemory>
        ensures { IfOk result (λ outputs. map output_variable outputs.items ≡ known_variables self.now) }
    {
        match self {
            Outputs::Unknown => Ok(Vec::new(alloc)),
            Outputs::Plain(variables) => plain_outputs(alloc, variables.as_slice()),
            Outputs::Items(variables, may_lack) => {
                item_outputs(alloc, variables.as_slice(), *may_lack)
            }
            Outputs::Common(outputs) => Ok(Vec::from_slice(alloc, outputs)?),
        }
    }
}

fn find_items<'a>(variables: &'a List<Variable>, may_lack: bool, name: &Text) -> Origin<'a>
    requires { AreVariablesSorted (map (item_variable may_lack) variables.now) }
    ensures { source_of_origin result ≡ interfaces.source_in name.now (map (item_variable may_lack) variables.now) }
{
    match find_variable(variables, name) {
        Some(variable) => Origin::Output(OutputType::Items(&variable.kind, may_lack)),
        None => Origin::NoVariable,
    }
}

fn find_output<'a>(outputs: &[Output<'a>], name: &Text) -> Origin<'a>
    requires { AreVariablesSorted (map output_variable outputs.now) }
    ensures { source_of_origin result ≡ interfaces.source_in name.now (map output_variable outputs.now) }
{
    match outputs.binary_search_by(
        |output|
            ensures { result ≡ slice_cmp nat_cmp output.now.name.now name.entry.now }
        { output.name.cmp(name) },
    ) {
        Ok(at) => Origin::Output(outputs[at].kind),
        Err(_) => Origin::NoVariable,
    }
}

fn plain_outputs<'a>(alloc: Global, variables: &'a [Variable]) -> Result<Vec<Output<'a>>, NoMemory>
    ensures { IfOk result (λ outputs. map output_variable outputs.items ≡ variables.now) }
{
    let mut outputs = Vec::with_capacity(alloc, variables.len())?;
    for variable in variables {
        outputs.push(Output {
            name: &variable.name,
            kind: OutputType::Plain(&variable.kind),
        })?;
    }
    Ok(outputs)
}

fn item_outputs<'a>(
    alloc: Global,
    variables: &'a [Variable],
    may_lack: bool,
) -> Result<Vec<Output<'a>>, NoMemory>
    ensures { IfOk result (λ outputs. map output_variable outputs.items ≡ map (item_variable may_lack) variables.now) }
{
    let mut outputs = Vec::with_capacity(alloc, variables.len())?;
    for variable in variables {
        outputs.push(Output {
            name: &variable.name,
            kind: OutputType::Items(&variable.kind, may_lack),
        })?;
    }
    Ok(outputs)
}

/// Whether all of these give the output too.
fn all_have<'a>(others: &[Outputs<'a>], output: Output<'a>) -> bool
    requires sorted { All AreOutputsSorted others.now }
    ensures { result ≡ list_all (λ other. has_variable (known_variables other) (output_variable output.entry)) others.now }
{
    for other in others {
        if !other.has(output) {
            return false;
        }
    }
    true
}

/// Adds the output, where all of these give it too.
fn push_common<'a>(
    common: &mut Vec<Output<'a>>,
    output: Output<'a>,
    others: &[Outputs<'a>],
) -> Result<(), NoMemory>
    requires sorted { All AreOutputsSorted others.now }
    ensures { OnOk result (map output_variable common.new.items ≡ map output_variable common.old.items
        ++ filter (λ v. list_all (λ other. has_variable (known_variables other) v) others.now) (output_variable output.entry ∷ [])) }
{
    if all_have(others, output) {
        common.push(output)?;
    }
    Ok(())
}

/// The outputs among these that all the others give too.
fn common_outputs<'a>(
    alloc: Global,
    outputs: &[Output<'a>],
    others: &[Outputs<'a>],
) -> Result<Vec<Output<'a>>, NoMemory>
    requires sorted { All AreOutputsSorted others.now }
    ensures { IfOk result (λ common. map output_variable common.items
        ≡ filter (λ v. list_all (λ other. has_variable (known_variables other) v) others.now) (map output_variable outputs.now)) }
{
    let mut common = Vec::new(alloc);
    for output in outputs {
        push_common(&mut common, *output, others)?;
    }
    Ok(common)
}

/// Whether all outputs are known.
fn are_known(lists: &[Outputs<'_>]) -> bool
    ensures { result ≡ list_all (λ o. is_some (outputs_value o)) lists.now }
{
    for outputs in lists {
        if outputs.is_unknown() {
            return false;
        }
    }
    true
}

/// What a branch gives, whose cases give these.
fn common_of<'a>(alloc: Global, lists: &[Outputs<'a>]) -> Result<Outputs<'a>, NoMemory>
    requires sorted { All AreOutputsSorted lists.now }
    ensures value { IfOk result (λ o. outputs_value o ≡ common_of (map outputs_value lists.now)) }
    ensures sorted { IfOk result AreOutputsSorted }
{
    if !are_known(lists) {
        return Ok(Outputs::Unknown);
    }
    let Some((first, others)) = lists.split_first() else {
        return Ok(Outputs::Common(Vec::new(alloc)));
    };
    let outputs = first.listed(alloc)?;
    Ok(Outputs::Common(common_outputs(alloc, &outputs, others)?))
}

/// The outputs of a node.
#[cycle(outputs)]
pub(crate) fn outputs_of<'a>(
    alloc: Global,
    directory: &Directory<'a>,
    node: &'a Node,
) -> Result<Outputs<'a>, NoMemory>
    requires form { IsBundleInForm directory.now }
    ensures value { IfOk result (λ o. outputs_value o ≡ interfaces.outputs_of directory.now node.now) }
    ensures sorted { IfOk result AreOutputsSorted }
{
    match &node.target {
        Target::Task(id) => Ok(task_outputs(directory, id)),
        Target::Workflow(id) => Ok(workflow_outputs(directory, id)),
        Target::Branch {
            cases,
            otherwise,
            error: _,
        } => {
            let mut lists = Vec::new(alloc);
            push_cases(alloc, &mut lists, directory, cases.as_slice())?;
            push_otherwise(alloc, &mut lists, directory, otherwise)?;
            common_of(alloc, &lists)
        }
        Target::Array {
            task,
            min_successes,
        } => Ok(array_outputs(directory, task, *min_successes)),
    }
}

fn task_outputs<'a>(directory: &Directory<'a>, id: &'a Identifier) -> Outputs<'a>
    requires form { IsBundleInForm directory.now }
    ensures value { outputs_value result ≡ interfaces.outputs_by directory.now (Target-F.Task id.now) }
    ensures sorted { AreOutputsSorted result }
{
    match directory.task(id) {
        Some(task) => Outputs::Plain(&task.interface.outputs),
        None => Outputs::Unknown,
    }
}

fn workflow_outputs<'a>(directory: &Directory<'a>, id: &'a Identifier) -> Outputs<'a>
    requires form { IsBundleInForm directory.now }
    ensures value { outputs_value result ≡ interfaces.outputs_by directory.now (Target-F.Workflow id.now) }
    ensures sorted { AreOutputsSorted result }
{
    match directory.workflow(id) {
        Some(workflow) => Outputs::Plain(&workflow.interface.outputs),
        None => Outputs::Unknown,
    }
}

fn array_outputs<'a>(
    directory: &Directory<'a>,
    task: &'a Identifier,
    min_successes: Option<u32>,
) -> Outputs<'a>
    requires form { IsBundleInForm directory.now }
    ensures value { outputs_value result ≡ interfaces.outputs_by directory.now (Target-F.Array task.now min_successes) }
    ensures sorted { AreOutputsSorted result }
{
    match directory.task(task) {
        Some(task) => Outputs::Items(&task.interface.outputs, min_successes.is_some()),
        None => Outputs::Unknown,
    }
}

#[cycle(outputs)]
fn push_cases<'a>(
    alloc: Global,
    lists: &mut Vec<Outputs<'a>>,
    directory: &Directory<'a>,
    cases: &'a [Case],
) -> Result<(), NoMemory>
    requires form { IsBundleInForm directory.now }
    ensures values { OnOk result (map outputs_value lists.new.items
        ≡ map outputs_value lists.old.items ++ map (λ case. interfaces.outputs_of directory.now case.then) cases.now) }
    ensures sorted { OnOk result (All AreOutputsSorted lists.old.items → All AreOutputsSorted lists.new.items) }
{
    for case in cases {
        lists.push(outputs_of(alloc, directory, &case.then)?)?;
    }
    Ok(())
}

#[cycle(outputs)]
fn push_otherwise<'a>(
    alloc: Global,
    lists: &mut Vec<Outputs<'a>>,
    directory: &Directory<'a>,
    otherwise: &'a Option<Boxed<Node>>,
) -> Result<(), NoMemory>
    requires form { IsBundleInForm directory.now }
    ensures values { OnOk result (map outputs_value lists.new.items
        ≡ map outputs_value lists.old.items ++ map (interfaces.outputs_of directory.now) (option_to_list otherwise.now)) }
    ensures sorted { OnOk result (All AreOutputsSorted lists.old.items → All AreOutputsSorted lists.new.items) }
{
    if let Some(node) = otherwise {
        lists.push(outputs_of(alloc, directory, node.get())?)?;
    }
    Ok(())
}
