//! The plan of a run.
ghost use Rattle.std.specs.Prelude.{◌≡◌, ◌↔◌, IsTrue, ℕ, ◌<◌, ◌^◌, ◌∷◌, [], length, map, position, bytes_eq, Some, IfOk, option_map, List as Listed};
ghost use Rattle.std.specs.BTreeMap.{get};
ghost use Rattle.std.specs.Ordering.{nat_cmp};
ghost use Rattle.std.specs.Cmp.Lexicographic.{slice_cmp};
ghost use Rattle.fly_docs.specs.declared.node.Node as node;
ghost use Rattle.fly_docs.specs.declared.node.Target.{out-Target};
ghost use Rattle.fly_docs.specs.Names.{IsId};
ghost use Rattle.fly_docs.specs.Readable.{IsTaskTarget};
ghost use Rattle.fly_docs.specs.Closures.{bundle_of};
ghost use Rattle.fly_docs.specs.Plans.{PlanNode};
ghost use Rattle.fly_docs.specs.declared.task.Task as task;
ghost use Rattle.fly_docs.specs.declared.workflow.Workflow as workflow;
ghost use Rattle.fly_state.specs.Sites.{binding_place, site_by};

use crate::looks::order_of;
use crate::origins::{Origin, is_start, variable_origin};
use crate::sites::{Site, places_of_variables, sites_of};
use crate::standing::standing_among;
use crate::tables::{first_places, task_keys};
use crate::{ExecState, Standing};
use fly_docs::{Bundle, Closure, Node, Target, Task, Workflow, is_id};
use fly_types::{List, NoMemory, Text, TryCopy};
use std::alloc::Global;
use std::collections::BTreeMap;
use std::marker::Model;

/// The most nodes of a workflow.
const MOST_NODES: usize = 1024;

/// The nodes of a run in plan order, by which they are numbered. Contracts see the documents of the run beside the list
/// of its nodes.
#[derive(Drop)]
pub struct Plan {
    documents: Bundle,
    /// The number of each node, by its id.
    numbers: BTreeMap<Text, u32>,
    sites: List<Site>,
    /// The numbers, each behind those that it looks at.
    order: List<u32>,
    /// For each output of the run the place of its binding.
    outputs: List<Option<usize>>,
}

impl Model for Plan {
    ghost use Rattle.fly_state.specs.Plans.{RunPlan};
    ghost use Rattle.std.specs.Coded.{codes};
    ghost use Rattle.fly_types.specs.contracts.kinds.LiteralType as types;
    ghost use Rattle.fly_types.specs.contracts.literals.Literal as literals;
    ghost use Rattle.fly_types.specs.contracts.literals.Tree as trees;
    ghost use Rattle.fly_exprs.specs.contracts.expr.Expr as exprs;
    ghost use Rattle.fly_docs.specs.contracts.binding.Bound as bounds;
    ghost use Rattle.fly_docs.specs.contracts.node.Node as steps;

    ghost Value = { RunPlan };

    ghost coded = { Prim.hlevel (codes, types.the_row.coded, literals.the_row.coded, trees.the_row.coded, exprs.the_row.coded, bounds.the_row.coded, steps.the_row.coded) };

    ghost use Rattle.fly_state.specs.Plans.{run_plan};
    ghost use Rattle.fly_state.specs.PlanTables.{HasTables};

    ghost view = { λ p. run_plan p.documents };

    ghost invariant = { λ p. HasTables p.documents p.numbers p.sites p.order p.outputs };
}

impl Plan {
    ghost use Rattle.fly_rules.specs.Rules.{values_at};
    ghost use Rattle.std.specs.Prelude.{option_and_then};
    ghost use Rattle.std.specs.Option.{option_copied};
    ghost use Rattle.fly_docs.specs.Bindings.{source_node};
    ghost use Rattle.fly_docs.specs.Lookups.{primary_of};
    ghost use Rattle.fly_state.specs.Plans.{plan_for, node_numbered, number_of, number_in, looks, task_of};
    ghost use Rattle.fly_state.specs.Origins.{source_of_origin, source_in_run};
    ghost use Rattle.fly_state.specs.Looks.{IsLookOrder};
    ghost use Rattle.fly_state.specs.Standing.{meaning_of, known_standing, standing_by};
    ghost use Rattle.fly_docs.specs.TypedClosures.{IsTypedClosure};
    ghost use Rattle.fly_state.specs.PlanTables.{IsPlannable, IsOuterPlan};

    /// Whether the closure is one that has a plan today: of task nodes alone, with ids as names, and no more than a workflow
    /// may have.
    pub fn expands(c: &Closure) -> bool
        ensures { IsTrue result ↔ IsPlannable c.now }
    {
        let nodes = c.primary.nodes.as_slice();
        if nodes.len() > MOST_NODES {
            return false;
        }
        for node in nodes {
            if !is_plannable(node) {
                return false;
            }
        }
        true
    }

    /// The plan of a closure that the compiler gave, of task nodes alone.
    pub fn expand(alloc: Global, c: &Closure) -> Result<Plan, NoMemory>
        requires plannable { IsPlannable c.now }
        requires compiled { IsTypedClosure c.now }
        ensures { IfOk result (λ plan. plan ≡ plan_for c.now) }
    {
        let nodes = c.primary.nodes.as_slice();
        let numbers = numbers_of(alloc, nodes)?;
        let sites = sites_in(alloc, c, &numbers)?;
        let order = order_of(alloc, &sites)?;
        let outputs = places_of_variables(
            alloc,
            c.primary.interface.outputs.as_slice(),
            c.primary.outputs.as_slice(),
        )?;
        let documents = templates(alloc, c)?;
        Ok(Plan {
            documents,
            numbers,
            sites: List::from_vec(sites),
            order,
            outputs: List::from_vec(outputs),
        })
    }

    /// How many nodes there are.
    pub fn len(&self) -> u32
        ensures { result ≡ length self.now.nodes }
    {
        self.sites.len() as u32
    }

    /// The path of the node of this number.
    pub fn path_of(&self, n: u32) -> &List<Text>
        requires { n < length self.now.nodes }
        ensures { option_map (λ (p : PlanNode). p.path) (node_numbered self.now n) ≡ Some result.now }
    {
        &self.sites.as_slice()[n as usize].path
    }

    /// The number of the node that has the path.
    pub fn node_at(&self, path: &List<Text>) -> Option<u32>
        ensures { result ≡ number_of self.now path.now }
    {
        let numbers = &self.numbers;
        let path = path.as_slice();
        if path.len() != 1 {
            return None;
        }
        numbers.get(&path[0]).copied()
    }

    /// The numbers of the nodes, each behind those that it looks at.
    pub fn order(&self) -> &[u32]
        ensures { IsLookOrder (looks self.now) (length self.now.nodes) result.now }
    {
        self.order.as_slice()
    }

    /// The primary workflow.
    pub fn primary(&self) -> &Workflow
        ensures { IsOuterPlan self.now result.now }
    {
        &self.documents.workflows.as_slice()[0]
    }

    /// The number of the node of a promise. The start is no node.
    pub(crate) fn source_number(&self, node: &Text) -> Option<u32>
        ensures { result ≡ number_in self.now [] (source_node node.now) }
    {
        let numbers = &self.numbers;
        if is_start(node) {
            return None;
        }
        numbers.get(node).copied()
    }

    /// The node of this number.
    pub fn node(&self, number: u32) -> &Node
        requires { number < length self.now.nodes }
        ensures { option_map (λ (p : PlanNode). p.node) (node_numbered self.now number) ≡ Some result.now }
    {
        let nodes = self.documents.workflows.as_slice()[0].nodes.as_slice();
        &nodes[number as usize]
    }

    /// The task that the node of this number runs.
    pub fn task(&self, number: u32) -> Option<&Task>
        ensures { option_copied result ≡ option_and_then (task_of self.now) (node_numbered self.now number) }
    {
        let Some(site) = self.sites.get(number as usize) else {
            return None;
        };
        let Some(place) = site.task else {
            return None;
        };
        self.documents.tasks.get(place)
    }

    /// What a promise in the primary workflow is of.
    pub(crate) fn source(&self, node: &Text, var: &Text) -> Origin<'_>
        ensures { source_of_origin result ≡ source_in_run self.now (source_node node.now, var.now) }
    {
        let primary = &self.documents.workflows.as_slice()[0];
        if is_start(node) {
            return variable_origin(primary.interface.inputs.as_slice(), var);
        }
        let Some(number) = self.source_number(node) else {
            return Origin::NoNode;
        };
        match self.task(number) {
            Some(task) => variable_origin(task.interface.outputs.as_slice(), var),
            None => Origin::Anything,
        }
    }

    /// For each input of its task the place of its binding at the node of this number.
    pub(crate) fn bindings(&self, number: u32) -> &[Option<usize>]
        requires { number < length self.now.nodes }
        ensures { (p : PlanNode) (t : task.Task) → node_numbered self.now number ≡ Some p → task_of self.now p ≡ Some t
            → result.now ≡ map (binding_place p.node.inputs) t.interface.inputs }
    {
        self.sites.as_slice()[number as usize].bindings.as_slice()
    }

    /// For each output of the run the place of its binding.
    pub(crate) fn output_bindings(&self) -> &[Option<usize>]
        ensures { (w : workflow.Workflow) → primary_of self.now.documents ≡ Some w
            → result.now ≡ map (binding_place w.outputs) w.interface.outputs }
    {
        self.outputs.as_slice()
    }

    /// What the node of this number looks at.
    pub(crate) fn looks(&self, number: u32) -> &[u32]
        requires { number < length self.now.nodes }
        ensures { result.now ≡ looks self.now number }
    {
        self.sites.as_slice()[number as usize].looks.as_slice()
    }

    /// How the node of this number stands in a state, where those that it looks at stand as is known. Who isn't known counts
    /// as blocked. Costs what the node looks at.
    pub fn standing_by(&self, state: &ExecState, number: u32, known: &[Standing]) -> Standing
        requires { number < length self.now.nodes }
        ensures { meaning_of result
            ≡ standing_by self.now state.now number (values_at (known_standing known.now) (looks self.now number)) }
    {
        self.primary();
        standing_among(state, self.looks(number), known)
    }
}

/// Whether it is a task node, with an id as its name.
fn is_plannable(node: &Node) -> bool
    ensures { IsTrue result ↔ (IsTaskTarget (out-Target node.now.target) × IsId node.now.id) }
{
    is_task(node) && is_id(node.id.as_str())
}

fn is_task(node: &Node) -> bool
    ensures { IsTrue result ↔ IsTaskTarget (out-Target node.now.target) }
{
    match node.target {
        Target::Task(_) => true,
        _ => false,
    }
}

/// The documents of a closure: its workflows, the primary first, and its tasks.
fn templates(alloc: Global, c: &Closure) -> Result<Bundle, NoMemory>
    ensures { IfOk result (λ b. b ≡ bundle_of c.now) }
{
    let mut workflows = Vec::with_capacity(alloc, 1)?;
    workflows.push(c.primary.copy(alloc)?)?;
    for sub in c.subs.as_slice() {
        workflows.push(sub.copy(alloc)?)?;
    }
    Ok(Bundle {
        tasks: c.tasks.copy(alloc)?,
        workflows: List::from_vec(workflows),
        primary: c.primary.id.copy(alloc)?,
    })
}

/// The sites of the nodes of a closure's primary workflow.
fn sites_in(
    alloc: Global,
    c: &Closure,
    numbers: &BTreeMap<Text, u32>,
) -> Result<Vec<Site>, NoMemory>
    ensures { IfOk result (λ sites. sites.items ≡ map (site_by c.now.tasks (get (slice_cmp nat_cmp) numbers.now)) c.now.primary.nodes) }
{
    let keys = task_keys(alloc, c.tasks.as_slice())?;
    let places = first_places(alloc, &keys)?;
    sites_of(
        alloc,
        &c.tasks,
        &places,
        numbers,
        c.primary.nodes.as_slice(),
    )
}

/// The number of each node by its id. Of two nodes with one id the first is found.
fn numbers_of(alloc: Global, nodes: &[Node]) -> Result<BTreeMap<Text, u32>, NoMemory>
    requires { length nodes.now < 2 ^ 32 }
    ensures { IfOk result (λ numbers. (id : Listed ℕ) → get (slice_cmp nat_cmp) numbers id
        ≡ position (bytes_eq id) (map (λ (n : node.Node). n.id) nodes.now)) }
{
    let mut numbers = BTreeMap::new(alloc);
    for (number, node) in nodes.iter().enumerate() {
        if numbers.get(&node.id).is_none() {
            numbers.insert(node.id.copy(alloc)?, number as u32)?;
        }
    }
    Ok(numbers)
}
