//! What is kept of each node of a plan.
ghost use Rattle.std.specs.Prelude.{◌≡◌, [], ◌∷◌, map, option_to_list, option_and_then, slice_get, IfOk};
ghost use Rattle.std.specs.BTreeMap.{get};
ghost use Rattle.std.specs.Ordering.{nat_cmp};
ghost use Rattle.std.specs.Cmp.Lexicographic.{slice_cmp};
ghost use Rattle.fly_docs.specs.declared.node.Target.{out-Target};
ghost use Rattle.fly_state.specs.Tables.{HasTaskPlaces, HasBindingPlaces};
ghost use Rattle.fly_state.specs.Sites as words;

use crate::looks::looks_of;
use crate::tables::{Key, bound_names, first_places, found, key_of};
use fly_docs::{Binding, Node, Target, Task};
use fly_types::{List, NoMemory, Text, Variable};
use std::alloc::Global;
use std::collections::BTreeMap;

/// A node of a plan, before any state.
#[derive(Debug, Drop)]
pub(crate) struct Site {
    pub path: List<Text>,
    /// The numbers of the nodes that it looks at.
    pub looks: List<u32>,
    /// The place of its task.
    pub task: Option<usize>,
    /// For each input of its task the place of its binding.
    pub bindings: List<Option<usize>>,
}

/// The sites of nodes that stand in no other.
pub(crate) fn sites_of<'a>(
    alloc: Global,
    tasks: &List<Task>,
    places: &BTreeMap<Key<'a>, usize>,
    numbers: &BTreeMap<Text, u32>,
    nodes: &'a [Node],
) -> Result<Vec<Site>, NoMemory>
    requires { HasTaskPlaces tasks.now places.now }
    ensures { IfOk result (λ sites. sites.items ≡ map (words.site_by tasks.now (get (slice_cmp nat_cmp) numbers.now)) nodes.now) }
{
    let mut sites = Vec::with_capacity(alloc, nodes.len())?;
    for node in nodes {
        sites.push(site_of(alloc, tasks, places, numbers, node)?)?;
    }
    Ok(sites)
}

fn site_of<'a>(
    alloc: Global,
    tasks: &List<Task>,
    places: &BTreeMap<Key<'a>, usize>,
    numbers: &BTreeMap<Text, u32>,
    node: &'a Node,
) -> Result<Site, NoMemory>
    requires { HasTaskPlaces tasks.now places.now }
    ensures { IfOk result (λ site. site ≡ words.site_by tasks.now (get (slice_cmp nat_cmp) numbers.now) node.now) }
{
    let task = place_of_task(tasks, places, &node.target);
    let bindings = binding_places(alloc, tasks, task, node.inputs.as_slice())?;
    let looks = looks_of(alloc, numbers, node)?;
    Ok(Site {
        path: path_to(alloc, &node.id)?,
        looks: List::from_vec(looks),
        task,
        bindings: List::from_vec(bindings),
    })
}

/// The place of the task that a node runs.
fn place_of_task<'a>(
    tasks: &List<Task>,
    places: &BTreeMap<Key<'a>, usize>,
    target: &'a Target,
) -> Option<usize>
    requires { HasTaskPlaces tasks.now places.now }
    ensures { result ≡ words.place_of_target tasks.now (out-Target target.now) }
{
    let _tasks = tasks;
    match target {
        Target::Task(id) => found(places, key_of(id)),
        Target::Array { task, .. } => found(places, key_of(task)),
        _ => None,
    }
}

/// The places of the bindings of a task's inputs.
fn binding_places(
    alloc: Global,
    tasks: &List<Task>,
    task: Option<usize>,
    bindings: &[Binding],
) -> Result<Vec<Option<usize>>, NoMemory>
    ensures { IfOk result (λ places. places.items ≡ words.binding_places tasks.now task bindings.now) }
{
    let Some(place) = task else {
        return Ok(Vec::new(alloc));
    };
    match tasks.get(place) {
        Some(task) => places_of_variables(alloc, task.interface.inputs.as_slice(), bindings),
        None => Ok(Vec::new(alloc)),
    }
}

/// The place of the first binding of each variable.
pub(crate) fn places_of_variables(
    alloc: Global,
    variables: &[Variable],
    bindings: &[Binding],
) -> Result<Vec<Option<usize>>, NoMemory>
    ensures { IfOk result (λ places. places.items ≡ map (words.binding_place bindings.now) variables.now) }
{
    let table = binding_table(alloc, bindings)?;
    let mut places = Vec::with_capacity(alloc, variables.len())?;
    for variable in variables {
        places.push(table.get(variable.name.as_str()).copied())?;
    }
    Ok(places)
}

/// The place of the first binding of each name.
fn binding_table(alloc: Global, bindings: &[Binding]) -> Result<BTreeMap<&str, usize>, NoMemory>
    ensures { IfOk result (HasBindingPlaces bindings.now) }
{
    let names = bound_names(alloc, bindings)?;
    first_places(alloc, &names)
}

/// The path of a node that stands in no other.
fn path_to(alloc: Global, id: &Text) -> Result<List<Text>, NoMemory>
    ensures { IfOk result (λ path. path ≡ id.now ∷ []) }
{
    let mut path = Vec::with_capacity(alloc, 1)?;
    path.push(id.copy(alloc)?)?;
    Ok(List::from_vec(path))
}
