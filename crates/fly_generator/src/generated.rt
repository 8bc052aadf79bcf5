ghost use Rattle.std.specs.Prelude.{◌≡◌, ◌≤◌, ◌<◌, ◌∷◌, [], map, IfOk};
ghost use Rattle.std.specs.List.{range_with_len};
ghost use Rattle.fly_generator.specs.Generated as words;

use fly_docs::{Binding, Bound, Bundle, Identifier, Interface, Node, Target, Task, Workflow};
use fly_types::{List, Literal, LiteralType, NoMemory, Simple, Text, Variable};
use std::alloc::Global;

/// The most nodes of a workflow.
pub const MAX_NODES: u32 = 1024;

/// A bundle with one task, which adds, and one workflow of `count` nodes, each of which adds its own number to the sum
/// of the node above it in a tree.
pub fn generate(alloc: Global, count: u32) -> Result<Bundle, NoMemory>
    requires some { 1 ≤ count }
    requires few { count ≤ words.most_nodes }
    ensures { IfOk result (λ b. b ≡ words.generated count) }
{
    Ok(Bundle {
        tasks: one(alloc, add_task(alloc)?)?,
        workflows: one(alloc, workflow(alloc, count)?)?,
        primary: id_named(alloc, "made")?,
    })
}

fn one<T: Drop>(alloc: Global, item: T) -> Result<List<T>, NoMemory>
    ensures { IfOk result (λ l. l ≡ item ∷ []) }
{
    let mut items = Vec::new(alloc);
    items.push(item)?;
    Ok(List::from_vec(items))
}

fn two<T: Drop>(alloc: Global, first: T, second: T) -> Result<List<T>, NoMemory>
    ensures { IfOk result (λ l. l ≡ first ∷ second ∷ []) }
{
    let mut items = Vec::new(alloc);
    items.push(first)?;
    items.push(second)?;
    Ok(List::from_vec(items))
}

fn none<T: Drop>(alloc: Global) -> List<T>
    ensures { result ≡ [] }
{
    List::from_vec(Vec::new(alloc))
}

fn id_named(alloc: Global, name: &str) -> Result<Identifier, NoMemory>
    ensures { IfOk result (λ id. id ≡ words.id_named name.now) }
{
    Ok(Identifier {
        project: Text::from_str(alloc, "p")?,
        domain: Text::from_str(alloc, "d")?,
        name: Text::from_str(alloc, name)?,
        version: Text::from_str(alloc, "1")?,
    })
}

fn whole(alloc: Global, name: &str) -> Result<Variable, NoMemory>
    ensures { IfOk result (λ v. v ≡ words.whole name.now) }
{
    Ok(Variable {
        name: Text::from_str(alloc, name)?,
        kind: LiteralType::Simple(Simple::Integer),
    })
}

fn add_task(alloc: Global) -> Result<Task, NoMemory>
    ensures { IfOk result (λ t. t ≡ words.add_task) }
{
    Ok(Task {
        id: id_named(alloc, "add")?,
        cached: false,
        serializable: false,
        cache_version: Text::from_str(alloc, "")?,
        timeout_ms: 0,
        retries: 0,
        interface: Interface {
            inputs: two(alloc, whole(alloc, "x")?, whole(alloc, "y")?)?,
            outputs: one(alloc, whole(alloc, "z")?)?,
        },
        command: one(alloc, Text::from_str(alloc, "add")?)?,
        args: none(alloc),
    })
}

/// The id of the node of a number.
fn node_id(alloc: Global, number: u32) -> Result<Text, NoMemory>
    ensures { IfOk result (λ id. id ≡ words.node_id number) }
{
    Ok(Text::from_string(format!(in alloc; "n{number}")?))
}

fn binding(alloc: Global, var: &str, bound: Bound) -> Result<Binding, NoMemory>
    ensures { IfOk result (λ b. b ≡ words.binding var.now bound) }
{
    Ok(Binding {
        var: Text::from_str(alloc, var)?,
        bound,
    })
}

/// What the node of a number gives.
fn sum_at(alloc: Global, number: u32) -> Result<Bound, NoMemory>
    ensures { IfOk result (λ b. b ≡ words.sum_at number) }
{
    Ok(Bound::Promise {
        node: node_id(alloc, number)?,
        var: Text::from_str(alloc, "z")?,
    })
}

/// Where the x of a node comes from.
fn above(alloc: Global, number: u32) -> Result<Bound, NoMemory>
    ensures { IfOk result (λ b. b ≡ words.above number) }
{
    if number > 0 {
        return sum_at(alloc, (number - 1) / 2);
    }
    Ok(Bound::Promise {
        node: Text::from_str(alloc, "start-node")?,
        var: Text::from_str(alloc, "a")?,
    })
}

fn node(alloc: Global, number: u32) -> Result<Node, NoMemory>
    ensures { IfOk result (λ n. n ≡ words.node_numbered number) }
{
    let y = Bound::Scalar(Literal::Integer(i64::from(number)));
    let x = binding(alloc, "x", above(alloc, number)?)?;
    Ok(Node {
        id: node_id(alloc, number)?,
        timeout_ms: 0,
        retries: 0,
        inputs: two(alloc, x, binding(alloc, "y", y)?)?,
        upstream: none(alloc),
        target: Target::Task(id_named(alloc, "add")?),
    })
}

fn nodes(alloc: Global, count: u32) -> Result<List<Node>, NoMemory>
    ensures { IfOk result (λ l. l ≡ map words.node_numbered (range_with_len 0 count)) }
{
    let mut nodes = Vec::new(alloc);
    for number in 0..count {
        nodes.push(node(alloc, number)?)?;
    }
    Ok(List::from_vec(nodes))
}

fn interface(alloc: Global) -> Result<Interface, NoMemory>
    ensures { IfOk result (λ i. i ≡ words.generated_interface) }
{
    Ok(Interface {
        inputs: one(alloc, whole(alloc, "a")?)?,
        outputs: one(alloc, whole(alloc, "b")?)?,
    })
}

fn workflow(alloc: Global, count: u32) -> Result<Workflow, NoMemory>
    requires { 1 ≤ count }
    ensures { IfOk result (λ w. w ≡ words.generated_workflow count) }
{
    let last = sum_at(alloc, count - 1)?;
    Ok(Workflow {
        id: id_named(alloc, "made")?,
        fail_late: false,
        interface: interface(alloc)?,
        nodes: nodes(alloc, count)?,
        outputs: one(alloc, binding(alloc, "b", last)?)?,
    })
}
