ghost use Rattle.std.specs.Prelude.{◌≡◌, IfOk, map};
ghost use Rattle.serde_json.specs.View.{view, number_view, members_view};
ghost use Rattle.fly_values.specs.Fields.{entries_of};
ghost use Rattle.fly_types.specs.declared.literals.Tree.TheVariants as trees;
ghost use Rattle.fly_values.specs.Scalars.{exact_value};
ghost use Rattle.fly_values.specs.Trees.{tree_at, struct_value};

use crate::fields::fields_of;
use crate::scalars::exact_from;
use fly_types::{List, NoMemory, Text, Tree};
use serde_json::{Map, Number, Value};
use std::alloc::Global;

/// How deep the parts of a STRUCT may lie in each other: it has at most 16 levels itself.
const TREE_DEPTH: usize = 15;

/// The content of a STRUCT.
#[tactic(auto, unfolding(crate::specs::Trees::struct_value))]
pub fn struct_from(alloc: Global, value: Value) -> Result<Tree, NoMemory>
    ensures { IfOk result (λ t. t ≡ struct_value (view value)) }
{
    let members = members_from(alloc, TREE_DEPTH, fields_of(alloc, value))?;
    Ok(Tree::Object(members))
}

#[cycle(trees)]
fn tree_from(alloc: Global, depth: usize, value: Value) -> Result<Tree, NoMemory>
    ensures { IfOk result (λ t. t ≡ tree_at depth (view value)) }
{
    match value {
        Value::Null => Ok(Tree::Null),
        Value::Bool(truth) => Ok(Tree::Bool(truth)),
        Value::Number(number) => Ok(whole_tree(&number)),
        Value::String(text) => Ok(Tree::Text(Text::from_string(text))),
        Value::Array(items) => {
            if depth == 0 {
                return Ok(Tree::Null);
            }
            Ok(Tree::List(trees_from(alloc, depth - 1, items)?))
        }
        Value::Object(members) => {
            if depth == 0 {
                return Ok(Tree::Null);
            }
            Ok(Tree::Object(members_from(alloc, depth - 1, members)?))
        }
    }
}

fn whole_tree(number: &Number) -> Tree
    ensures { result ≡ trees.Whole (exact_value (number_view number.now)) }
{
    Tree::Whole(exact_from(number))
}

#[cycle(trees)]
fn trees_from(alloc: Global, depth: usize, items: Vec<Value>) -> Result<List<Tree>, NoMemory>
    ensures { IfOk result (λ ts. ts ≡ map (λ v. tree_at depth (view v)) items.items) }
{
    let mut made = Vec::with_capacity(alloc, items.len())?;
    for item in items {
        made.push(tree_from(alloc, depth, item)?)?;
    }
    Ok(List::from_vec(made))
}

#[cycle(trees)]
fn members_from(
    alloc: Global,
    depth: usize,
    members: Map<String, Value>,
) -> Result<List<(Text, Tree)>, NoMemory>
    ensures { IfOk result (λ ms. ms ≡ map (λ e. (e.0, tree_at depth e.1))
        (entries_of (members_view members.entries))) }
{
    let mut made = Vec::with_capacity(alloc, members.len())?;
    for (name, value) in members {
        made.push((Text::from_string(name), tree_from(alloc, depth, value)?))?;
    }
    Ok(List::from_vec(made))
}
