//! The report of plain evaluation.
ghost use Rattle.std.specs.Prelude.{◌≡◌, ◌++◌, map, IfOk, OnOk, option_and_then, string_bytes};
ghost use Rattle.fly_docs.specs.AttemptName.{item_text};
ghost use Rattle.fly_report.specs.Lines.{line_text, lines_text, section_text};
ghost use Rattle.fly_state.specs.Plans.{is_task as is_task_node};
ghost use Rattle.fly_verdicts.specs.EvaluationReport as words;

use crate::grouped::{answered_lists, settled_lists, take_list};
use crate::numbers::execution_numbers;
use crate::verdicts::{is_success, push_given, push_verdict};
use fly_docs::{Node, Target};
use fly_eval::{Evaluated, Hits, Results, Seen, evaluate_by_plan};
use fly_report::{LaunchCounts, Slot, push_item, push_path, push_total};
use fly_state::Plan;
use fly_types::{NoMemory, Text};
use fly_world::{World, names_are_of_plan, records_are_typed, worlds_tell_journals};
use std::alloc::Global;

/// The report of plain evaluation over what a store's journal records, in the form of the report of a run: of each
/// execution what it comes to, then its nodes and their items in plan order, with how many of their attempts the journal
/// launched, and what it puts out; and last how many succeed.
pub fn evaluation_report(alloc: Global, plan: &Plan, world: &World<'_>) -> Result<Vec<u8>, NoMemory>
    requires own { world.now.plan ≡ plan.now }
    ensures { IfOk result (λ text. text.items ≡ words.evaluation_text plan.now world.now.world) }
{
    let text = report_text(alloc, plan, world)?;
    Ok(text.into_bytes())
}

fn report_text(alloc: Global, plan: &Plan, world: &World<'_>) -> Result<String, NoMemory>
    requires own { world.now.plan ≡ plan.now }
    ensures { IfOk result (λ text. string_bytes text ≡ words.evaluation_text plan.now world.now.world) }
{
    world.legal_journal();
    names_are_of_plan();
    records_are_typed();
    worlds_tell_journals();
    let numbers = execution_numbers(alloc, world)?;
    let mut settled = settled_lists(alloc, world, &numbers)?;
    let mut answered = answered_lists(alloc, world, &numbers)?;
    let reporter = Reporter {
        alloc,
        plan,
        launches: LaunchCounts::of(alloc, plan, world)?,
    };
    let mut text = String::new(alloc);
    let mut succeeded = 0;
    for number in 0..world.executions() {
        let submission = world.named(number);
        let results = Results {
            list: take_list(alloc, &mut settled, number),
        };
        let hits = Hits {
            list: take_list(alloc, &mut answered, number),
        };
        let evaluated = evaluate_by_plan(alloc, plan, &submission.inputs, &results, &hits)?;
        reporter.push_execution(&mut text, number, &submission.name, &evaluated)?;
        if is_success(&evaluated.root) {
            succeeded += 1;
        }
    }
    push_total(alloc, &mut text, succeeded, world.executions())?;
    Ok(text)
}

/// What the lines go by.
#[derive(Drop)]
struct Reporter<'r> {
    alloc: Global,
    plan: &'r Plan,
    launches: LaunchCounts,
}

impl<'r> Reporter<'r> {
    /// Adds what is said of the execution of a number, which comes to this.
    fn push_execution(
        &self,
        text: &mut String,
        number: u32,
        name: &Text,
        evaluated: &Evaluated,
    ) -> Result<(), NoMemory>
        ensures { OnOk result (string_bytes text.new ≡ string_bytes text.old ++ section_text (words.evaluated_section
            (words.numbered_counts self.now.plan.now self.now.launches number) self.now.plan.now name.now evaluated.now)) }
    {
        text.push_str("execution ")?;
        text.push_str(name.as_str())?;
        push_verdict(self.alloc, text, None, &evaluated.root)?;
        self.push_slots(text, number, evaluated.list.as_slice())?;
        push_given(self.alloc, text, &evaluated.root)
    }

    /// Adds the lines of nodes and items of an execution.
    fn push_slots(&self, text: &mut String, execution: u32, slots: &[Seen]) -> Result<(), NoMemory>
        ensures { OnOk result (string_bytes text.new ≡ string_bytes text.old ++ lines_text (map (words.seen_line
            (words.numbered_counts self.now.plan.now self.now.launches execution) self.now.plan.now) slots.now)) }
    {
        for seen in slots {
            self.push_seen(text, execution, seen)?;
        }
        Ok(())
    }

    /// Adds the line of a node or an item.
    fn push_seen(&self, text: &mut String, execution: u32, seen: &Seen) -> Result<(), NoMemory>
        ensures { OnOk result (string_bytes text.new ≡ string_bytes text.old ++ line_text (words.seen_line
            (words.numbered_counts self.now.plan.now self.now.launches execution) self.now.plan.now seen.now)) }
    {
        let attempts = self.attempts_of(execution, seen);
        push_path(text, seen.path.as_slice())?;
        push_number(self.alloc, text, seen.item)?;
        push_verdict(self.alloc, text, attempts, &seen.verdict)
    }

    /// How many attempts of a node or an item were launched, where it has some.
    fn attempts_of(&self, execution: u32, seen: &Seen) -> Option<u64>
        ensures { result ≡ option_and_then (words.attempts_at
            (words.numbered_counts self.now.plan.now self.now.launches execution) seen.now)
            (words.node_at self.now.plan.now seen.now.path) }
    {
        let Some(node) = self.plan.node_at(&seen.path) else {
            return None;
        };
        if seen.item.is_some() || is_task(self.plan.node(node)) {
            Some(
                self.launches.at(Slot {
                    execution,
                    node,
                    item: item_number(seen.item),
                }),
            )
        } else {
            None
        }
    }
}

/// Adds the number of an item, where it is one's.
fn push_number(alloc: Global, text: &mut String, item: Option<u32>) -> Result<(), NoMemory>
    ensures { OnOk result (string_bytes text.new ≡ string_bytes text.old ++ item_text item) }
{
    match item {
        Some(item) => push_item(alloc, text, item as usize),
        None => Ok(()),
    }
}

fn item_number(item: Option<u32>) -> Option<usize>
    ensures { result ≡ item }
{
    match item {
        Some(item) => Some(item as usize),
        None => None,
    }
}

fn is_task(node: &Node) -> bool
    ensures { result ≡ is_task_node node.now }
{
    match node.target {
        Target::Task(_) => true,
        _ => false,
    }
}
