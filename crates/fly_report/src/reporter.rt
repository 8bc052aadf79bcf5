//! The report of a run.
ghost use Rattle.std.specs.Prelude.{◌≡◌, ℕ, ◌<◌, ◌++◌, map, length, slice_get, IfOk, OnOk, Some, string_bytes};
ghost use Rattle.std.specs.List.{enumerate_from};
ghost use Rattle.std.specs.Option.{option_copied};
ghost use Rattle.fly_docs.specs.Plans.{PlanNode};
ghost use Rattle.fly_state.specs.Plans.{node_numbered, is_task as is_task_node};
ghost use Rattle.fly_state.specs.States.{is_succeeded as is_succeeded_phase, outputs_in};
ghost use Rattle.fly_world.specs.World.{Execution};
ghost use Rattle.fly_report.specs.LaunchCounts.{counts_at};
ghost use Rattle.fly_report.specs.Lines.{lines_text, section_text, outputs_text, rest_text};
ghost use Rattle.fly_report.specs.Phases.{phase_name as name_of_phase};
ghost use Rattle.fly_report.specs.Report as words;

use crate::launches::{LaunchCounts, Slot};
use crate::lines::{push_item, push_line, push_outputs, push_path, push_total};
use crate::phases::phase_name;
use fly_docs::{Node, Target};
use fly_state::{ExecState, NodeState, Phase, Plan, SlotState};
use fly_types::{List, LiteralMap, NoMemory, Text};
use fly_world::{World, versions_are_shaped};
use std::alloc::Global;

/// The report of a run, as the lines that are printed: of each execution where it stands, then its nodes and their
/// items in plan order, with how many of their attempts were launched, and what it put out; and last how many
/// succeeded.
pub fn report(alloc: Global, p: &Plan, w: &World<'_>) -> Result<String, NoMemory>
    requires own { w.now.plan ≡ p.now }
    ensures { IfOk result (λ text. string_bytes text ≡ words.report_text p.now w.now.world) }
{
    w.legal_journal();
    versions_are_shaped();
    let reporter = Reporter {
        alloc,
        plan: p,
        launches: LaunchCounts::of(alloc, p, w)?,
    };
    let mut text = String::new(alloc);
    let mut succeeded = 0;
    for number in 0..w.executions() {
        let state = w.last(number);
        reporter.push_execution(&mut text, number, &w.named(number).name, state)?;
        if is_succeeded(state.root.phase) {
            succeeded += 1;
        }
    }
    push_total(alloc, &mut text, succeeded, w.executions())?;
    Ok(text)
}

/// What the lines of a run go by.
#[derive(Drop)]
struct Reporter<'r> {
    alloc: Global,
    plan: &'r Plan,
    launches: LaunchCounts,
}

impl<'r> Reporter<'r> {
    /// Adds what is said of the execution of a number, in its last version.
    fn push_execution(
        &self,
        text: &mut String,
        number: u32,
        name: &Text,
        state: &ExecState,
    ) -> Result<(), NoMemory>
        requires { length state.now.nodes ≡ length self.now.plan.now.nodes }
        ensures { OnOk result ((x : Execution) → x.name ≡ name.now → x.state ≡ state.now → string_bytes text.new
            ≡ string_bytes text.old ++ section_text (words.section_by (λ at. counts_at self.now.launches number at.0)
            self.now.plan.now x)) }
    {
        text.push_str("execution ")?;
        text.push_str(name.as_str())?;
        self.push_slot(text, None, &state.root)?;
        self.push_nodes(text, number, state)?;
        self.push_given(text, &state.root)
    }

    /// Adds the lines of the nodes of an execution.
    fn push_nodes(
        &self,
        text: &mut String,
        execution: u32,
        state: &ExecState,
    ) -> Result<(), NoMemory>
        requires { length state.now.nodes ≡ length self.now.plan.now.nodes }
        ensures { OnOk result (string_bytes text.new ≡ string_bytes text.old ++ lines_text
            (words.slot_lines (λ at. counts_at self.now.launches execution at.0) self.now.plan.now state.now)) }
    {
        let states = state.nodes.as_slice();
        for node in 0..self.plan.len() {
            let slot = Slot {
                execution,
                node,
                item: None,
            };
            self.push_node(text, slot, &states[node as usize])?;
        }
        Ok(())
    }

    /// Adds the lines of a node and its items.
    fn push_node(&self, text: &mut String, slot: Slot, state: &NodeState) -> Result<(), NoMemory>
        requires { slot.node < length self.now.plan.now.nodes }
        ensures { OnOk result ((p : PlanNode) → node_numbered self.now.plan.now slot.node ≡ Some p
            → string_bytes text.new ≡ string_bytes text.old ++ lines_text
            (words.node_lines (counts_at self.now.launches slot.execution slot.node) p state.now)) }
    {
        let path = self.plan.path_of(slot.node).as_slice();
        let node = self.plan.node(slot.node);
        push_path(text, path)?;
        self.push_slot(text, self.attempts_of(node, slot), &state.own)?;
        self.push_items(text, path, slot, state.items.as_slice())
    }

    /// How many attempts of a node were launched, where it has some.
    fn attempts_of(&self, node: &Node, slot: Slot) -> Option<u64>
        ensures { result ≡ words.own_attempts (counts_at self.now.launches slot.execution slot.node) node.now }
    {
        if is_task(node) {
            Some(self.launches.at(Slot { item: None, ..slot }))
        } else {
            None
        }
    }

    /// Adds the lines of the items of a node.
    fn push_items(
        &self,
        text: &mut String,
        path: &[Text],
        slot: Slot,
        items: &[SlotState],
    ) -> Result<(), NoMemory>
        ensures { OnOk result (string_bytes text.new ≡ string_bytes text.old ++ lines_text
            (map (words.item_line (counts_at self.now.launches slot.execution slot.node) path.now)
            (enumerate_from 0 items.now))) }
    {
        for (item, state) in items.iter().enumerate() {
            let attempts = self.launches.at(Slot {
                item: Some(item),
                ..slot
            });
            push_path(text, path)?;
            push_item(self.alloc, text, item)?;
            self.push_slot(text, Some(attempts), state)?;
        }
        Ok(())
    }

    /// Ends the line of a slot: where it stands, how many of its attempts were launched, and why it failed.
    fn push_slot(
        &self,
        text: &mut String,
        attempts: Option<u64>,
        slot: &SlotState,
    ) -> Result<(), NoMemory>
        ensures { OnOk result (string_bytes text.new ≡ string_bytes text.old
            ++ rest_text (name_of_phase slot.now.phase) attempts (words.code_of slot.now)) }
    {
        push_line(
            self.alloc,
            text,
            phase_name(slot.phase),
            attempts,
            code_of(slot),
        )
    }

    /// Adds what an execution put out, where it succeeded.
    fn push_given(&self, text: &mut String, root: &SlotState) -> Result<(), NoMemory>
        ensures { OnOk result (string_bytes text.new
            ≡ string_bytes text.old ++ outputs_text (words.outputs_of root.now)) }
    {
        match outputs_of(root) {
            Some(outputs) => push_outputs(self.alloc, text, outputs.entries.as_slice()),
            None => Ok(()),
        }
    }
}

/// Why a slot failed, where it did and that is known.
fn code_of(slot: &SlotState) -> Option<&Text>
    ensures { option_copied result ≡ words.code_of slot.now }
{
    match slot.phase {
        Phase::Failed | Phase::TimedOut => slot.code.as_ref(),
        _ => None,
    }
}

/// What a slot put out, where it succeeded.
fn outputs_of(slot: &SlotState) -> Option<&LiteralMap>
    ensures { option_copied result ≡ outputs_in slot.now }
{
    if is_succeeded(slot.phase) {
        slot.outputs.as_ref()
    } else {
        None
    }
}

fn is_succeeded(phase: Phase) -> bool
    ensures { result ≡ is_succeeded_phase phase }
{
    match phase {
        Phase::Succeeded => true,
        _ => false,
    }
}

fn is_task(node: &Node) -> bool
    ensures { result ≡ is_task_node node.now }
{
    match node.target {
        Target::Task(_) => true,
        _ => false,
    }
}
