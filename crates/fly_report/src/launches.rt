//! How many attempts were launched at each slot.
ghost use Rattle.std.specs.Prelude.{◌≡◌, ◌+◌, ◌<◌, ◌^◌, if◌then◌else◌, option_to_list, IfOk, OnOk};
ghost use Rattle.std.specs.Option.{option_copied};
ghost use Rattle.fly_world.specs.ReadOff.{launches_by};
ghost use Rattle.fly_report.specs.LaunchCounts as words;
ghost use Rattle.fly_report.specs.LaunchCounts.{NumbersExecutions};

use fly_docs::AttemptName;
use fly_state::{Entry, Op, Plan, Reply};
use fly_types::{NoMemory, Text};
use fly_world::{World, names_are_of_plan};
use std::alloc::Global;
use std::collections::BTreeMap;

/// What has attempts: a node of an execution, or an item of it, each by its number.
#[derive(Clone, Copy, Debug, PartialEq, Eq, PartialOrd, Ord)]
pub struct Slot {
    pub execution: u32,
    pub node: u32,
    pub item: Option<usize>,
}

/// How many attempts were launched at each slot of a run.
#[derive(Drop)]
pub struct LaunchCounts {
    counts: BTreeMap<Slot, u64>,
}

impl LaunchCounts {
    ghost use Rattle.fly_report.specs.declared.launches.Slot as slots;
    ghost use Rattle.fly_report.specs.LaunchCounts.{count_in, same_slot, count_at, CountsEntries, CountsLaunches, Numbers};

    /// Counts the launches in the journal of a store.
    pub fn of(alloc: Global, p: &Plan, w: &World<'_>) -> Result<LaunchCounts, NoMemory>
        requires own { w.now.plan ≡ p.now }
        ensures { IfOk result (CountsLaunches p.now w.now.world) }
    {
        w.legal_journal();
        names_are_of_plan();
        p.primary();
        let numbers = execution_numbers(alloc, w)?;
        LaunchCounts::of_entries(alloc, p, w, &numbers)
    }

    /// How many were launched at a slot. Takes no memory.
    pub fn at(&self, slot: Slot) -> u64
        ensures { result ≡ count_in self.now slot }
    {
        self.counts.get(&slot).copied().unwrap_or(0)
    }

    /// Counts the launches at what has numbers.
    fn of_entries(
        alloc: Global,
        p: &Plan,
        w: &World<'_>,
        numbers: &BTreeMap<Text, u32>,
    ) -> Result<LaunchCounts, NoMemory>
        ensures { IfOk result (CountsEntries p.now numbers.now w.now.world.entries) }
    {
        let mut launches = LaunchCounts {
            counts: BTreeMap::new(alloc),
        };
        for place in 0..w.len() {
            launches.add_entry(p, numbers, w.entry(place))?;
        }
        Ok(launches)
    }

    /// Counts the launch of an entry, where it is one.
    fn add_entry(
        &mut self,
        p: &Plan,
        numbers: &BTreeMap<Text, u32>,
        entry: &Entry,
    ) -> Result<(), NoMemory>
        requires { (slot : slots.Slot) → count_in self.old slot + 1 < 2 ^ 64 }
        ensures { OnOk result ((slot : slots.Slot) → count_in self.new slot
            ≡ count_in self.old slot + count_at p.now numbers.now slot (launches_by entry.now.op entry.now.reply)) }
    {
        let Some(name) = launched(entry) else {
            return Ok(());
        };
        match slot_of(p, numbers, name) {
            Some(slot) => self.add(slot),
            None => Ok(()),
        }
    }

    /// Counts one launch more at a slot.
    fn add(&mut self, slot: Slot) -> Result<(), NoMemory>
        requires { count_in self.old slot + 1 < 2 ^ 64 }
        ensures { OnOk result ((q : slots.Slot) → count_in self.new q
            ≡ count_in self.old q + (if same_slot slot q then 1 else 0)) }
    {
        let count = self.at(slot);
        self.counts.insert(slot, count + 1)?;
        Ok(())
    }
}

/// The number of each execution, by its name. Of two of one name the first is found.
fn execution_numbers(alloc: Global, w: &World<'_>) -> Result<BTreeMap<Text, u32>, NoMemory>
    ensures { IfOk result (NumbersExecutions w.now.world) }
{
    let mut numbers = BTreeMap::new(alloc);
    for number in 0..w.executions() {
        let name = &w.named(number).name;
        if numbers.get(name).is_none() {
            numbers.insert(name.copy(alloc)?, number)?;
        }
    }
    Ok(numbers)
}

/// The attempt that an entry launches.
fn launched(entry: &Entry) -> Option<&AttemptName>
    ensures { option_to_list (option_copied result) ≡ launches_by entry.now.op entry.now.reply }
{
    match (&entry.op, &entry.reply) {
        (Op::Launch { name, .. }, Reply::Launched) => Some(name),
        _ => None,
    }
}

/// The slot of an attempt, where its execution has a number and its node is of the plan.
fn slot_of(p: &Plan, numbers: &BTreeMap<Text, u32>, name: &AttemptName) -> Option<Slot>
    ensures { result ≡ words.slot_of p.now numbers.now name.now }
{
    let Some(execution) = numbers.get(&name.exec) else {
        return None;
    };
    let Some(node) = p.node_at(&name.path) else {
        return None;
    };
    Some(Slot {
        execution: *execution,
        node,
        item: item_number(name.item),
    })
}

fn item_number(item: Option<u32>) -> Option<usize>
    ensures { result ≡ item }
{
    match item {
        Some(item) => Some(item as usize),
        None => None,
    }
}
