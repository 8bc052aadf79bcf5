//! Launches in their order, found by their names and by their executions.
ghost use Rattle.std.specs.Prelude.{◌≡◌, ◌<◌, ℕ, ◌^◌, [], ◌∷◌, ◌++◌, List as Listed, length, slice_get, bytes_eq, if◌then◌else◌, IfOk, OnOk, OnErr, IsSome, Some, None};
ghost use Rattle.std.specs.Option.{option_copied};
ghost use Rattle.std.specs.Ordering.{nat_cmp};
ghost use Rattle.std.specs.Cmp.Lexicographic.{slice_cmp};
ghost use Rattle.std.specs.BTreeMap.{get};
ghost use Rattle.fly_docs.specs.AttemptName.{IsTextOf, IsItem};
ghost use Rattle.fly_attempts.specs.Launches.{number_in, numbers_in, listed, HasRoom};

use crate::Launch;
use fly_docs::{AttemptName, print_name};
use fly_types::{NoMemory, Text};
use std::alloc::Global;
use std::collections::BTreeMap;
use std::marker::Model;

/// Launches that are found by their names. Contracts see a list.
#[derive(Drop)]
pub struct Launches {
    items: Vec<Launch>,
    /// The number of each launch, by the text of its name.
    numbers: BTreeMap<Text, usize>,
    /// The numbers of the launches of each execution, by its name.
    executions: BTreeMap<Text, Vec<usize>>,
}

impl Model for Launches {
    ghost use Rattle.std.specs.Prelude.{List};
    ghost use Rattle.std.specs.Coded.{codes};
    ghost use Rattle.fly_types.specs.contracts.literals.Literal as literal;
    ghost use Rattle.fly_attempts.specs.declared.parts.Launch.{Launch};
    ghost use Rattle.fly_attempts.specs.Launches.{IsIndexed};

    ghost Value = { List Launch };

    ghost coded = { Prim.hlevel (codes, literal.the_row.coded) };

    ghost view = { λ l. l.items.items };

    ghost invariant = { λ l. IsIndexed l.items.items l.numbers l.executions };
}

impl Launches {
    pub fn new(alloc: Global) -> Launches
        ensures { result ≡ [] }
    {
        Launches {
            items: Vec::new(alloc),
            numbers: BTreeMap::new(alloc),
            executions: BTreeMap::new(alloc),
        }
    }

    /// How many there are.
    pub fn len(&self) -> usize
        ensures { result ≡ length self.now }
    {
        self.items.len()
    }

    /// The launch of a number that has one.
    pub fn item(&self, number: usize) -> &Launch
        requires { number < length self.now }
        ensures { slice_get self.now number ≡ Some result.now }
    {
        &self.items[number]
    }

    /// The launch of a number, where it has one.
    pub fn get(&self, number: usize) -> Option<&Launch>
        ensures { option_copied result ≡ slice_get self.now number }
    {
        self.items.get(number)
    }

    /// The number of the launch of a name.
    pub fn number_of(&self, alloc: Global, name: &AttemptName) -> Result<Option<usize>, NoMemory>
        ensures { IfOk result (λ number. number ≡ number_in self.now name.now) }
    {
        let text = text_of(alloc, name)?;
        Ok(self.numbers.get(&text).copied())
    }

    /// The numbers of the launches of an execution.
    pub fn of_execution(&self, exec: &Text) -> &[usize]
        ensures { result.now ≡ numbers_in self.now exec.now }
    {
        match self.executions.get(exec) {
            Some(numbers) => numbers.as_slice(),
            None => &[],
        }
    }

    /// Puts a launch of a new name at the end.
    pub fn push(&mut self, alloc: Global, launch: Launch) -> Result<(), NoMemory>
        requires { number_in self.old launch.name ≡ None }
        ensures ok { OnOk result (self.new ≡ self.old ++ launch ∷ []) }
        ensures err { OnErr result (self.new ≡ self.old) }
    {
        let text = text_of(alloc, &launch.name)?;
        self.items.reserve(1)?;
        make_room(&mut self.executions, alloc, &launch.name.exec)?;
        let number = self.items.len();
        self.numbers.insert(text, number)?;
        add_number(&mut self.executions, &launch.name.exec, number);
        let Ok(()) = self.items.push(launch) else {
            unreachable!();
        };
        Ok(())
    }
}

/// The text of a name.
fn text_of(alloc: Global, name: &AttemptName) -> Result<Text, NoMemory>
    ensures { IfOk result (λ text. IsTextOf text name.now) }
{
    check_numbers(name.item, name.attempt);
    print_name(alloc, name)
}

/// The numbers of a name have 32 bits.
fn check_numbers(item: Option<u32>, attempt: u32)
    ensures item { IsItem item }
    ensures attempt { attempt < 2 ^ 32 }
{}

/// Gives a text a list where it has none.
fn add_text(
    lists: &mut BTreeMap<Text, Vec<usize>>,
    alloc: Global,
    text: &Text,
) -> Result<(), NoMemory>
    ensures same { (t : Listed ℕ) → listed lists.new t ≡ listed lists.old t }
    ensures there { OnOk result (IsSome (get (slice_cmp nat_cmp) lists.new text.now)) }
{
    if lists.contains_key(text) {
        return Ok(());
    }
    lists.insert(text.copy(alloc)?, Vec::new(alloc))?;
    Ok(())
}

/// Makes room for one more number of a text.
fn make_room(
    lists: &mut BTreeMap<Text, Vec<usize>>,
    alloc: Global,
    text: &Text,
) -> Result<(), NoMemory>
    ensures same { (t : Listed ℕ) → listed lists.new t ≡ listed lists.old t }
    ensures room { OnOk result (HasRoom lists.new text.now) }
{
    add_text(lists, alloc, text)?;
    if let Some(numbers) = lists.get_mut(text) {
        numbers.reserve(1)?;
    }
    Ok(())
}

/// Puts a number at the end of a text's, where there is room for it.
fn add_number(lists: &mut BTreeMap<Text, Vec<usize>>, text: &Text, number: usize)
    requires { HasRoom lists.old text.now }
    ensures { (t : Listed ℕ) → listed lists.new t
        ≡ (if bytes_eq text.now t then listed lists.old t ++ number ∷ [] else listed lists.old t) }
{
    if let Some(numbers) = lists.get_mut(text) {
        let Ok(()) = numbers.push(number) else {
            unreachable!();
        };
    }
}
