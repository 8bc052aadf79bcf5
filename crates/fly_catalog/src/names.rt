//! Numbers for the texts that name things, so that a name of several texts is a few numbers.
ghost use Rattle.std.specs.Prelude.{◌≡◌, IfOk, Some, None};
ghost use Rattle.fly_catalog.specs.Names.{number_of, dataset_key, item_key, IsNumbering, KeepsNumbers};

use fly_docs::DatasetId;
use fly_types::{NoMemory, Text};
use std::alloc::Global;
use std::collections::BTreeMap;

/// The numbers of the project, the domain, the name and the version of a dataset.
pub type DatasetKey = (usize, usize, usize, usize);

/// Those of a dataset, and the number of the name of something in it.
pub type ItemKey = (usize, usize, usize, usize, usize);

/// A number for each text that was added, each another.
#[derive(Drop)]
pub struct Names {
    numbers: BTreeMap<Text, usize>,
}

impl Names {
    pub fn new(alloc: Global) -> Names
        ensures { IsNumbering result.numbers }
    {
        Names {
            numbers: BTreeMap::new(alloc),
        }
    }

    fn number(&self, text: &Text) -> Option<usize>
        ensures { result ≡ number_of self.now.numbers text.now }
    {
        self.numbers.get(text).copied()
    }

    /// The text's number, which is a new one where it had none.
    fn add(&mut self, alloc: Global, text: &Text) -> Result<usize, NoMemory>
        requires { IsNumbering self.old.numbers }
        ensures numbering { IsNumbering self.new.numbers }
        ensures kept { KeepsNumbers self.old.numbers self.new.numbers }
        ensures number { IfOk result (λ n. number_of self.new.numbers text.now ≡ Some n) }
    {
        match self.number(text) {
            Some(number) => Ok(number),
            None => self.add_new(alloc, text),
        }
    }

    fn add_new(&mut self, alloc: Global, text: &Text) -> Result<usize, NoMemory>
        requires numbering { IsNumbering self.old.numbers }
        requires absent { number_of self.old.numbers text.now ≡ None }
        ensures numbering { IsNumbering self.new.numbers }
        ensures kept { KeepsNumbers self.old.numbers self.new.numbers }
        ensures number { IfOk result (λ n. number_of self.new.numbers text.now ≡ Some n) }
    {
        let number = self.numbers.len();
        self.numbers.insert(text.copy(alloc)?, number)?;
        Ok(number)
    }

    pub fn dataset_key(&self, dataset: &DatasetId) -> Option<DatasetKey>
        ensures { result ≡ dataset_key self.now.numbers dataset.now }
    {
        let project = self.number(&dataset.project)?;
        let domain = self.number(&dataset.domain)?;
        let name = self.number(&dataset.name)?;
        let version = self.number(&dataset.version)?;
        Some((project, domain, name, version))
    }

    pub fn item_key(&self, dataset: &DatasetId, name: &Text) -> Option<ItemKey>
        ensures { result ≡ item_key self.now.numbers dataset.now name.now }
    {
        let key = self.dataset_key(dataset)?;
        let name = self.number(name)?;
        Some((key.0, key.1, key.2, key.3, name))
    }

    pub fn add_dataset(
        &mut self,
        alloc: Global,
        dataset: &DatasetId,
    ) -> Result<DatasetKey, NoMemory>
        requires { IsNumbering self.old.numbers }
        ensures numbering { IsNumbering self.new.numbers }
        ensures kept { KeepsNumbers self.old.numbers self.new.numbers }
        ensures key { IfOk result (λ k. dataset_key self.new.numbers dataset.now ≡ Some k) }
    {
        let project = self.add(alloc, &dataset.project)?;
        let domain = self.add(alloc, &dataset.domain)?;
        let name = self.add(alloc, &dataset.name)?;
        let version = self.add(alloc, &dataset.version)?;
        Ok((project, domain, name, version))
    }

    pub fn add_item(
        &mut self,
        alloc: Global,
        dataset: &DatasetId,
        name: &Text,
    ) -> Result<ItemKey, NoMemory>
        requires { IsNumbering self.old.numbers }
        ensures numbering { IsNumbering self.new.numbers }
        ensures kept { KeepsNumbers self.old.numbers self.new.numbers }
        ensures key { IfOk result (λ k. item_key self.new.numbers dataset.now name.now ≡ Some k) }
    {
        let key = self.add_dataset(alloc, dataset)?;
        let name = self.add(alloc, name)?;
        Ok((key.0, key.1, key.2, key.3, name))
    }

    /// The keys of two items.
    pub fn add_both(
        &mut self,
        alloc: Global,
        dataset: &DatasetId,
        name: &Text,
        other: &DatasetId,
        other_name: &Text,
    ) -> Result<(ItemKey, ItemKey), NoMemory>
        requires { IsNumbering self.old.numbers }
        ensures numbering { IsNumbering self.new.numbers }
        ensures kept { KeepsNumbers self.old.numbers self.new.numbers }
        ensures first { IfOk result (λ k. item_key self.new.numbers dataset.now name.now ≡ Some k.0) }
        ensures second { IfOk result (λ k. item_key self.new.numbers other.now other_name.now ≡ Some k.1) }
    {
        let first = self.add_item(alloc, dataset, name)?;
        let second = self.add_item(alloc, other, other_name)?;
        Ok((first, second))
    }

    /// The keys of a dataset and of two items.
    pub fn add_all(
        &mut self,
        alloc: Global,
        owner: &DatasetId,
        dataset: &DatasetId,
        name: &Text,
        other: &DatasetId,
        other_name: &Text,
    ) -> Result<(DatasetKey, ItemKey, ItemKey), NoMemory>
        requires { IsNumbering self.old.numbers }
        ensures numbering { IsNumbering self.new.numbers }
        ensures kept { KeepsNumbers self.old.numbers self.new.numbers }
        ensures owner { IfOk result (λ k. dataset_key self.new.numbers owner.now ≡ Some k.0) }
        ensures first { IfOk result (λ k. item_key self.new.numbers dataset.now name.now ≡ Some k.1) }
        ensures second { IfOk result (λ k. item_key self.new.numbers other.now other_name.now ≡ Some k.2) }
    {
        let owner = self.add_dataset(alloc, owner)?;
        let (first, second) = self.add_both(alloc, dataset, name, other, other_name)?;
        Ok((owner, first, second))
    }
}
