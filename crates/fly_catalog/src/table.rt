//! A list that only grows, with the place of each item by its key.
ghost use Rattle.std.specs.Prelude.{◌≡◌, ◌<◌, IfOk, OnOk, OnErr, Some, None, [], ◌∷◌, ◌++◌, length, slice_get, vec_len, vec_capacity};
ghost use Rattle.std.specs.Option.{option_copied, option_and_then};
ghost use Rattle.std.specs.BTreeMap.{get, IsEmpty, IsUnchanged, Updates};
ghost use Rattle.fly_catalog.specs.Catalog.{dataset_cmp, item_cmp};
ghost use Rattle.fly_catalog.specs.Table.{AddsItem, KeepsTable, IsAlike};

use crate::names::{DatasetKey, ItemKey};
use crate::{Artifact, Tag};
use fly_docs::DatasetId;
use fly_types::NoMemory;
use std::alloc::Global;
use std::collections::BTreeMap;

#[derive(Drop)]
pub struct Table<K: Ord, T> {
    pub items: Vec<T>,
    pub places: BTreeMap<K, usize>,
}

impl<K: Ord + Drop, T: Drop> Table<K, T> {
    pub fn new(alloc: Global) -> Table<K, T>
        ensures items { result.items.items ≡ [] }
        ensures places { IsEmpty result.places }
    {
        Table {
            items: Vec::new(alloc),
            places: BTreeMap::new(alloc),
        }
    }

    /// The item of the key.
    pub fn get(&self, key: &K) -> Option<&T>
        ensures { option_copied result ≡ option_and_then (λ at. slice_get self.now.items.items at) (get K.cmp self.now.places key.now) }
    {
        let at = self.places.get(key)?;
        self.items.get(*at)
    }

    /// Puts an item at the end.
    pub fn push(&mut self, key: K, item: T) -> Result<(), NoMemory>
        requires { get K.cmp self.old.places key ≡ None }
        ensures added { OnOk result (AddsItem K.cmp self.old.items.items self.new.items.items self.old.places self.new.places key item) }
        ensures kept { OnErr result (KeepsTable self.old.items.items self.new.items.items self.old.places self.new.places) }
    {
        self.items.reserve(1)?;
        self.places.insert(key, self.items.len())?;
        let Ok(()) = self.items.push(item) else {
            unreachable!();
        };
        Ok(())
    }

    /// Makes room for one more item, and gives its place to the key.
    fn prepare(&mut self, key: K) -> Result<(), NoMemory>
        ensures items { self.new.items.items ≡ self.old.items.items }
        ensures places { OnOk result (Updates K.cmp self.old.places self.new.places key (Some (length self.old.items.items))) }
        ensures room { OnOk result (vec_len self.new.items < vec_capacity self.new.items) }
        ensures kept { OnErr result (IsUnchanged self.old.places self.new.places) }
    {
        self.items.reserve(1)?;
        self.places.insert(key, self.items.len())?;
        Ok(())
    }

    /// Puts an item at the end, where there is room.
    fn fill(&mut self, item: T)
        requires { vec_len self.old.items < vec_capacity self.old.items }
        ensures items { self.new.items.items ≡ self.old.items.items ++ item ∷ [] }
        ensures places { self.new.places ≡ self.old.places }
    {
        let Ok(()) = self.items.push(item) else {
            unreachable!();
        };
    }

    /// Takes the place of a key away.
    fn forget(&mut self, key: &K)
        ensures items { self.new.items.items ≡ self.old.items.items }
        ensures places { Updates K.cmp self.old.places self.new.places key.now None }
    {
        self.places.remove(key);
    }
}

/// Puts an artifact and a tag at the ends of their tables, or neither.
pub fn push_item(
    artifacts: &mut Table<ItemKey, Artifact>,
    artifact_key: ItemKey,
    artifact: Artifact,
    tags: &mut Table<ItemKey, Tag>,
    tag_key: ItemKey,
    tag: Tag,
) -> Result<(), NoMemory>
    requires artifact { get item_cmp artifacts.old.places artifact_key ≡ None }
    requires tag { get item_cmp tags.old.places tag_key ≡ None }
    ensures artifact { OnOk result (AddsItem item_cmp artifacts.old.items.items artifacts.new.items.items artifacts.old.places artifacts.new.places artifact_key artifact) }
    ensures tag { OnOk result (AddsItem item_cmp tags.old.items.items tags.new.items.items tags.old.places tags.new.places tag_key tag) }
    ensures no_artifact { OnErr result (IsAlike item_cmp artifacts.old.items.items artifacts.new.items.items artifacts.old.places artifacts.new.places) }
    ensures no_tag { OnErr result (IsAlike item_cmp tags.old.items.items tags.new.items.items tags.old.places tags.new.places) }
{
    artifacts.prepare(artifact_key)?;
    match tags.push(tag_key, tag) {
        Ok(()) => {
            artifacts.fill(artifact);
            Ok(())
        }
        Err(fault) => {
            artifacts.forget(&artifact_key);
            Err(fault)
        }
    }
}

/// Puts a dataset, an artifact and a tag at the ends of their tables, or none of them.
pub fn push_all(
    datasets: &mut Table<DatasetKey, DatasetId>,
    dataset_key: DatasetKey,
    dataset: DatasetId,
    artifacts: &mut Table<ItemKey, Artifact>,
    artifact_key: ItemKey,
    artifact: Artifact,
    tags: &mut Table<ItemKey, Tag>,
    tag_key: ItemKey,
    tag: Tag,
) -> Result<(), NoMemory>
    requires dataset { get dataset_cmp datasets.old.places dataset_key ≡ None }
    requires artifact { get item_cmp artifacts.old.places artifact_key ≡ None }
    requires tag { get item_cmp tags.old.places tag_key ≡ None }
    ensures dataset { OnOk result (AddsItem dataset_cmp datasets.old.items.items datasets.new.items.items datasets.old.places datasets.new.places dataset_key dataset) }
    ensures artifact { OnOk result (AddsItem item_cmp artifacts.old.items.items artifacts.new.items.items artifacts.old.places artifacts.new.places artifact_key artifact) }
    ensures tag { OnOk result (AddsItem item_cmp tags.old.items.items tags.new.items.items tags.old.places tags.new.places tag_key tag) }
    ensures no_dataset { OnErr result (IsAlike dataset_cmp datasets.old.items.items datasets.new.items.items datasets.old.places datasets.new.places) }
    ensures no_artifact { OnErr result (IsAlike item_cmp artifacts.old.items.items artifacts.new.items.items artifacts.old.places artifacts.new.places) }
    ensures no_tag { OnErr result (IsAlike item_cmp tags.old.items.items tags.new.items.items tags.old.places tags.new.places) }
{
    datasets.prepare(dataset_key)?;
    match push_item(artifacts, artifact_key, artifact, tags, tag_key, tag) {
        Ok(()) => {
            datasets.fill(dataset);
            Ok(())
        }
        Err(fault) => {
            datasets.forget(&dataset_key);
            Err(fault)
        }
    }
}
