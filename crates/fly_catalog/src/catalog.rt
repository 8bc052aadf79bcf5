ghost use Rattle.std.specs.Prelude.{◌≡◌, ◌^◌, pos, ◌≤ℤ◌};
ghost use Rattle.fly_catalog.specs.Requests.{keeps_off, lease_end};

use crate::names::{DatasetKey, ItemKey, Names};
use crate::reservations::Reservations;
use crate::table::{Table, push_all, push_item};
use crate::{Artifact, CatalogFault, Grant, OwnerTest, Reservation, Selector, Tag};
use fly_docs::DatasetId;
use fly_types::{LiteralMap, NoMemory, Text};
use std::alloc::Global;
use std::marker::Model;

/// Datasets, artifacts, tags and reservations, as flyteidl's service `DataCatalog`. Contracts see four lists.
#[derive(Drop)]
pub struct Catalog {
    names: Names,
    datasets: Table<DatasetKey, DatasetId>,
    artifacts: Table<ItemKey, Artifact>,
    tags: Table<ItemKey, Tag>,
    reservations: Reservations,
}

impl Model for Catalog {
    ghost use Rattle.std.specs.BTreeMap.{values};
    ghost use Rattle.std.specs.Coded.{codes};
    ghost use Rattle.fly_types.specs.contracts.literals.Literal as literal;
    ghost use Rattle.fly_catalog.specs.Catalog.{CatalogLists, IsIndexed};

    ghost Value = { CatalogLists };

    ghost coded = { Prim.hlevel (codes, literal.the_row.coded) };

    ghost view = { λ c. record {
      datasets = c.datasets.items.items;
      artifacts = c.artifacts.items.items;
      tags = c.tags.items.items;
      reservations = values c.reservations.live;
    } };

    ghost invariant = { λ c. IsIndexed c.names.numbers c.datasets.items.items c.datasets.places c.artifacts.items.items
        c.artifacts.places c.tags.items.items c.tags.places c.reservations.live c.reservations.serials c.reservations.next };
}

impl Catalog {
    ghost use Rattle.std.specs.Prelude.{◌≡◌, IfOk, OnOk, OnErr, [], None, false, length, slice_get, is_some, option_map, count_by, ◌^◌, pos, ◌≤ℤ◌};
    ghost use Rattle.std.specs.Option.{option_copied};
    ghost use Rattle.fly_catalog.specs.Catalog.{CatalogLists};
    ghost use Rattle.fly_catalog.specs.Requests.{has_dataset, artifact_of, tag_of, reservation_of, content_of, with_dataset, with_artifact, with_tag, dataset_fault, artifact_fault, tag_fault, store_fault, with_stored, Answers, with_reservation, bar_of, grant_of, after_grant, holds, after_release, after_sweep};

    /// A catalog with nothing in it.
    pub fn make(alloc: Global) -> Result<Catalog, NoMemory>
        ensures { IfOk result (λ c. c ≡ record { datasets = []; artifacts = []; tags = []; reservations = [] }) }
    {
        Ok(Catalog {
            names: Names::new(alloc),
            datasets: Table::new(alloc),
            artifacts: Table::new(alloc),
            tags: Table::new(alloc),
            reservations: Reservations::new(alloc),
        })
    }

    fn has_dataset(&self, d: &DatasetId) -> bool
        ensures { result ≡ has_dataset self.now d.now }
    {
        match self.names.dataset_key(d) {
            Some(key) => self.datasets.get(&key).is_some(),
            None => false,
        }
    }

    fn find_artifact(&self, d: &DatasetId, id: &Text) -> Option<&Artifact>
        ensures { option_copied result ≡ artifact_of self.now d.now id.now }
    {
        match self.names.item_key(d, id) {
            Some(key) => self.artifacts.get(&key),
            None => None,
        }
    }

    fn find_tag(&self, d: &DatasetId, name: &Text) -> Option<&Tag>
        ensures { option_copied result ≡ tag_of self.now d.now name.now }
    {
        match self.names.item_key(d, name) {
            Some(key) => self.tags.get(&key),
            None => None,
        }
    }

    fn find_reservation(&self, d: &DatasetId, tag: &Text) -> Option<&Reservation>
        ensures { option_copied result ≡ reservation_of self.now d.now tag.now }
    {
        match self.names.item_key(d, tag) {
            Some(key) => self.reservations.get(&key),
            None => None,
        }
    }

    /// Adds a dataset that is not there.
    fn push_dataset(&mut self, alloc: Global, d: DatasetId) -> Result<(), NoMemory>
        requires { has_dataset self.old d ≡ false }
        ensures ok { OnOk result (self.new ≡ with_dataset self.old d) }
        ensures err { OnErr result (self.new ≡ self.old) }
    {
        let key = self.names.add_dataset(alloc, &d)?;
        self.datasets.push(key, d)
    }

    /// Adds an artifact that is not there.
    fn push_artifact(&mut self, alloc: Global, artifact: Artifact) -> Result<(), NoMemory>
        requires { artifact_of self.old artifact.dataset artifact.id ≡ None }
        ensures ok { OnOk result (self.new ≡ with_artifact self.old artifact) }
        ensures err { OnErr result (self.new ≡ self.old) }
    {
        let key = self.names.add_item(alloc, &artifact.dataset, &artifact.id)?;
        self.artifacts.push(key, artifact)
    }

    /// Adds a tag that is not there.
    fn push_tag(&mut self, alloc: Global, tag: Tag) -> Result<(), NoMemory>
        requires { tag_of self.old tag.dataset tag.name ≡ None }
        ensures ok { OnOk result (self.new ≡ with_tag self.old tag) }
        ensures err { OnErr result (self.new ≡ self.old) }
    {
        let key = self.names.add_item(alloc, &tag.dataset, &tag.name)?;
        self.tags.push(key, tag)
    }

    /// Makes a dataset.
    pub fn create_dataset(&mut self, alloc: Global, d: DatasetId) -> Result<(), CatalogFault>
        ensures { Answers (dataset_fault self.old d) self.old (with_dataset self.old d) self.new result }
    {
        if self.has_dataset(&d) {
            return Err(CatalogFault::AlreadyExists);
        }
        self.push_dataset(alloc, d)?;
        Ok(())
    }

    /// Stores an artifact in a dataset, under an id of its own.
    pub fn create_artifact(
        &mut self,
        alloc: Global,
        d: &DatasetId,
        id: Text,
        content: LiteralMap,
    ) -> Result<(), CatalogFault>
        ensures { Answers (artifact_fault self.old d.now id) self.old
            (with_artifact self.old (record { dataset = d.now; id = id; content = content })) self.new result }
    {
        if !self.has_dataset(d) {
            return Err(CatalogFault::NoDataset);
        }
        if self.find_artifact(d, &id).is_some() {
            return Err(CatalogFault::AlreadyExists);
        }
        let dataset = d.copy(alloc)?;
        self.push_artifact(
            alloc,
            Artifact {
                dataset,
                id,
                content,
            },
        )?;
        Ok(())
    }

    /// Gives an artifact a name within its dataset. A name that is given stays with its artifact.
    pub fn add_tag(
        &mut self,
        alloc: Global,
        d: &DatasetId,
        tag: Text,
        id: &Text,
    ) -> Result<(), CatalogFault>
        ensures { Answers (tag_fault self.old d.now tag id.now) self.old
            (with_tag self.old (record { dataset = d.now; name = tag; artifact = id.now })) self.new result }
    {
        if !self.has_dataset(d) {
            return Err(CatalogFault::NoDataset);
        }
        if self.find_artifact(d, id).is_none() {
            return Err(CatalogFault::NoArtifact);
        }
        if self.find_tag(d, &tag).is_some() {
            return Err(CatalogFault::AlreadyExists);
        }
        let dataset = d.copy(alloc)?;
        let artifact = id.copy(alloc)?;
        self.push_tag(
            alloc,
            Tag {
                dataset,
                name: tag,
                artifact,
            },
        )?;
        Ok(())
    }

    /// Stores an artifact with a tag, in a dataset that is made where it is missing: all of it, or nothing.
    pub fn store(
        &mut self,
        alloc: Global,
        d: &DatasetId,
        id: Text,
        tag: Text,
        content: LiteralMap,
    ) -> Result<(), CatalogFault>
        ensures { Answers (store_fault self.old d.now id tag) self.old
            (with_stored self.old (record { dataset = d.now; id = id; content = content }) (record { dataset = d.now; name = tag; artifact = id })) self.new result }
    {
        if self.has_tag(d, &tag) {
            return Err(CatalogFault::AlreadyExists);
        }
        if self.find_artifact(d, &id).is_some() {
            return Err(CatalogFault::AlreadyExists);
        }
        let name = Tag {
            dataset: d.copy(alloc)?,
            name: tag,
            artifact: id.copy(alloc)?,
        };
        let dataset = d.copy(alloc)?;
        let artifact = Artifact {
            dataset,
            id,
            content,
        };
        self.push_stored(alloc, d, artifact, name)?;
        Ok(())
    }

    fn push_stored(
        &mut self,
        alloc: Global,
        d: &DatasetId,
        artifact: Artifact,
        tag: Tag,
    ) -> Result<(), NoMemory>
        requires dataset { artifact.dataset ≡ d.now }
        requires artifact { artifact_of self.old artifact.dataset artifact.id ≡ None }
        requires tag { tag_of self.old tag.dataset tag.name ≡ None }
        ensures ok { OnOk result (self.new ≡ with_stored self.old artifact tag) }
        ensures err { OnErr result (self.new ≡ self.old) }
    {
        if self.has_dataset(d) {
            return self.push_item(alloc, artifact, tag);
        }
        let dataset = d.copy(alloc)?;
        self.push_all(alloc, dataset, artifact, tag)
    }

    /// Adds an artifact and a tag that are not there.
    fn push_item(&mut self, alloc: Global, artifact: Artifact, tag: Tag) -> Result<(), NoMemory>
        requires artifact { artifact_of self.old artifact.dataset artifact.id ≡ None }
        requires tag { tag_of self.old tag.dataset tag.name ≡ None }
        ensures ok { OnOk result (self.new ≡ with_tag (with_artifact self.old artifact) tag) }
        ensures err { OnErr result (self.new ≡ self.old) }
    {
        let keys = self.names.add_both(
            alloc,
            &artifact.dataset,
            &artifact.id,
            &tag.dataset,
            &tag.name,
        )?;
        push_item(
            &mut self.artifacts,
            keys.0,
            artifact,
            &mut self.tags,
            keys.1,
            tag,
        )
    }

    /// Adds a dataset, an artifact and a tag that are not there.
    fn push_all(
        &mut self,
        alloc: Global,
        dataset: DatasetId,
        artifact: Artifact,
        tag: Tag,
    ) -> Result<(), NoMemory>
        requires dataset { has_dataset self.old dataset ≡ false }
        requires artifact { artifact_of self.old artifact.dataset artifact.id ≡ None }
        requires tag { tag_of self.old tag.dataset tag.name ≡ None }
        ensures ok { OnOk result (self.new ≡ with_tag (with_artifact (with_dataset self.old dataset) artifact) tag) }
        ensures err { OnErr result (self.new ≡ self.old) }
    {
        let keys = self.names.add_all(
            alloc,
            &dataset,
            &artifact.dataset,
            &artifact.id,
            &tag.dataset,
            &tag.name,
        )?;
        push_all(
            &mut self.datasets,
            keys.0,
            dataset,
            &mut self.artifacts,
            keys.1,
            artifact,
            &mut self.tags,
            keys.2,
            tag,
        )
    }

    /// What was stored under an id, or under the id that a tag names. Takes no memory.
    pub fn get_artifact(&self, d: &DatasetId, by: &Selector) -> Option<&LiteralMap>
        ensures { option_copied result ≡ content_of self.now d.now by.now }
    {
        match by {
            Selector::Id(id) => self.content_by_id(d, id),
            Selector::Tag(name) => match self.find_tag(d, name) {
                Some(tag) => self.content_by_id(d, &tag.artifact),
                None => None,
            },
        }
    }

    fn content_by_id(&self, d: &DatasetId, id: &Text) -> Option<&LiteralMap>
        ensures { option_copied result ≡ option_map (λ a. a.content) (artifact_of self.now d.now id.now) }
    {
        match self.find_artifact(d, id) {
            Some(artifact) => Some(&artifact.content),
            None => None,
        }
    }

    /// How many artifacts there are. Takes no memory.
    pub fn artifact_count(&self) -> usize
        ensures { result ≡ length self.now.artifacts }
    {
        self.artifacts.items.len()
    }

    /// The artifact that was the n-th to be made, from 0. Takes no memory.
    pub fn artifact(&self, n: usize) -> Option<&Artifact>
        ensures { option_copied result ≡ slice_get self.now.artifacts n }
    {
        self.artifacts.items.get(n)
    }

    /// The tag that was the n-th to be given, from 0. Takes no memory.
    pub fn tag(&self, n: usize) -> Option<&Tag>
        ensures { option_copied result ≡ slice_get self.now.tags n }
    {
        self.tags.items.get(n)
    }

    /// Whether the dataset has a tag of the name. Takes no memory.
    pub fn has_tag(&self, d: &DatasetId, name: &Text) -> bool
        ensures { result ≡ is_some (tag_of self.now d.now name.now) }
    {
        self.find_tag(d, name).is_some()
    }

    /// How many reservations are held, expired or not. Takes no memory.
    pub fn reservation_count(&self) -> usize
        ensures { result ≡ length self.now.reservations }
    {
        self.reservations.live.len()
    }

    /// Puts a reservation in the place of its key's, or at the end.
    fn put_reservation(&mut self, alloc: Global, reservation: Reservation) -> Result<(), NoMemory>
        ensures ok { OnOk result (self.new ≡ record self.old { reservations = with_reservation self.old.reservations reservation }) }
        ensures err { OnErr result (self.new ≡ self.old) }
    {
        let key = self
            .names
            .add_item(alloc, &reservation.dataset, &reservation.tag)?;
        match self.reservations.serial(&key) {
            Some(serial) => {
                self.reservations.replace(serial, reservation);
                Ok(())
            }
            None => self.reservations.append(key, reservation),
        }
    }

    /// The reservation that keeps the owner off the key.
    fn bar(&self, d: &DatasetId, tag: &Text, owner: &Text, moment: i64) -> Option<&Reservation>
        ensures { option_copied result ≡ bar_of self.now d.now tag.now owner.now moment }
    {
        match self.find_reservation(d, tag) {
            Some(reservation) => {
                if keeps_off(reservation, owner, moment) {
                    Some(reservation)
                } else {
                    None
                }
            }
            None => None,
        }
    }

    /// What an owner that asks for the word would be answered. Nothing changes.
    pub fn grant(
        &self,
        alloc: Global,
        d: &DatasetId,
        tag: &Text,
        owner: &Text,
        moment: i64,
        heartbeat_ms: i64,
    ) -> Result<Grant, NoMemory>
        requires moment { moment ≤ℤ pos (2 ^ 62) }
        requires heartbeat { pos 0 ≤ℤ heartbeat_ms }
        ensures { IfOk result (λ g. g ≡ grant_of self.now d.now tag.now owner.now moment heartbeat_ms) }
    {
        match self.bar(d, tag, owner, moment) {
            Some(bar) => Ok(Grant::HeldBy {
                owner: bar.owner.copy(alloc)?,
                expiry: bar.expiry,
            }),
            None => Ok(Grant::Granted {
                expiry: lease_end(moment, heartbeat_ms),
            }),
        }
    }

    /// How many reservations have an owner that has ended. Takes no memory.
    pub fn ended_count<T: OwnerTest>(&self, test: &T) -> usize
        ensures { result ≡ count_by (λ r. T.ends test.now r.owner) self.now.reservations }
    {
        self.reservations.ended_count(test)
    }

    /// Gives an owner the word that it makes the artifact of a tag, for three heartbeats, or says who has that word. A
    /// heartbeat counts for 10 seconds at most; both times are in milliseconds.
    pub fn get_or_extend(
        &mut self,
        alloc: Global,
        d: &DatasetId,
        tag: &Text,
        owner: &Text,
        moment: i64,
        heartbeat_ms: i64,
    ) -> Result<Grant, NoMemory>
        requires moment { moment ≤ℤ pos (2 ^ 62) }
        requires heartbeat { pos 0 ≤ℤ heartbeat_ms }
        ensures granted { IfOk result (λ g. g ≡ grant_of self.old d.now tag.now owner.now moment heartbeat_ms) }
        ensures after { IfOk result (λ g. self.new ≡ after_grant self.old d.now tag.now owner.now g) }
        ensures err { OnErr result (self.new ≡ self.old) }
    {
        if let Some(bar) = self.bar(d, tag, owner, moment) {
            let owner = bar.owner.copy(alloc)?;
            return Ok(Grant::HeldBy {
                owner,
                expiry: bar.expiry,
            });
        }
        let expiry = lease_end(moment, heartbeat_ms);
        let reservation = Reservation {
            dataset: d.copy(alloc)?,
            tag: tag.copy(alloc)?,
            owner: owner.copy(alloc)?,
            expiry,
        };
        self.put_reservation(alloc, reservation)?;
        Ok(Grant::Granted { expiry })
    }

    /// Takes an owner's word back, expired or not, and answers whether the owner had it. Takes no memory.
    pub fn release(&mut self, d: &DatasetId, tag: &Text, owner: &Text) -> bool
        ensures answer { result ≡ holds self.old d.now tag.now owner.now }
        ensures after { self.new ≡ after_release self.old d.now tag.now owner.now }
    {
        match self.names.item_key(d, tag) {
            Some(key) => self.reservations.release(&key, owner),
            None => false,
        }
    }

    /// Takes the reservations away whose owner has ended, and answers how many they were. Takes no memory.
    pub fn sweep<T: OwnerTest>(&mut self, test: &T) -> usize
        ensures count { result ≡ count_by (λ r. T.ends test.now r.owner) self.old.reservations }
        ensures after { self.new ≡ after_sweep self.old (T.ends test.now) }
    {
        let before = self.reservations.live.len();
        self.reservations.sweep(test);
        before - self.reservations.live.len()
    }
}

/// Whether the reservation is another's and has not expired.
fn keeps_off(reservation: &Reservation, owner: &Text, moment: i64) -> bool
    ensures { result ≡ keeps_off reservation.now owner.now moment }
{
    moment < reservation.expiry && *owner != reservation.owner
}

/// Three heartbeats on.
fn lease_end(moment: i64, heartbeat_ms: i64) -> i64
    requires moment { moment ≤ℤ pos (2 ^ 62) }
    requires heartbeat { pos 0 ≤ℤ heartbeat_ms }
    ensures { result ≡ lease_end moment heartbeat_ms }
{
    moment + 3 * heartbeat_ms.min(10_000)
}
