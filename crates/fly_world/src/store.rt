//! The store's tables: its lists with what finds things in them, and the changes of these.
ghost use Rattle.std.specs.Prelude.{◌≡◌, ◌&&◌, IfOk};
ghost use Rattle.fly_catalog.specs.declared.requests.CatalogFault.TheVariants as faults;
ghost use Rattle.fly_world.specs.Steps as steps;
ghost use Rattle.fly_world.specs.Store as words;

use crate::Stored;
use crate::answers::Change;
use crate::spots::{Spot, has_ended};
use crate::versions::Versions;
use fly_attempts::Attempts;
use fly_catalog::{Catalog, CatalogFault, OwnerTest};
use fly_docs::{AttemptName, DatasetId, Submission};
use fly_policy::Outcome;
use fly_state::{Entry, ExecState, Op, Plan};
use fly_types::{LiteralMap, NoMemory, Text};
use std::alloc::Global;
use std::collections::BTreeMap;
use std::marker::Model;

/// How often those ask for reservations again that wait, in milliseconds.
pub(crate) const HEARTBEAT: i64 = 10_000;

/// The lists of a run, with tables by which executions, attempts and owners are found. Contracts see the lists, the plan
/// and for how many more entries there is room.
#[derive(Drop)]
pub struct Store<'p> {
    alloc: Global,
    plan: &'p Plan,
    executions: Vec<Versions>,
    /// The number of each execution, by its name.
    numbers: BTreeMap<Text, usize>,
    attempts: Attempts,
    catalog: Catalog,
    /// Who the owners of reservations are.
    owners: BTreeMap<Text, Spot>,
    moment: i64,
    entries: Vec<Entry>,
    /// Whether all entries so far are a beginning and imports.
    opening: bool,
    spare: u64,
}

impl<'p> Model for Store<'p> {
    ghost use Rattle.std.specs.Coded.{codes};
    ghost use Rattle.fly_types.specs.contracts.kinds.LiteralType as types;
    ghost use Rattle.fly_types.specs.contracts.literals.Literal as literals;
    ghost use Rattle.fly_types.specs.contracts.literals.Tree as trees;
    ghost use Rattle.fly_exprs.specs.contracts.expr.Expr as exprs;
    ghost use Rattle.fly_docs.specs.contracts.binding.Bound as bounds;
    ghost use Rattle.fly_docs.specs.contracts.node.Node as steps;
    ghost use Rattle.fly_world.specs.Store.{StoreLists, world_of, HasStoreTables};

    ghost Value = { StoreLists };

    ghost coded = { Prim.hlevel (codes, types.the_row.coded, literals.the_row.coded, trees.the_row.coded, exprs.the_row.coded, bounds.the_row.coded, steps.the_row.coded) };

    ghost view = { λ s. record {
      plan = s.plan.now;
      world = world_of s.executions.items s.attempts s.catalog s.moment s.entries.items;
      spare = s.spare;
    } };

    ghost invariant = { λ s. HasStoreTables s.plan.now
        (world_of s.executions.items s.attempts s.catalog s.moment s.entries.items)
        s.numbers s.owners s.opening s.entries s.spare };
}

impl<'p> Store<'p> {
    ghost use Rattle.std.specs.Prelude.{◌≡◌, ◌<◌, ◌≤◌, ◌^◌, ◌≤ℤ◌, pos, max, length, slice_get, count_by, OnOk, OnErr, IfOk};
    ghost use Rattle.std.specs.Option.{option_copied};
    ghost use Rattle.fly_world.specs.World.{empty_world};
    ghost use Rattle.fly_world.specs.Spots.{is_ended};
    ghost use Rattle.fly_world.specs.Stored.{stored_at};
    ghost use Rattle.fly_world.specs.Steps.{is_opening};
    ghost use Rattle.fly_world.specs.Store.{attempts_in, number_of_execution, changed_by, added_entry};
    ghost use Rattle.fly_world.specs.Changes.{moment_becomes, adds_launch};
    ghost use Rattle.fly_world.specs.Answers.{change_of, CanMake};
    ghost use Rattle.fly_world.specs.Store.{IsSound};
    ghost use Rattle.fly_world.specs.declared.answers.Change.TheVariants as changes;

    /// A store with nothing in it.
    pub fn new(alloc: Global, plan: &'p Plan) -> Result<Store<'p>, NoMemory>
        ensures { IfOk result (λ s. s ≡ record { plan = plan.now; world = empty_world; spare = 0 }) }
    {
        Ok(Store {
            alloc,
            plan,
            executions: Vec::new(alloc),
            numbers: BTreeMap::new(alloc),
            attempts: Attempts::new(alloc),
            catalog: Catalog::make(alloc)?,
            owners: BTreeMap::new(alloc),
            moment: 0,
            entries: Vec::new(alloc),
            opening: true,
            spare: 0,
        })
    }

    pub fn alloc(&self) -> Global {
        self.alloc
    }

    pub fn plan(&self) -> &Plan
        ensures { result.now ≡ self.now.plan }
    {
        self.plan
    }

    pub fn moment(&self) -> i64
        ensures value { result ≡ self.now.world.moment }
        ensures early { result ≤ℤ pos (2 ^ 62) }
    {
        self.moment
    }

    /// How many entries there are.
    pub fn len(&self) -> u64
        ensures { result ≡ length self.now.world.entries }
    {
        self.entries.len() as u64
    }

    /// The entry of a place.
    pub fn entry(&self, place: u64) -> Option<&Entry>
        ensures { option_copied result ≡ slice_get self.now.world.entries place }
    {
        self.entries.get(place as usize)
    }

    /// For how many entries more there is room.
    pub fn spare(&self) -> u64
        ensures { result ≡ self.now.spare }
    {
        self.spare
    }

    /// Whether all entries so far are a beginning and imports.
    pub fn is_opening(&self) -> bool
        ensures { result ≡ is_opening self.now.world }
    {
        self.opening
    }

    /// How many executions there are.
    pub fn execution_count(&self) -> usize
        ensures value { result ≡ length self.now.world.executions }
        ensures few { result < 2 ^ 32 }
    {
        self.executions.len()
    }

    /// The execution of a number.
    pub fn execution(&self, number: usize) -> Option<&Versions>
        ensures { option_copied result ≡ slice_get self.now.world.executions number }
    {
        self.executions.get(number)
    }

    /// The number of the execution of a name.
    pub fn number_of(&self, name: &Text) -> Option<usize>
        ensures { result ≡ number_of_execution self.now.world name.now }
    {
        self.numbers.get(name).copied()
    }

    pub fn attempts(&self) -> &Attempts
        ensures { result.now ≡ attempts_in self.now.world }
    {
        &self.attempts
    }

    pub fn catalog(&self) -> &Catalog
        ensures { result.now ≡ self.now.world.catalog }
    {
        &self.catalog
    }

    /// A copy of the artifact that was the n-th to be made, from 0, with its tag.
    pub fn artifact(&self, n: usize) -> Result<Option<Stored>, NoMemory>
        ensures { IfOk result (λ s. s ≡ stored_at self.now.world n) }
    {
        let Some(artifact) = self.catalog.artifact(n) else {
            return Ok(None);
        };
        let Some(tag) = self.catalog.tag(n) else {
            return Ok(None);
        };
        Ok(Some(Stored {
            dataset: artifact.dataset.copy(self.alloc)?,
            tag: tag.name.copy(self.alloc)?,
            content: artifact.content.copy(self.alloc)?,
        }))
    }

    /// How many reservations there are whose owners have ended.
    pub fn ended_count(&self) -> u64
        requires { IsSound self.now }
        ensures { result ≡ count_by (λ r. is_ended self.now.plan self.now.world r.owner) self.now.world.catalog.reservations }
    {
        let _task_nodes = self.plan.primary();
        let ended = Ended {
            owners: &self.owners,
            executions: &self.executions,
        };
        self.catalog.ended_count(&ended) as u64
    }

    // ---- changes

    /// Makes a change, for the entry that comes next.
    pub fn make(&mut self, change: Change) -> Result<(), NoMemory>
        requires of_plan { IsSound self.old }
        requires can { CanMake self.old change }
        ensures ok { OnOk result (self.new ≡ changed_by self.old (change_of self.old.plan self.old.world change)) }
        ensures err { OnErr result (self.new ≡ self.old) }
    {
        match change {
            Change::Nothing => Ok(()),
            Change::Moment(moment) => {
                self.set_moment(moment);
                Ok(())
            }
            Change::Sweep => {
                self.sweep();
                Ok(())
            }
            Change::Stores {
                dataset,
                tag,
                content,
            } => self.add_artifact(dataset, tag, content),
            Change::Reserves {
                spot,
                dataset,
                tag,
                owner,
            } => self.reserve_tag(spot, dataset, tag, owner),
            Change::Execution { submission, state } => self.add_execution(submission, state),
            Change::Launch { name, inputs } => self.add_launch(name, inputs),
            Change::Claim => {
                self.add_claim();
                Ok(())
            }
            Change::Outcome { number, outcome } => {
                self.add_outcome(number, outcome);
                Ok(())
            }
            Change::Version { number, state } => self.add_version(number, state),
        }
    }

    fn set_moment(&mut self, moment: i64)
        requires { CanMake self.old (changes.Moment moment) }
        ensures { self.new ≡ changed_by self.old (moment_becomes moment) }
    {
        self.moment = moment;
    }

    /// Adds the launch of an attempt that was not launched.
    fn add_launch(&mut self, name: AttemptName, inputs: LiteralMap) -> Result<(), NoMemory>
        requires { CanMake self.old (changes.Launch name inputs) }
        ensures ok { OnOk result (self.new ≡ changed_by self.old (adds_launch name inputs)) }
        ensures err { OnErr result (self.new ≡ self.old) }
    {
        let place = self.entries.len() as u64;
        self.attempts.launch(self.alloc, name, inputs, place)
    }

    /// Hands out the first launch that nobody has claimed.
    fn add_claim(&mut self)
        requires { CanMake self.old changes.Claim }
        ensures { self.new ≡ changed_by self.old (change_of self.old.plan self.old.world changes.Claim) }
    {
        let place = self.entries.len() as u64;
        self.attempts.claim(self.moment, place);
    }

    /// Says what a claimed attempt came to.
    fn add_outcome(&mut self, number: usize, outcome: Outcome)
        requires { CanMake self.old (changes.Outcome number outcome) }
        ensures { self.new ≡ changed_by self.old (change_of self.old.plan self.old.world (changes.Outcome number outcome)) }
    {
        let place = self.entries.len() as u64;
        self.attempts.settle(number, outcome, place);
    }

    /// Makes the next version of an execution.
    fn add_version(&mut self, number: usize, state: ExecState) -> Result<(), NoMemory>
        requires { CanMake self.old (changes.Version number state) }
        ensures ok { OnOk result (self.new ≡ changed_by self.old (change_of self.old.plan self.old.world (changes.Version number state))) }
        ensures err { OnErr result (self.new ≡ self.old) }
    {
        let place = self.entries.len() as u64;
        self.executions[number].push(state, place)
    }

    /// Lets the reservations go whose owners have ended.
    fn sweep(&mut self)
        requires { IsSound self.old }
        ensures { self.new ≡ changed_by self.old (change_of self.old.plan self.old.world changes.Sweep) }
    {
        let _task_nodes = self.plan.primary();
        let ended = Ended {
            owners: &self.owners,
            executions: &self.executions,
        };
        self.catalog.sweep(&ended);
    }

    /// Stores an artifact under a tag, and under the id of its place.
    fn add_artifact(
        &mut self,
        dataset: DatasetId,
        tag: Text,
        content: LiteralMap,
    ) -> Result<(), NoMemory>
        requires { CanMake self.old (changes.Stores dataset tag content) }
        ensures ok { OnOk result (self.new ≡ changed_by self.old (change_of self.old.plan self.old.world (changes.Stores dataset tag content))) }
        ensures err { OnErr result (self.new ≡ self.old) }
    {
        let id = artifact_id(self.alloc, self.catalog.artifact_count())?;
        match self.catalog.store(self.alloc, &dataset, id, tag, content) {
            Ok(()) => Ok(()),
            Err(fault) => Err(memory_wanted(fault)),
        }
    }

    /// Gives the node the reservation of a tag, or leaves it with who has it.
    fn reserve_tag(
        &mut self,
        spot: Spot,
        dataset: DatasetId,
        tag: Text,
        owner: Text,
    ) -> Result<(), NoMemory>
        requires { CanMake self.old (changes.Reserves spot dataset tag owner) }
        ensures ok { OnOk result (self.new ≡ changed_by self.old (change_of self.old.plan self.old.world (changes.Reserves spot dataset tag owner))) }
        ensures err { OnErr result (self.new ≡ self.old) }
    {
        if self.owners.get(&owner).is_none() {
            self.owners.insert(owner.copy(self.alloc)?, spot)?;
        }
        self.catalog
            .get_or_extend(self.alloc, &dataset, &tag, &owner, self.moment, HEARTBEAT)?;
        Ok(())
    }

    /// Adds an execution of a new name.
    fn add_execution(&mut self, submission: Submission, state: ExecState) -> Result<(), NoMemory>
        requires { CanMake self.old (changes.Execution submission state) }
        ensures ok { OnOk result (self.new ≡ changed_by self.old (change_of self.old.plan self.old.world (changes.Execution submission state))) }
        ensures err { OnErr result (self.new ≡ self.old) }
    {
        let name = submission.name.copy(self.alloc)?;
        self.executions.reserve(1)?;
        self.numbers.insert(name, self.executions.len())?;
        let versions = Versions::new(self.alloc, submission, state);
        let Ok(()) = self.executions.push(versions) else {
            unreachable!();
        };
        Ok(())
    }

    // ---- entries

    /// Makes room for so many entries more.
    pub fn reserve(&mut self, count: u64) -> Result<(), NoMemory>
        ensures ok { OnOk result (self.new ≡ record self.old { spare = max self.old.spare count }) }
        ensures err { OnErr result (self.new ≡ self.old) }
    {
        if count > self.spare {
            self.entries.reserve(count as usize)?;
            self.spare = count;
        }
        Ok(())
    }

    /// Counts on room for no more entries than so many.
    pub fn limit_spare(&mut self, spare: u64)
        requires { spare ≤ self.old.spare }
        ensures { self.new ≡ record self.old { spare = spare } }
    {
        self.spare = spare;
    }

    /// Adds an entry, for which there is room.
    pub fn push(&mut self, entry: Entry)
        requires { 0 < self.old.spare }
        ensures { self.new ≡ added_entry self.old entry }
    {
        self.opening = opens_with(self.opening, &entry.op);
        let Ok(()) = self.entries.push(entry) else {
            unreachable!();
        };
        self.spare -= 1;
    }
}

/// Which owners have ended, by who they are.
#[derive(Drop)]
pub(crate) struct Ended<'s> {
    owners: &'s BTreeMap<Text, Spot>,
    executions: &'s Vec<Versions>,
}

impl<'s> OwnerTest for Ended<'s> {
    ghost use Rattle.fly_world.specs.Store.{has_ended_owner};

    ghost ends = { λ e owner. has_ended_owner e.owners.now e.executions.now.items owner };

    fn ends(&self, owner: &Text) -> bool {
        match self.owners.get(owner) {
            Some(spot) => match self.executions.get(spot.execution) {
                Some(versions) => has_ended(versions, spot.node),
                None => false,
            },
            None => false,
        }
    }
}

/// Whether this operation too is one of an opening.
fn opens_with(opening: bool, op: &Op) -> bool
    ensures { result ≡ (opening && steps.is_opening_op op.now) }
{
    opening && matches!(op, Op::Begin { .. } | Op::Import { .. })
}

/// What a catalog wants that has no other cause to refuse.
fn memory_wanted(fault: CatalogFault) -> NoMemory
    requires { fault ≡ faults.NoMemory }
{
    match fault {
        CatalogFault::NoMemory => NoMemory,
        CatalogFault::AlreadyExists => unreachable!(),
        CatalogFault::NoDataset => unreachable!(),
        CatalogFault::NoArtifact => unreachable!(),
    }
}

/// The id of the artifact of a place.
fn artifact_id(alloc: Global, place: usize) -> Result<Text, NoMemory>
    ensures { IfOk result (λ id. id ≡ words.artifact_id place) }
{
    Ok(Text::from_string(format!(in alloc; "a{place}")?))
}
