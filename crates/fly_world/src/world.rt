//! The store of executions of a run.
ghost use Rattle.std.specs.Prelude.{◌≡◌, ◌||◌, false, not, slice_get, IfOk, OnOk, OnErr, IsTrue, IsSome, is_some};
ghost use Rattle.std.specs.Option.{option_map_or};
ghost use Rattle.fly_world.specs.Answers.{CanMake, change_of};
ghost use Rattle.fly_world.specs.Called as called;
ghost use Rattle.fly_world.specs.Journals.{is_begin};
ghost use Rattle.fly_world.specs.Kept.{IsPrepared, IsReplied, IsChangeBy, IsLaunchedReply};
ghost use Rattle.fly_world.specs.Steps.{step};
ghost use Rattle.fly_world.specs.Store.{IsSound, added_entry, changed_by};
ghost use Rattle.fly_world.specs.World as world;

use crate::admission::AdmitFault;
use crate::answers::{Answer, Change, answer_to};
use crate::store::Store;
use crate::telling::{view_read, work_claimed};
use crate::{Called, Stored, Work};
use fly_desk::Annals;
use fly_docs::{AttemptName, Submission};
use fly_state::{Entry, ExecState, Op, Plan, Reply, View};
use fly_types::NoMemory;
use std::alloc::Global;
use std::marker::Model;

/// The executions of a run, its attempts and its catalog, as the journal of all its operations leaves them. Contracts see
/// the plan, the hash of the closure, the lists, and for how many more entries there is room.
#[derive(Drop)]
pub struct World<'p> {
    closure: [u8; 32],
    store: Store<'p>,
}

impl<'p> Model for World<'p> {
    ghost use Rattle.std.specs.Coded.{codes};
    ghost use Rattle.fly_types.specs.contracts.kinds.LiteralType as types;
    ghost use Rattle.fly_types.specs.contracts.literals.Literal as literals;
    ghost use Rattle.fly_types.specs.contracts.literals.Tree as trees;
    ghost use Rattle.fly_exprs.specs.contracts.expr.Expr as exprs;
    ghost use Rattle.fly_docs.specs.contracts.binding.Bound as bounds;
    ghost use Rattle.fly_docs.specs.contracts.node.Node as steps;
    ghost use Rattle.fly_world.specs.Kept.{Kept, kept_in, IsLegal};

    ghost Value = { Kept };

    ghost coded = { Prim.hlevel (codes, types.the_row.coded, literals.the_row.coded, trees.the_row.coded, exprs.the_row.coded, bounds.the_row.coded, steps.the_row.coded) };

    ghost view = { λ w. kept_in w.closure w.store };

    ghost invariant = { λ w. IsLegal (kept_in w.closure w.store) };
}

impl<'p> World<'p> {
    ghost use Rattle.std.specs.Prelude.{◌≡◌, ◌<◌, ◌^◌, max, length, slice_get, option_map, false, Some, OnOk, OnErr, IfOk, IsSome};
    ghost use Rattle.std.specs.Option.{option_copied};
    ghost use Rattle.fly_world.specs.World.{unsettled, are_all_over};
    ghost use Rattle.fly_world.specs.Laws.{submission_of};
    ghost use Rattle.fly_world.specs.Stored.{stored_at};
    ghost use Rattle.fly_world.specs.Steps.{step};
    ghost use Rattle.fly_world.specs.Journals.{is_begin};
    ghost use Rattle.fly_world.specs.Called.{IsCalled};
    ghost use Rattle.fly_world.specs.Kept.{begun, moved_to, Admits, IsLegal, Takes};

    /// The store in which a run has begun, for the closure of this hash.
    pub fn begin(alloc: Global, plan: &'p Plan, closure: [u8; 32]) -> Result<World<'p>, NoMemory>
        ensures { IfOk result (λ w. w ≡ begun plan.now closure) }
    {
        let mut store = Store::new(alloc, plan)?;
        store.reserve(1)?;
        store.push(Entry {
            worker: 0,
            op: Op::Begin { closure },
            reply: Reply::Begun,
        });
        Ok(World { closure, store })
    }

    /// Makes room for so many entries more.
    pub fn reserve(&mut self, count: u64) -> Result<(), NoMemory>
        ensures ok { OnOk result (self.new ≡ record self.old { spare = max self.old.spare count }) }
        ensures err { OnErr result (self.new ≡ self.old) }
    {
        self.store.reserve(count)
    }

    /// The operation of a worker, as one entry with its reply, and with it a copy of what was read or claimed. Where no
    /// memory is found for the operation itself the reply is `NoMemory`, and nothing but the entry is added.
    pub fn perform(&mut self, worker: u32, op: Op) -> Called
        requires room { 0 < self.old.spare }
        requires later { is_begin op ≡ false }
        requires stands { IsSome (step self.old.plan self.old.world worker op) }
        ensures called { IsCalled self.old.plan self.old.world self.new.world worker op result }
        ensures moved { self.new ≡ moved_to self.old self.new.world }
    {
        let place = self.store.len();
        let reply = self.take(worker, op);
        match self.told(&reply) {
            Ok((view, work)) => Called {
                place,
                reply,
                view,
                work,
                short: false,
            },
            Err(NoMemory) => Called {
                place,
                reply,
                view: None,
                work: None,
                short: true,
            },
        }
    }

    /// Adds the entry of an operation, and answers its reply.
    fn take(&mut self, worker: u32, op: Op) -> Reply
        requires room { 0 < self.old.spare }
        requires later { is_begin op ≡ false }
        requires stands { IsSome (step self.old.plan self.old.world worker op) }
        ensures { Takes self.old worker op self.new result }
    {
        let _task_nodes = self.store.plan().primary();
        let (reply, copy) = reply_to(&mut self.store, worker, &op);
        self.store.push(Entry { worker, op, reply });
        copy
    }

    /// What was read or claimed with this reply.
    fn told(&self, reply: &Reply) -> Result<(Option<View>, Option<Work>), NoMemory>
        requires { IsLaunchedReply self.now.world reply.now }
        ensures ok { IfOk result (λ t. t ≡ (called.view_read self.now.world reply.now, called.work_claimed self.now.plan self.now.world reply.now)) }
        ensures err { OnErr result (IsTrue (is_some (called.view_read self.now.world reply.now) || is_some (called.work_claimed self.now.plan self.now.world reply.now))) }
    {
        let _task_nodes = self.store.plan().primary();
        let view = view_read(&self.store, reply)?;
        let work = work_claimed(&self.store, reply)?;
        Ok((view, work))
    }

    /// Adds an entry with its reply, where it is a step at this place.
    pub fn admit(&mut self, entry: Entry) -> Result<(), AdmitFault>
        ensures { Admits self.old entry self.new result }
    {
        let place = self.store.len();
        let _task_nodes = self.store.plan().primary();
        let Some(answer) = answer_to(&self.store, entry.worker, &entry.op)? else {
            return Err(AdmitFault::IllegalEntry(place));
        };
        let Some(change) = change_by(answer, &entry.reply) else {
            return Err(AdmitFault::IllegalEntry(place));
        };
        add_entry(&mut self.store, change, entry)?;
        Ok(())
    }

    /// What the store keeps, for callers that go by the laws of journals. The call does nothing.
    pub fn legal_journal(&self)
        ensures { IsLegal self.now }
    {
        let _kept = &self.store;
    }

    /// How many entries there are. Takes no memory.
    pub fn len(&self) -> u64
        ensures { result ≡ length self.now.world.entries }
    {
        self.store.len()
    }

    /// The entry of a place. Takes no memory.
    pub fn entry(&self, place: u64) -> &Entry
        requires { place < length self.now.world.entries }
        ensures { slice_get self.now.world.entries place ≡ Some result.now }
    {
        match self.store.entry(place) {
            Some(entry) => entry,
            None => unreachable!(),
        }
    }

    /// How many executions there are. Takes no memory.
    pub fn executions(&self) -> u32
        ensures { result ≡ length self.now.world.executions }
    {
        self.store.execution_count() as u32
    }

    /// What was submitted as the execution of a number. Takes no memory.
    pub fn named(&self, execution: u32) -> &Submission
        requires { execution < length self.now.world.executions }
        ensures { option_map submission_of (slice_get self.now.world.executions execution) ≡ Some result.now }
    {
        match self.store.execution(execution as usize) {
            Some(versions) => versions.submission(),
            None => unreachable!(),
        }
    }

    /// The current version of the execution of a number. Takes no memory.
    pub fn last(&self, execution: u32) -> &ExecState
        requires { execution < length self.now.world.executions }
        ensures { option_map (λ x. x.state) (slice_get self.now.world.executions execution) ≡ Some result.now }
    {
        match self.store.execution(execution as usize) {
            Some(versions) => versions.current(),
            None => unreachable!(),
        }
    }

    /// The first claimed attempt without an outcome. Takes no memory.
    pub fn unsettled(&self) -> Option<&AttemptName>
        ensures { option_copied result ≡ unsettled self.now.world }
    {
        self.store.attempts().unsettled()
    }

    /// The artifact that was the n-th to be made, from 0, with its tag.
    pub fn artifact(&self, n: u64) -> Result<Option<Stored>, NoMemory>
        ensures { IfOk result (λ s. s ≡ stored_at self.now.world n) }
    {
        self.store.artifact(n as usize)
    }

    /// Whether each execution has come to its end. Takes no memory.
    pub fn all_final(&self) -> bool
        ensures { result ≡ are_all_over self.now.world }
    {
        are_all_over(&self.store)
    }
}

/// A desk can hold the store: its list is the journal, and its basis is the plan.
impl<'p> Annals for World<'p> {
    type Entry = Entry;

    type Basis = Plan;

    ghost entries = { λ w. w.world.entries };

    ghost spare = { λ w. w.spare };

    ghost basis = { λ w. w.plan };

    fn count(&self) -> u64 {
        self.store.len()
    }

    fn room(&self) -> u64 {
        self.store.spare()
    }
}

/// An answer whose reply is there twice, for its entry and for who asked.
#[derive(Drop)]
pub(crate) struct Prepared {
    replies: (Reply, Reply),
    change: Change,
}

/// The answer to an operation that has one.
fn prepare(store: &Store, worker: u32, op: &Op) -> Result<Prepared, NoMemory>
    requires of_plan { IsSound store.now }
    requires stands { IsSome (step store.now.plan store.now.world worker op.now) }
    ensures answer { IfOk result (IsPrepared store.now (step store.now.plan store.now.world worker op.now)) }
    ensures change { IfOk result (λ p. CanMake store.now p.change) }
{
    let Some(answer) = answer_to(store, worker, op)? else {
        unreachable!();
    };
    let copy = answer.reply.copy(store.alloc())?;
    Ok(Prepared {
        replies: (answer.reply, copy),
        change: answer.change,
    })
}

/// Makes the change of the answer to an operation, and replies with it twice. Where no memory is found nothing changes.
fn reply_to(store: &mut Store, worker: u32, op: &Op) -> (Reply, Reply)
    requires of_plan { IsSound store.old }
    requires later { is_begin op.now ≡ false }
    requires stands { IsSome (step store.old.plan store.old.world worker op.now) }
    ensures { IsReplied store.old worker op.now store.new result }
{
    match prepare(store, worker, op) {
        Ok(Prepared { replies, change }) => match store.make(change) {
            Ok(()) => replies,
            Err(NoMemory) => (Reply::NoMemory, Reply::NoMemory),
        },
        Err(NoMemory) => (Reply::NoMemory, Reply::NoMemory),
    }
}

/// The change that an entry with this reply makes, by the answer to its operation. None where the reply is neither the
/// answer's nor want of memory.
fn change_by(answer: Answer, reply: &Reply) -> Option<Change>
    ensures { IsChangeBy answer reply.now result }
{
    match reply {
        Reply::NoMemory => Some(Change::Nothing),
        _ => {
            if answer.reply.is_same(reply) {
                Some(answer.change)
            } else {
                None
            }
        }
    }
}

/// Makes a change, and adds its entry.
fn add_entry(store: &mut Store, change: Change, entry: Entry) -> Result<(), NoMemory>
    requires of_plan { IsSound store.old }
    requires can { CanMake store.old change }
    ensures ok { OnOk result (store.new ≡ added_entry (changed_by store.old (change_of store.old.plan store.old.world change)) entry) }
    ensures err { OnErr result (store.new ≡ store.old) }
{
    let spare = store.spare();
    store.reserve(1)?;
    match store.make(change) {
        Ok(()) => {
            store.push(entry);
            Ok(())
        }
        Err(NoMemory) => {
            store.limit_spare(spare);
            Err(NoMemory)
        }
    }
}

/// Whether each execution has come to its end.
fn are_all_over(store: &Store) -> bool
    ensures { result ≡ world.are_all_over store.now.world }
{
    for number in 0..store.execution_count() {
        if is_going_on(store, number) {
            return false;
        }
    }
    true
}

/// Whether there is an execution of this number that is not over.
fn is_going_on(store: &Store, number: usize) -> bool
    ensures { result ≡ option_map_or (λ x. not (world.is_over x)) (slice_get store.now.world.executions number) false }
{
    match store.execution(number) {
        Some(versions) => !versions.is_over(),
        None => false,
    }
}
