ghost use Rattle.std.specs.Prelude.{◌≡◌, ◌↔◌, IsTrue, IfOk};

use crate::Move;
use fly_docs::{AttemptName, DatasetId};
use fly_policy::Outcome;
use fly_types::{List, LiteralMap, NoMemory, Text, TryCopy};
use std::alloc::Global;

/// What a worker asks of the world. An execution stands by its name, and a node by its path.
#[derive(Debug, PartialEq, Eq, Drop)]
pub enum Op {
    /// A journal begins, for the closure of this hash.
    Begin {
        closure: [u8; 32],
    },
    /// An artifact that the catalog already has.
    Import {
        dataset: DatasetId,
        tag: Text,
        content: LiteralMap,
    },
    Submit {
        exec: Text,
        inputs: LiteralMap,
    },
    /// The worker's clock shows this moment, in milliseconds.
    Tick {
        now: i64,
    },
    /// Reservations of what is final are let go.
    Sweep,
    /// A view of the first execution that isn't final, from this place on, so many versions back.
    Read {
        from: u64,
        back: u64,
    },
    /// The outputs that the catalog has for a node's inputs.
    Lookup {
        exec: Text,
        path: List<Text>,
    },
    /// A reservation of the node's place in the catalog.
    Reserve {
        exec: Text,
        path: List<Text>,
    },
    Launch {
        name: AttemptName,
        inputs: LiteralMap,
    },
    /// The attempt's time is over.
    Expire {
        name: AttemptName,
    },
    /// The node's outputs go into the catalog.
    Put {
        exec: Text,
        path: List<Text>,
    },
    /// The moves make the version after `base`.
    Write {
        exec: Text,
        base: u64,
        moves: List<Move>,
    },
    /// An attempt to run.
    Claim,
    Finish {
        name: AttemptName,
        outcome: Outcome,
    },
}

/// What the world answers.
#[derive(Debug, PartialEq, Eq, Drop)]
pub enum Reply {
    Begun,
    Imported,
    Submitted,
    /// The name of a submission is there.
    Taken,
    /// The moment.
    Now(i64),
    /// How many reservations were let go.
    Swept(u64),
    /// Every execution is final.
    Idle,
    Viewed {
        exec: Text,
        version: u64,
        current: u64,
    },
    NotReady,
    Hit(LiteralMap),
    Miss,
    /// When the reservation ends.
    Granted(i64),
    /// Who has the reservation, and until when.
    HeldBy(Text, i64),
    Already,
    NotRunning,
    BadInputs,
    Launched,
    NotClaimed,
    AlreadySettled,
    NotDue,
    Expired,
    Present,
    Stored,
    /// The current version, which is another than the base.
    Stale(u64),
    /// The first move that isn't legal, or that repeats a slot.
    IllegalMove(u64),
    /// The new version.
    Written(u64),
    Nothing,
    Claimed(AttemptName),
    Recorded,
    Unknown,
    NoMemory,
}

/// One call of the world: who asked, what, and what the answer was.
#[derive(Debug, PartialEq, Eq, Drop)]
pub struct Entry {
    pub worker: u32,
    pub op: Op,
    pub reply: Reply,
}

impl TryCopy for Move {
    fn copy(&self, _alloc: Global) -> Result<Move, NoMemory> {
        Ok(*self)
    }
}

impl Op {
    pub fn copy(&self, alloc: Global) -> Result<Op, NoMemory>
        ensures { IfOk result (λ c. c ≡ self.now) }
    {
        match self {
            Op::Begin { closure } => Ok(Op::Begin { closure: *closure }),
            Op::Import {
                dataset,
                tag,
                content,
            } => Ok(Op::Import {
                dataset: dataset.copy(alloc)?,
                tag: tag.copy(alloc)?,
                content: content.copy(alloc)?,
            }),
            Op::Submit { exec, inputs } => Ok(Op::Submit {
                exec: exec.copy(alloc)?,
                inputs: inputs.copy(alloc)?,
            }),
            Op::Tick { now } => Ok(Op::Tick { now: *now }),
            Op::Sweep => Ok(Op::Sweep),
            Op::Read { from, back } => Ok(Op::Read {
                from: *from,
                back: *back,
            }),
            Op::Lookup { exec, path } => Ok(Op::Lookup {
                exec: exec.copy(alloc)?,
                path: path.copy(alloc)?,
            }),
            Op::Reserve { exec, path } => Ok(Op::Reserve {
                exec: exec.copy(alloc)?,
                path: path.copy(alloc)?,
            }),
            Op::Launch { name, inputs } => Ok(Op::Launch {
                name: name.copy(alloc)?,
                inputs: inputs.copy(alloc)?,
            }),
            Op::Expire { name } => Ok(Op::Expire {
                name: name.copy(alloc)?,
            }),
            Op::Put { exec, path } => Ok(Op::Put {
                exec: exec.copy(alloc)?,
                path: path.copy(alloc)?,
            }),
            Op::Write { exec, base, moves } => Ok(Op::Write {
                exec: exec.copy(alloc)?,
                base: *base,
                moves: moves.copy(alloc)?,
            }),
            Op::Claim => Ok(Op::Claim),
            Op::Finish { name, outcome } => Ok(Op::Finish {
                name: name.copy(alloc)?,
                outcome: outcome.copy(alloc)?,
            }),
        }
    }
}

impl TryCopy for Op {
    fn copy(&self, alloc: Global) -> Result<Op, NoMemory> {
        Op::copy(self, alloc)
    }
}

impl Reply {
    pub fn copy(&self, alloc: Global) -> Result<Reply, NoMemory>
        ensures { IfOk result (λ c. c ≡ self.now) }
    {
        match self {
            Reply::Begun => Ok(Reply::Begun),
            Reply::Imported => Ok(Reply::Imported),
            Reply::Submitted => Ok(Reply::Submitted),
            Reply::Taken => Ok(Reply::Taken),
            Reply::Now(moment) => Ok(Reply::Now(*moment)),
            Reply::Swept(count) => Ok(Reply::Swept(*count)),
            Reply::Idle => Ok(Reply::Idle),
            Reply::Viewed {
                exec,
                version,
                current,
            } => Ok(Reply::Viewed {
                exec: exec.copy(alloc)?,
                version: *version,
                current: *current,
            }),
            Reply::NotReady => Ok(Reply::NotReady),
            Reply::Hit(content) => Ok(Reply::Hit(content.copy(alloc)?)),
            Reply::Miss => Ok(Reply::Miss),
            Reply::Granted(expiry) => Ok(Reply::Granted(*expiry)),
            Reply::HeldBy(owner, expiry) => Ok(Reply::HeldBy(owner.copy(alloc)?, *expiry)),
            Reply::Already => Ok(Reply::Already),
            Reply::NotRunning => Ok(Reply::NotRunning),
            Reply::BadInputs => Ok(Reply::BadInputs),
            Reply::Launched => Ok(Reply::Launched),
            Reply::NotClaimed => Ok(Reply::NotClaimed),
            Reply::AlreadySettled => Ok(Reply::AlreadySettled),
            Reply::NotDue => Ok(Reply::NotDue),
            Reply::Expired => Ok(Reply::Expired),
            Reply::Present => Ok(Reply::Present),
            Reply::Stored => Ok(Reply::Stored),
            Reply::Stale(current) => Ok(Reply::Stale(*current)),
            Reply::IllegalMove(index) => Ok(Reply::IllegalMove(*index)),
            Reply::Written(version) => Ok(Reply::Written(*version)),
            Reply::Nothing => Ok(Reply::Nothing),
            Reply::Claimed(name) => Ok(Reply::Claimed(name.copy(alloc)?)),
            Reply::Recorded => Ok(Reply::Recorded),
            Reply::Unknown => Ok(Reply::Unknown),
            Reply::NoMemory => Ok(Reply::NoMemory),
        }
    }
}

impl Reply {
    /// Whether the two are one reply.
    pub fn is_same(&self, other: &Reply) -> bool
        ensures { IsTrue result ↔ (self.now ≡ other.now) }
    {
        match self {
            Reply::Begun => matches!(other, Reply::Begun),
            Reply::Imported => matches!(other, Reply::Imported),
            Reply::Submitted => matches!(other, Reply::Submitted),
            Reply::Taken => matches!(other, Reply::Taken),
            Reply::Now(a) => matches!(other, Reply::Now(b) if *a == *b),
            Reply::Swept(a) => matches!(other, Reply::Swept(b) if *a == *b),
            Reply::Idle => matches!(other, Reply::Idle),
            Reply::Viewed {
                exec: e,
                version: v,
                current: c,
            } => {
                matches!(other, Reply::Viewed { exec, version, current } if e == exec && *v == *version && *c == *current)
            }
            Reply::NotReady => matches!(other, Reply::NotReady),
            Reply::Hit(a) => match other {
                Reply::Hit(b) => a.is_same(b),
                _ => false,
            },
            Reply::Miss => matches!(other, Reply::Miss),
            Reply::Granted(a) => matches!(other, Reply::Granted(b) if *a == *b),
            Reply::HeldBy(o, e) => {
                matches!(other, Reply::HeldBy(owner, expiry) if o == owner && *e == *expiry)
            }
            Reply::Already => matches!(other, Reply::Already),
            Reply::NotRunning => matches!(other, Reply::NotRunning),
            Reply::BadInputs => matches!(other, Reply::BadInputs),
            Reply::Launched => matches!(other, Reply::Launched),
            Reply::NotClaimed => matches!(other, Reply::NotClaimed),
            Reply::AlreadySettled => matches!(other, Reply::AlreadySettled),
            Reply::NotDue => matches!(other, Reply::NotDue),
            Reply::Expired => matches!(other, Reply::Expired),
            Reply::Present => matches!(other, Reply::Present),
            Reply::Stored => matches!(other, Reply::Stored),
            Reply::Stale(a) => matches!(other, Reply::Stale(b) if *a == *b),
            Reply::IllegalMove(a) => matches!(other, Reply::IllegalMove(b) if *a == *b),
            Reply::Written(a) => matches!(other, Reply::Written(b) if *a == *b),
            Reply::Nothing => matches!(other, Reply::Nothing),
            Reply::Claimed(a) => match other {
                Reply::Claimed(b) => is_same_name(a, b),
                _ => false,
            },
            Reply::Recorded => matches!(other, Reply::Recorded),
            Reply::Unknown => matches!(other, Reply::Unknown),
            Reply::NoMemory => matches!(other, Reply::NoMemory),
        }
    }
}

/// Whether the two are one name.
fn is_same_name(a: &AttemptName, b: &AttemptName) -> bool
    ensures { IsTrue result ↔ (a.now ≡ b.now) }
{
    if a.exec != b.exec || a.item != b.item || a.attempt != b.attempt {
        return false;
    }
    is_same_path(a.path.as_slice(), b.path.as_slice())
}

/// Whether the two are one path.
fn is_same_path(a: &[Text], b: &[Text]) -> bool
    ensures { IsTrue result ↔ (a.now ≡ b.now) }
{
    a == b
}

impl TryCopy for Reply {
    fn copy(&self, alloc: Global) -> Result<Reply, NoMemory> {
        Reply::copy(self, alloc)
    }
}

impl Entry {
    pub fn copy(&self, alloc: Global) -> Result<Entry, NoMemory>
        ensures { IfOk result (λ c. c ≡ self.now) }
    {
        Ok(Entry {
            worker: self.worker,
            op: self.op.copy(alloc)?,
            reply: self.reply.copy(alloc)?,
        })
    }
}

impl TryCopy for Entry {
    fn copy(&self, alloc: Global) -> Result<Entry, NoMemory> {
        Entry::copy(self, alloc)
    }
}
