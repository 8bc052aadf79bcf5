/// How a turn ended.
#[derive(Clone, Copy, Debug, PartialEq, Eq)]
pub enum TurnEnd {
    /// It went on to its end.
    Went,
    /// It found that every execution is over.
    Idle,
    /// The calls that its worker may make are used up; it made none.
    Spent,
    /// What it had done could not be kept.
    Keep,
    /// It found no memory.
    NoMemory,
}
