//! What a pass knows. It stands in proofs alone.
use std::collections::LinkedList;

/// What stays the same from the start of a desk to its end.
pub struct Origin<E, B> {
    /// The object's list at the start.
    pub opening: LinkedList<E>,
    /// The object's basis at the start.
    pub basis: B,
    /// How many calls all passes have together.
    pub calls: u64,
}

/// What a pass knows. No value of it is made.
pub struct View<E, B> {
    /// None in a view that was joined into another.
    pub origin: Option<Origin<E, B>>,
    /// The longest list that the pass has seen.
    pub seen: LinkedList<E>,
    /// What another pass had seen that was joined to this one, until this one has settled which is longer.
    pub note: LinkedList<E>,
    /// The pass's own calls, each with its place in the list.
    pub own: LinkedList<(u64, E)>,
    /// How many calls are left.
    pub left: u64,
    /// The ticket that waits, or is served.
    pub ticket: Option<u64>,
    /// While the pass has the turn: the object's list and spare as it was handed out.
    pub turn: Option<(LinkedList<E>, u64)>,
}
