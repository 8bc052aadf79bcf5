/// A place of a turn at which a gate may hold a worker.
#[derive(Clone, Copy, Debug, PartialEq, Eq)]
pub enum Point {
    AfterRead,
    BeforeWrite,
}

/// Is asked at the points of each turn, so that a test can hold a worker there.
pub trait Gate {
    fn pause(&mut self, point: Point);
}

/// A gate that holds nobody.
#[derive(Clone, Copy, Debug)]
pub struct OpenGate;

impl Gate for OpenGate {
    fn pause(&mut self, _point: Point) {}
}

/// What one worker needs of the outside.
#[derive(Drop)]
pub struct Hand<S, C, G> {
    pub spawner: S,
    pub clock: C,
    pub gate: G,
}
