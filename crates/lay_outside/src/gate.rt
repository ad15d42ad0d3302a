//! Points of a run.

/// A point of a run: the start or the end of the layout of a claim, by the claim's number, or of an
/// editor's call, by the editor and the index of its command.
#[derive(Clone, Copy, Debug, PartialEq, Eq)]
pub enum Point {
    LayStart(u64),
    LayEnd(u64),
    CallStart(u32, u32),
    CallEnd(u32, u32),
}

/// Is told when a point is reached, and may hold the thread that reached it. It changes no result.
pub trait Gate {
    /// The calling thread is at this point.
    fn at(&self, point: Point);
}

/// Holds nothing.
#[derive(Clone, Copy, Debug)]
pub struct OpenGate;

impl Gate for OpenGate {
    fn at(&self, _point: Point) {}
}
