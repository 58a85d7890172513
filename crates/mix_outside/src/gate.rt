//! What work passes on its way, so that a test can hold it there.
use mix_base::PassNo;

/// A place that work passes.
#[derive(Clone, Copy)]
pub enum Point {
    /// Before a turn that would make this entry.
    BeforeTurn(PassNo),
    /// After it.
    AfterTurn(PassNo),
    /// Before the painting of the frame with this number.
    Painting(u64),
}

/// What work passes on its way. It may keep it for a while.
pub trait Gate {
    fn pass(&self, point: Point);
}

/// A gate that keeps nothing.
#[derive(Clone, Copy)]
pub struct OpenGate;

impl Gate for OpenGate {
    fn pass(&self, _point: Point) {}
}
