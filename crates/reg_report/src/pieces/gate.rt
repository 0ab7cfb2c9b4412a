//! What a worker passes before each piece.

/// What workers pass: each calls `arrive` with the number of each piece that it drew, once,
/// before it does the piece. Threads share it.
pub trait Gate {
    /// Returns when the worker may go on.
    fn arrive(&self, piece: u64);
}

/// A gate that lets each worker go on at once.
#[derive(Clone, Copy, Debug)]
pub struct OpenGate;

impl Gate for OpenGate {
    fn arrive(&self, _piece: u64) {}
}
