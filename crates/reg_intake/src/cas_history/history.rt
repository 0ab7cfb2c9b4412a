//! An accepted history: the operations of each register.
use history_model::Operation;
use history_text::{Name, OpWord};

/// The registers of an accepted history.
#[derive(Drop)]
pub struct History {
    /// The names of the registers, in the order of their first calls.
    pub names: Vec<Name>,
    /// The operations of each register, by call: the calls that didn't fail. Its initial write isn't among
    /// them.
    pub registers: Vec<Vec<Operation>>,
    /// How many operations there are in all.
    pub operations: usize,
    /// The line of each event. Event `i` has time `i + 2`.
    pub lines: Vec<u32>,
    /// The word for the operation of each event that is a call.
    pub words: Vec<Option<OpWord>>,
}
