//! A place in an order.
use history_model::Oper;

/// An operation in its place of an order, with its point: a time at which it may have taken effect.
#[derive(Clone, Copy, Debug, PartialEq, Eq)]
pub struct Placed {
    pub oper: Oper,
    /// A time, as `Op` gives times: at or after the operation's call and before its reply.
    pub point: u32,
}
