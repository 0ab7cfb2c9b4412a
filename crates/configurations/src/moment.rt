//! The calls and the replies of a register's operations.

/// A call or a reply of an operation, by its place among the operations.
#[derive(Clone, Copy, Debug, PartialEq, Eq)]
pub enum Moment {
    Call(u32),
    Reply(u32),
}
