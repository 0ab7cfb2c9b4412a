//! A client, and where it is with its operation.

/// What a client does.
#[derive(Clone, Copy, Debug, PartialEq, Eq)]
pub(crate) enum Stage {
    /// It has no open call.
    Idle,
    /// It called a read, which hasn't seen a write yet.
    ReadCalled {
        register: u32,
        /// The last write of the register that was replied to before the call.
        replied: u32,
    },
    /// Its read saw a write, and isn't replied to yet.
    ReadServed {
        write: u32,
    },
    /// It called a write, which hasn't taken effect yet.
    WriteCalled {
        register: u32,
        write: u32,
    },
    /// Its write took effect, and isn't replied to yet.
    WriteServed {
        register: u32,
        write: u32,
    },
    /// It called an operation that has no effect, and its fail is to come.
    Failed,
}

/// A client: the process that it calls as, and what it does.
#[derive(Clone, Copy, Debug, PartialEq, Eq)]
pub(crate) struct Client {
    pub process: u32,
    pub stage: Stage,
}
