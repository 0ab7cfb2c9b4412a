//! Operations by numbers.
ghost use Rattle.std.specs.Prelude.{◌≡◌, IsTrue, ℕ};
ghost use Rattle.configurations.specs.Ops.{fits, kind_looks, kind_misses, kind_writes, left_by};

/// What an operation did.
#[derive(Clone, Copy, Debug, PartialEq, Eq)]
pub enum Kind {
    /// It gave the value `from`.
    Read,
    /// It gave the register the value `to`.
    Write,
    /// A cas: it found `from`, and gave the register `to`.
    Cas,
    /// A cas that found another value than `from`, and gave the register `to`.
    CasUnless,
    /// A cas that missed: it found another value than `from`.
    Miss,
}

/// An operation on a register. Its values are numbers; the register has the value 0 at first.
#[derive(Clone, Copy, Debug, PartialEq, Eq)]
pub struct Op {
    pub kind: Kind,
    pub from: u32,
    pub to: u32,
    /// Of two operations the one that replies first has the lower rank; those without a reply have [`NEVER`].
    pub rank: u64,
}

/// The rank of an operation without a reply.
pub const NEVER: u64 = 1 << 32;

/// The value after it, if it meets this one.
#[inline(always)]
pub(crate) fn left(op: &Op, value: u32) -> u32
    ensures { result ≡ left_by op.now value }
{
    match op.kind {
        Kind::Write | Kind::Cas | Kind::CasUnless => op.to,
        Kind::Read | Kind::Miss => value,
    }
}

/// Whether it leaves each value as it is.
#[inline(always)]
pub(crate) fn looks(op: &Op) -> bool
    ensures { result ≡ kind_looks op.now.kind }
{
    matches!(op.kind, Kind::Read | Kind::Miss)
}

/// Whether it is a write.
#[inline(always)]
pub(crate) fn writes(op: &Op) -> bool
    ensures { result ≡ kind_writes op.now.kind }
{
    matches!(op.kind, Kind::Write)
}

/// Whether it may meet each value but `from`.
#[inline(always)]
pub(crate) fn misses(op: &Op) -> bool
    ensures { result ≡ kind_misses op.now.kind }
{
    matches!(op.kind, Kind::CasUnless | Kind::Miss)
}

/// Whether it may meet this value.
#[inline(always)]
pub(crate) fn suits(op: &Op, value: u32) -> bool
    ensures { result ≡ fits op.now value }
{
    match op.kind {
        Kind::Write => true,
        Kind::Read | Kind::Cas => value == op.from,
        Kind::CasUnless | Kind::Miss => value != op.from,
    }
}

/// Whether both take effect at the same values, and leave the same.
#[inline(always)]
pub(crate) fn is_alike(one: &Op, other: &Op) -> bool
    ensures same { IsTrue result → (v : ℕ)
        → (fits one.now v ≡ fits other.now v) × (left_by one.now v ≡ left_by other.now v) }
    ensures kinds { IsTrue result → kind_writes one.now.kind ≡ kind_writes other.now.kind }
{
    one.to == other.to
        && match (one.kind, other.kind) {
            (Kind::Write, Kind::Write) => true,
            (Kind::Cas, Kind::Cas) => one.from == other.from,
            (Kind::CasUnless, Kind::CasUnless) => one.from == other.from,
            _ => false,
        }
}
