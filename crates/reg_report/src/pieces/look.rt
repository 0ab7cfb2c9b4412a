//! A look at one register, in the search for the first one that isn't atomic.
ghost use Rattle.std.specs.Prelude.{◌≡◌, ◌<◌, length};
ghost use Rattle.history_model.specs.Operations.{register_of};
ghost use Rattle.reg_report.specs.Pieces.Judged.{IsLookedAt, is_faulty};
ghost use Rattle.reg_report.specs.Pieces.Looks.{piece_of};
ghost use Rattle.reg_report.specs.declared.pieces.piece.Piece.TheVariants as piece;

use history_model::RegId;
use reg_arena::Arena;
use reg_zones::{Fault, sweep};

/// What a look at a register finds.
#[derive(Drop)]
pub(crate) enum Look {
    /// It is atomic.
    Clean,
    /// It isn't.
    Faulty(Fault),
    /// A lower register isn't atomic, so this one was passed over.
    Skipped,
}

impl Look {
    /// Whether it finds a fault.
    pub(crate) fn is_faulty(&self) -> bool
        ensures { result ≡ is_faulty (piece_of self.now) }
    {
        matches!(self, Look::Faulty(_))
    }
}

/// Looks at a register. `least` is the lowest number that was seen flagged.
pub(crate) fn look_at(arena: &Arena, register: RegId, least: u64) -> Look
    requires { register.0 < length arena.now.names }
    ensures looked { IsLookedAt (register_of arena.now register.0) (piece_of result) }
    ensures skipped { piece_of result ≡ piece.Skipped → least < register.0 }
{
    if least < u64::from(register.0) {
        return Look::Skipped;
    }
    match sweep(arena, register) {
        Ok(()) => Look::Clean,
        Err(fault) => Look::Faulty(fault),
    }
}
