//! Whether a register is atomic, with its order or its fault.
ghost use Rattle.std.specs.Prelude.{◌≡◌, ◌<◌, length, IfOk};
ghost use Rattle.history_model.specs.Operations.{register_of};
ghost use Rattle.reg_report.specs.Pieces.Judged.{IsJudged, no_judgement};

use crate::pieces::order::Order;
use history_model::RegId;
use reg_arena::Arena;
use reg_zones::{Fault, order_or_fault};
use std::alloc::{AllocError, Global};

/// Whether a register is atomic.
#[derive(Drop)]
pub enum Judgement {
    /// The canonical order of a register that is atomic.
    Order(Order),
    /// The fault of one that isn't.
    Faulty(Fault),
}

impl Judgement {
    /// The order of no operations, which stands where no judgement is.
    pub(crate) fn none(alloc: Global) -> Judgement
        ensures { result ≡ no_judgement }
    {
        Judgement::Order(Order::new(Vec::new(alloc)))
    }
}

/// The canonical order of a register that is atomic, or else its fault.
///
/// # Errors
/// Out of memory; the arena is as before.
pub fn judge(alloc: Global, arena: &Arena, register: RegId) -> Result<Judgement, AllocError>
    requires { register.0 < length arena.now.names }
    ensures { IfOk result (IsJudged (register_of arena.now register.0)) }
{
    match order_or_fault(alloc, arena, register)? {
        Ok(order) => Ok(Judgement::Order(Order::new(order))),
        Err(fault) => Ok(Judgement::Faulty(fault)),
    }
}
