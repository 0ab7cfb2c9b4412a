//! What the counts tell of guarantees: laws over the definitions alone. Each is the contract of a function
//! that does nothing.
ghost use Rattle.std.specs.Prelude.{◌≡◌, ◌↔◌, List};
ghost use Rattle.history_model.specs.Lamport.{HasSingleWriter};
ghost use Rattle.history_model.specs.Legal.{HasOrderFor};
ghost use Rattle.history_model.specs.Operations.{IsHistory};
ghost use Rattle.history_model.specs.declared.guarantee.Guarantee.TheVariants.{Atomic, Session, OwnWrites};
ghost use Rattle.history_model.specs.declared.guarantee.Guarantee.TheVariants.{Monotonic};
ghost use Rattle.history_model.specs.declared.operation.Operation.{Operation};
ghost use Rattle.reg_zones.specs.Inversions.{IsRegular};
ghost use Rattle.reg_levels.specs.Clusters.Clean.{IsClean};
ghost use Rattle.reg_levels.specs.Counts.Measured.{IsMeasured};
ghost use Rattle.reg_levels.specs.Counts.Staleness.{IsBack, IsInverted, IsLost, IsOwnMissed};
ghost use Rattle.reg_levels.specs.Counts.Staleness.{IsRegularForAll, IsStale};
ghost use Rattle.reg_levels.specs.declared.counts.measure.Staleness.{Staleness as AStaleness};

use history_model::single_writer_takes_turns;

/// A count is zero exactly if there is nothing of its kind. So a clean register is regular exactly if its
/// count of stale reads is zero.
pub fn counts_tell()
    ensures stale { (ops : List Operation) (m : AStaleness) → IsMeasured ops m
        → ((m.counts.stale ≡ 0) ↔ ((r : Operation) → IsStale ops r → ⊥)) }
    ensures own { (ops : List Operation) (m : AStaleness) → IsMeasured ops m
        → ((m.counts.own ≡ 0) ↔ ((r : Operation) → IsOwnMissed ops r → ⊥)) }
    ensures back { (ops : List Operation) (m : AStaleness) → IsMeasured ops m
        → ((m.counts.back ≡ 0) ↔ ((r : Operation) → IsBack ops r → ⊥)) }
    ensures inverted { (ops : List Operation) (m : AStaleness) → IsMeasured ops m
        → ((m.counts.inverted ≡ 0) ↔ ((r : Operation) → IsInverted ops r → ⊥)) }
    ensures lost { (ops : List Operation) (m : AStaleness) → IsMeasured ops m
        → ((m.counts.lost ≡ 0) ↔ ((w : Operation) → IsLost ops w → ⊥)) }
    ensures regular { (ops : List Operation) (m : AStaleness) → IsMeasured ops m → IsClean ops
        → ((m.counts.stale ≡ 0) ↔ IsRegularForAll ops) }
{}

/// A register that gives a guarantee has none of the old reads that it forbids.
pub fn guarantees_forbid_old_reads()
    ensures stale { (ops : List Operation) → IsHistory ops → HasOrderFor Atomic ops
        → (r : Operation) → IsStale ops r → ⊥ }
    ensures inverted { (ops : List Operation) → IsHistory ops → HasOrderFor Atomic ops
        → (r : Operation) → IsInverted ops r → ⊥ }
    ensures own { (ops : List Operation) → IsHistory ops → HasOrderFor OwnWrites ops
        → (r : Operation) → IsOwnMissed ops r → ⊥ }
    ensures back { (ops : List Operation) → IsHistory ops → HasOrderFor Monotonic ops
        → (r : Operation) → IsBack ops r → ⊥ }
    ensures regular { (ops : List Operation) → IsHistory ops → HasOrderFor Atomic ops
        → IsRegularForAll ops }
{}

/// With a single writer, regular is what Lamport calls so (On Interprocess Communication, Part II, 1986),
/// and a register gives a guarantee exactly if it is clean and has none of the old reads that it forbids.
pub fn one_writer_decides()
    ensures regular { (ops : List Operation) → IsHistory ops → HasSingleWriter ops
        → (IsRegularForAll ops ↔ IsRegular ops) }
    ensures atomic { (ops : List Operation) → IsHistory ops → HasSingleWriter ops
        → (HasOrderFor Atomic ops ↔ (IsRegularForAll ops × ((r : Operation) → IsInverted ops r → ⊥))) }
    ensures own_writes { (ops : List Operation) → IsHistory ops → HasSingleWriter ops
        → (HasOrderFor OwnWrites ops ↔ (IsClean ops × ((r : Operation) → IsOwnMissed ops r → ⊥))) }
    ensures monotonic { (ops : List Operation) → IsHistory ops → HasSingleWriter ops
        → (HasOrderFor Monotonic ops ↔ (IsClean ops × ((r : Operation) → IsBack ops r → ⊥))) }
    ensures session { (ops : List Operation) → IsHistory ops → HasSingleWriter ops
        → (HasOrderFor Session ops ↔ (IsClean ops × ((r : Operation) → IsOwnMissed ops r → ⊥)
        × ((r : Operation) → IsBack ops r → ⊥))) }
{
    single_writer_takes_turns()
}
