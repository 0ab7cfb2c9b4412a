//! Why clusters and zones decide: laws over the definitions alone. Each is the
//! contract of a function that does nothing.
ghost use Rattle.std.specs.Prelude.{◌≡◌, ◌↔◌, ◌≤◌, ◌<◌, List, None, Some};
ghost use Rattle.history_model.specs.Lists.{In, Before};
ghost use Rattle.history_model.specs.Operations.{IsHistory, value_of};
ghost use Rattle.history_model.specs.declared.operation.Operation.{Operation};
ghost use Rattle.history_model.specs.Lamport.{HasSingleWriter};
ghost use Rattle.history_model.specs.Legal.{IsLegal, IsAtomic};
ghost use Rattle.history_model.specs.Naming.{name_of};
ghost use Rattle.reg_zones.specs.Clusters.{low_end, IsConflict, IsClearBelow, IsLastForward, IsFirstConflict};
ghost use Rattle.reg_zones.specs.Faults.{IsFault, HasNoFault};
ghost use Rattle.reg_zones.specs.Inversions.{IsInversion, IsRegular, HasInversion, inversion_named};
ghost use Rattle.reg_zones.specs.Order.{IsListed, IsSooner, IsCanonical};
ghost use Rattle.history_model.specs.Placed.{PlacedOperation};
ghost use Rattle.reg_zones.specs.Order.{IsOrder};
ghost use Rattle.history_model.specs.Placed.{placed, IsWithinLife};
ghost use Rattle.reg_zones.specs.declared.fault.Fault.{Fault};
ghost use Rattle.reg_zones.specs.declared.placed.Placed.{Placed};

use history_model::single_writer_takes_turns;

/// A register with a fault has no legal order, whichever pending operations are completed.
pub fn fault_means_no_order()
    ensures { (ops order : List Operation) (fault : Fault) → IsHistory ops → IsFault ops fault
        → IsLegal ops order → ⊥ }
{}

/// Without a fault the canonical order is a legal order of the completion that it lists.
pub fn canonical_is_legal()
    ensures { (ops order : List Operation) → IsHistory ops → HasNoFault ops → IsCanonical ops order
        → IsLegal ops order }
{}

/// A register is atomic exactly if it has no fault.
pub fn zones_decide()
    ensures { (ops : List Operation) → IsHistory ops → (IsAtomic ops ↔ HasNoFault ops) }
{}

/// In a legal order each point lies at or after its operation's call
/// and before its reply, and no point falls.
pub fn points_fit()
    ensures within { (ops order : List Operation) → IsHistory ops → IsLegal ops order
        → (x : PlacedOperation) → In x (placed order) → IsWithinLife x }
    ensures rising { (order : List Operation) (x y : PlacedOperation) → Before x y (placed order)
        → x.point ≤ y.point }
{}

/// The first zone by low ends that conflicts with an earlier one conflicts with
/// exactly one earlier zone: the last forward one.
pub fn last_forward_decides()
    ensures forward { (ops : List Operation) (v w : Operation) → IsConflict ops v w
        → low_end ops (value_of v) < low_end ops (value_of w)
        → IsClearBelow ops (low_end ops (value_of w)) → IsLastForward ops v (low_end ops (value_of w)) }
    ensures one { (ops : List Operation) (v w v' w' : Operation) → IsHistory ops
        → IsFirstConflict ops v w → IsFirstConflict ops v' w' → (v ≡ v') × (w ≡ w') }
{}

/// A register has one fault at most.
pub fn one_fault()
    ensures { (ops : List Operation) (fault other : Fault) → IsHistory ops → IsFault ops fault
        → IsFault ops other → fault ≡ other }
{}

/// There is one canonical order, with one point for each of its operations.
pub fn one_order()
    ensures canonical { (ops xs ys : List Operation) → IsCanonical ops xs → IsCanonical ops ys → xs ≡ ys }
    ensures answer { (ops : List Operation) (xs ys : List Placed) → IsOrder ops xs → IsOrder ops ys
        → xs ≡ ys }
{}

/// The initial write comes first, in the canonical order and in each legal one.
pub fn initial_write_is_first()
    ensures canonical { (ops : List Operation) → IsHistory ops → (i : Operation) → In i ops → i.process ≡ None
        → (a : Operation) → IsListed ops a → (a ≡ i → ⊥) → IsSooner ops i a }
    ensures legal { (ops order : List Operation) → IsHistory ops → IsLegal ops order → (i : Operation)
        → In i ops → i.process ≡ None
        → (a : Operation) → In a order → (a ≡ i → ⊥) → Before i a order }
{}

/// With a single writer a register is atomic exactly if it is regular and has no new-old
/// inversion (Lamport, On Interprocess Communication, Part II, 1986); the fault of one that is
/// regular is a conflict that names an inversion.
pub fn inversions_decide()
    ensures atomic { (ops : List Operation) → IsHistory ops → HasSingleWriter ops
        → (IsAtomic ops ↔ (IsRegular ops × (HasInversion ops → ⊥))) }
    ensures fault { (ops : List Operation) (fault : Fault) → IsHistory ops → HasSingleWriter ops
        → IsRegular ops → IsFault ops fault
        → (r : Operation) × (s : Operation) × IsInversion ops r s
        × (inversion_named fault ≡ Some (name_of r, name_of s)) }
{
    single_writer_takes_turns()
}
