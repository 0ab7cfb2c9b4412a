//! The open calls: each has a slot, and keeps it until its reply.
ghost use Rattle.std.specs.Prelude.{◌≡◌, ◌<◌, ◌≤◌, ◌*◌, ◌^◌, [], IfOk, IsTrue};
ghost use Rattle.std.specs.Prelude.{MatchOption, get_or, slice_get};
ghost use Rattle.std.specs.Prelude.{true, false, ℕ};
ghost use Rattle.configurations.specs.Ops.{fits_at, left_at};
ghost use Rattle.configurations.specs.Tables.{IsGiven, IsReleased, IsTable, IsBefore, IsWithin, call_at};
ghost use Rattle.configurations.specs.Use.{AreAlike};
ghost use Rattle.slot_sets.specs.Sets.{has};

use crate::op::{NEVER, Op, is_alike, left, looks, misses, writes};
use slot_sets::Slots;
use std::alloc::{AllocError, Global};
use std::collections::BTreeMap;

/// The cost of letting a write that never replies take effect; a call that must still take effect counts 1.
pub(crate) const WRITE_COST: u32 = 12;

/// The cost of letting a cas from a value take effect that never replies.
const CAS_COST: u32 = 8;

/// No call.
const NO_CALL: usize = usize::MAX;

/// No slot.
pub(crate) const NO_SLOT: u32 = 0xffff_ffff;

/// The operations, the slots of the open calls, and which of them have which kind of call.
#[derive(Drop)]
pub(crate) struct Table<const W: usize> {
    pub ops: Vec<Op>,
    /// By slot, the number of its call.
    pub calls: Vec<u32>,
    /// By call, its slot.
    pub slot_of: Vec<u32>,
    pub used: Slots<W>,
    /// The slots of reads and misses.
    pub looks: Slots<W>,
    pub writes: Slots<W>,
    /// The slots of calls that may meet each value but one.
    pub misses: Slots<W>,
    /// The slots of calls that never reply. Nothing rests on them.
    pub unanswered: Slots<W>,
    /// By value, the slots of the calls whose `from` it is.
    pub asks: Vec<Slots<W>>,
    /// By call, the last one before it that changes alike, if neither replies. Nothing rests on them.
    pub elders: Vec<usize>,
    /// By slot, that of the elder of its call.
    elder_slots: Vec<u32>,
}

impl<const W: usize> Table<W> {
    /// No open calls.
    pub(crate) fn new(alloc: Global, ops: &[Op], values: usize) -> Result<Self, AllocError>
        requires room { 64 * W < 2 ^ 32 }
        ensures table { IfOk result (λ t. IsTable t) }
        ensures none { IfOk result (λ t. (q : ℕ) → has t.used q ≡ false) }
        ensures ops { IfOk result (λ t. t.ops.items ≡ ops.now) }
    {
        Ok(Table {
            ops: Vec::from_slice(alloc, ops)?,
            calls: vec![in alloc; 0; 64 * W]?,
            slot_of: vec![in alloc; NO_SLOT; ops.len()]?,
            used: Slots::none(),
            looks: Slots::none(),
            writes: Slots::none(),
            misses: Slots::none(),
            unanswered: Slots::none(),
            asks: nothing_asked(alloc, values)?,
            elders: elders(alloc, ops)?,
            elder_slots: vec![in alloc; NO_SLOT; 64 * W]?,
        })
    }

    /// No open calls. Nothing rests on `slot_of` but that a call has had no slot to which one is given, and
    /// nothing on `elders`.
    pub(crate) fn over(
        alloc: Global,
        ops: Vec<Op>,
        slot_of: Vec<u32>,
        elders: Vec<usize>,
        values: usize,
    ) -> Result<Self, AllocError>
        requires room { 64 * W < 2 ^ 32 }
        ensures { IfOk result (λ t. IsTable t) }
    {
        Ok(Table {
            ops,
            calls: vec![in alloc; 0; 64 * W]?,
            slot_of,
            used: Slots::none(),
            looks: Slots::none(),
            writes: Slots::none(),
            misses: Slots::none(),
            unanswered: Slots::none(),
            asks: nothing_asked(alloc, values)?,
            elders,
            elder_slots: vec![in alloc; NO_SLOT; 64 * W]?,
        })
    }

    /// The slots of the calls that may meet this value.
    #[inline(always)]
    pub(crate) fn fitting(&self, value: u32) -> Slots<W>
        requires { IsTable self.now }
        ensures { (q : ℕ) → has self.now.used q ≡ true
            → has result q ≡ fits_at self.now.ops.items (call_at self.now q) value }
    {
        self.asked(value).either(&self.misses).union(&self.writes)
    }

    /// The slot of a call, if it has one.
    pub(crate) fn slot_of(&self, number: u32) -> Option<u32>
        requires { IsTable self.now }
        ensures { MatchOption result ((q : ℕ) → has self.now.used q ≡ true → call_at self.now q ≡ number → ⊥)
            (λ slot. (has self.now.used slot ≡ true) × (call_at self.now slot ≡ number)) }
    {
        let slot = *self.slot_of.get(number as usize)?;
        if self.used.has(slot) && self.call(slot) == number {
            Some(slot)
        } else {
            None
        }
    }

    /// The number of the call of a slot.
    #[inline(always)]
    pub(crate) fn call(&self, slot: u32) -> u32
        ensures { result ≡ call_at self.now slot }
    {
        match self.calls.get(slot as usize) {
            Some(number) => *number,
            None => 0,
        }
    }

    /// The operation of a number.
    #[inline(always)]
    pub(crate) fn op_of(&self, number: u32) -> Option<Op>
        ensures { result ≡ slice_get self.now.ops.items number }
    {
        self.ops.get(number as usize).copied()
    }

    /// The operation of the call of a slot.
    #[inline(always)]
    fn op(&self, slot: u32) -> Option<Op>
        ensures { result ≡ slice_get self.now.ops.items (call_at self.now slot) }
    {
        self.op_of(self.call(slot))
    }

    /// The value after the call of a slot, if it meets this one.
    #[inline(always)]
    pub(crate) fn left(&self, slot: u32, value: u32) -> u32
        ensures { result ≡ left_at self.now.ops.items (call_at self.now slot) value }
    {
        match self.op(slot) {
            Some(op) => left(&op, value),
            None => value,
        }
    }

    /// What it costs in all once the call of a slot has taken effect, too: more if it never replies, and most
    /// if it may serve at any value later, or at any but one.
    #[inline(always)]
    pub(crate) fn cost_with(&self, slot: u32, cost: u32) -> u32 {
        if !self.unanswered.has(slot) {
            return cost;
        }
        cost.saturating_add(if self.writes.has(slot) || self.misses.has(slot) {
            WRITE_COST
        } else {
            CAS_COST
        })
    }

    /// For a call that never replies, the slot of the last one before it that changes alike and doesn't
    /// reply either.
    #[inline(always)]
    pub(crate) fn elder(&self, slot: u32) -> Option<u32> {
        self.elder_slots.get(slot as usize).copied()
    }

    /// The slots of the calls whose `from` is this value.
    #[inline(always)]
    pub(crate) fn asked(&self, value: u32) -> Slots<W>
        requires { IsTable self.now }
        ensures { (q : ℕ) → has result q ≡ has (get_or self.now.asks.items value []) q }
    {
        let place = value as usize;
        if place < self.asks.len() {
            self.asks[place]
        } else {
            Slots::none()
        }
    }

    /// Slots whose calls have the same `from` as that of a slot, all that change alike among them.
    #[inline(always)]
    pub(crate) fn alike(&self, slot: u32) -> Slots<W>
        requires { IsTable self.now }
        ensures { IsWithin (has result) (has self.now.used) }
    {
        match self.op(slot) {
            Some(op) => self.asked(op.from),
            None => Slots::none(),
        }
    }

    /// Whether the call of the first slot changes as that of the second does, and replies
    /// sooner. Of calls that never reply, the earlier one goes first, so that those of one kind
    /// that took effect differ in their number alone.
    #[inline(always)]
    pub(crate) fn goes_before(&self, first: u32, second: u32) -> bool
        ensures { IsTrue result
            → AreAlike self.now.ops.items (call_at self.now first) (call_at self.now second)
            × IsBefore self.now first second }
    {
        let (Some(one), Some(other)) = (self.op(first), self.op(second)) else {
            return false;
        };
        is_alike(&one, &other)
            && (one.rank < other.rank
                || (one.rank == other.rank && self.call(first) < self.call(second)))
    }

    /// Gives a slot to a call that has had none, if one is left.
    pub(crate) fn give(&mut self, number: u32) -> Option<u32>
        requires { IsTable self.old }
        ensures { MatchOption result (Unit {0})
            (λ slot. IsTable self.new × IsGiven self.old self.new slot number) }
    {
        let (Some(op), Some(slot)) = (self.op_of(number), self.used.first_missing()) else {
            return None;
        };
        let call = number as usize;
        let place = slot as usize;
        let from = op.from as usize;
        if place >= self.calls.len() || from >= self.asks.len() || call >= self.slot_of.len() {
            return None;
        }
        if self.slot_of[call] != NO_SLOT {
            return None;
        }
        self.calls[place] = number;
        self.slot_of[call] = slot;
        self.used.insert(slot);
        mark(&mut self.looks, slot, looks(&op));
        mark(&mut self.writes, slot, writes(&op));
        mark(&mut self.misses, slot, misses(&op));
        mark(&mut self.unanswered, slot, op.rank >= NEVER);
        self.asks[from].insert(slot);
        note_elder(
            &mut self.elder_slots,
            place,
            &self.elders,
            &self.slot_of,
            call,
        );
        Some(slot)
    }

    /// Takes a slot back.
    pub(crate) fn release(&mut self, slot: u32)
        requires table { IsTable self.old }
        requires slot { has self.old.used slot ≡ true }
        ensures table { IsTable self.new }
        ensures released { IsReleased self.old self.new slot }
    {
        let Some(op) = self.op(slot) else {
            return;
        };
        let from = op.from as usize;
        self.used.remove(slot);
        if from < self.asks.len() {
            self.asks[from].remove(slot);
        }
    }
}

/// Notes the slot of the elder of a call at its own slot.
fn note_elder(
    elder_slots: &mut [u32],
    slot: usize,
    elders: &[usize],
    slot_of: &[u32],
    call: usize,
) {
    let elder = elders.get(call).and_then(|elder| slot_of.get(*elder));
    if let Some(place) = elder_slots.get_mut(slot) {
        *place = elder.copied().unwrap_or(NO_SLOT);
    }
}

/// For each call the last one before it that changes alike, if neither replies.
pub(crate) fn elders(alloc: Global, ops: &[Op]) -> Result<Vec<usize>, AllocError> {
    let mut elders = Vec::new(alloc);
    let mut last = BTreeMap::new(alloc);
    for (place, op) in ops.iter().enumerate() {
        let elder = if op.rank < NEVER {
            None
        } else {
            last.insert((writes(op), misses(op), op.from, op.to), place)?
        };
        elders.push(elder.unwrap_or(NO_CALL))?;
    }
    Ok(elders)
}

/// For each value, the empty set: no slot asks for it.
fn nothing_asked<const W: usize>(alloc: Global, values: usize) -> Result<Vec<Slots<W>>, AllocError>
    requires room { 64 * W < 2 ^ 32 }
    ensures { IfOk result (λ asks. (v q : ℕ) → has (get_or asks.items v []) q ≡ false) }
{
    let mut asks = Vec::new(alloc);
    for _ in 0..values {
        asks.push(Slots::none())?;
    }
    Ok(asks)
}

/// Puts a slot in or takes it out.
#[inline(always)]
fn mark<const W: usize>(slots: &mut Slots<W>, slot: u32, on: bool)
    ensures others { (q : ℕ) → (q ≡ slot → ⊥) → has slots.new q ≡ has slots.old q }
    ensures same { slot < 64 * W → has slots.new slot ≡ on }
{
    if on {
        slots.insert(slot);
    } else {
        slots.remove(slot);
    }
}
