//! The pairs of a register and a value, each with its number.
//!
//! Values mostly come from a counter, so those of a register mostly ascend. A value above all others of
//! its register is new, and nothing has to be looked up. It is found again along the pairs that ascended
//! to it. Only the other pairs stand in a table.
ghost use Rattle.std.specs.Prelude.{◌≡◌, ◌<◌, ◌^◌, ◌++◌, ◌∷◌, [], ℕ, ℤ, length};
ghost use Rattle.std.specs.Prelude.{position, slice_get, OnOk, Some, None};
ghost use Rattle.reg_arena.specs.Lists.Tables.{IsSetAt, item_at};
ghost use Rattle.reg_arena.specs.Lists.Pairs.{key_eq, ArePairs, IsAscending, IsFitting, in_table, key_of};
ghost use Rattle.reg_arena.specs.declared.event_lists.ascent.Pair.{Pair as APair};

use crate::event_lists::ascent::{Pair, find};
use crate::event_lists::hasher::Seeded;
use crate::event_lists::tables::set_in_table;
use indexmap::IndexMap;
use std::alloc::{AllocError, Global};
use std::marker::Model;

/// Pairs of a register and a value, in the order in which they came. Contracts see them as that list.
#[derive(Drop)]
pub(crate) struct Pairs {
    pairs: Vec<Pair>,
    /// The last of each register's ascending pairs.
    tops: Vec<Option<u32>>,
    /// The numbers of the pairs that don't ascend.
    table: IndexMap<(u32, Option<i64>), u32, Seeded>,
}

impl Model for Pairs {
    ghost use Rattle.std.specs.Prelude.{ℕ, ℤ, List, Option, map};
    ghost use Rattle.reg_arena.specs.Lists.Tables.{item_at};
    ghost use Rattle.reg_arena.specs.Lists.Pairs.{ArePairs, key_of, in_table};

    ghost Value = { List (ℕ × Option ℤ) };

    ghost view = { λ p. map key_of p.pairs.items };

    ghost invariant = { λ p. ArePairs p.pairs.items (item_at p.tops.items) (in_table p.table) };
}

impl Pairs {
    /// No pairs.
    pub(crate) fn new(alloc: Global, hasher: Seeded) -> Self
        ensures { result ≡ [] }
    {
        Pairs {
            pairs: Vec::new(alloc),
            tops: Vec::new(alloc),
            table: IndexMap::with_hasher(alloc, hasher),
        }
    }

    /// Forgets all pairs.
    pub(crate) fn clear(&mut self)
        ensures { self.new ≡ [] }
    {
        self.pairs.clear();
        self.tops.clear();
        self.table.clear();
    }

    /// The number of a pair: its place.
    pub(crate) fn number(&self, register: u32, value: Option<i64>) -> Option<u32>
        ensures { result ≡ position (key_eq (register, value)) self.now }
    {
        if let Some(whole) = value {
            let top = top_of(&self.tops, register)?;
            if self.pairs[top as usize].is_below(whole) {
                return None;
            }
            if let Some(number) = find(&self.pairs, register, whole, top) {
                return Some(number);
            }
        }
        number_in(&self.table, register, value)
    }

    /// Adds a new pair after the others. If memory runs out, all are forgotten.
    pub(crate) fn add(&mut self, register: u32, value: Option<i64>) -> Result<(), AllocError>
        requires new { position (key_eq (register, value)) self.old ≡ None }
        requires room { length self.old < 2 ^ 32 }
        ensures { OnOk result (self.new ≡ self.old ++ (register, value) ∷ []) }
    {
        let pair = fitting(&self.pairs, &self.tops, register, value);
        match enter(&mut self.pairs, &mut self.tops, &mut self.table, pair) {
            Ok(()) => Ok(()),
            Err(error) => {
                self.pairs.clear();
                self.tops.clear();
                self.table.clear();
                Err(error)
            }
        }
    }
}

/// The last of a register's ascending pairs.
fn top_of(tops: &[Option<u32>], register: u32) -> Option<u32>
    ensures { result ≡ item_at tops.now register }
{
    *tops.get(register as usize)?
}

/// The number of a pair that stands in the table.
fn number_in(
    table: &IndexMap<(u32, Option<i64>), u32, Seeded>,
    register: u32,
    value: Option<i64>,
) -> Option<u32>
    ensures { result ≡ in_table table.now (register, value) }
{
    table.get(&(register, value)).copied()
}

/// Keeps the number of a pair in the table.
fn keep_in_table(
    table: &mut IndexMap<(u32, Option<i64>), u32, Seeded>,
    register: u32,
    value: Option<i64>,
    number: u32,
) -> Result<(), AllocError>
    ensures { OnOk result (IsSetAt (register, value) number (in_table table.old) (in_table table.new)) }
{
    table.insert((register, value), number)?;
    Ok(())
}

/// A pair to come next: it ascends if its value is above the last of its register's ascending pairs.
fn fitting(pairs: &[Pair], tops: &[Option<u32>], register: u32, value: Option<i64>) -> Pair
    requires tops { (r t : ℕ) → item_at tops.now r ≡ Some t → (v : ℤ) × IsAscending pairs.now t r v }
    requires room { length pairs.now < 2 ^ 32 }
    ensures key { key_of result ≡ (register, value) }
    ensures fits { IsFitting pairs.now (item_at tops.now) (length pairs.now) result }
{
    let Some(whole) = value else {
        return Pair::apart(register, value);
    };
    let top = top_of(tops, register);
    match top {
        Some(top) if !pairs[top as usize].is_below(whole) => Pair::apart(register, value),
        _ => Pair::ascending(pairs, top, pairs.len() as u32, register, whole),
    }
}

/// Adds a pair after the others, as the last of its register's ascending pairs or to the table.
fn enter(
    pairs: &mut Vec<Pair>,
    tops: &mut Vec<Option<u32>>,
    table: &mut IndexMap<(u32, Option<i64>), u32, Seeded>,
    pair: Pair,
) -> Result<(), AllocError>
    requires pairs { ArePairs pairs.old.items (item_at tops.old.items) (in_table table.old) }
    requires new { (n : ℕ) (p : APair) → slice_get pairs.old.items n ≡ Some p → key_of p ≡ key_of pair → ⊥ }
    requires fits { IsFitting pairs.old.items (item_at tops.old.items) (length pairs.old.items) pair }
    requires room { length pairs.old.items < 2 ^ 32 }
    ensures items { OnOk result (pairs.new.items ≡ pairs.old.items ++ pair ∷ []) }
    ensures pairs { OnOk result (ArePairs pairs.new.items (item_at tops.new.items) (in_table table.new)) }
{
    let number = pairs.len() as u32;
    if pair.depth > 0 {
        set_in_table(tops, pair.register as usize, number)?;
    } else {
        keep_in_table(table, pair.register, pair.value, number)?;
    }
    pairs.push(pair)?;
    Ok(())
}
