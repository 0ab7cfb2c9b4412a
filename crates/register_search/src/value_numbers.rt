//! Integers, each with a number, in the order in which they came. Mostly they come in ascending order, and
//! are asked for soon after.
ghost use Rattle.std.specs.Prelude.{◌≡◌, ◌+◌, ◌∷◌, ◌++◌, [], ℕ, ℤ, None, Some, IfOk, IfSome};
ghost use Rattle.std.specs.Prelude.{IsTrue, true, false, if◌then◌else◌};
ghost use Rattle.std.specs.BTreeMap.{is_at};
ghost use Rattle.std.specs.List.Sorted.{IsStrictlySortedBy};
ghost use Rattle.std.specs.Map.{keys_of, lookup};
ghost use Rattle.std.specs.Ordering.{int_cmp, int_eq};
ghost use Rattle.std.proofs.Props.{props};

use std::alloc::{AllocError, Global};
use std::collections::BTreeMap;

/// Integers with their numbers.
#[derive(Drop)]
pub(crate) struct ValueNumbers {
    /// Those that were above all before them.
    ascending: Vec<(i64, u32)>,
    others: BTreeMap<i64, u32>,
    /// The number of the next one.
    next: u32,
    ghost ascends: { IsStrictlySortedBy int_cmp (keys_of ascending.items) } by { Prim.hlevel props },
}

impl ValueNumbers {
    ghost use Rattle.register_search.specs.ValueNumbers.{has_number, number_at};

    /// No integers yet; the first is to have this number.
    pub(crate) fn new(alloc: Global, first: u32) -> Self
        ensures none { (q : ℤ) → number_at result q ≡ None }
        ensures next { result.next ≡ first }
    {
        ValueNumbers {
            ascending: Vec::new(alloc),
            others: BTreeMap::new(alloc),
            next: first,
        }
    }

    /// The number of the next one.
    pub(crate) fn next(&self) -> u32
        ensures { result ≡ self.now.next }
    {
        self.next
    }

    /// The number of an integer.
    pub(crate) fn find(&self, value: i64) -> Option<u32>
        ensures { result ≡ number_at self.now value }
    {
        match found_in(&self.ascending, value) {
            Some(number) => Some(number),
            None => self.others.get(&value).copied(),
        }
    }

    /// Whether an integer has a number.
    pub(crate) fn contains(&self, value: i64) -> bool
        ensures { result ≡ has_number self.now value }
    {
        self.find(value).is_some()
    }

    /// Gives an integer the next number, unless it has one. Says whether it had none.
    pub(crate) fn insert(&mut self, value: i64) -> Result<bool, AllocError>
        ensures new { IfOk result (λ is. IsTrue is → has_number self.old value ≡ false) }
        ensures all { IfOk result (λ _. (q : ℤ)
            → has_number self.new q ≡ (if int_eq value q then true else has_number self.old q)) }
    {
        match self.find(value) {
            Some(_) => Ok(false),
            None => {
                self.add(value)?;
                Ok(true)
            }
        }
    }

    /// Gives an integer that has no number the next one. A history has too few events for more than fit.
    pub(crate) fn add(&mut self, value: i64) -> Result<u32, AllocError>
        requires { number_at self.old value ≡ None }
        ensures number { IfOk result (λ number. number ≡ self.old.next) }
        ensures next { IfOk result (λ _. self.new.next ≡ self.old.next + 1) }
        ensures all { IfOk result (λ number. (q : ℤ)
            → number_at self.new q ≡ (if int_eq value q then Some number else number_at self.old q)) }
    {
        let number = self.next;
        let Some(next) = number.checked_add(1) else {
            return Err(AllocError);
        };
        self.next = next;
        if is_above(&self.ascending, value) {
            self.ascending.push((value, number))?;
            return Ok(number);
        }
        self.others.insert(value, number)?;
        Ok(number)
    }
}

/// Whether an integer is above all of these, which ascend.
fn is_above(ascending: &[(i64, u32)], value: i64) -> bool
    requires { IsStrictlySortedBy int_cmp (keys_of ascending.now) }
    ensures { IsTrue result → (n : ℕ)
        → IsStrictlySortedBy int_cmp (keys_of (ascending.now ++ ((value, n) ∷ []))) }
{
    match ascending.last() {
        Some(last) => last.0 < value,
        None => true,
    }
}

/// The number of an integer among these, which ascend.
fn found_in(ascending: &[(i64, u32)], value: i64) -> Option<u32>
    requires { IsStrictlySortedBy int_cmp (keys_of ascending.now) }
    ensures { result ≡ lookup (is_at (int_cmp value)) ascending.now }
{
    if is_above(ascending, value) {
        return None;
    }
    match found_at(ascending, likely_place(ascending, value), value) {
        Some(number) => Some(number),
        None => found_by_halves(ascending, value),
    }
}

/// Where an integer is among these if each is one more than the one before.
fn likely_place(ascending: &[(i64, u32)], value: i64) -> usize {
    match ascending.last() {
        Some(last) => (ascending.len() - 1).saturating_sub(last.0.abs_diff(value) as usize),
        None => 0,
    }
}

/// The number of an integer, if that is at this place.
fn found_at(ascending: &[(i64, u32)], place: usize, value: i64) -> Option<u32>
    requires { IsStrictlySortedBy int_cmp (keys_of ascending.now) }
    ensures { IfSome result (λ number. lookup (is_at (int_cmp value)) ascending.now ≡ Some number) }
{
    match ascending.get(place) {
        Some(one) => { if one.0 == value { Some(one.1) } else { None } }
        None => None,
    }
}

/// The number of an integer, by halving these.
fn found_by_halves(ascending: &[(i64, u32)], value: i64) -> Option<u32>
    requires { IsStrictlySortedBy int_cmp (keys_of ascending.now) }
    ensures { result ≡ lookup (is_at (int_cmp value)) ascending.now }
{
    match ascending.binary_search_by_key(&value, |one| one.0) {
        Ok(place) => Some(ascending[place].1),
        Err(_) => None,
    }
}
