//! A set of slots.
ghost use Rattle.std.specs.Prelude.{◌≡◌, ◌↔◌, ◌&&◌, ◌||◌, ◌==◌, ◌*◌, ◌<◌, ◌≤◌, ◌^◌, ◌+◌};
ghost use Rattle.std.specs.Prelude.{IsTrue, List, MatchOption, cond, not, true, false, ℕ};
ghost use Rattle.slot_sets.specs.Sets.{has};

use std::marker::Model;

/// A set of slots below `64 * W`.
#[derive(Clone, Copy)]
pub struct Slots<const W: usize> {
    words: [u64; W],
}

// Contracts see the words, and ask by `has` alone whether they have a slot. Each slot is a `u32`.
impl<const W: usize> Model for Slots<W> {
    ghost Value = { List ℕ };

    ghost view = { λ s. s.words };

    ghost invariant = { λ _. 64 * W < 2 ^ 32 };

    ghost inverse = { λ words. record { words = words } };
}

impl<const W: usize> Slots<W> {
    /// The empty set. A slot is a `u32`, so `W` is at most `2 ^ 26`.
    #[inline(always)]
    pub fn none() -> Self
        requires room { 64 * W < 2 ^ 32 }
        ensures { (q : ℕ) → has result q ≡ false }
    {
        Slots { words: [0; W] }
    }

    /// Whether the slot is in the set.
    #[inline(always)]
    pub fn has(&self, slot: u32) -> bool
        ensures { result ≡ has self.now slot }
    {
        let at = (slot / 64) as usize;
        at < W && (self.words[at] >> (slot % 64)) & 1 == 1
    }

    /// Puts a slot in; one past the set's room stays out.
    #[inline(always)]
    pub fn insert(&mut self, slot: u32)
        ensures others { (q : ℕ) → (q ≡ slot → ⊥) → has self.new q ≡ has self.old q }
        ensures same { slot < 64 * W → has self.new slot ≡ true }
    {
        let at = (slot / 64) as usize;
        if at < W {
            self.words[at] |= 1 << (slot % 64);
        }
    }

    /// Takes a slot out.
    #[inline(always)]
    pub fn remove(&mut self, slot: u32)
        ensures others { (q : ℕ) → (q ≡ slot → ⊥) → has self.new q ≡ has self.old q }
        ensures same { has self.new slot ≡ false }
    {
        let at = (slot / 64) as usize;
        if at < W {
            self.words[at] &= !(1 << (slot % 64));
        }
    }

    /// The slots of one of the two, or of both.
    #[inline(always)]
    pub fn union(&self, other: &Self) -> Self
        ensures { (q : ℕ) → has result q ≡ (has self.now q || has other.now q) }
    {
        let mut words = self.words;
        for at in 0..W {
            words[at] |= other.words[at];
        }
        Slots { words }
    }

    /// The slots of both.
    #[inline(always)]
    pub fn common(&self, other: &Self) -> Self
        ensures { (q : ℕ) → has result q ≡ (has self.now q && has other.now q) }
    {
        let mut words = self.words;
        for at in 0..W {
            words[at] &= other.words[at];
        }
        Slots { words }
    }

    /// The slots that the other hasn't.
    #[inline(always)]
    pub fn minus(&self, other: &Self) -> Self
        ensures { (q : ℕ) → has result q ≡ (has self.now q && not (has other.now q)) }
    {
        let mut words = self.words;
        for at in 0..W {
            words[at] &= !other.words[at];
        }
        Slots { words }
    }

    /// The slots of one of the two, but not of both.
    #[inline(always)]
    pub fn either(&self, other: &Self) -> Self
        ensures { (q : ℕ) → has result q ≡ cond (has other.now q) (not (has self.now q)) (has self.now q) }
    {
        let mut words = self.words;
        for at in 0..W {
            words[at] ^= other.words[at];
        }
        Slots { words }
    }

    /// Whether the other has each slot of this one.
    #[inline(always)]
    pub fn is_within(&self, other: &Self) -> bool
        ensures { IsTrue result ↔ ((q : ℕ) → has self.now q ≡ true → has other.now q ≡ true) }
    {
        for at in 0..W {
            if self.words[at] & !other.words[at] != 0 {
                return false;
            }
        }
        true
    }

    /// Whether the two have a slot in common.
    #[inline(always)]
    pub fn meets(&self, other: &Self) -> bool
        ensures no { result ≡ false → (q : ℕ) → has self.now q ≡ true → has other.now q ≡ false }
        ensures yes { IsTrue result → (q : ℕ) × (has self.now q ≡ true) × (has other.now q ≡ true) }
    {
        for at in 0..W {
            if self.words[at] & other.words[at] != 0 {
                return true;
            }
        }
        false
    }

    /// The least slot of the set that isn't below `from`.
    #[inline(always)]
    pub fn first_from(&self, from: u32) -> Option<u32>
        ensures { MatchOption result ((q : ℕ) → from ≤ q → has self.now q ≡ false)
            (λ slot. (from ≤ slot) × (slot < 64 * W) × (slot + 1 < 2 ^ 32) × (has self.now slot ≡ true)
            × ((q : ℕ) → from ≤ q → q < slot → has self.now q ≡ false)) }
    {
        let words = &self.words;
        let mut at = (from / 64) as usize;
        if at >= W {
            return None;
        }
        let mut word = words[at] & (u64::MAX << (from % 64));
        while word == 0 {
            at += 1;
            if at >= W {
                return None;
            }
            word = words[at];
        }
        Some(at as u32 * 64 + word.trailing_zeros())
    }

    /// How many slots are in the set.
    pub fn count(&self) -> u32 {
        let mut count: u32 = 0;
        for at in 0..W {
            count = count.saturating_add(self.words[at].count_ones());
        }
        count
    }

    /// The least slot below `64 * W` that the set hasn't.
    #[inline(always)]
    pub fn first_missing(&self) -> Option<u32>
        ensures { MatchOption result ((q : ℕ) → q < 64 * W → has self.now q ≡ true)
            (λ slot. (slot < 64 * W) × (has self.now slot ≡ false)
            × ((q : ℕ) → q < slot → has self.now q ≡ true)) }
    {
        for at in 0..W {
            if self.words[at] != u64::MAX {
                return Some(at as u32 * 64 + self.words[at].trailing_ones());
            }
        }
        None
    }
}
