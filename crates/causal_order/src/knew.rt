//! A search for the operations by which a read knows of a write.
ghost use Rattle.std.specs.Prelude.{IfOk, IfSome, IsTrue, List, OnOk, Option, Some, length, slice_get, suc};
ghost use Rattle.std.specs.Prelude.{◌++◌, ◌∷◌, ◌≡◌, ◌≤◌, ◌<◌, ◌⊎◌, ℕ, []};
ghost use Rattle.causal_order.specs.Ways.{AreMet, IsFound};
ghost use Rattle.causal_order.specs.declared.knew.MetPlace.{MetPlace as AMet};
ghost use Rattle.causal_order.specs.SessionClocks.Clocks.{Asks, IsTableInRange};
ghost use Rattle.causal_order.specs.declared.session_clocks.table.SessionTable.{SessionTable as ATable};

use crate::bounds::MAX_MET;
use crate::session_clocks::SessionTable;
use std::alloc::{AllocError, Global};

/// A place that a search met.
#[derive(Clone, Copy)]
pub(crate) struct MetPlace {
    place: u32,
    /// Where in the list of those that were met the operation stands that learns of this one at once.
    by: u32,
}

/// Searches back from reads, along what each operation learns of at once.
#[derive(Drop)]
pub(crate) struct KnewSearch {
    /// For each place the number of the search that met it last, from 1; 0 if none did.
    stamps: Vec<u32>,
    /// How many searches began.
    searches: u32,
    /// What the last search met, the read first.
    met: Vec<MetPlace>,
    /// How many more places may be met.
    left: u32,
}

impl KnewSearch {
    /// Nothing is searched yet.
    pub(crate) fn new(alloc: Global, table: &SessionTable) -> Result<Self, AllocError>
        ensures { IfOk result
            (λ search. length search.stamps.items ≡ length table.now.previous.items) }
    {
        Ok(KnewSearch {
            stamps: vec![in alloc; 0; table.previous.len()]?,
            searches: 0,
            met: Vec::new(alloc),
            left: MAX_MET,
        })
    }

    /// The places from a write to a read that knows of it, both included, if they are found before too many
    /// are met.
    pub(crate) fn knew(
        &mut self,
        alloc: Global,
        table: &SessionTable,
        write: u32,
        read: u32,
    ) -> Result<Option<Vec<u32>>, AllocError>
        requires range { IsTableInRange table.now }
        requires stamps { length self.old.stamps.items ≡ length table.now.previous.items }
        requires read { read < length table.now.previous.items }
        ensures stamps { length self.new.stamps.items ≡ length self.old.stamps.items }
        ensures found { IfOk result (λ found. IfSome found (λ knew. IsFound table.now write read
            knew.items)) }
    {
        self.begin(read)?;
        for at in 0..table.previous.len() as u32 {
            if at as usize >= self.met.len() || self.left == 0 {
                return Ok(None);
            }
            if self.spread(table, write, at)? {
                let knew = self.way_back(alloc, write, at)?;
                return Ok(Some(knew));
            }
        }
        Ok(None)
    }

    /// Begins a search back from a read.
    fn begin(&mut self, read: u32) -> Result<(), AllocError>
        requires read { read < length self.old.stamps.items }
        ensures stamps { length self.new.stamps.items ≡ length self.old.stamps.items }
        ensures met { OnOk result (self.new.met.items ≡ record { place = read; by = 0 } ∷ []) }
    {
        self.searches = self.searches.saturating_add(1);
        self.met.clear();
        self.left = self.left.saturating_sub(1);
        self.stamps[read as usize] = self.searches;
        self.met.push(MetPlace { place: read, by: 0 })?;
        Ok(())
    }

    /// Meets what the operation that was met as the one at `at` learns of at once, until the write is among
    /// it: then yes.
    fn spread(&mut self, table: &SessionTable, write: u32, at: u32) -> Result<bool, AllocError>
        requires range { IsTableInRange table.now }
        requires stamps { length self.old.stamps.items ≡ length table.now.previous.items }
        requires among { (i : ℕ) (m : AMet) → slice_get self.old.met.items i ≡ Some m
            → m.place < length table.now.previous.items }
        requires within { at < length self.old.met.items }
        ensures stamps { length self.new.stamps.items ≡ length self.old.stamps.items }
        ensures met { IfOk result (λ _. (read : ℕ) → AreMet table.now read self.old.met.items
            → AreMet table.now read self.new.met.items) }
        ensures found { IfOk result (λ b. IsTrue b → (m : AMet)
            → slice_get self.new.met.items at ≡ Some m → Asks table.now m.place write) }
        ensures longer { length self.old.met.items ≤ length self.new.met.items }
    {
        let place = self.met[at as usize].place;
        if self.meet(table.previous[place as usize], write, at)? {
            return Ok(true);
        }
        let found = self.meet(table.sources[place as usize], write, at)?;
        Ok(found)
    }

    /// Notes a place, if it is there and wasn't met before; whether it is the write, which isn't noted.
    fn meet(&mut self, place: Option<u32>, write: u32, by: u32) -> Result<bool, AllocError>
        requires within { (d : ℕ) → place ≡ Some d → d < length self.old.stamps.items }
        ensures stamps { length self.new.stamps.items ≡ length self.old.stamps.items }
        ensures met { IfOk result (λ _. (self.new.met.items ≡ self.old.met.items)
            ⊎ ((d : ℕ) × (place ≡ Some d)
            × (self.new.met.items ≡ self.old.met.items ++ record { place = d; by = by } ∷ []))) }
        ensures found { IfOk result (λ b. IsTrue b → place ≡ Some write) }
        ensures longer { length self.old.met.items ≤ length self.new.met.items }
    {
        let Some(place) = place else {
            return Ok(false);
        };
        if place == write {
            return Ok(true);
        }
        if self.stamps[place as usize] != self.searches && self.left > 0 {
            self.stamps[place as usize] = self.searches;
            self.left -= 1;
            self.met.push(MetPlace { place, by })?;
        }
        Ok(false)
    }

    /// The places from the write to the read with which the search began, by way of the one that was met as
    /// that at `at`.
    fn way_back(&self, alloc: Global, write: u32, at: u32) -> Result<Vec<u32>, AllocError>
        requires within { at < length self.now.met.items }
        requires before { (i : ℕ) (m : AMet) → slice_get self.now.met.items (suc i) ≡ Some m
            → m.by < suc i }
        ensures { (table : ATable) (read : ℕ) (m : AMet) → AreMet table read self.now.met.items
            → slice_get self.now.met.items at ≡ Some m → Asks table m.place write
            → IfOk result (λ knew. IsFound table write read knew.items) }
    {
        let mut knew = vec![in alloc; write]?;
        let mut next = at as usize;
        while next != 0 {
            let met = self.met[next];
            knew.push(met.place)?;
            next = met.by as usize;
        }
        knew.push(self.met[0].place)?;
        Ok(knew)
    }
}
