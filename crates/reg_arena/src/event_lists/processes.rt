//! The ends of the processes' lists: those of small numbers stand in a table, and the others in a map.
ghost use Rattle.std.specs.Prelude.{◌≡◌, ◌<◌, ◌^◌, ℕ, None, OnOk};
ghost use Rattle.reg_arena.specs.Lists.EventLists.{process_ends};
ghost use Rattle.reg_arena.specs.Lists.Tables.{IsSetAt, item_at};

use crate::event_lists::hasher::Seeded;
use crate::event_lists::list_ends::Ends;
use crate::event_lists::tables::set_in_table;
use indexmap::IndexMap;
use std::alloc::{AllocError, Global};

/// The first and the last event of each process that has events.
#[derive(Drop)]
pub(crate) struct Processes {
    /// Process numbers below it stand in the table, which reaches as
    /// far as the greatest of them that was met.
    table_limit: usize,
    table: Vec<Option<Ends>>,
    others: IndexMap<u32, Ends, Seeded>,
}

impl Processes {
    /// No process has events. The table has at most `table_limit` places.
    pub(crate) fn new(alloc: Global, table_limit: usize, hasher: Seeded) -> Self
        ensures { (p : ℕ) → process_ends result p ≡ None }
    {
        Processes {
            table_limit,
            table: Vec::new(alloc),
            others: IndexMap::with_hasher(alloc, hasher),
        }
    }

    /// Forgets all ends.
    pub(crate) fn clear(&mut self)
        ensures { (p : ℕ) → process_ends self.new p ≡ None }
    {
        self.table.clear();
        self.others.clear();
    }

    /// The ends of a process's list.
    pub(crate) fn get(&self, process: u32) -> Option<Ends>
        ensures { result ≡ process_ends self.now process }
    {
        let place = process as usize;
        if place < self.table_limit {
            if place < self.table.len() {
                self.table[place]
            } else {
                None
            }
        } else {
            self.others.get(&process).copied()
        }
    }

    /// Sets the ends of a process's list.
    pub(crate) fn set(&mut self, process: u32, ends: Ends) -> Result<(), AllocError>
        ensures { OnOk result (IsSetAt process ends (process_ends self.old) (process_ends self.new)) }
    {
        let place = process as usize;
        if place < self.table_limit {
            set_in_table(&mut self.table, place, ends)?;
        } else {
            self.others.insert(process, ends)?;
        }
        Ok(())
    }
}
