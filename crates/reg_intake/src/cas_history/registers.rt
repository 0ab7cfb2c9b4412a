//! The registers that events call, and the operations of each.
ghost use Rattle.std.specs.Prelude.{◌≡◌, ◌≤◌, ◌<◌, ◌+◌, ◌++◌, ℕ, List, [], bytes_eq, length, IfOk, OnOk};
ghost use Rattle.std.specs.Prelude.{Some, option_map};
ghost use Rattle.std.specs.List.{position_or_len};
ghost use Rattle.reg_intake.specs.CasHistory.Events.{called_by};
ghost use Rattle.reg_intake.specs.CasHistory.History.{any_calls, number_of};
ghost use Rattle.reg_arena.specs.Numbered.{with_name};
ghost use Rattle.reg_intake.specs.CasHistory.Kept.{AreLinked, operation_at as begun_at, with_called};
ghost use Rattle.reg_intake.specs.CasHistory.Listed.{Adds, IsHistoryBy, listed};

use crate::cas_history::calls::{next_event, operation_at};
use crate::cas_history::said::called;
use history_model::Operation;
use history_text::{AnyEvent, MAX_EVENTS, Name};
use reg_arena::{HashKey, Numbering};
use std::alloc::{AllocError, Global};

/// The registers that some events call, and their operations.
#[derive(Drop)]
pub(crate) struct Registers {
    pub(crate) naming: Numbering,
    /// The operations of each register, by call.
    pub(crate) operations: Vec<Vec<Operation>>,
    /// How many operations there are in all.
    pub(crate) count: usize,
}

impl Registers {
    /// The registers of these events, of each of which the place of its process's next event is given. The
    /// key is that of the names' hashes.
    pub(crate) fn of(
        alloc: Global,
        events: &[AnyEvent],
        next: &[Option<u32>],
        key: HashKey,
    ) -> Result<Self, AllocError>
        requires few { length events.now ≤ MAX_EVENTS }
        requires linked { AreLinked events.now next.now }
        ensures { IfOk result (IsHistoryBy events.now) }
    {
        let after_all = events.len() as u32 + 2;
        let mut registers = Registers::none(alloc, key);
        for (place, event) in events.iter().enumerate() {
            let next = next_event(events, next[place]);
            registers.add_event(alloc, after_all, (place as u32 + 2, event), next)?;
        }
        Ok(registers)
    }

    fn none(alloc: Global, key: HashKey) -> Self
        ensures names { result.naming ≡ [] }
        ensures operations { result.operations.items ≡ [] }
        ensures count { result.count ≡ 0 }
    {
        Registers {
            naming: Numbering::new(alloc, key),
            operations: Vec::new(alloc),
            count: 0,
        }
    }

    /// Takes in an event at its time: by the next event of its process, if there is one. A missing reply has
    /// the time `after_all`.
    fn add_event(
        &mut self,
        alloc: Global,
        after_all: u32,
        at: (u32, &AnyEvent),
        next: Option<(u32, &AnyEvent)>,
    ) -> Result<(), AllocError>
        requires few { length self.old.naming < MAX_EVENTS }
        requires fewer { self.old.count < MAX_EVENTS }
        requires whole { length self.old.operations.items ≡ length self.old.naming }
        ensures names { OnOk result (self.new.naming ≡ with_called self.old.naming at.entry.1.now) }
        ensures whole { OnOk result (length self.new.operations.items ≡ length self.new.naming) }
        ensures adds { OnOk result ((names : List (List ℕ))
            → number_of self.new.naming (called_by at.entry.1.now.kind)
            ≡ number_of names (called_by at.entry.1.now.kind)
            → Adds self.old self.new (begun_at (any_calls names) after_all at.entry.0 at.entry.1.now
            (option_map (λ next. (next.0, next.1.now)) next.entry))) }
    {
        let (time, event) = at;
        let Some((name, _)) = called(&event.kind) else {
            return Ok(());
        };
        let register = self.number(alloc, name)?;
        match operation_at(after_all, register, time, event, next) {
            Some(operation) => self.add(operation),
            None => Ok(()),
        }
    }

    /// The number of the register of this name, which is added if it is new.
    fn number(&mut self, alloc: Global, name: &Name) -> Result<u32, AllocError>
        requires few { length self.old.naming < MAX_EVENTS }
        requires whole { length self.old.operations.items ≡ length self.old.naming }
        ensures number { IfOk result (λ n. n ≡ position_or_len (bytes_eq name.now) self.new.naming) }
        ensures below { IfOk result (λ n. n < length self.new.naming) }
        ensures names { OnOk result (self.new.naming ≡ with_name self.old.naming (Some name.now)) }
        ensures whole { OnOk result (length self.new.operations.items ≡ length self.new.naming) }
        ensures listed { OnOk result ((r : ℕ)
            → listed self.new.operations.items r ≡ listed self.old.operations.items r) }
        ensures count { self.new.count ≡ self.old.count }
    {
        let number = self.naming.number_name(alloc, name)? as u32;
        if self.operations.len() < self.naming.len() {
            self.operations.push(Vec::new(alloc))?;
        }
        Ok(number)
    }

    /// Adds an operation to those of its register.
    fn add(&mut self, operation: Operation) -> Result<(), AllocError>
        requires there { operation.register < length self.old.operations.items }
        requires few { self.old.count < MAX_EVENTS }
        ensures names { OnOk result (self.new.naming ≡ self.old.naming) }
        ensures whole { OnOk result
            (length self.new.operations.items ≡ length self.old.operations.items) }
        ensures adds { OnOk result (Adds self.old self.new (Some operation)) }
    {
        self.operations[operation.register as usize].push(operation)?;
        self.count += 1;
        Ok(())
    }
}
