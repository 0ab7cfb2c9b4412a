//! Which values a configuration can still have where they are needed. A stage whose yes alone counts lets go
//! of configurations that can't; nothing is proved of that but that it is safe.
ghost use Rattle.std.specs.Prelude.{◌<◌, ◌*◌, ◌^◌};
ghost use Rattle.configurations.specs.Tables.{IsTable};

use crate::config::Config;
use crate::moment::Moment;
use crate::needs::{Needs, Sight};
use crate::op::{Op, looks};
use crate::table::Table;
use crate::work::{Stop, Thrift, Work};
use slot_sets::Slots;
use std::alloc::{AllocError, Global};

/// How many steps it spends to look at an open call that may need a value.
const STEPS_PER_FINDER: u64 = 2;

/// What calls ask for, and which of the open ones give it.
#[derive(Drop)]
pub(crate) struct Outlook<const W: usize> {
    /// Whether calls that never reply are spared: they take effect only if it is likely that they explain a
    /// reply, and no value is kept for a call to come in the hope of a cas among them.
    pub is_sparing: bool,
    /// By value, the slots of the open changes that give it.
    givers: Vec<Slots<W>>,
    needs: Needs,
    sight: Sight,
}

/// Whether a configuration can have a value that is needed.
#[derive(Clone, Copy, PartialEq, Eq)]
pub(crate) enum Supply {
    /// It has it, a call that is open and replies can give it, or it isn't needed.
    Enough,
    /// Only a call that never replies can give it.
    Doubtful,
    /// No call can.
    Missing,
}

impl<const W: usize> Outlook<W> {
    /// Nothing is known, and nothing asked for.
    pub(crate) fn none(alloc: Global) -> Self {
        let (needs, sight) = Needs::none(alloc);
        Outlook {
            is_sparing: false,
            givers: Vec::new(alloc),
            needs,
            sight,
        }
    }

    /// Before the first event.
    pub(crate) fn new(
        alloc: Global,
        ops: &[Op],
        events: &[Moment],
        values: usize,
    ) -> Result<Self, AllocError>
        requires room { 64 * W < 2 ^ 32 }
    {
        let (needs, sight) = Needs::new(alloc, ops, events, values)?;
        Self::over(alloc, needs, sight)
    }

    /// After some calls, none of which is open yet.
    pub(crate) fn over(alloc: Global, needs: Needs, sight: Sight) -> Result<Self, AllocError>
        requires room { 64 * W < 2 ^ 32 }
    {
        Ok(Outlook {
            is_sparing: false,
            givers: no_slots(alloc, sight.values())?,
            needs,
            sight,
        })
    }

    /// What is known of the calls so far.
    pub(crate) fn sight(&self) -> &Sight {
        &self.sight
    }

    /// What is known of all calls.
    pub(crate) fn into_needs(self) -> Needs {
        self.needs
    }

    /// A call is open at a slot.
    pub(crate) fn open(&mut self, op: &Op, slot: u32)
        requires room { 64 * W < 2 ^ 32 }
    {
        if looks(op) {
            return;
        }
        if let Some(givers) = self.givers.get_mut(op.to as usize) {
            givers.insert(slot);
        }
    }

    /// An operation is called, and has got a slot or needs none.
    pub(crate) fn call(&mut self, op: &Op, number: u32, slot: Option<u32>)
        requires room { 64 * W < 2 ^ 32 }
    {
        self.sight.call(&self.needs, op, number);
        if let Some(slot) = slot {
            self.open(op, slot);
        }
    }

    /// The operation at a slot has replied.
    pub(crate) fn reply(&mut self, op: &Op, slot: u32)
        requires room { 64 * W < 2 ^ 32 }
    {
        if let Some(givers) = self.givers.get_mut(op.to as usize) {
            givers.remove(slot);
        }
    }

    /// The slots of the open changes that give a value.
    pub(crate) fn givers(&self, value: u32) -> Slots<W>
        requires room { 64 * W < 2 ^ 32 }
    {
        match self.givers.get(value as usize) {
            Some(givers) => *givers,
            None => Slots::none(),
        }
    }

    /// Whether a configuration that has left a value, or dropped a call that gives it, can still have it
    /// where it is needed.
    pub(crate) fn supply(
        &self,
        table: &Table<W>,
        config: &Config<W>,
        value: u32,
        spent: &mut Work,
    ) -> Result<Supply, Stop>
        requires { IsTable table.now }
    {
        if config.value == value {
            return Ok(Supply::Enough);
        }
        let open = config.owed.union(&config.free);
        let givers = self.givers(value).common(&open);
        if !givers.is_within(&table.unanswered) || !self.is_needed(table, config, value, spent)? {
            Ok(Supply::Enough)
        } else if givers.meets(&table.unanswered) {
            Ok(Supply::Doubtful)
        } else {
            Ok(Supply::Missing)
        }
    }

    /// Whether a value is needed: by a call to come, or by one that is open in the configuration.
    fn is_needed(
        &self,
        table: &Table<W>,
        config: &Config<W>,
        value: u32,
        spent: &mut Work,
    ) -> Result<bool, Stop>
        requires { IsTable table.now }
    {
        if self.sight.needed_until(value).is_some() {
            return Ok(true);
        }
        let open = finders(table, config).common(&table.asked(value));
        let mut at = 0;
        for _ in 0..open.count() {
            let Some(slot) = open.first_from(at) else {
                break
            };
            spent.spend(STEPS_PER_FINDER)?;
            if self.sight.is_given(&self.needs, table.call(slot)) {
                return Ok(true);
            }
            at = slot + 1;
        }
        Ok(false)
    }

    /// Whether a configuration has to keep its value for a call to come, while another call must take effect
    /// before that and can't. No order is left for it then.
    pub(crate) fn is_doomed(
        &self,
        table: &Table<W>,
        config: &Config<W>,
        spent: &mut Work,
    ) -> Result<bool, Stop>
        requires { IsTable table.now }
    {
        let Some(until) = self.sight.needed_until(config.value) else {
            return Ok(false);
        };
        if self.can_leave(table, config) {
            return Ok(false);
        }
        spent.spend(W as u64)?;
        let mut at = 0;
        for _ in 0..config.owed.count() {
            let Some(slot) = config.owed.first_from(at) else {
                break
            };
            spent.spend(STEPS_PER_FINDER)?;
            if self.needs.reply(table.call(slot)) < until {
                return Ok(true);
            }
            at = slot + 1;
        }
        Ok(false)
    }

    /// Whether an open call can give the value of a configuration again.
    fn can_leave(&self, table: &Table<W>, config: &Config<W>) -> bool
        requires { IsTable table.now }
    {
        let mut open = config.owed.union(&config.free);
        if self.is_sparing {
            open = open.minus(&table.unanswered.minus(&table.writes));
        }
        self.givers(config.value).meets(&open)
    }

    /// The calls that never reply, but for those that may take effect at once; none if they aren't spared.
    pub(crate) fn spared(
        &self,
        table: &Table<W>,
        config: &Config<W>,
        reply: u32,
        spent: &mut Work,
    ) -> Result<Slots<W>, Stop>
        requires { IsTable table.now }
    {
        if !self.is_sparing {
            return Ok(Slots::none());
        }
        match spent.thrift() {
            Thrift::Most => return Ok(table.unanswered),
            Thrift::Much => return Ok(table.unanswered.minus(&table.alike(reply))),
            Thrift::Little => {}
        }
        let finders = finders(table, config);
        spent.spend(
            (finders.count() as u64).saturating_mul(STEPS_PER_FINDER.saturating_add(W as u64)),
        )?;
        Ok(table.unanswered.minus(&self.given_to(table, &finders)))
    }

    /// The slots of the calls that give what one of these finds.
    fn given_to(&self, table: &Table<W>, finders: &Slots<W>) -> Slots<W>
        requires { IsTable table.now }
    {
        let mut all = Slots::none();
        let mut at = 0;
        for _ in 0..finders.count() {
            let Some(slot) = finders.first_from(at) else {
                break
            };
            if let Some(op) = table.op_of(table.call(slot)) {
                all = all.union(&self.givers(op.from));
            }
            at = slot + 1;
        }
        all
    }
}

/// The slots of the calls that must take effect, and find a value.
fn finders<const W: usize>(table: &Table<W>, config: &Config<W>) -> Slots<W> {
    config.owed.minus(&table.writes.union(&table.misses))
}

/// No slots for any value.
fn no_slots<const W: usize>(alloc: Global, values: usize) -> Result<Vec<Slots<W>>, AllocError>
    requires room { 64 * W < 2 ^ 32 }
{
    let mut all = Vec::new(alloc);
    for _ in 0..values {
        all.push(Slots::none())?;
    }
    Ok(all)
}
