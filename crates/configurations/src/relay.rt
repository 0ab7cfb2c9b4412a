//! A run in short legs, whose yes alone counts. Each leg has sets as wide as its own open calls need, and few
//! configurations go on. If none is left, the legs before are run again with more of them. Nothing is
//! proved of it but that it is safe: the order that it finds is checked.
//!
//! Of calls that change alike and never reply, few are open at a time: a leg ends without those that were
//! used in each configuration, and holds back those that are too many.
ghost use Rattle.std.specs.Prelude.{[], IfOk};
ghost use Rattle.configurations.specs.Reached.{IsReached};
ghost use Rattle.configurations.specs.Runs.{AreInOrder};

use crate::baton::Baton;
use crate::bounds::Bound;
use crate::leg::{Track, next_leg};
use crate::moment::Moment;
use crate::needs::Needs;
use crate::op::Op;
use crate::reached::{Reached, Taken};
use crate::table::{NO_SLOT, elders};
use crate::work::{Limits, Stop, Thrift, Work};
use std::alloc::{AllocError, Global};

/// How many events a leg has, if there are no more values.
const LENGTH: usize = 128;

/// How many batons are kept.
const MOST_BATONS: usize = 24;

/// How many legs are run again where no configuration is left, and then if that was in vain.
const LEGS_AGAIN: [usize; 6] = [1, 2, 4, 8, 16, 32];

/// How many times as many configurations then go on, for each such leg.
const WIDER: usize = 4;

/// Which part of the steps may be spent to get past one place.
const PART_OF_TROUBLE: u64 = 16;

/// The last batons; the last place at which no configuration was left, how often the legs before it were run
/// again, and how many steps were held back when they first were.
#[derive(Drop)]
struct Race {
    batons: Vec<Baton>,
    trouble: usize,
    tries: usize,
    held: u64,
    /// How many steps may be spent to get past one place.
    most: u64,
    narrow: usize,
    beam: usize,
}

/// Looks for an order in legs.
pub(crate) fn relay(
    alloc: Global,
    ops: &[Op],
    events: &[Moment],
    limits: &mut Limits,
) -> Result<Reached, AllocError>
    ensures { IfOk result (λ found. AreInOrder ops.now [] events.now → IsReached ops.now events.now found) }
{
    let (needs, sight) = Needs::new(alloc, ops, events, limits.values)?;
    let track = Track {
        ops: Vec::from_slice(alloc, ops)?,
        slot_of: vec![in alloc; NO_SLOT; ops.len()]?,
        elders: elders(alloc, ops)?,
        needs,
        spent: Work::new(alloc, *limits),
        values: limits.values,
        length: LENGTH.max(limits.values),
    };
    let mut batons = Vec::new(alloc);
    batons.push(Baton::first(alloc, sight)?)?;
    let race = Race {
        batons,
        trouble: 0,
        tries: 0,
        held: 0,
        most: limits.steps / PART_OF_TROUBLE,
        narrow: limits.beam,
        beam: limits.beam,
    };
    let (left, found) = race_on(alloc, track, race, events)?;
    limits.steps = left;
    match found {
        Ok(changes) => Ok(Reached::Left(changes)),
        Err(bound) => Ok(Reached::Stopped(bound)),
    }
}

/// Runs one leg after another; gives the steps that are left too.
fn race_on(
    alloc: Global,
    track: Track,
    race: Race,
    events: &[Moment],
) -> Result<(u64, Result<Vec<Taken>, Bound>), AllocError> {
    let mut track = track;
    let mut race = race;
    for _ in 0..events.len() {
        let Some(baton) = race.batons.last() else {
            break
        };
        track.spent.widen(race.beam, race.thrift());
        track.spent.keep(race.roots(alloc)?);
        let (after, ended) = next_leg(alloc, track, baton, events)?;
        track = after;
        match ended {
            Ok(baton) => {
                if baton.place >= events.len() {
                    let changes = track.spent.changes_to(baton.last_move())?;
                    return Ok((race.steps_left(&track.spent), Ok(changes)));
                }
                race.pass(baton, &mut track.spent, track.length)?;
            }
            Err(Stop::Memory) => return Err(AllocError),
            Err(Stop::Bound(bound)) => {
                if bound == Bound::Steps || !race.go_back(&mut track.spent) {
                    return Ok((race.steps_left(&track.spent), Err(bound)));
                }
            }
        }
    }
    Ok((race.steps_left(&track.spent), Err(Bound::Steps)))
}

impl Race {
    /// The last moves of all configurations in the batons.
    fn roots(&self, alloc: Global) -> Result<Vec<u32>, AllocError> {
        let mut roots = Vec::new(alloc);
        for baton in &self.batons {
            for runner in &baton.runners {
                roots.push(runner.last)?;
            }
        }
        Ok(roots)
    }

    /// How calls that never reply are spared: in the last try, they are less.
    fn thrift(&self) -> Thrift {
        if self.tries < LEGS_AGAIN.len() {
            Thrift::Much
        } else {
            Thrift::Little
        }
    }

    /// The steps that are left, with those that are held back.
    fn steps_left(&self, spent: &Work) -> u64 {
        spent.steps_left().saturating_add(self.held)
    }

    /// A leg was run, with this baton at its end.
    fn pass(&mut self, baton: Baton, spent: &mut Work, length: usize) -> Result<(), AllocError> {
        if baton.place > self.trouble.saturating_add(length) {
            self.tries = 0;
            self.beam = self.narrow;
            spent.give_back(self.held);
            self.held = 0;
        }
        if self.batons.len() >= MOST_BATONS {
            self.batons.reverse();
            self.batons.pop();
            self.batons.reverse();
        }
        self.batons.push(baton)?;
        Ok(())
    }

    /// No configuration is left at a place: some legs before it are to be run again; false if that was in
    /// vain too often.
    fn go_back(&mut self, spent: &mut Work) -> bool {
        self.trouble = self.trouble.max(spent.place());
        if self.tries == 0 {
            self.held = spent.hold_back(self.most);
        }
        let Some(legs) = LEGS_AGAIN.get(self.tries) else {
            return false;
        };
        self.tries = self.tries.saturating_add(1);
        self.beam = self.narrow.saturating_mul(*legs).saturating_mul(WIDER);
        for _ in 0..*legs {
            if self.batons.len() > 1 {
                self.batons.pop();
            }
        }
        true
    }
}
