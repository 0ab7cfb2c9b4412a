//! What a search spends, and which calls it let take effect.
use crate::bounds::Bound;
use crate::reached::Taken;
use std::alloc::{AllocError, AllocFailed, Global};
use std::mem;
use thiserror::Error;

/// How many steps it spends to remember that a call took effect. By default some 4
/// million are remembered, in 50 MB.
const STEPS_PER_MOVE: u64 = 256;

/// How many it spends if that takes the place of what was forgotten.
const STEPS_PER_REUSE: u64 = 16;

/// How many moves are remembered before any are forgotten.
const LEAST_MOVES: usize = 1 << 14;

/// How many steps it spends to go over an event, beside one for each word of each configuration.
const STEPS_PER_EVENT: u64 = 8;

/// How many steps it spends to find the place of a configuration among the best, beside one for each word.
const STEPS_PER_PLACE: u64 = 8;

/// How many configurations are gone over at a reply, and how many are left after it, for each one that the
/// beam holds, until the beam may stop there.
const OVER_PER_BEAM: usize = 16;

const LEFT_PER_BEAM: usize = 4;

/// The place of no move.
pub(crate) const NO_MOVE: u32 = 0xffff_ffff;

/// Which calls that never reply take effect at once in a run whose yes alone counts, and not only where
/// nothing else explains a reply.
#[derive(Clone, Copy, PartialEq, Eq)]
pub(crate) enum Thrift {
    /// Those that give a value that a call finds which must take effect.
    Little,
    /// Those that write or look for the value that the call asks for which replies.
    Much,
    /// None.
    Most,
}

/// How far a run may go, and how wide.
#[derive(Clone, Copy)]
pub(crate) struct Limits {
    /// A number above all values.
    pub values: usize,
    pub steps: u64,
    /// How many configurations a list may hold.
    pub configurations: usize,
    /// How many go on from one reply to the next.
    pub beam: usize,
    /// Whether a yes alone counts, so that those that are unlikely to explain what comes may be let go.
    pub is_guided: bool,
    /// How it then spares calls that never reply.
    pub thrift: Thrift,
}

/// Why a search stopped before its end.
#[derive(Clone, Copy, Debug, PartialEq, Eq, Error)]
pub(crate) enum Stop {
    /// Memory was refused.
    #[error("out of memory")]
    Memory,
    /// A bound was met.
    #[error("too much work")]
    Bound(Bound),
}

impl From<AllocError> for Stop {
    fn from(_error: AllocError) -> Stop {
        Stop::Memory
    }
}

impl<T: Drop> From<AllocFailed<T>> for Stop {
    fn from(_error: AllocFailed<T>) -> Stop {
        Stop::Memory
    }
}

/// A change that took effect, and the place of the move before it.
#[derive(Clone, Copy)]
struct Move {
    taken: Taken,
    before: u32,
}

/// What is left to spend, and the changes that took effect in any configuration. Nothing is said of them
/// here: the order that they make is checked.
#[derive(Drop)]
pub(crate) struct Work {
    alloc: Global,
    steps: u64,
    configurations: usize,
    beam: usize,
    is_guided: bool,
    thrift: Thrift,
    moves: Vec<Move>,
    /// The first place of a move that was forgotten; each such place has that of the next.
    forgotten: u32,
    /// How many moves are remembered before some are to be forgotten.
    room: usize,
    /// The place of the event that is gone over.
    place: u32,
    /// Moves that aren't forgotten, nor those before them.
    kept: Vec<u32>,
}

impl Work {
    pub(crate) fn new(alloc: Global, limits: Limits) -> Self {
        Work {
            alloc,
            steps: limits.steps,
            configurations: limits.configurations,
            beam: limits.beam,
            is_guided: limits.is_guided,
            thrift: limits.thrift,
            moves: Vec::new(alloc),
            forgotten: NO_MOVE,
            room: LEAST_MOVES,
            place: 0,
            kept: Vec::new(alloc),
        }
    }

    /// Whether a list that holds `held` configurations is full.
    pub(crate) fn is_full(&self, held: usize) -> bool {
        held >= self.configurations
    }

    /// The event at this place is gone over next.
    pub(crate) fn go_to(&mut self, place: usize) -> Result<(), Stop> {
        if place > u32::MAX as usize {
            return Err(Stop::Bound(Bound::Steps));
        }
        self.place = place as u32;
        Ok(())
    }

    pub(crate) fn alloc(&self) -> Global {
        self.alloc
    }

    /// How many configurations go on from one reply to the next.
    pub(crate) fn beam(&self) -> usize {
        self.beam
    }

    /// So many go on from now on, and calls that never reply are spared like this.
    pub(crate) fn widen(&mut self, beam: usize, thrift: Thrift) {
        self.beam = beam;
        self.thrift = thrift;
    }

    /// Leaves so many steps at most; gives how many are held back.
    pub(crate) fn hold_back(&mut self, left: u64) -> u64 {
        let held = self.steps.saturating_sub(left);
        self.steps = self.steps.saturating_sub(held);
        held
    }

    /// Gives back steps that were held back.
    pub(crate) fn give_back(&mut self, held: u64) {
        self.steps = self.steps.saturating_add(held);
    }

    /// These moves, and those before them, aren't forgotten.
    pub(crate) fn keep(&mut self, moves: Vec<u32>) {
        self.kept = moves;
    }

    /// The place of the event that is gone over.
    pub(crate) fn place(&self) -> usize {
        self.place as usize
    }

    /// Whether a yes alone counts.
    pub(crate) fn is_guided(&self) -> bool {
        self.is_guided
    }

    /// How calls that never reply are spared.
    pub(crate) fn thrift(&self) -> Thrift {
        self.thrift
    }

    /// The steps that are left.
    pub(crate) fn steps_left(&self) -> u64 {
        self.steps
    }

    /// Whether the beam may stop at this reply: enough were gone over, or enough are left.
    pub(crate) fn is_enough(&self, over: usize, left: usize) -> bool {
        over >= self.beam.saturating_mul(OVER_PER_BEAM)
            || left >= self.beam.saturating_mul(LEFT_PER_BEAM)
    }

    /// The most configurations that a list may hold.
    pub(crate) fn most(&self) -> usize {
        self.configurations
    }

    /// Spends some steps.
    #[inline(always)]
    pub(crate) fn spend(&mut self, count: u64) -> Result<(), Stop> {
        if self.steps < count {
            return Err(Stop::Bound(Bound::Steps));
        }
        self.steps -= count;
        Ok(())
    }

    /// Spends the steps of an event that is gone over in so many configurations, with sets of so many
    /// words. A single one of one word costs none: there are no more events than an input may have.
    pub(crate) fn spend_on(&mut self, configurations: usize, words: usize) -> Result<(), Stop> {
        let all = (configurations as u64).saturating_mul(words as u64);
        if all <= 1 {
            return Ok(());
        }
        self.spend(all.saturating_add(STEPS_PER_EVENT))
    }

    /// Spends the steps of putting so many configurations in order.
    pub(crate) fn spend_on_order(
        &mut self,
        configurations: usize,
        words: usize,
    ) -> Result<(), Stop> {
        let each = STEPS_PER_PLACE.saturating_add(words as u64);
        self.spend((configurations as u64).saturating_mul(each))
    }

    /// A call takes effect after others, the last of which has the place
    /// `before` among the moves; gives its own place.
    pub(crate) fn moved(&mut self, number: u32, before: u32) -> Result<u32, Stop> {
        let taken = Taken {
            number,
            place: self.place,
        };
        let next = Move { taken, before };
        if let Some(one) = self.moves.get_mut(self.forgotten as usize) {
            let place = mem::replace(&mut self.forgotten, one.before);
            *one = next;
            self.spend(STEPS_PER_REUSE)?;
            return Ok(place);
        }
        self.spend(STEPS_PER_MOVE)?;
        let place = self.moves.len();
        if place >= NO_MOVE as usize {
            return Err(Stop::Bound(Bound::Steps));
        }
        self.moves.push(next)?;
        Ok(place as u32)
    }

    /// Whether a move may be remembered before any are forgotten.
    pub(crate) fn has_room(&self) -> bool {
        self.forgotten != NO_MOVE || self.moves.len() < self.room
    }

    /// For each move, a mark that isn't set.
    pub(crate) fn marks(&self) -> Result<Vec<bool>, AllocError> {
        vec![in self.alloc; false; self.moves.len()]
    }

    /// Marks the moves up to one of them.
    pub(crate) fn mark(&self, marks: &mut [bool], last: u32) {
        let mut at = last;
        for _ in 0..self.moves.len() {
            let (Some(one), Some(mark)) = (self.moves.get(at as usize), marks.get_mut(at as usize))
            else {
                break
            };
            if *mark {
                break;
            }
            *mark = true;
            at = one.before;
        }
    }

    /// Marks the moves that aren't to be forgotten, whatever the configurations.
    pub(crate) fn mark_kept(&self, marks: &mut [bool]) {
        for last in &self.kept {
            self.mark(marks, *last);
        }
    }

    /// Forgets the moves that aren't marked. As many again as are left may then be remembered.
    pub(crate) fn forget(&mut self, marks: &[bool]) {
        let mut left: usize = 0;
        for place in 0..self.moves.len().min(marks.len()) {
            let Ok(number) = u32::try_from(place) else {
                break
            };
            if marks[place] {
                left = left.saturating_add(1);
            } else {
                self.moves[place].before = self.forgotten;
                self.forgotten = number;
            }
        }
        self.room = left.saturating_mul(2).max(LEAST_MOVES);
    }

    /// The changes up to one of them, in the order in which they took effect.
    pub(crate) fn changes_to(&self, last: u32) -> Result<Vec<Taken>, AllocError> {
        let mut changes = Vec::new(self.alloc);
        let mut at = last;
        for _ in 0..self.moves.len() {
            let Some(one) = self.moves.get(at as usize) else {
                break
            };
            changes.push(one.taken)?;
            at = one.before;
        }
        changes.reverse();
        Ok(changes)
    }
}
