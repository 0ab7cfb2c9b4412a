//! One order at a time, depth first (Wing and Gong, Testing and Verifying Concurrent Objects, 1993), with a
//! memory of what was tried (Lowe, Testing for Linearizability, 2017). It is quick where many orders are
//! legal. Only a yes counts, and its order is checked, so nothing is proved of it but that it is safe.
//!
//! Looks take effect as soon as a value suits them. Then changes that reply are tried, the
//! earliest call first, and then those that don't, of those that change alike the first one alone.
ghost use Rattle.std.specs.Prelude.{[], IfOk};
ghost use Rattle.configurations.specs.Reached.{IsReached};
ghost use Rattle.configurations.specs.Runs.{AreInOrder};

use crate::bounds::Bound;
use crate::links::{HEAD, Links};
use crate::moment::Moment;
use crate::op::{NEVER, Op, left, looks, suits};
use crate::reached::{Reached, Taken};
use crate::table::elders;
use crate::tried::Tried;
use crate::work::Limits;
use std::alloc::{AllocError, Global};

/// How many places it looks at: this many, plus some for each event.
const PLACES: u64 = 1 << 20;

const PLACES_PER_EVENT: u64 = 64;

/// How many steps it spends to look at one of them, and perhaps to let its call take effect.
const STEPS_PER_PLACE: u64 = 5;

/// How many changes it tries without getting further. Where an order is found, few are in vain.
const PATIENCE: u64 = 1 << 13;

/// Which calls are tried.
#[derive(Clone, Copy, PartialEq, Eq)]
enum Turn {
    Looks,
    Answered,
    Unanswered,
}

/// The place that is looked at next, and in which turn. Places are those of the events, from 1 on. Calls
/// without a reply are tried up to the place `end`, the first reply that is left.
#[derive(Clone, Copy)]
struct Cursor {
    at: u32,
    turn: Turn,
    end: u32,
}

/// A call that took effect: where the search stood then, and the value before it.
#[derive(Clone, Copy)]
struct Choice {
    number: u32,
    cursor: Cursor,
    value: u32,
}

/// A search underway.
#[derive(Drop)]
struct Walk {
    /// The places of the calls that are left and have a reply, and of these replies.
    answered: Links,
    /// Those of the calls that are left and have none.
    unanswered: Links,
    /// By operation, the place of its reply, or none.
    replies: Vec<u32>,
    /// By operation, the last one before it that changes alike, if neither replies.
    elders: Vec<usize>,
    /// By operation, whether it took effect, if it has no reply.
    is_used: Vec<bool>,
    /// How many replies are left.
    left: usize,
    /// How few were left at any time, and how many changes were tried then.
    fewest: usize,
    tried_then: u64,
    cursor: Cursor,
    value: u32,
    /// Tells apart the sets of calls that took effect.
    digest: u64,
    tried: Tried,
    chosen: Vec<Choice>,
}

/// Looks for an order, at a number of places in proportion to the events.
pub(crate) fn depth_first(
    alloc: Global,
    ops: &[Op],
    events: &[Moment],
    limits: &mut Limits,
) -> Result<Reached, AllocError>
    ensures { IfOk result (λ found. AreInOrder ops.now [] events.now → IsReached ops.now events.now found) }
{
    let count = events.len();
    let places = (count as u64)
        .saturating_mul(PLACES_PER_EVENT)
        .saturating_add(PLACES)
        .min(limits.steps / STEPS_PER_PLACE);
    let mut walk = Walk::new(alloc, ops, events)?;
    for _ in 0..places {
        if walk.left == 0 {
            return Ok(Reached::Left(walk.changes(alloc, ops)?));
        }
        limits.steps = limits.steps.saturating_sub(STEPS_PER_PLACE);
        walk.note_fewest();
        if walk.is_stuck() || !walk.step(ops, events)? {
            break;
        }
    }
    Ok(Reached::Stopped(Bound::Steps))
}

impl Walk {
    /// A search before its first step.
    fn new(alloc: Global, ops: &[Op], events: &[Moment]) -> Result<Self, AllocError> {
        let mut walk = Walk {
            answered: Links::new(alloc, events.len())?,
            unanswered: Links::new(alloc, events.len())?,
            replies: vec![in alloc; HEAD; ops.len()]?,
            elders: elders(alloc, ops)?,
            is_used: vec![in alloc; false; ops.len()]?,
            left: 0,
            fewest: usize::MAX,
            tried_then: 0,
            cursor: Cursor {
                at: HEAD,
                turn: Turn::Looks,
                end: HEAD,
            },
            value: 0,
            digest: 0,
            tried: Tried::new(alloc, events.len())?,
            chosen: Vec::new(alloc),
        };
        let mut place = HEAD;
        for event in events {
            place = place.saturating_add(1);
            walk.enlist(ops, *event, place);
        }
        walk.cursor.at = walk.answered.after(HEAD);
        Ok(walk)
    }

    /// Puts the place of an event in its list. A look that never replies may be left out.
    fn enlist(&mut self, ops: &[Op], event: Moment, place: u32) {
        match event {
            Moment::Call(number) => {
                if let Some(op) = ops.get(number as usize) {
                    if op.rank < NEVER {
                        self.answered.push(place);
                    } else if !looks(op) {
                        self.unanswered.push(place);
                    }
                }
            }
            Moment::Reply(number) => {
                self.answered.push(place);
                self.left = self.left.saturating_add(1);
                if let Some(reply) = self.replies.get_mut(number as usize) {
                    *reply = place;
                }
            }
        }
    }

    /// Notes how many changes were tried, if fewer replies are left than ever before.
    fn note_fewest(&mut self) {
        if self.left < self.fewest {
            self.fewest = self.left;
            self.tried_then = self.tried.count();
        }
    }

    /// Whether many changes were tried since fewer replies were left than ever before.
    fn is_stuck(&self) -> bool {
        self.tried.count().saturating_sub(self.tried_then) > PATIENCE
    }

    /// Looks at the next place; false if nothing is left to try.
    fn step(&mut self, ops: &[Op], events: &[Moment]) -> Result<bool, AllocError> {
        let Some(number) = call_here(self.cursor, events) else {
            return Ok(self.turn_over());
        };
        let Some(op) = ops.get(number as usize) else {
            return Ok(false);
        };
        if is_due(self.cursor.turn, op)
            && suits(op, self.value)
            && self.is_first(number)
            && self.is_untried(number, op)
        {
            self.choose(number, op)?;
        } else {
            self.cursor.at = self.after(self.cursor);
        }
        Ok(true)
    }

    /// The place after the one that is looked at.
    fn after(&self, cursor: Cursor) -> u32 {
        if cursor.turn == Turn::Unanswered {
            self.unanswered.after(cursor.at)
        } else {
            self.answered.after(cursor.at)
        }
    }

    /// Whether each call before this one that changes alike took effect, if none of them replies.
    fn is_first(&self, number: u32) -> bool {
        let Some(elder) = self.elders.get(number as usize) else {
            return true;
        };
        match self.is_used.get(*elder) {
            Some(is_used) => *is_used,
            None => true,
        }
    }

    /// Whether no other order of the same calls is known to have led to the value that this one leaves. It is
    /// remembered from now on. Looks may take effect at once, so they are tried always. Values are numbered
    /// from the other end than calls.
    fn is_untried(&mut self, number: u32, op: &Op) -> bool {
        if looks(op) {
            return true;
        }
        let value = left(op, self.value);
        self.tried
            .insert(self.digest ^ scrambled(number) ^ scrambled(!value))
    }

    /// The call at the place that is looked at takes effect. After a change all
    /// calls that are left are looked at again.
    fn choose(&mut self, number: u32, op: &Op) -> Result<(), AllocError> {
        let cursor = self.cursor;
        self.chosen.push(Choice {
            number,
            cursor,
            value: self.value,
        })?;
        self.value = left(op, self.value);
        self.digest ^= scrambled(number);
        self.take_out(number, cursor);
        self.cursor = if looks(op) {
            let at = self.after(cursor);
            Cursor { at, ..cursor }
        } else {
            self.start_of(Turn::Looks)
        };
        Ok(())
    }

    /// The first place of a turn.
    fn start_of(&self, turn: Turn) -> Cursor {
        let at = match turn {
            Turn::Unanswered => self.unanswered.after(HEAD),
            Turn::Looks | Turn::Answered => self.answered.after(HEAD),
        };
        Cursor {
            at,
            turn,
            end: self.cursor.at,
        }
    }

    /// Takes out the places of a call and of its reply; the call last, so that it knows what comes after
    /// both.
    fn take_out(&mut self, number: u32, cursor: Cursor) {
        if cursor.turn == Turn::Unanswered {
            self.unanswered.take_out(cursor.at);
            self.note_use(number, true);
            return;
        }
        if let Some(reply) = self.replies.get(number as usize) {
            self.answered.take_out(*reply);
            self.left = self.left.saturating_sub(1);
        }
        self.answered.take_out(cursor.at);
    }

    /// Puts the places of a call and of its reply back.
    fn put_back(&mut self, number: u32, cursor: Cursor) {
        if cursor.turn == Turn::Unanswered {
            self.unanswered.put_back(cursor.at);
            self.note_use(number, false);
            return;
        }
        self.answered.put_back(cursor.at);
        if let Some(reply) = self.replies.get(number as usize) {
            self.answered.put_back(*reply);
            self.left = self.left.saturating_add(1);
        }
    }

    /// Notes whether a call without a reply took effect.
    fn note_use(&mut self, number: u32, is_used: bool) {
        if let Some(noted) = self.is_used.get_mut(number as usize) {
            *noted = is_used;
        }
    }

    /// The turn is over at a reply: the next one begins, or else the last change is taken back.
    fn turn_over(&mut self) -> bool {
        match self.cursor.turn {
            Turn::Looks => self.cursor = self.start_of(Turn::Answered),
            Turn::Answered => self.cursor = self.start_of(Turn::Unanswered),
            Turn::Unanswered => return self.take_back(),
        }
        true
    }

    /// Takes back all up to the last change, and goes on after it; false if there is none.
    fn take_back(&mut self) -> bool {
        for _ in 0..self.chosen.len() {
            let Some(choice) = self.chosen.pop() else {
                return false;
            };
            self.put_back(choice.number, choice.cursor);
            self.value = choice.value;
            self.digest ^= scrambled(choice.number);
            if choice.cursor.turn != Turn::Looks {
                let at = self.after(choice.cursor);
                self.cursor = Cursor {
                    at,
                    ..choice.cursor
                };
                return true;
            }
        }
        false
    }

    /// The changes that took effect, each just before the first reply of a call that did then or later.
    fn changes(&self, alloc: Global, ops: &[Op]) -> Result<Vec<Taken>, AllocError> {
        let mut changes = Vec::new(alloc);
        let mut place = u32::MAX;
        for choice in self.chosen.iter().rev() {
            place = place.min(self.reply_of(choice.number));
            let is_look = match ops.get(choice.number as usize) {
                Some(op) => looks(op),
                None => true,
            };
            if !is_look {
                changes.push(Taken {
                    number: choice.number,
                    place,
                })?;
            }
        }
        changes.reverse();
        Ok(changes)
    }

    /// The place of a call's reply among the events, from 0 on.
    fn reply_of(&self, number: u32) -> u32 {
        match self.replies.get(number as usize) {
            Some(place) => place.checked_sub(1).unwrap_or(u32::MAX),
            None => u32::MAX,
        }
    }
}

/// The number of the call at the place that is looked at; none at a reply or at the end.
fn call_here(cursor: Cursor, events: &[Moment]) -> Option<u32> {
    if cursor.turn == Turn::Unanswered && cursor.at > cursor.end {
        return None;
    }
    let place = (cursor.at as usize).checked_sub(1)?;
    match events.get(place) {
        Some(Moment::Call(number)) => Some(*number),
        _ => None,
    }
}

/// Whether calls of this operation are tried in this turn.
fn is_due(turn: Turn, op: &Op) -> bool {
    looks(op) == (turn == Turn::Looks)
}

/// A number that tells this one from the others, in all its bits (Steele, Lea and Flood, Fast
/// Splittable Pseudorandom Number Generators, 2014).
fn scrambled(number: u32) -> u64 {
    let seed = u64::from(number)
        .wrapping_mul(0x9e37_79b9_7f4a_7c15)
        .wrapping_add(0x9e37_79b9_7f4a_7c15);
    let once = (seed ^ (seed >> 30)).wrapping_mul(0xbf58_476d_1ce4_e5b9);
    let twice = (once ^ (once >> 27)).wrapping_mul(0x94d0_49bb_1331_11eb);
    twice ^ (twice >> 31)
}
