//! Which values the calls to come need. Only stages whose yes alone counts ask for it, so nothing is proved
//! of it but that it is safe.
use crate::moment::Moment;
use crate::op::{NEVER, Op, looks, misses, writes};
use std::alloc::{AllocError, Global};

/// How many calls need a value, and the place of the last of them among the events.
#[derive(Clone, Copy)]
struct Need {
    count: u32,
    last: usize,
}

/// No call needs it.
const NO_NEED: Need = Need { count: 0, last: 0 };

/// What is known of all calls. A value is needed if a read or a cas that replies finds it, and no call that
/// gives it comes before that reply.
#[derive(Drop)]
pub(crate) struct Needs {
    /// By operation, how many calls there are up to the last one before its reply that gives what it finds.
    given_by: Vec<usize>,
    /// By change, which of the calls after it need the value that it gives.
    after: Vec<Need>,
    /// By operation, the place of its reply.
    replies: Vec<usize>,
}

/// What is known of the calls so far.
#[derive(Drop)]
pub(crate) struct Sight {
    /// By value, which calls to come need it, and how many calls there are up to the last that gave it.
    needed: Vec<Need>,
    given: Vec<usize>,
    /// How many calls there have been.
    called: usize,
}

impl Needs {
    /// What is known of all calls, and of none so far. Operations are numbered by call.
    pub(crate) fn new(
        alloc: Global,
        ops: &[Op],
        events: &[Moment],
        values: usize,
    ) -> Result<(Self, Sight), AllocError> {
        let mut needs = Needs {
            given_by: vec![in alloc; usize::MAX; ops.len()]?,
            after: vec![in alloc; NO_NEED; ops.len()]?,
            replies: vec![in alloc; usize::MAX; ops.len()]?,
        };
        let mut sight = Sight {
            needed: vec![in alloc; NO_NEED; values]?,
            given: vec![in alloc; 0; values]?,
            called: 0,
        };
        let mut last = vec![in alloc; 0; values]?;
        for (place, event) in events.iter().enumerate() {
            if let Moment::Reply(number) = *event {
                needs.note_reply(ops, &last, number as usize, place);
            } else if let Moment::Call(number) = *event {
                note_giver(&mut last, ops, number as usize);
            }
        }
        for (place, event) in events.iter().enumerate() {
            if let Moment::Call(number) = *event {
                needs.note_need(&mut sight, ops, number as usize, place);
            }
        }
        Ok((needs, sight))
    }

    /// Nothing is asked for.
    pub(crate) fn none(alloc: Global) -> (Self, Sight) {
        let needs = Needs {
            given_by: Vec::new(alloc),
            after: Vec::new(alloc),
            replies: Vec::new(alloc),
        };
        let sight = Sight {
            needed: Vec::new(alloc),
            given: Vec::new(alloc),
            called: 0,
        };
        (needs, sight)
    }

    /// Notes the place of a reply, and which call so far was the last that gives what the operation finds.
    fn note_reply(&mut self, ops: &[Op], last: &[usize], number: usize, place: usize) {
        if let Some(reply) = self.replies.get_mut(number) {
            *reply = place;
        }
        if let (Some(op), Some(given_by)) = (ops.get(number), self.given_by.get_mut(number)) {
            *given_by = get(last, op.from as usize);
        }
    }

    /// Notes what the operation of a call needs, at its place.
    fn note_need(&mut self, sight: &mut Sight, ops: &[Op], number: usize, place: usize) {
        let Some(op) = ops.get(number) else {
            return;
        };
        if !finds(op) {
            return;
        }
        match self.given_by(number) {
            0 => add(&mut sight.needed, op.from as usize, place),
            last if last <= number => add(&mut self.after, last - 1, place),
            _ => {}
        }
    }

    /// How many calls there are up to the last one that gives what an operation finds.
    fn given_by(&self, number: usize) -> usize {
        get(&self.given_by, number)
    }

    /// The place of an operation's reply.
    pub(crate) fn reply(&self, number: u32) -> usize {
        get(&self.replies, number as usize)
    }
}

impl Sight {
    /// The same once more.
    pub(crate) fn copied(&self, alloc: Global) -> Result<Self, AllocError> {
        Ok(Sight {
            needed: Vec::from_slice(alloc, &self.needed)?,
            given: Vec::from_slice(alloc, &self.given)?,
            called: self.called,
        })
    }

    /// A number above all values.
    pub(crate) fn values(&self) -> usize {
        self.needed.len()
    }

    /// The operation of a number is called.
    pub(crate) fn call(&mut self, needs: &Needs, op: &Op, number: u32) {
        let number = number as usize;
        self.called = number.saturating_add(1);
        if finds(op) && needs.given_by(number) == get(&self.given, op.from as usize) {
            if let Some(need) = self.needed.get_mut(op.from as usize) {
                need.count = need.count.saturating_sub(1);
            }
        }
        if looks(op) {
            return;
        }
        if let Some(last) = self.given.get_mut(op.to as usize) {
            *last = self.called;
        }
        if let (Some(needed), Some(after)) = (
            self.needed.get_mut(op.to as usize),
            needs.after.get(number),
        ) {
            *needed = *after;
        }
    }

    /// The place of the last call to come that needs a value, if one does.
    pub(crate) fn needed_until(&self, value: u32) -> Option<usize> {
        let need = self.needed.get(value as usize)?;
        if need.count > 0 {
            Some(need.last)
        } else {
            None
        }
    }

    /// Whether no call to come gives what an open call finds.
    pub(crate) fn is_given(&self, needs: &Needs, number: u32) -> bool {
        needs.given_by(number as usize) <= self.called
    }
}

/// Whether it replies, and found a value.
fn finds(op: &Op) -> bool {
    op.rank < NEVER && !writes(op) && !misses(op)
}

/// Counts one more call that needs a value, at this place.
fn add(needs: &mut [Need], at: usize, place: usize) {
    if let Some(need) = needs.get_mut(at) {
        need.count = need.count.saturating_add(1);
        need.last = place;
    }
}

/// The number at a place; the greatest if there is none.
fn get(numbers: &[usize], at: usize) -> usize {
    match numbers.get(at) {
        Some(number) => *number,
        None => usize::MAX,
    }
}

/// Notes a change as the last one that gives its value.
fn note_giver(last: &mut [usize], ops: &[Op], number: usize) {
    if let Some(op) = ops.get(number) {
        if looks(op) {
            return;
        }
        if let Some(place) = last.get_mut(op.to as usize) {
            *place = number.saturating_add(1);
        }
    }
}
