//! The segments into which changes cut the time of a register, and where in them an operation may stand.
//! Nothing is proved of it but that it is safe.
use configurations::Taken;
use history_model::{Act, Operation};
use history_text::Val;
use std::alloc::{AllocError, Global};

/// Most lives meet fewer segments than this: these are looked at one by one, before any list of them is made.
const NEAR: usize = 16;

/// The time from a change to the next one. The first begins at the start, and the last lasts to the end.
#[derive(Clone, Copy)]
struct Segment {
    /// The place, among the events, of the reply just before which it begins.
    from: usize,
    /// The value of the register.
    value: Val,
    /// Whether the change that it begins with is a write.
    is_written: bool,
}

/// Where an operation stands in its segment.
#[derive(Clone, Copy, PartialEq, Eq)]
pub(crate) enum Spot {
    /// It is the change that the segment begins with.
    First,
    /// It leaves the value as it is.
    Inside,
    /// It is a write, and the next segment begins with another.
    Last,
}

/// What the segments near the call of an operation say of where it may stand.
enum Near {
    At(usize, Spot),
    Nowhere,
    /// Nowhere near; its life meets more segments.
    Beyond,
}

/// Where to find the segments from a place on: each list ascends, so a look-up halves it.
#[derive(Drop)]
struct Finder {
    /// The segments by value.
    valued: Vec<(Option<i64>, usize)>,
    /// Those with another value than the one before them.
    turns: Vec<usize>,
    /// Those before a segment that a write begins.
    last_before_writes: Vec<usize>,
}

/// The segments of a register.
#[derive(Drop)]
pub(crate) struct Segments {
    all: Vec<Segment>,
    /// The lists of these, once a life meets many.
    finder: Option<Finder>,
}

impl Segments {
    /// The segments into which these changes cut the time.
    pub(crate) fn new(
        alloc: Global,
        ops: &[Operation],
        changes: &[Taken],
    ) -> Result<Self, AllocError> {
        let mut last = Segment {
            from: 0,
            value: Val::Null,
            is_written: false,
        };
        let mut all = Vec::new(alloc);
        all.push(last)?;
        for change in changes {
            last = next_segment(ops, last, *change);
            all.push(last)?;
        }
        Ok(Segments { all, finder: None })
    }

    /// How many there are.
    pub(crate) fn len(&self) -> usize {
        self.all.len()
    }

    /// How many have begun by the event at a place, if so many have begun before.
    pub(crate) fn begun_by(&self, before: usize, place: usize) -> usize {
        for begun in before..self.all.len() {
            if self.all[begun].from > place {
                return begun;
            }
        }
        self.all.len()
    }

    /// The first segment from this one on in which an act may stand whose reply is the event at a place, with
    /// the part that it has there: none if each such segment begins after that.
    pub(crate) fn place_for(
        &mut self,
        alloc: Global,
        act: Act,
        from: usize,
        reply: usize,
    ) -> Result<Option<(usize, Spot)>, AllocError> {
        match near_place(&self.all, act, from, reply) {
            Near::At(segment, part) => Ok(Some((segment, part))),
            Near::Nowhere => Ok(None),
            Near::Beyond => self.place_beyond(alloc, act, from, reply),
        }
    }

    /// The same by the lists, which are made if there are none yet.
    fn place_beyond(
        &mut self,
        alloc: Global,
        act: Act,
        from: usize,
        reply: usize,
    ) -> Result<Option<(usize, Spot)>, AllocError> {
        if self.finder.is_none() {
            self.finder = Some(finder_of(alloc, &self.all)?);
        }
        match &self.finder {
            Some(finder) => Ok(finder.place_for(&self.all, act, from, reply)),
            None => Ok(None),
        }
    }
}

/// The segment that begins with this change.
fn next_segment(ops: &[Operation], last: Segment, change: Taken) -> Segment {
    let from = change.place as usize;
    match ops.get(change.number as usize) {
        Some(op) => Segment {
            from,
            value: op.act.left(last.value),
            is_written: is_write(op.act),
        },
        None => Segment { from, ..last },
    }
}

/// Whether an act is a write.
fn is_write(act: Act) -> bool {
    matches!(act, Act::Write(_))
}

/// Whether an act may take effect at a value and leaves it as it is.
fn leaves(act: Act, value: Val) -> bool {
    match act {
        Act::Read(None) => true,
        Act::Read(Some(given)) => given == value,
        Act::Write(written) => written == value,
        Act::Cas { from, to } => from == value && to == value,
        Act::CasUnless { .. } => false,
        Act::Miss { from } => from != value,
    }
}

/// Where an act may stand in the segments from one on that are near.
fn near_place(segments: &[Segment], act: Act, from: usize, reply: usize) -> Near {
    let end = segments.len().min(from.saturating_add(NEAR));
    for place in from..end {
        let segment = segments[place];
        if segment.from > reply {
            return Near::Nowhere;
        }
        if leaves(act, segment.value) {
            return Near::At(place, Spot::Inside);
        }
        if is_write(act) && is_written_by(segments, place + 1, reply) {
            return Near::At(place, Spot::Last);
        }
    }
    if end == segments.len() {
        Near::Nowhere
    } else {
        Near::Beyond
    }
}

/// Whether a segment begins before the event at a place, with a write.
fn is_written_by(segments: &[Segment], segment: usize, place: usize) -> bool {
    segments
        .get(segment)
        .is_some_and(|one| one.is_written && one.from <= place)
}

/// The lists of these segments.
fn finder_of(alloc: Global, segments: &[Segment]) -> Result<Finder, AllocError> {
    let mut finder = Finder {
        valued: Vec::new(alloc),
        turns: Vec::new(alloc),
        last_before_writes: Vec::new(alloc),
    };
    let mut before = Val::Null;
    for (place, segment) in segments.iter().enumerate() {
        finder.valued.push((number_of(segment.value), place))?;
        if segment.value != before {
            finder.turns.push(place)?;
        }
        if segment.is_written && place > 0 {
            finder.last_before_writes.push(place - 1)?;
        }
        before = segment.value;
    }
    finder.valued.sort_unstable();
    Ok(finder)
}

/// The number of a value; null has none.
fn number_of(value: Val) -> Option<i64> {
    match value {
        Val::Null => None,
        Val::Int(number) => Some(number),
    }
}

/// The first of ascending places from this one on.
fn next_of(places: &[usize], from: usize) -> Option<usize> {
    let passed = places.partition_point(|place| *place < from);
    places.get(passed).copied()
}

impl Finder {
    /// The first segment from this one on that has this value.
    fn with_value(&self, value: Val, from: usize) -> Option<usize> {
        let number = number_of(value);
        let passed = self.valued.partition_point(|one| *one < (number, from));
        let found = self.valued.get(passed)?;
        if found.0 == number {
            Some(found.1)
        } else {
            None
        }
    }

    /// The first segment from this one on that has another value.
    fn without_value(&self, segments: &[Segment], value: Val, from: usize) -> Option<usize> {
        if segments.get(from)?.value == value {
            next_of(&self.turns, from + 1)
        } else {
            Some(from)
        }
    }

    /// The first segment from this one on inside which an act may stand, since it leaves the value as it is.
    fn inside(&self, segments: &[Segment], act: Act, from: usize) -> Option<usize> {
        match act {
            Act::Read(None) => Some(from),
            Act::Read(Some(value)) => self.with_value(value, from),
            Act::Write(value) => self.with_value(value, from),
            Act::Cas { from: found, to } if found == to => self.with_value(found, from),
            Act::Cas { .. } => None,
            Act::CasUnless { .. } => None,
            Act::Miss { from: value } => self.without_value(segments, value, from),
        }
    }

    /// The first segment from this one on at whose end an act may stand, if that is a write.
    fn at_end(&self, act: Act, from: usize) -> Option<usize> {
        if is_write(act) {
            next_of(&self.last_before_writes, from)
        } else {
            None
        }
    }

    /// The first segment from this one on in which an act may stand whose reply is the event at a place.
    fn place_for(
        &self,
        segments: &[Segment],
        act: Act,
        from: usize,
        reply: usize,
    ) -> Option<(usize, Spot)> {
        let inside = self
            .inside(segments, act, from)
            .filter(|place| begins_by(segments, *place, reply));
        let at_end = self.at_end(act, from).filter(|place| begins_by(
            segments,
            place.saturating_add(1),
            reply,
        ));
        first_of(inside, at_end)
    }
}

/// Whether a segment begins before the event at a place.
fn begins_by(segments: &[Segment], segment: usize, place: usize) -> bool {
    segments.get(segment).is_some_and(|one| one.from <= place)
}

/// The first of two segments, with the part in which an operation may stand there.
fn first_of(inside: Option<usize>, at_end: Option<usize>) -> Option<(usize, Spot)> {
    match (inside, at_end) {
        (Some(inside), Some(end)) if end < inside => Some((end, Spot::Last)),
        (Some(inside), _) => Some((inside, Spot::Inside)),
        (None, Some(end)) => Some((end, Spot::Last)),
        (None, None) => None,
    }
}
