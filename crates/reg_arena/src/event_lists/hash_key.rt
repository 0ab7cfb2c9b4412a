//! The key of an arena's hashes: two random words if the system gives them, which nobody can know beforehand;
//! else a digest of the input or of the events, which can be computed.
use history_text::{Kind, LineEvent, LineFault, Val};
use std::hash::{DefaultHasher, Hash, Hasher};
use std::io;
use std::random::RandomSource;

/// The key of an arena's hashes, which is secret only if it was drawn. It changes no answer; it only keeps
/// names, values and process numbers from being chosen so that their hashes collide.
#[derive(Clone, Copy, Debug, PartialEq, Eq)]
pub struct HashKey {
    /// The first word.
    pub first: u64,
    /// The second word.
    pub second: u64,
}

impl HashKey {
    /// Two words of the system's random bytes; if the system gives none, a digest of the input's bytes.
    pub fn drawn(rt: &impl RandomSource, input: &[u8]) -> Self {
        match (random_word(rt), random_word(rt)) {
            (Ok(first), Ok(second)) => HashKey { first, second },
            _ => HashKey::of_bytes(input),
        }
    }

    /// A digest of these bytes. A change to any of them almost surely changes it.
    pub fn of_bytes(input: &[u8]) -> Self {
        let mut state = DefaultHasher::new();
        input.hash(&mut state);
        HashKey::ended(state)
    }

    /// A digest of all events. It reads the process, the kind and the value of each, and the name
    /// that a call gives, so a change to any of them almost surely changes the key. What else a
    /// reply or a fail says only repeats its call.
    pub fn digest(lines: &[Result<LineEvent, LineFault>]) -> Self {
        let mut state = DefaultHasher::new();
        for line in lines {
            if let Ok(event) = line {
                event.process.hash(&mut state);
                feed(&event.kind, &mut state);
            }
        }
        HashKey::ended(state)
    }

    /// The two words of a digest that has read all.
    ///
    /// It is SipHash's and no fold: the last value of a history is free, and could be chosen so that a fold
    /// ends in a key that was picked beforehand.
    fn ended(mut state: DefaultHasher) -> Self {
        let first = state.finish();
        first.hash(&mut state);
        HashKey {
            first,
            second: state.finish(),
        }
    }
}

/// Eight random bytes.
fn random_word(rt: &impl RandomSource) -> io::Result<u64> {
    let mut bytes = [0; 8];
    rt.fill_bytes(&mut bytes)?;
    Ok(u64::from_le_bytes(bytes))
}

/// Reads which kind it is, then the name of a call, and then the value, so that no
/// two that differ in these are read alike.
fn feed(kind: &Kind, state: &mut DefaultHasher) {
    match kind {
        Kind::CallRead(name) => {
            0_u8.hash(state);
            name.as_str().hash(state);
        }
        Kind::CallWrite(name, value) => {
            1_u8.hash(state);
            name.as_str().hash(state);
            value.hash(state);
        }
        Kind::Reply(parts) => {
            2_u8.hash(state);
            feed_value(parts.value, state);
        }
        Kind::Fail(parts) => {
            3_u8.hash(state);
            feed_value(parts.value, state);
        }
        Kind::Crash => 4_u8.hash(state),
    }
}

/// Reads whether there is a value, and which.
fn feed_value(value: Option<Val>, state: &mut DefaultHasher) {
    match value {
        None => 0_u8.hash(state),
        Some(Val::Null) => 1_u8.hash(state),
        Some(Val::Int(value)) => {
            2_u8.hash(state);
            value.hash(state);
        }
    }
}
