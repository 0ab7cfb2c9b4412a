//! Process numbers on both sides of the table's limit, and the key of the hashes.
use crate::regcheck::expect::expect_eq;
use crate::regcheck::short::{arena_of, lines};
use crate::regcheck::walks::{add_process, add_walks};
use history_text::{LineEvent, LineFault};
use reg_arena::{Arena, HashKey, Numbering};
use std::alloc::Global;
use std::io;
use std::process::Abort;
use std::random::RandomSource;
use std::test::Fail;
use std::thread::Threads;

/// Processes on both sides of the table's limit, which is the number of events, 12. Of them 1, 13 and 25
/// leave the same when divided by it, and so do 0 and 12.
const MIXED: &str =
    "p11 W x 1; p12 R x; p1 R y; p4294967295 R x; p13 R y; p11 ok; p12 = 1; p0 R x; p25 R y; p1 = null; p13 = null; p12 R x";

// The lines of each process in `MIXED`, and of some that have none.
fn lists() -> &'static [(u32, &'static str)] {
    &[
        (0, " 8"),
        (1, " 3 10"),
        (2, ""),
        (10, ""),
        (11, " 1 6"),
        (12, " 2 7 12"),
        (13, " 5 11"),
        (14, ""),
        (24, ""),
        (25, " 9"),
        (4_294_967_295, " 4"),
    ]
}

// The lines of a process.
fn process_lines(alloc: Global, arena: &Arena, process: u32) -> Result<String, Fail> {
    let mut text = String::new(alloc);
    add_process(&mut text, arena, process)?;
    Ok(text)
}

// Each of these processes has its lines.
fn expect_lists(rt: &(impl AllocGlobal + Abort), arena: &Arena) -> Result<(), Fail> {
    for (process, want) in lists() {
        let text = process_lines(rt.alloc(), arena, *process)?;
        expect_eq(rt, &text.as_str(), want, process);
    }
    Ok(())
}

#[test]
fn small_and_large_processes_keep_their_lists(rt: HostRuntime) -> Result<(), Fail> {
    let arena = arena_of(&rt, rt.alloc(), MIXED)?;
    expect_lists(&rt, &arena)
}

// A system whose random bytes are all the same.
struct Alike {
    byte: u8,
}

impl RandomSource for Alike {
    fn fill_bytes(&self, buf: &mut [u8]) -> io::Result<()> {
        for byte in buf.iter_mut() {
            *byte = self.byte;
        }
        Ok(())
    }
}

// A system that gives no random bytes.
struct Refusing;

impl RandomSource for Refusing {
    fn fill_bytes(&self, _buf: &mut [u8]) -> io::Result<()> {
        Err(io::Error::from_raw_os_error(5))
    }
}

// The lines of a history in short, each of them a part, and a part without lines.
fn parts(
    rt: &(impl Threads + Sync),
    alloc: Global,
    history: &str,
) -> Result<Vec<Vec<Result<LineEvent, LineFault>>>, Fail> {
    let mut parts = Vec::new(alloc);
    parts.push(Vec::new(alloc))?;
    for line in lines(rt, alloc, history)? {
        let mut part = Vec::new(alloc);
        part.push(line)?;
        parts.push(part)?;
    }
    Ok(parts)
}

// Both words differ.
fn expect_different(rt: &impl Abort, one: HashKey, other: HashKey) {
    assert_ne!(rt; one.first, other.first);
    assert_ne!(rt; one.second, other.second);
}

// The key that is drawn has the random bytes in both words.
fn expect_drawn(rt: &impl Abort, drawn: HashKey) {
    let bytes = 0x5A5A_5A5A_5A5A_5A5A;
    let want = HashKey {
        first: bytes,
        second: bytes,
    };
    expect_eq(rt, &drawn, &want, &"the key that is drawn");
}

// Inputs that differ in little from the one whose digest is taken.
fn other_inputs() -> &'static [&'static str] {
    &["p1 W x 6", "p2 W x 5", "p1 W x 5 ", ""]
}

// The digest of this input, which other inputs don't have.
fn expect_digest(rt: &impl Abort, digest: HashKey, input: &[u8]) {
    assert_ne!(rt; digest.first, digest.second);
    let again = HashKey::drawn(&Refusing, input);
    expect_eq(rt, &digest, &again, &"the same digest again");
    for other in other_inputs() {
        expect_different(rt, digest, HashKey::drawn(&Refusing, other.as_bytes()));
    }
}

// With random bytes the key is drawn, and without them it is a digest.
fn expect_keys(rt: &impl Abort, input: &[u8]) {
    let drawn = HashKey::drawn(&Alike { byte: 0x5A }, input);
    expect_drawn(rt, drawn);
    let digest = HashKey::drawn(&Refusing, input);
    assert!(rt; digest != drawn);
    expect_digest(rt, digest, input);
}

#[test]
fn a_key_is_drawn_or_a_digest(rt: HostRuntime) {
    expect_keys(&rt, "p1 W x 5".as_bytes());
}

// Lines that differ from one another in one part: a process, a kind, a name, a value, whether a reply has
// one, or the order.
fn different() -> &'static [&'static str] {
    &[
        "p1 W x 5; p1 ok",
        "p2 W x 5; p1 ok",
        "p65537 W x 5; p1 ok",
        "p1 W y 5; p1 ok",
        "p1 W x 6; p1 ok",
        "p1 R x; p1 ok",
        "p1 W x 5; p1 = 5",
        "p1 W x 5; p1 = 6",
        "p1 W x 5; p1 = null",
        "p1 W x 5; p2 ok",
        "p1 ok; p1 W x 5",
        "p1 W x 5; p1 fail",
        "p1 W x 5; p1 fail = 5",
        "p1 W x 5; p1 crash",
    ]
}

// The digest of a history in short.
fn digest_of(rt: &(impl Threads + Sync), alloc: Global, history: &str) -> Result<HashKey, Fail> {
    Ok(HashKey::digest(&lines(rt, alloc, history)?))
}

// The digest has two words, and differs from those before it in both.
fn expect_new(rt: &impl Abort, digest: HashKey, before: &[HashKey]) {
    assert_ne!(rt; digest.first, digest.second);
    for other in before {
        expect_different(rt, digest, *other);
    }
}

// The digest of each of these histories differs from those of the histories before it.
fn expect_new_digests(rt: &(impl Threads + AllocGlobal + Abort + Sync)) -> Result<(), Fail> {
    let mut before = Vec::new(rt.alloc());
    for history in different() {
        let digest = digest_of(rt, rt.alloc(), history)?;
        expect_new(rt, digest, &before);
        before.push(digest)?;
    }
    Ok(())
}

#[test]
fn a_digest_reads_every_part(rt: HostRuntime) -> Result<(), Fail> {
    expect_new_digests(&rt)
}

/// Registers, values and processes whose hashes all collide under a second word of 0.
const KEYED: &str =
    "p1 R x; p2 R y; p70000 W x 1; p70001 W y 2; p1 = 1; p2 = 2; p70000 ok; p70001 ok; p3 W y 1; p70000 R y";

/// The walks of `KEYED`, and the lines of process 70,000 after them.
const WALKS: &str =
    "register 0: 1 3 5 7 | | 3 5 7 | | |; register 1: 2 4 6 8 9 10 | | 9 | 4 6 8 | |; p1: 1 5; p2: 2 6; p3: 9; p4:;  3 7 10";

// The arena of `KEYED` by this key.
fn keyed(rt: &(impl Threads + Sync), alloc: Global, key: HashKey) -> Result<Arena, Fail> {
    let lines = parts(rt, alloc, KEYED)?;
    let numbered = Numbering::new(alloc, key).number_parts(alloc, lines)?;
    match Arena::empty(alloc, key, 4)?.with_lines(alloc, &numbered) {
        Ok(arena) => Ok(arena),
        Err(_) => Err(Fail::from("the history was refused")),
    }
}

// The walks of that arena.
fn walks_by(rt: &(impl Threads + Sync), alloc: Global, key: HashKey) -> Result<String, Fail> {
    let arena = keyed(rt, alloc, key)?;
    let mut text = String::new(alloc);
    add_walks(&mut text, &arena)?;
    add_process(&mut text, &arena, 70_000)?;
    Ok(text)
}

// The two words of keys.
fn words() -> &'static [(u64, u64)] {
    &[
        (0, 0),
        (0, 1),
        (1, 0),
        (u64::MAX, u64::MAX),
        (0x5A5A, 0xA5A5),
    ]
}

// The walks are the same by each of these keys.
fn expect_same_walks(rt: &(impl Threads + AllocGlobal + Abort + Sync)) -> Result<(), Fail> {
    for (first, second) in words() {
        let key = HashKey {
            first: *first,
            second: *second,
        };
        let walks = walks_by(rt, rt.alloc(), key)?;
        expect_eq(rt, &walks.as_str(), &WALKS, &key);
    }
    Ok(())
}

#[test]
fn no_key_changes_an_answer(rt: HostRuntime) -> Result<(), Fail> {
    expect_same_walks(&rt)
}
