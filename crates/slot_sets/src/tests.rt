//! Who is in a set of one word and in one of three, at the edges of the words and past the room.
ghost use Rattle.std.specs.Prelude.{◌*◌, ◌<◌, ◌^◌};

use super::*;
use std::alloc::{AllocError, Global};
use std::test::Fail;

// The set that has these slots.
fn set_of<const W: usize>(slots: &[u32]) -> Slots<W>
    requires room { 64 * W < 2 ^ 32 }
{
    let mut set = Slots::none();
    for slot in slots {
        set.insert(*slot);
    }
    set
}

// The set of three words that has each slot but these.
fn three_without(slots: &[u32]) -> Slots<3> {
    let mut set = Slots::none();
    for slot in 0..192 {
        set.insert(slot);
    }
    for slot in slots {
        set.remove(*slot);
    }
    set
}

// The slots below 256 that the set says it has.
fn asked<const W: usize>(alloc: Global, set: &Slots<W>) -> Result<Vec<u32>, AllocError> {
    let mut slots = Vec::new(alloc);
    for slot in 0..256 {
        if set.has(slot) {
            slots.push(slot)?;
        }
    }
    Ok(slots)
}

// The slots below 256 that the set finds one after another.
fn found<const W: usize>(alloc: Global, set: &Slots<W>) -> Result<Vec<u32>, AllocError> {
    let mut slots = Vec::new(alloc);
    let mut from = 0;
    for _ in 0..256 {
        if let Some(slot) = set.first_from(from) {
            slots.push(slot)?;
            from = slot.saturating_add(1);
        }
    }
    Ok(slots)
}

// A set has what was put in, if it has room for it, and finds it in order.
#[test]
fn slots_put_in(rt: HostRuntime) -> Result<(), Fail> {
    for (put, want) in [
        (&[][..], &[][..]),
        (&[0], &[0]),
        (&[63, 0], &[0, 63]),
        (&[7, 7], &[7]),
        (&[64], &[]),
        (&[191, 5, u32::MAX], &[5]),
    ] {
        let set = set_of::<1>(put);
        assert_eq!(rt; set.count() as usize, want.len(), "how many, of {put:?}");
        assert_eq!(rt;
            asked(rt.alloc(), &set)?.as_slice(),
            want,
            "has, of {put:?}"
        );
        assert_eq!(rt;
            found(rt.alloc(), &set)?.as_slice(),
            want,
            "finds, of {put:?}"
        );
    }
    for (put, want) in [
        (&[][..], &[][..]),
        (&[64, 63], &[63, 64]),
        (&[127], &[127]),
        (&[191, 128, 0], &[0, 128, 191]),
        (&[192], &[]),
        (&[64, 192, u32::MAX], &[64]),
    ] {
        let set = set_of::<3>(put);
        assert_eq!(rt; set.count() as usize, want.len(), "how many, of {put:?}");
        assert_eq!(rt;
            asked(rt.alloc(), &set)?.as_slice(),
            want,
            "has, of {put:?}"
        );
        assert_eq!(rt;
            found(rt.alloc(), &set)?.as_slice(),
            want,
            "finds, of {put:?}"
        );
    }
    Ok(())
}

// What is taken out is gone, and nothing else is; nothing happens past the room.
#[test]
fn slots_taken_out(rt: HostRuntime) -> Result<(), Fail> {
    for (out, want) in [
        (0, &[63, 64, 127, 191][..]),
        (63, &[0, 64, 127, 191]),
        (64, &[0, 63, 127, 191]),
        (127, &[0, 63, 64, 191]),
        (191, &[0, 63, 64, 127]),
        (1, &[0, 63, 64, 127, 191]),
        (192, &[0, 63, 64, 127, 191]),
        (u32::MAX, &[0, 63, 64, 127, 191]),
    ] {
        let mut set = set_of::<3>(&[0, 63, 64, 127, 191]);
        set.remove(out);
        assert_eq!(rt; asked(rt.alloc(), &set)?.as_slice(), want, "without {out}");
    }
    let mut set = set_of::<1>(&[0, 63]);
    set.remove(64);
    assert_eq!(rt; asked(rt.alloc(), &set)?.as_slice(), &[0, 63][..]);
    set.remove(63);
    assert_eq!(rt; asked(rt.alloc(), &set)?.as_slice(), &[0][..]);
    Ok(())
}

// Two sets that share 63 and 191, and what is made of them; the same of one word.
#[test]
fn sets_made_of_two(rt: HostRuntime) -> Result<(), Fail> {
    let a = set_of::<3>(&[0, 63, 127, 191]);
    let b = set_of::<3>(&[63, 64, 191]);
    for (name, made, want) in [
        ("union", a.union(&b), &[0, 63, 64, 127, 191][..]),
        ("common", a.common(&b), &[63, 191]),
        ("minus", a.minus(&b), &[0, 127]),
        ("minus, turned round", b.minus(&a), &[64]),
        ("either", a.either(&b), &[0, 64, 127]),
    ] {
        assert_eq!(rt; asked(rt.alloc(), &made)?.as_slice(), want, "{name}");
    }
    let a = set_of::<1>(&[0, 1, 63]);
    let b = set_of::<1>(&[1, 2]);
    for (name, made, want) in [
        ("union", a.union(&b), &[0, 1, 2, 63][..]),
        ("common", a.common(&b), &[1]),
        ("minus", a.minus(&b), &[0, 63]),
        ("minus, turned round", b.minus(&a), &[2]),
        ("either", a.either(&b), &[0, 2, 63]),
    ] {
        assert_eq!(rt;
            asked(rt.alloc(), &made)?.as_slice(),
            want,
            "{name} of one word"
        );
    }
    Ok(())
}

// Whether one set is within another, and whether they meet: a word that decides may be any of the three.
#[test]
fn sets_compared(rt: HostRuntime) -> Result<(), Fail> {
    for (a, b, is_within, meets) in [
        (&[][..], &[][..], true, false),
        (&[], &[191], true, false),
        (&[0], &[], false, false),
        (&[63], &[63], true, true),
        (&[63], &[64], false, false),
        (&[0, 64], &[0, 64, 191], true, true),
        (&[0, 64, 191], &[0, 64], false, true),
        (&[191], &[127, 191], true, true),
        (&[127], &[63, 191], false, false),
    ] {
        let (first, second) = (set_of::<3>(a), set_of::<3>(b));
        assert_eq!(rt; first.is_within(&second), is_within, "{a:?} within {b:?}");
        assert_eq!(rt; first.meets(&second), meets, "{a:?} meets {b:?}");
    }
    for (a, b, is_within, meets) in [
        (&[][..], &[63][..], true, false),
        (&[63], &[0, 63], true, true),
        (&[0, 63], &[63], false, true),
        (&[0], &[63], false, false),
    ] {
        let (first, second) = (set_of::<1>(a), set_of::<1>(b));
        assert_eq!(rt; first.is_within(&second), is_within, "{a:?} within {b:?}");
        assert_eq!(rt; first.meets(&second), meets, "{a:?} meets {b:?}");
    }
    Ok(())
}

// The first slot from a slot on: that slot itself, one of a later word, or none.
#[test]
fn first_slot(rt: HostRuntime) {
    let set = set_of::<3>(&[0, 63, 64, 191]);
    for (from, want) in [
        (0, Some(0)),
        (1, Some(63)),
        (63, Some(63)),
        (64, Some(64)),
        (65, Some(191)),
        (128, Some(191)),
        (191, Some(191)),
        (192, None),
        (u32::MAX, None),
    ] {
        assert_eq!(rt; set.first_from(from), want, "from {from}");
    }
    assert_eq!(rt; set_of::<3>(&[63]).first_from(64), None);
    assert_eq!(rt; set_of::<3>(&[]).first_from(0), None);
    let set = set_of::<1>(&[5, 63]);
    for (from, want) in [
        (0, Some(5)),
        (5, Some(5)),
        (6, Some(63)),
        (63, Some(63)),
        (64, None),
    ] {
        assert_eq!(rt; set.first_from(from), want, "from {from}, of one word");
    }
}

// The first slot that a set hasn't: in any of the words, or none if the set is full.
#[test]
fn first_slot_missing(rt: HostRuntime) {
    for (without, want) in [
        (&[][..], None),
        (&[0], Some(0)),
        (&[63], Some(63)),
        (&[191, 64], Some(64)),
        (&[191], Some(191)),
        (&[192], None),
    ] {
        assert_eq!(rt;
            three_without(without).first_missing(),
            want,
            "without {without:?}"
        );
    }
    assert_eq!(rt; set_of::<3>(&[]).first_missing(), Some(0));
    assert_eq!(rt; set_of::<1>(&[0, 1, 3]).first_missing(), Some(2));
    let mut full = set_of::<1>(&[]);
    for slot in 0..64 {
        full.insert(slot);
    }
    assert_eq!(rt; full.first_missing(), None);
    full.remove(63);
    assert_eq!(rt; full.first_missing(), Some(63));
}
