//! The pairs of a register and a value that ascend: each leads back to the one before it, and many to one
//! further back, so that a value is found in a logarithm of steps.
ghost use Rattle.std.specs.Prelude.{◌≡◌, ◌<◌, ◌≤◌, ◌⊎◌, ◌<ℤ◌, ◌≤ℤ◌, ℕ, ℤ, true};
ghost use Rattle.std.specs.Prelude.{false, length, slice_get, IfSome, Some, None};
ghost use Rattle.reg_arena.specs.Lists.Pairs.{IsAscending, IsAscent};
ghost use Rattle.reg_arena.specs.declared.event_lists.ascent.Pair.{Pair as APair};

/// A pair of a register and a value, and what leads to others of its register.
#[derive(Clone, Copy)]
pub(crate) struct Pair {
    pub(crate) register: u32,
    /// How many pairs lead up to this one, itself included, or 0 if it doesn't ascend.
    pub(crate) depth: u32,
    /// The ascending pair before it, or itself if it is the first one.
    pub(crate) previous: u32,
    /// An ascending pair further back. No contract speaks of it; a search looks whether it goes too far.
    jump: u32,
    /// The value; none is null.
    pub(crate) value: Option<i64>,
}

const _: () = prove!(size_of::<Pair>() == 32);

impl Pair {
    /// The pair that ascends from the last one of its register, `top`, if there is one, and gets this number.
    pub(crate) fn ascending(
        pairs: &[Pair],
        top: Option<u32>,
        number: u32,
        register: u32,
        value: i64,
    ) -> Self
        requires { IfSome top (λ t. t < length pairs.now) }
        ensures register { result.register ≡ register }
        ensures value { result.value ≡ Some value }
        ensures deep { 0 < result.depth }
        ensures first { top ≡ None → result.previous ≡ number }
        ensures next { (t : ℕ) → top ≡ Some t → result.previous ≡ t }
    {
        let (depth, previous, jump) = match top {
            None => (1, number, number),
            Some(top) => {
                let depth = pairs[top as usize].depth;
                (depth.saturating_add(1), top, jump_from(pairs, top))
            }
        };
        Pair {
            register,
            depth,
            previous,
            jump,
            value: Some(value),
        }
    }

    /// A pair that doesn't ascend.
    pub(crate) fn apart(register: u32, value: Option<i64>) -> Self
        ensures register { result.register ≡ register }
        ensures value { result.value ≡ value }
        ensures depth { result.depth ≡ 0 }
    {
        Pair {
            register,
            depth: 0,
            previous: 0,
            jump: 0,
            value,
        }
    }

    /// Whether its value is less than this one.
    pub(crate) fn is_below(self, value: i64) -> bool
        ensures below { result ≡ true → (v : ℤ) × (self.value ≡ Some v) × (v <ℤ value) }
        ensures other { result ≡ false → (v : ℤ) → self.value ≡ Some v → value ≤ℤ v }
    {
        self.value.is_some_and(|found| found < value)
    }

    /// Whether its value is greater than this one.
    fn is_above(self, value: i64) -> bool
        ensures above { result ≡ true → (v : ℤ) × (self.value ≡ Some v) × (value <ℤ v) }
        ensures other { result ≡ false → (v : ℤ) → self.value ≡ Some v → v ≤ℤ value }
    {
        self.value.is_some_and(|found| found > value)
    }

    /// Whether it ascends in this register, and its value isn't less than this one.
    fn is_at_least(self, register: u32, value: i64) -> bool
        ensures { result ≡ true → (v : ℤ) × (self.register ≡ register) × (0 < self.depth)
            × (self.value ≡ Some v) × (value ≤ℤ v) }
    {
        self.value.is_some_and(|found| self.depth > 0
            && self.register == register
            && found >= value)
    }
}

/// Where a pair jumps to, and how many steps back that is.
fn jump_of(pairs: &[Pair], number: u32) -> Option<(u32, u32)> {
    let pair = pairs.get(number as usize)?;
    let far = pairs.get(pair.jump as usize)?;
    Some((pair.jump, pair.depth.saturating_sub(far.depth)))
}

/// Where the jumps of a pair and of the one that it leads to end together, if both are of one length.
fn end_of_two_jumps(pairs: &[Pair], number: u32) -> Option<u32> {
    let (near, length) = jump_of(pairs, number)?;
    let (far, next_length) = jump_of(pairs, near)?;
    if length == next_length {
        Some(far)
    } else {
        None
    }
}

/// Where the pair after `top` jumps to. So chosen, the jumps let a search take a logarithm of steps (Myers,
/// An applicative random-access stack, 1983).
fn jump_from(pairs: &[Pair], top: u32) -> u32 {
    end_of_two_jumps(pairs, top).unwrap_or(top)
}

/// Where a search for a value of a register goes from the pair `at`, which is above it.
fn back_from(pairs: &[Pair], at: u32, register: u32, value: i64) -> u32
    requires { at < length pairs.now }
    ensures { (p : APair) → slice_get pairs.now at ≡ Some p
        → (result ≡ p.previous)
        ⊎ ((v : ℤ) × IsAscending pairs.now result register v × (value ≤ℤ v) × (result < at)) }
{
    let pair = pairs[at as usize];
    match pairs.get(pair.jump as usize) {
        Some(far) if pair.jump < at && far.is_at_least(register, value) => pair.jump,
        _ => pair.previous,
    }
}

/// The number of the ascending pair of a register with this value, if there is one. `top` is
/// the last ascending pair of the register.
pub(crate) fn find(pairs: &[Pair], register: u32, value: i64, top: u32) -> Option<u32>
    requires ascent { IsAscent pairs.now }
    requires top { (v : ℤ) × IsAscending pairs.now top register v }
    requires last { (n : ℕ) (v : ℤ) → IsAscending pairs.now n register v → n ≤ top }
    ensures some { IfSome result (λ n. IsAscending pairs.now n register value) }
    ensures none { result ≡ None → (n : ℕ) → IsAscending pairs.now n register value → ⊥ }
{
    let mut at = top;
    while pairs[at as usize].is_above(value) {
        let next = back_from(pairs, at, register, value);
        if next >= at {
            return None;
        }
        at = next;
    }
    if pairs[at as usize].is_below(value) {
        None
    } else {
        Some(at)
    }
}
