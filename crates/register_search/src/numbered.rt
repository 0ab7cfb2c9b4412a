//! Operations by numbers.
ghost use Rattle.std.specs.Prelude.{◌≡◌, Some, IfOk};
ghost use Rattle.history_text.specs.declared.event.Val.TheVariants.{Int};
ghost use Rattle.register_search.specs.ByNumbers.{AreByNumbers, IsByNumber, IsCas, IsCasUnless, IsMore};
ghost use Rattle.register_search.specs.ByNumbers.{IsOfOne, IsRank, number_in};

use crate::value_numbers::ValueNumbers;
use configurations::{Kind, NEVER, Op};
use history_model::{Act, Operation};
use history_text::Val;
use std::alloc::{AllocError, Global};

/// The number of null.
const NULL: u32 = 0;

/// A number that no value has. The numbers of integers come after it.
const NOTHING: u32 = 1;

/// The operations of a register by numbers, and a number above those of their values.
#[derive(Drop)]
pub(crate) struct Numbered {
    pub ops: Vec<Op>,
    pub values: usize,
}

/// The operations of a register by numbers. Integers are numbered in the order in which they first occur.
pub(crate) fn by_numbers(alloc: Global, ops: &[Operation]) -> Result<Numbered, AllocError>
    ensures { IfOk result (λ numbered. AreByNumbers ops.now numbered.ops.items) }
{
    let mut numbers = ValueNumbers::new(alloc, NOTHING + 1);
    let mut numbered = Vec::new(alloc);
    for op in ops {
        let one = by_number(&mut numbers, op)?;
        numbered.push(one)?;
    }
    Ok(Numbered {
        ops: numbered,
        values: numbers.next() as usize,
    })
}

/// An operation by numbers. A read whose value isn't known meets any value, and so does a cas that misses a
/// number that no value has.
fn by_number(numbers: &mut ValueNumbers, op: &Operation) -> Result<Op, AllocError>
    ensures more { IfOk result (λ _. IsMore numbers.old numbers.new) }
    ensures op { IfOk result (λ o. IsByNumber (number_in numbers.new) op.now o) }
{
    match op.act {
        Act::Read(None) => Ok(of_one(Kind::Miss, NOTHING, op.reply_time())),
        Act::Read(Some(value)) => {
            let number = number_of(numbers, value)?;
            Ok(of_one(Kind::Read, number, op.reply_time()))
        }
        Act::Write(value) => {
            let number = number_of(numbers, value)?;
            Ok(of_one(Kind::Write, number, op.reply_time()))
        }
        Act::Cas { from, to } => {
            let from = number_of(numbers, from)?;
            let to = number_of(numbers, to)?;
            Ok(cas(from, to, op.reply_time()))
        }
        Act::CasUnless { unless, to } => {
            let unless = number_of(numbers, unless)?;
            let to = number_of(numbers, to)?;
            Ok(cas_unless(unless, to, op.reply_time()))
        }
        Act::Miss { from } => {
            let number = number_of(numbers, from)?;
            Ok(of_one(Kind::Miss, number, op.reply_time()))
        }
    }
}

/// An operation of one value.
fn of_one(kind: Kind, number: u32, reply: Option<u32>) -> Op
    ensures op { IsOfOne kind number result }
    ensures rank { IsRank reply result.rank }
{
    Op {
        kind,
        from: number,
        to: number,
        rank: rank(reply),
    }
}

/// A cas. One that gives the value that it finds changes nothing, so it is a read of that value: a search
/// lets reads take effect at once, and need not choose when.
fn cas(from: u32, to: u32, reply: Option<u32>) -> Op
    ensures op { IsCas from to result }
    ensures rank { IsRank reply result.rank }
{
    let kind = if from == to { Kind::Read } else { Kind::Cas };
    Op {
        kind,
        from,
        to,
        rank: rank(reply),
    }
}

/// A cas that finds any value but one.
fn cas_unless(unless: u32, to: u32, reply: Option<u32>) -> Op
    ensures op { IsCasUnless unless to result }
    ensures rank { IsRank reply result.rank }
{
    Op {
        kind: Kind::CasUnless,
        from: unless,
        to,
        rank: rank(reply),
    }
}

/// The rank of an operation with this reply: its time.
fn rank(reply: Option<u32>) -> u64
    ensures { IsRank reply result }
{
    match reply {
        Some(time) => u64::from(time),
        None => NEVER,
    }
}

/// The number of a value, which is a new one if it has none yet.
fn number_of(numbers: &mut ValueNumbers, value: Val) -> Result<u32, AllocError>
    ensures more { IfOk result (λ _. IsMore numbers.old numbers.new) }
    ensures number { IfOk result (λ number. number_in numbers.new value ≡ Some number) }
{
    match value {
        Val::Null => Ok(NULL),
        Val::Int(value) => number_of_integer(numbers, value),
    }
}

/// The number of an integer, which is a new one if it has none yet.
fn number_of_integer(numbers: &mut ValueNumbers, value: i64) -> Result<u32, AllocError>
    ensures more { IfOk result (λ _. IsMore numbers.old numbers.new) }
    ensures number { IfOk result (λ number. number_in numbers.new (Int value) ≡ Some number) }
{
    match numbers.find(value) {
        Some(number) => Ok(number),
        None => {
            let number = numbers.add(value)?;
            Ok(number)
        }
    }
}
