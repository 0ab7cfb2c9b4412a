//! Marks by their keys, so that of all with greater keys the one of least rank is found.
ghost use Rattle.std.specs.Prelude.{◌<◌, ◌≤◌, length, IfOk, IsPermutation};
ghost use Rattle.std.specs.List.{AllWithin};
ghost use Rattle.std.specs.List.Sorted.{IsNonDecreasingBy};
ghost use Rattle.reg_levels.specs.Counts.Marks.{AreFlat, AreLeast, IsFirstAbove, IsLower, IsRanked, mark_key};

use crate::counts::mark::Mark;
use std::alloc::{AllocError, Global};

/// Marks by their keys.
#[derive(Drop)]
pub(crate) struct Ranking {
    pub(crate) marks: Vec<Mark>,
    /// For each number, of so many last marks and one more, the one of least rank.
    pub(crate) least: Vec<Mark>,
}

impl Ranking {
    /// Of the marks of operations, one for each that has one.
    pub(crate) fn of(alloc: Global, marks: &[Option<Mark>]) -> Result<Ranking, AllocError>
        ensures flat { IfOk result (λ ranking. AreFlat marks.now (length marks.now) ranking.marks.items) }
        ensures ranked { IfOk result (λ ranking. IsRanked ranking.marks.items ranking.least.items) }
    {
        let mut flat = flat(alloc, marks)?;
        sort_by_key(&mut flat);
        let least = least(alloc, &flat)?;
        Ok(Ranking { marks: flat, least })
    }

    /// Of the marks with a greater key, the one of least rank; none if there is none.
    pub(crate) fn first_above(&self, key: u32) -> Option<Mark>
        requires { IsRanked self.now.marks.items self.now.least.items }
        ensures { IsFirstAbove self.now.marks.items key result }
    {
        let passed = passed(&self.marks, key);
        let rest = self.marks.len() - passed;
        if rest == 0 {
            None
        } else {
            Some(self.least[rest - 1])
        }
    }
}

/// How many marks have no greater key. They stand by their keys.
fn passed(marks: &[Mark], key: u32) -> usize
    requires { IsNonDecreasingBy mark_key marks.now }
    ensures within { result ≤ length marks.now }
    ensures low { AllWithin (λ m. m.key ≤ key) marks.now 0 result }
    ensures high { AllWithin (λ m. key < m.key) marks.now result (length marks.now) }
{
    marks.partition_point(|mark| mark.key <= key)
}

/// The marks that there are.
fn flat(alloc: Global, marks: &[Option<Mark>]) -> Result<Vec<Mark>, AllocError>
    ensures { IfOk result (λ list. AreFlat marks.now (length marks.now) list.items) }
{
    let mut list = Vec::new(alloc);
    for place in 0..marks.len() {
        match marks[place] {
            Some(mark) => list.push(mark)?,
            None => {}
        }
    }
    Ok(list)
}

/// Sorts marks by their keys.
fn sort_by_key(marks: &mut Vec<Mark>)
    ensures permutation { IsPermutation marks.old.items marks.new.items }
    ensures ascending { IsNonDecreasingBy mark_key marks.new.items }
{
    marks.sort_unstable_by_key(|mark| mark.key);
}

/// For each mark the one of least rank from it on, the last mark first.
fn least(alloc: Global, marks: &[Mark]) -> Result<Vec<Mark>, AllocError>
    ensures { IfOk result (λ least. AreLeast marks.now (length marks.now) least.items) }
{
    let mut least = Vec::with_capacity(alloc, marks.len())?;
    for done in 0..marks.len() {
        let mark = marks[marks.len() - 1 - done];
        let best = if done == 0 {
            mark
        } else {
            lower(least[done - 1], mark)
        };
        least.push(best)?;
    }
    Ok(least)
}

/// The one of lower rank.
fn lower(one: Mark, other: Mark) -> Mark
    ensures { IsLower one other result }
{
    if other.rank < one.rank { other } else { one }
}
