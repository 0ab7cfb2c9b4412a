//! What is done, by its number.
ghost use Rattle.std.specs.Prelude.{◌≡◌, ◌<◌, length, slice_get, IfOk, Some};
ghost use Rattle.reg_report.specs.Pieces.Slots.{AreWithin, with_judgement, with_piece};
ghost use Rattle.reg_report.specs.Pieces.Slots.{with_pieces, with_reads, without_judgement};

use crate::pieces::bad_reads::BadReads;
use crate::pieces::judgement::Judgement;
use crate::pieces::piece::Piece;
use std::alloc::{AllocError, Global};
use std::marker::Model;
use std::mem::replace;

/// What is done for the pieces of a plan: the judgements and the bad reads of cuts, each kind in
/// slots of its own, by number; contracts see the two lists. Where nothing is done, a slot holds the
/// order of no operations, or no bad reads.
#[derive(Drop)]
pub struct Pieces {
    judgements: Vec<Judgement>,
    reads: Vec<BadReads>,
}

impl Model for Pieces {
    ghost use Rattle.reg_report.specs.Pieces.Slots.{PiecesShown};

    ghost Value = { PiecesShown };

    ghost view = { λ p. record { judgements = p.judgements.items; reads = p.reads.items } };
}

impl Pieces {
    /// `count` slots of each kind, with nothing done.
    pub(crate) fn empty(alloc: Global, count: u64) -> Result<Pieces, AllocError>
        ensures judgements { IfOk result (λ pieces. length pieces.judgements ≡ count) }
        ensures reads { IfOk result (λ pieces. length pieces.reads ≡ count) }
    {
        let mut judgements = Vec::with_capacity(alloc, count as usize)?;
        let mut reads = Vec::with_capacity(alloc, count as usize)?;
        for _ in 0..count {
            judgements.push(Judgement::none(alloc))?;
            reads.push(BadReads::none())?;
        }
        Ok(Pieces { judgements, reads })
    }

    /// Puts a judgement into its slot.
    fn put_judgement(&mut self, number: u64, judgement: Judgement)
        requires { number < length self.old.judgements }
        ensures { self.new ≡ with_judgement self.old number judgement }
    {
        self.judgements[number as usize] = judgement;
    }

    /// Puts the first bad reads of a cut into their slot.
    fn put_reads(&mut self, number: u64, reads: BadReads)
        requires { number < length self.old.reads }
        ensures { self.new ≡ with_reads self.old number reads }
    {
        self.reads[number as usize] = reads;
    }

    /// Puts a piece into its slot. A look at a register leaves nothing to keep.
    fn put(&mut self, number: u64, piece: Piece)
        requires judgements { number < length self.old.judgements }
        requires reads { number < length self.old.reads }
        ensures { self.new ≡ with_piece self.old number piece }
    {
        match piece {
            Piece::Judged(judgement) => self.put_judgement(number, judgement),
            Piece::Reads(reads) => self.put_reads(number, reads),
            Piece::Clean | Piece::Skipped => {}
        }
    }

    /// Puts what a worker did into its slots.
    pub(crate) fn put_all(&mut self, mut done: Vec<(u64, Piece)>)
        requires judgements { AreWithin (length self.old.judgements) done.items }
        requires reads { AreWithin (length self.old.reads) done.items }
        ensures { self.new ≡ with_pieces self.old done.items }
    {
        while let Some((number, piece)) = done.pop() {
            self.put(number, piece);
        }
    }

    /// Takes the judgement of a register out of its slot.
    pub fn take_judged(&mut self, number: usize) -> Judgement
        requires { number < length self.old.judgements }
        ensures judgement { slice_get self.old.judgements number ≡ Some result }
        ensures left { self.new ≡ without_judgement self.old number }
    {
        let alloc = *self.judgements.allocator();
        replace(&mut self.judgements[number], Judgement::none(alloc))
    }

    /// The first bad reads of a cut.
    pub fn bad_reads(&self, number: usize) -> BadReads
        requires { number < length self.now.reads }
        ensures { slice_get self.now.reads number ≡ Some result }
    {
        self.reads[number]
    }
}
