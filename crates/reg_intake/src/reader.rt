//! What reads ahead of the arena: the lines of one block are numbered while those of the next are read.
ghost use Rattle.std.specs.Prelude.{◌≡◌, ◌+◌, ◌≤◌, [], length, IfOk};
ghost use Rattle.history_text.specs.declared.limits.TheConstants.{MAX_INPUT};
ghost use Rattle.reg_intake.specs.Underway.{AreNumberedBehind, IsReadOn, lines_in, waiting};

use crate::intake::Intake;
use history_text::{LineEvent, LineFault};
use parallel::both_mut;
use reg_arena::{HashKey, NumberedLines, Numbering};
use std::alloc::{AllocError, Global};
use std::collections::VecDeque;
use std::mem::replace;
use std::thread::Threads;

/// What the reading side keeps from turn to turn.
#[derive(Drop)]
pub(crate) struct Reader {
    pub(crate) alloc: Global,
    /// Whether there is one processor alone, so that a thread more would gain nothing.
    pub(crate) has_one_processor: bool,
    /// The numbers of the registers so far.
    numbering: Numbering,
    /// The lines that were read last, in parts. They have no numbers yet.
    pub(crate) unnumbered: Vec<Vec<Result<LineEvent, LineFault>>>,
    /// The lines that were taken in last. They are dropped here, so that the thread which builds the arena
    /// needn't.
    pub(crate) spent: VecDeque<NumberedLines>,
}

impl Reader {
    /// Nothing is read, and no register has a number. The key is that of the names' hashes.
    pub(crate) fn new(alloc: Global, has_one_processor: bool, key: HashKey) -> Self
        ensures none { result.unnumbered.items ≡ [] }
        ensures names { result.numbering ≡ [] }
    {
        Reader {
            alloc,
            has_one_processor,
            numbering: Numbering::new(alloc, key),
            unnumbered: Vec::new(alloc),
            spent: VecDeque::new(alloc),
        }
    }

    /// Drops the lines that were taken in last, and numbers those that were read.
    fn number(&mut self) -> Result<Vec<NumberedLines>, AllocError>
        ensures lines { IfOk result (λ parts. lines_in parts.items ≡ waiting self.old) }
        ensures numbered { IfOk result (λ parts.
            AreNumberedBehind self.old.numbering self.new.numbering parts.items) }
        ensures none { self.new.unnumbered.items ≡ [] }
    {
        self.spent.clear();
        let parts = replace(&mut self.unnumbered, Vec::new(self.alloc));
        self.numbering.number_parts(self.alloc, parts)
    }

    /// Reads the whole lines that are held, and numbers all that were read.
    pub(crate) fn read_and_number<T: Threads + Sync>(
        &mut self,
        rt: &T,
        intake: &mut Intake,
    ) -> Result<Vec<NumberedLines>, AllocError>
        requires { intake.old.next_line + length intake.old.held ≤ MAX_INPUT + 1 }
        ensures read { IfOk result (λ parts.
            IsReadOn intake.old intake.new self.old self.new (lines_in parts.items)) }
        ensures numbered { IfOk result (λ parts.
            AreNumberedBehind self.old.numbering self.new.numbering parts.items) }
        ensures none { IfOk result (λ _. self.new.unnumbered.items ≡ []) }
        ensures pulled { intake.new.pulled ≡ intake.old.pulled }
    {
        let mut parts = intake.read(rt, self.alloc)?;
        self.unnumbered.append(&mut parts)?;
        self.number()
    }

    /// Has another thread number the lines that were read, and meanwhile reads the whole lines that are held.
    /// On one processor, or if nothing is held, it numbers what it reads at once.
    pub(crate) fn read_on<T: Threads + Sync>(
        &mut self,
        rt: &T,
        intake: &mut Intake,
    ) -> Result<Vec<NumberedLines>, AllocError>
        requires { intake.old.next_line + length intake.old.held ≤ MAX_INPUT + 1 }
        ensures read { IfOk result (λ parts.
            IsReadOn intake.old intake.new self.old self.new (lines_in parts.items)) }
        ensures numbered { IfOk result (λ parts.
            AreNumberedBehind self.old.numbering self.new.numbering parts.items) }
        ensures none { IfOk result (λ _. intake.old.held ≡ [] → self.new.unnumbered.items ≡ []) }
        ensures pulled { intake.new.pulled ≡ intake.old.pulled }
    {
        if self.has_one_processor || intake.held().is_empty() {
            return self.read_and_number(rt, intake);
        }
        let alloc = self.alloc;
        let (numbered, read) = both_mut(
            rt,
            &mut || self.number(),
            &mut ||
                requires { intake.now.next_line + length intake.now.held ≤ MAX_INPUT + 1 }
            { intake.read(rt, alloc) },
        );
        self.unnumbered = read?;
        numbered
    }
}
