//! The numbers of registers, by the order of their first calls. Lines get them before their events are taken
//! in, so that one thread can look up the names of the next lines while another takes in those before them.
ghost use Rattle.std.specs.Prelude.{◌≡◌, [], ℕ, List, bytes_eq, flat_map, length, IfOk, OnOk, Some};
ghost use Rattle.std.specs.List.{position_or_len};
ghost use Rattle.reg_arena.specs.Numbered.{AreNumbered, ArePartsNumbered, IsNumbered};
ghost use Rattle.reg_arena.specs.Numbered.{lines_of, name_called, names_with, with_name};

use crate::event_lists::{HashKey, Seeded};
use history_text::{Kind, LineEvent, LineFault, Name};
use indexmap::IndexSet;
use std::alloc::{AllocError, Global};
use std::marker::Model;

/// Lines with the numbers of the registers that they call.
#[derive(Drop)]
pub struct NumberedLines {
    /// The lines, read.
    pub lines: Vec<Result<LineEvent, LineFault>>,
    /// A number for each of the lines. Only that of a call means something.
    pub numbers: Vec<usize>,
}

/// The names of the registers that were called so far, each with its number. Contracts see it as these names.
#[derive(Drop)]
pub struct Numbering {
    names: IndexSet<Name, Seeded>,
}

impl Model for Numbering {
    ghost use Rattle.std.specs.Prelude.{ℕ, List};

    ghost Value = { List (List ℕ) };

    ghost view = { λ n. n.names.keys };
}

impl Numbering {
    /// No names. The key is that of their hashes.
    pub fn new(alloc: Global, key: HashKey) -> Self
        ensures { result ≡ [] }
    {
        Numbering {
            names: IndexSet::with_hasher(alloc, Seeded::new(key)),
        }
    }

    /// How many names there are.
    pub fn len(&self) -> usize
        ensures { result ≡ length self.now }
    {
        self.names.len()
    }

    /// The names, in the order of their numbers.
    ///
    /// The error says that memory ran out.
    pub fn into_names(self, alloc: Global) -> Result<Vec<Name>, AllocError>
        ensures { IfOk result (λ names. names.items ≡ self) }
    {
        self.names.into_iter().collect(alloc)
    }

    /// Lines in parts, in order, with the numbers of the registers that they call.
    ///
    /// # Errors
    /// Out of memory; the lines are then dropped, and the numbering is of no more use.
    pub fn number_parts(
        &mut self,
        alloc: Global,
        parts: Vec<Vec<Result<LineEvent, LineFault>>>,
    ) -> Result<Vec<NumberedLines>, AllocError>
        ensures lines { IfOk result (λ numbered.
            flat_map lines_of numbered.items ≡ flat_map (λ part. part.items) parts.items) }
        ensures numbers { IfOk result (λ numbered. ArePartsNumbered self.old numbered.items) }
        ensures names { OnOk result
            (self.new ≡ names_with self.old (flat_map (λ part. part.items) parts.items)) }
    {
        let mut numbered = Vec::with_capacity(alloc, parts.len())?;
        for part in parts {
            numbered.push(self.number_lines(alloc, part)?)?;
        }
        Ok(numbered)
    }

    /// Lines with the numbers of the registers that they call.
    pub(crate) fn number_lines(
        &mut self,
        alloc: Global,
        lines: Vec<Result<LineEvent, LineFault>>,
    ) -> Result<NumberedLines, AllocError>
        ensures lines { IfOk result (λ part. lines_of part ≡ lines.items) }
        ensures numbers { IfOk result (λ part. AreNumbered self.old lines.items part.numbers.items) }
        ensures names { OnOk result (self.new ≡ names_with self.old lines.items) }
    {
        let mut numbers = Vec::with_capacity(alloc, lines.len())?;
        for line in &lines {
            numbers.push(self.number_line(alloc, line)?)?;
        }
        Ok(NumberedLines { lines, numbers })
    }

    /// The number of the register that a line calls; 0 if it calls none.
    fn number_line(
        &mut self,
        alloc: Global,
        line: &Result<LineEvent, LineFault>,
    ) -> Result<usize, AllocError>
        ensures number { IfOk result (IsNumbered self.old (name_called line.now)) }
        ensures names { OnOk result (self.new ≡ with_name self.old (name_called line.now)) }
    {
        match line {
            Ok(event) => match &event.kind {
                Kind::CallRead(name) => self.number_name(alloc, name),
                Kind::CallWrite(name, _) => self.number_name(alloc, name),
                Kind::Reply(_) | Kind::Fail(_) | Kind::Crash => Ok(0),
            },
            Err(_) => Ok(0),
        }
    }

    /// The number of a name, which comes last if it is new.
    ///
    /// The error says that memory ran out.
    pub fn number_name(&mut self, alloc: Global, name: &Name) -> Result<usize, AllocError>
        ensures number { IfOk result (λ n. n ≡ position_or_len (bytes_eq name.now) self.old) }
        ensures names { OnOk result (self.new ≡ with_name self.old (Some name.now)) }
    {
        match self.names.get_index_of(name) {
            Some(number) => Ok(number),
            None => {
                let number = self.names.len();
                self.names.insert(Name::new(alloc, name.as_str())?)?;
                Ok(number)
            }
        }
    }
}
