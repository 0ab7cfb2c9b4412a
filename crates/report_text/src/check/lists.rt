//! Lists that contracts see as such.
ghost use Rattle.std.specs.Prelude.{◌≡◌};

use crate::check::report::RegReport;
use std::marker::Model;

/// Operations in an order, by the lines of their calls; contracts see it as their list.
#[derive(Drop)]
pub struct Lines {
    lines: Vec<u32>,
}

impl Model for Lines {
    ghost use Rattle.std.specs.Prelude.{List, ℕ};

    ghost Value = { List ℕ };

    ghost view = { λ a. a.lines.items };
}

impl Lines {
    /// The operations of these calls' lines, in this order.
    pub fn new(lines: Vec<u32>) -> Lines
        ensures { result ≡ lines.items }
    {
        Lines { lines }
    }

    /// The lines of the calls, counted from 1, in the operations' order.
    pub fn as_slice(&self) -> &[u32]
        ensures { result.now ≡ self.now }
    {
        self.lines.as_slice()
    }
}

/// The lines of the registers, in the order of their first calls; contracts see it as their list.
#[derive(Drop)]
pub struct Registers {
    regs: Vec<RegReport>,
}

impl Model for Registers {
    ghost use Rattle.std.specs.Prelude.{List};
    ghost use Rattle.report_text.specs.declared.check.report.RegReport.{RegReport};

    ghost Value = { List RegReport };

    ghost view = { λ a. a.regs.items };
}

impl Registers {
    /// These registers' lines.
    pub fn new(regs: Vec<RegReport>) -> Registers
        ensures { result ≡ regs.items }
    {
        Registers { regs }
    }

    /// The lines, in the order of the registers' first calls.
    pub fn as_slice(&self) -> &[RegReport]
        ensures { result.now ≡ self.now }
    {
        self.regs.as_slice()
    }
}
