//! The registers that serve the clients.
ghost use Rattle.std.specs.Prelude.{◌≡◌, ◌<◌, ◌+◌, ◌-◌, ◌^◌, length, slice_get, slice_set, IfOk, Some};

use std::alloc::{AllocError, Global};

/// A register. Its writes are numbered from 1 in the order of their calls; 0 is the initial write.
#[derive(Clone, Copy, Debug, PartialEq, Eq)]
pub(crate) struct Register {
    /// The last write that was called.
    pub called: u32,
    /// The write whose value it holds.
    pub held: u32,
    /// The last write that was replied to.
    pub replied: u32,
}

/// A register that nobody wrote.
const INITIAL: Register = Register {
    called: 0,
    held: 0,
    replied: 0,
};

/// The registers, by number.
#[derive(Drop)]
pub(crate) struct Memory {
    registers: Vec<Register>,
}

impl Memory {
    /// Registers that hold their initial values.
    pub(crate) fn new(alloc: Global, registers: u32) -> Result<Self, AllocError>
        ensures { IfOk result (λ memory. length memory.registers.items ≡ registers) }
    {
        let registers = vec![in alloc; INITIAL; registers as usize]?;
        Ok(Memory { registers })
    }

    /// The register with a number; past the last one, one that nobody wrote.
    pub(crate) fn register(&self, number: u32) -> Register
        ensures { number < length self.now.registers.items
            → slice_get self.now.registers.items number ≡ Some result }
    {
        match self.registers.get(number as usize) {
            Some(register) => *register,
            None => INITIAL,
        }
    }

    /// Changes the register with a number, if there is one.
    pub(crate) fn set(&mut self, number: u32, register: Register)
        ensures { self.new.registers.items ≡ slice_set self.old.registers.items number register }
    {
        if let Some(place) = self.registers.get_mut(number as usize) {
            *place = register;
        }
    }

    /// Numbers a write that is called.
    pub(crate) fn call_write(&mut self, number: u32) -> u32
        ensures { (register : Register) → slice_get self.old.registers.items number ≡ Some register
            → register.called < 2 ^ 32 - 1
            → (result ≡ register.called + 1)
            × (self.new.registers.items ≡ slice_set self.old.registers.items number
            (record register { called = register.called + 1 })) }
    {
        let register = self.register(number);
        let called = register.called.saturating_add(1);
        self.set(number, Register { called, ..register });
        called
    }

    /// Lets a write take effect.
    pub(crate) fn store(&mut self, number: u32, write: u32)
        ensures { (register : Register) → slice_get self.old.registers.items number ≡ Some register
            → self.new.registers.items ≡ slice_set self.old.registers.items number
            (record register { held = write }) }
    {
        let register = self.register(number);
        self.set(
            number,
            Register {
                held: write,
                ..register
            },
        );
    }

    /// Notes the reply to a write.
    pub(crate) fn reply_write(&mut self, number: u32, write: u32)
        ensures { (register : Register) → slice_get self.old.registers.items number ≡ Some register
            → self.new.registers.items ≡ slice_set self.old.registers.items number
            (record register { replied = write }) }
    {
        let register = self.register(number);
        self.set(
            number,
            Register {
                replied: write,
                ..register
            },
        );
    }
}
