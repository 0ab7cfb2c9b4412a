//! Clients that take turns at random. A turn is a call, an effect or a reply, so that an operation takes
//! effect at one instant between its call and its reply, on the registers in memory: the order of these
//! instants is a legal order, and the history is atomic. If a client died or crashed, its operation took
//! effect before, or is dropped. A call that fails never takes effect. Of the kinds that aren't atomic, a
//! rule of `served_write` or `served_read` breaks this.
ghost use Rattle.std.specs.Prelude.{◌≡◌, ◌<◌, ◌+◌, ◌-◌, ◌^◌, length, slice_get, slice_set, Some};
ghost use Rattle.history_generator.specs.declared.client.Stage.TheVariants.{Idle, Failed};

use crate::client::{Client, Stage};
use crate::event::Event;
use crate::history::History;
use crate::kind::Kind;
use crate::memory::Memory;
use crate::settings::Settings;
use rand::rngs::SmallRng;
use rand::{RngExt, SeedableRng};
use std::alloc::{AllocError, Global};

/// Of this many chances to break a rule, to die or to crash, one is taken.
const SELDOM: u32 = 16;

/// Of this many calls, one fails.
const FAILING: u32 = 10;

/// The clients, the memory that serves them, and what they did.
#[derive(Drop)]
pub(crate) struct Simulation {
    settings: Settings,
    random: SmallRng,
    memory: Memory,
    clients: Vec<Client>,
    history: History,
    /// How many clients have an open call.
    open: u32,
    /// The number of the next process that joins.
    next_process: u32,
}

/// The number of a write as a reply gives it; the initial write is none.
fn seen(write: u32) -> Option<u32> {
    if write == 0 { None } else { Some(write) }
}

/// Idle clients, as the processes from 0 on.
fn idle_clients(alloc: Global, processes: u32) -> Result<Vec<Client>, AllocError> {
    let mut clients = Vec::with_capacity(alloc, processes as usize)?;
    for process in 0..processes {
        clients.push(Client {
            process,
            stage: Stage::Idle,
        })?;
    }
    Ok(clients)
}

impl Simulation {
    /// Idle clients before a memory, with a history that is to go on.
    pub(crate) fn new(
        alloc: Global,
        settings: Settings,
        memory: Memory,
        history: History,
    ) -> Result<Self, AllocError> {
        Ok(Simulation {
            settings,
            random: SmallRng::seed_from_u64(settings.seed),
            memory,
            clients: idle_clients(alloc, settings.processes)?,
            history,
            open: 0,
            next_process: settings.processes,
        })
    }

    /// True once in [`SELDOM`] times.
    fn seldom(&mut self) -> bool {
        self.random.random_ratio(1, SELDOM)
    }

    /// Whether a call is one of those that fail.
    fn fails(&mut self) -> bool
        ensures memory { self.new.memory ≡ self.old.memory }
    {
        self.settings.kind == Kind::Failing && self.random.random_ratio(1, FAILING)
    }

    /// True half of the time.
    fn coin(&mut self) -> bool {
        self.random.random_ratio(1, 2)
    }

    /// Whether the client's next operation on the register is a write. If values may be old,
    /// each register has one client that writes it.
    fn chooses_write(&mut self, client: u32, register: u32) -> bool {
        match self.settings.kind {
            Kind::Writes => true,
            Kind::Inversion | Kind::Stale | Kind::Lost => {
                register % self.settings.processes == client && self.coin()
            }
            _ => self.coin(),
        }
    }

    /// Calls an operation on any register.
    fn call(&mut self, client: u32, process: u32) -> Result<Stage, AllocError> {
        let register = self.random.random_range(0..self.settings.registers);
        self.open = self.open.saturating_add(1);
        if self.chooses_write(client, register) {
            let write = self.memory.call_write(register);
            self.history.record(Event::WriteCall {
                process,
                register,
                write,
            })?;
            Ok(Stage::WriteCalled { register, write })
        } else {
            let replied = self.memory.register(register).replied;
            self.history.record(Event::ReadCall { process, register })?;
            Ok(Stage::ReadCalled { register, replied })
        }
    }

    /// What a read sees, unless it fails. Atomic: what the register holds. Regular: the last write
    /// that was replied to, or the one that is open. Stale: at times the write before the last that
    /// was replied to when the read was called.
    fn served_read(&mut self, register: u32, replied: u32) -> Stage {
        if self.fails() {
            return Stage::Failed;
        }
        let now = self.memory.register(register);
        let write = match self.settings.kind {
            Kind::Inversion => { if self.coin() { now.called } else { now.replied } }
            Kind::Stale if replied > 0 => { if self.seldom() { replied - 1 } else { now.held } }
            _ => now.held,
        };
        Stage::ReadServed { write }
    }

    /// Stores what is written, unless the write fails or is lost.
    fn served_write(&mut self, register: u32, write: u32) -> Stage
        ensures failed { result ≡ Failed → self.new.memory ≡ self.old.memory }
    {
        if self.fails() {
            return Stage::Failed;
        }
        if self.settings.kind != Kind::Lost || !self.seldom() {
            self.memory.store(register, write);
        }
        Stage::WriteServed { register, write }
    }

    /// Ends an open operation.
    fn reply(&mut self, event: Event) -> Result<Stage, AllocError> {
        self.open = self.open.saturating_sub(1);
        self.history.record(event)?;
        Ok(Stage::Idle)
    }

    /// Takes the client's turn, and says what it does then.
    fn after(&mut self, number: u32, client: Client) -> Result<Stage, AllocError> {
        let process = client.process;
        match client.stage {
            Stage::Idle => self.call(number, process),
            Stage::ReadCalled { register, replied } => Ok(self.served_read(register, replied)),
            Stage::WriteCalled { register, write } => Ok(self.served_write(register, write)),
            Stage::ReadServed { write } => self.reply(Event::ReadReply {
                process,
                write: seen(write),
            }),
            Stage::WriteServed { register, write } => {
                self.memory.reply_write(register, write);
                self.reply(Event::WriteReply { process })
            }
            Stage::Failed => self.reply(Event::Fail { process }),
        }
    }

    /// The client with a number, below the number of processes.
    fn client(&self, number: u32) -> Client {
        match self.clients.get(number as usize) {
            Some(client) => *client,
            None => Client {
                process: number,
                stage: Stage::Idle,
            },
        }
    }

    /// Changes the client with a number.
    fn set_client(&mut self, number: u32, client: Client)
        ensures clients { self.new.clients.items ≡ slice_set self.old.clients.items number client }
        ensures next { self.new.next_process ≡ self.old.next_process }
    {
        if let Some(place) = self.clients.get_mut(number as usize) {
            *place = client;
        }
    }

    /// Whether the client has an open call.
    fn is_open(&self, number: u32) -> bool {
        self.client(number).stage != Stage::Idle
    }

    /// Lets a client take a turn.
    fn turn(&mut self, number: u32) -> Result<(), AllocError> {
        let client = self.client(number);
        let stage = self.after(number, client)?;
        self.set_client(number, Client { stage, ..client });
        Ok(())
    }

    /// Puts a new process in the client's place. An open call stays pending for good.
    fn replace(&mut self, number: u32)
        ensures client { number < length self.old.clients.items
            → slice_get self.new.clients.items number
            ≡ Some (record { process = self.old.next_process; stage = Idle }) }
        ensures next { self.old.next_process < 2 ^ 32 - 1
            → self.new.next_process ≡ self.old.next_process + 1 }
    {
        if self.is_open(number) {
            self.open = self.open.saturating_sub(1);
        }
        let process = self.next_process;
        self.next_process = process.saturating_add(1);
        self.set_client(
            number,
            Client {
                process,
                stage: Stage::Idle,
            },
        );
    }

    /// Whether the client's process leaves in place of its turn.
    fn leaves(&mut self, number: u32) -> bool {
        match self.settings.kind {
            Kind::Pending => self.is_open(number) && self.seldom(),
            Kind::Crashing => self.seldom(),
            _ => false,
        }
    }

    /// Lets the client's process leave. Only a crash is told.
    fn leave(&mut self, number: u32) -> Result<(), AllocError> {
        if self.settings.kind == Kind::Crashing {
            let process = self.client(number).process;
            self.history.record(Event::Crash { process })?;
        }
        self.replace(number);
        Ok(())
    }

    /// Picks a client, and lets it take a turn, a whole operation, or its leave.
    fn step(&mut self) -> Result<(), AllocError> {
        let number = self.random.random_range(0..self.settings.processes);
        if self.settings.kind == Kind::Sequential {
            self.turn(number)?;
            return self.end(number);
        }
        if self.leaves(number) {
            self.leave(number)
        } else {
            self.turn(number)
        }
    }

    /// Lets a client end its open operation.
    fn end(&mut self, number: u32) -> Result<(), AllocError> {
        for _ in 0..2 {
            if self.is_open(number) {
                self.turn(number)?;
            }
        }
        Ok(())
    }

    /// Lets clients call until each event that is left is needed for a reply, and then lets each client end.
    /// An event that is left over is a call by one more process.
    pub(crate) fn run(&mut self) -> Result<(), AllocError> {
        // Each operation takes three turns at most, and has at least one event, its call.
        for _ in 0..u64::from(self.settings.events) * 3 {
            if self.history.left() < self.open.saturating_add(2) {
                break;
            }
            self.step()?;
        }
        self.end_all()?;
        self.history.fill(self.next_process)
    }

    /// Lets each client end its open operation.
    fn end_all(&mut self) -> Result<(), AllocError> {
        for number in 0..self.settings.processes {
            self.end(number)?;
        }
        Ok(())
    }

    /// What the clients did.
    pub(crate) fn into_history(self) -> History {
        self.history
    }
}
