// The writer: it holds a lent buffer and its fill, and carries them along from addition to addition.
#![tactic(auto)]

ghost use Rattle.std.specs.Prelude.{◌≡◌};
ghost use Rattle.writer.specs.Writer.{number, added, written_is, begin_on};
ghost use Rattle.carried.specs.Held.{so_far, Holds, shown};
ghost use Rattle.chains.specs.Chains.{operation_more, branch_more};

use additions::{begin_at, branch_at, operation_at};
use statements::Operation;
use writer::WriteError;

mod stopped;

pub use stopped::Stopped;

impl From<WriteError> for Stopped {
    ghost from_gives = { λ e s. (s.answer ≡ number e.reason) × (s.fill ≡ e.fill) };

    fn from(e: WriteError) -> Stopped {
        Stopped {
            answer: u8::from(e.reason),
            fill: e.fill,
        }
    }
}

// What an addition gave, as a chain keeps it.
fn kept(written: Result<usize, WriteError>) -> Result<usize, Stopped>
    ensures { so_far result ≡ added written }
{
    Ok(written?)
}

// The lent buffer, and what the additions so far gave: the count of its filled bytes, or the first refusal.
#[derive(Drop)]
pub struct Writer<'a> {
    pub buffer: &'a mut [u8],
    pub filled: Result<usize, Stopped>,
}

impl<'a> Writer<'a> {
    // The writer is begun: host, process and first guard. Refused, no byte is filled, and that answer stays.
    pub fn begin(buffer: &'a mut [u8], host: u8, process: u16, guard: Operation) -> Writer<'a>
        ensures { Holds buffer.entry (begin_on buffer.entry.now host process guard) result }
    {
        let filled = kept(begin_at(buffer, host, process, guard));
        Writer { buffer, filled }
    }

    // One operation more, in the last branch. After a refusal nothing is changed, and that answer stays.
    pub fn operation(&mut self, operation: Operation) -> Result<usize, Stopped>
        ensures held { Holds self.old.buffer (operation_more (shown self.old) operation) self.new }
        ensures told { result ≡ self.new.filled }
    {
        self.filled = kept(operation_at(self.buffer, self.filled?, operation));
        self.filled
    }

    // One branch more, with this guard and no operation yet.
    pub fn branch(&mut self, guard: Operation) -> Result<usize, Stopped>
        ensures held { Holds self.old.buffer (branch_more (shown self.old) guard) self.new }
        ensures told { result ≡ self.new.filled }
    {
        self.filled = kept(branch_at(self.buffer, self.filled?, guard));
        self.filled
    }

    // The count of filled bytes where each addition was done, else the first refusal.
    pub fn told(&self) -> Result<usize, Stopped>
        ensures { written_is (so_far result) self.now.buffer.now ≡ shown self.now }
    {
        self.filled
    }
}

// A body of two branches of one operation each; the answer is the first refusal, or the count of filled bytes.
pub fn choice(
    buffer: &mut [u8],
    host: u8,
    process: u16,
    guard1: Operation,
    operation1: Operation,
    guard2: Operation,
    operation2: Operation,
) -> Result<usize, Stopped>
    ensures { written_is (so_far result) buffer.new ≡ operation_more (branch_more (operation_more (begin_on buffer.old host process guard1) operation1) guard2) operation2 }
{
    let mut w = Writer::begin(buffer, host, process, guard1);
    w.operation(operation1)?;
    w.branch(guard2)?;
    w.operation(operation2)
}
