// The three calls of the writer: a body begun on a lent buffer, then one operation or one branch more each time.
#![tactic(auto)]

ghost use Rattle.std.specs.Prelude.{◌≡◌};
ghost use Rattle.basis.specs.Choice.{is_some};
ghost use Rattle.writer.specs.Writer.{is_handed, held, added, written_is, begin_on, add_operation, add_branch};
ghost use Rattle.additions.specs.Addable.{Addable};

use answers::settle;
use bodies::body_ok;
use composer::{compose_begun, compose_branch, compose_operation};
use statements::Operation;
use words::WRITER_ROOM;
use writer::{Reason, WriteError, is_handed};

// Whether the filled bytes are a legal body.
fn holds_body(buffer: &[u8], fill: usize) -> bool
    ensures { result ≡ is_some (held buffer.now fill) }
{
    fill <= buffer.len() && body_ok(&buffer[..fill])
}

// Whether there is something to add, and a body to add it to; else the addition is malformed.
fn addable(buffer: &[u8], fill: usize, addition: Operation) -> Result<(), WriteError>
    ensures { Addable buffer.now fill addition result }
{
    if !holds_body(buffer, fill) || !is_handed(addition) {
        return Err(WriteError {
            reason: Reason::Malformed,
            fill,
        });
    }
    Ok(())
}

// A body is begun at the front of the buffer: host, process and first guard.
pub fn begin_at(
    buffer: &mut [u8],
    host: u8,
    process: u16,
    guard: Operation,
) -> Result<usize, WriteError>
    ensures { written_is (added result) buffer.new ≡ begin_on buffer.old host process guard }
{
    if !is_handed(guard) {
        return Err(WriteError {
            reason: Reason::Malformed,
            fill: 0,
        });
    }
    let mut t = [0u8; WRITER_ROOM];
    let n = compose_begun(&mut t, host, process, guard);
    settle(buffer, 0, &t[..n])
}

// One operation more, at the end of the last branch of the body that the filled bytes are.
pub fn operation_at(
    buffer: &mut [u8],
    fill: usize,
    operation: Operation,
) -> Result<usize, WriteError>
    ensures { written_is (added result) buffer.new ≡ add_operation buffer.old fill operation }
{
    addable(buffer, fill, operation)?;
    let mut t = [0u8; WRITER_ROOM];
    let n = compose_operation(&mut t, buffer, fill, operation);
    settle(buffer, fill, &t[..n])
}

// One branch more, with this guard and no operation yet, after those of the body that the filled bytes are.
pub fn branch_at(buffer: &mut [u8], fill: usize, guard: Operation) -> Result<usize, WriteError>
    ensures { written_is (added result) buffer.new ≡ add_branch buffer.old fill guard }
{
    addable(buffer, fill, guard)?;
    let mut t = [0u8; WRITER_ROOM];
    let n = compose_branch(&mut t, buffer, fill, guard);
    settle(buffer, fill, &t[..n])
}
