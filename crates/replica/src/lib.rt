// The functions that `replica_c` exports to C: a replica of the tuple space in a buffer that the caller lends, the writer of statements, and whether two templates can meet. `include/replica.h` says them in words.
#![tactic(auto)]

ghost use Rattle.std.specs.Prelude.{◌≡◌};
ghost use Rattle.basis.specs.Sizes.{layout_number};
ghost use Rattle.model.specs.Meeting.{can_meet};
ghost use Rattle.calls.specs.Calls.{lent, answer, fresh_answer, take_call, fresh_call};
ghost use Rattle.writer.specs.Writer.{added, written_is, begin_on, add_operation, add_branch};

use statements::Operation;
use writer::WriteError;

mod steps;

// The number of the layout, that is of the bytes and of their meaning, so that two replicas can be compared.
pub fn replica_layout() -> u64
    ensures { result ≡ layout_number }
{
    words::LAYOUT
}

// The fresh-state call: 0, or 1 "for length".
pub fn replica_fresh(state: &mut [u8]) -> u64
    ensures { fresh_answer result state.new ≡ fresh_call state.old }
{
    fresh::fresh(state)
}

// The call for a record: 1 to 5 where it is turned back, else its reply byte count.
pub fn replica_take(state: &mut [u8], record: &[u8], reply: &mut [u8]) -> u64
    ensures { answer result state.new reply.new ≡ take_call (lent state.old «record».now reply.old) }
{
    steps::take(state, record, reply)
}

// ---- the writer: 0, 6 or 2

// The number that C is told, with the count of filled bytes beside it.
fn told(written: Result<usize, WriteError>, fill: &mut usize) -> u64
    ensures { record { answer = result; fill = fill.new } ≡ added written }
{
    match written {
        Ok(n) => {
            *fill = n;
            0
        }
        Err(e) => {
            *fill = e.fill;
            u64::from(u8::from(e.reason))
        }
    }
}

// A body is begun: "host, process and first guard".
pub fn replica_begin(
    body: &mut [u8],
    fill: &mut usize,
    host: u8,
    process: u16,
    guard: Operation,
) -> u64
    ensures { written_is (record { answer = result; fill = fill.new }) body.new ≡ begin_on body.old host process guard }
{
    told(additions::begin_at(body, host, process, guard), fill)
}

// "one operation .. more", at the end of the last branch.
pub fn replica_operation(body: &mut [u8], fill: &mut usize, operation: Operation) -> u64
    ensures { written_is (record { answer = result; fill = fill.new }) body.new ≡ add_operation body.old fill.old operation }
{
    told(additions::operation_at(body, *fill, operation), fill)
}

// "or branch more": its guard, and no operation yet.
pub fn replica_branch(body: &mut [u8], fill: &mut usize, guard: Operation) -> u64
    ensures { written_is (record { answer = result; fill = fill.new }) body.new ≡ add_branch body.old fill.old guard }
{
    told(additions::branch_at(body, *fill, guard), fill)
}

// ---- two templates: 1 or 0, 6 or 19

// "Whether two templates can ever meet", each the bytes of one operation.
pub fn replica_can_meet(first: &[u8], second: &[u8]) -> u64
    ensures { result ≡ can_meet first.now second.now }
{
    meeting::can_meet(first, second)
}
