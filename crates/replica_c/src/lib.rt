// The functions for C, exported: each calls the function of `replica` that has its name, and states its clauses again. `include/replica.h` says them in words.
#![tactic(auto)]

ghost use Rattle.std.specs.Prelude.{◌≡◌};
ghost use Rattle.basis.specs.Sizes.{layout_number};
ghost use Rattle.model.specs.Meeting.{can_meet};
ghost use Rattle.calls.specs.Calls.{lent, answer, fresh_answer, take_call, fresh_call};
ghost use Rattle.writer.specs.Writer.{written_is, begin_on, add_operation, add_branch};

use statements::Operation;

// The number of the layout, that is of the bytes and of their meaning, so that two replicas can be compared.
#[unsafe(no_mangle)]
pub extern "C" fn replica_layout() -> u64
    ensures { result ≡ layout_number }
{
    replica::replica_layout()
}

// The fresh-state call: 0, or 1 "for length".
#[unsafe(no_mangle)]
pub extern "C" fn replica_fresh(state: &mut [u8]) -> u64
    ensures { fresh_answer result state.new ≡ fresh_call state.old }
{
    replica::replica_fresh(state)
}

// The call for a record: 1 to 5 where it is turned back, else its reply byte count.
#[unsafe(no_mangle)]
pub extern "C" fn replica_take(state: &mut [u8], record: &[u8], reply: &mut [u8]) -> u64
    ensures { answer result state.new reply.new ≡ take_call (lent state.old «record».now reply.old) }
{
    replica::replica_take(state, record, reply)
}

// ---- the writer: 0, 6 or 2

// A body is begun: "host, process and first guard".
#[unsafe(no_mangle)]
pub extern "C" fn replica_begin(
    body: &mut [u8],
    fill: &mut usize,
    host: u8,
    process: u16,
    guard: Operation,
) -> u64
    ensures { written_is (record { answer = result; fill = fill.new }) body.new ≡ begin_on body.old host process guard }
{
    replica::replica_begin(body, fill, host, process, guard)
}

// "one operation .. more", at the end of the last branch.
#[unsafe(no_mangle)]
pub extern "C" fn replica_operation(body: &mut [u8], fill: &mut usize, operation: Operation) -> u64
    ensures { written_is (record { answer = result; fill = fill.new }) body.new ≡ add_operation body.old fill.old operation }
{
    replica::replica_operation(body, fill, operation)
}

// "or branch more": its guard, and no operation yet.
#[unsafe(no_mangle)]
pub extern "C" fn replica_branch(body: &mut [u8], fill: &mut usize, guard: Operation) -> u64
    ensures { written_is (record { answer = result; fill = fill.new }) body.new ≡ add_branch body.old fill.old guard }
{
    replica::replica_branch(body, fill, guard)
}

// ---- two templates: 1 or 0, 6 or 19

// "Whether two templates can ever meet", each the bytes of one operation.
#[unsafe(no_mangle)]
pub extern "C" fn replica_can_meet(first: &[u8], second: &[u8]) -> u64
    ensures { result ≡ can_meet first.now second.now }
{
    replica::replica_can_meet(first, second)
}
