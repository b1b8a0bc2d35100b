// The call for a record: the checks 1 to 5, then a step on the bytes of a state: check 6, the checks from 7 on, the effect, rule 7.
ghost use Rattle.std.specs.Prelude.{◌≡◌, ◌≢◌, suc, ◌≤◌, ◌<◌, length, T};
ghost use Rattle.std.proofs.Math.Option.{none, some};
ghost use Rattle.basis.specs.Choice.{first_number};
ghost use Rattle.basis.specs.Sizes.{reply_size, reply_header_size, most_reply};
ghost use Rattle.model.specs.Legal.{legal_body};
ghost use Rattle.model.specs.Step.{AG, guarded, checks, refused, unmet, effect, handled};
ghost use Rattle.layout.specs.States.{decode};
ghost use Rattle.layout.specs.Stored.{IsStored, Turned, statement_of};
ghost use Rattle.calls.specs.Calls.{number_of as position_of, step_bytes, lent, answer, refusal, take_call};
ghost use Rattle.order.specs.Told.{number_of};
ghost use Rattle.framing.specs.Marks.{marked};
ghost use Rattle.framing.specs.Back.{back};
ghost use Rattle.replica.specs.Asks.{asked, Later};

use framing::{Mark, TurnedBack};
use order::Refusal;

// ---- AG

// A statement refused: its body begins with host and process.
fn refuse_body(state: &[u8], body: &[u8], outcome: Refusal, out: &mut [u8]) -> usize
    requires { IsStored state.now × T (legal_body body.now) × (reply_header_size ≤ length out.old) }
    ensures { Turned (refused (decode state.now) (statement_of body.now).host (statement_of body.now).process (number_of outcome)) out.old state.now out.new result }
{
    handling::refuse(
        state,
        body[words::HOST_AT],
        words::word2(body, words::PROCESS_AT),
        outcome.number(),
        out,
    )
    .size
}

// No guard holds: 18 where none is in or rd, 13 where 32 wait, else the statement waits without a reply.
fn wait_or_refuse(state: &mut [u8], body: &[u8], out: &mut [u8]) -> usize
    requires { IsStored state.old × T (legal_body body.now) × Later (decode state.old) × (first_number (checks (decode state.old) (guarded (statement_of body.now))) ≡ none) × (reply_header_size ≤ length out.old) }
    ensures { Turned (unmet (decode state.old) (statement_of body.now)) out.old state.new out.new result × (result ≤ most_reply) }
{
    if let Err(why) = unmet::refusal(guards::can_wait(body), header::waiting_count(state)) {
        return refuse_body(state, body, why, out);
    }
    state::enqueue(state, body);
    0
}

// Rules 1 to 5, "with 13, 16, 17 and 12 tried as it runs".
fn run_statement(state: &mut [u8], body: &[u8], out: &mut [u8]) -> usize
    requires { IsStored state.old × T (legal_body body.now) × Later (decode state.old) × (first_number (checks (decode state.old) (guarded (statement_of body.now))) ≡ none) × (most_reply ≤ length out.old) }
    ensures { Turned (effect (decode state.old) (guarded (statement_of body.now))) out.old state.new out.new result × (result ≤ most_reply) }
{
    let last = header::last(state);
    let n = running::run_body(state, last, body, out);
    if n != 0 {
        return n;
    }
    wait_or_refuse(state, body, out)
}

// The checks from 7 on, the effect, then rule 7.
fn handle_statement(state: &mut [u8], body: &[u8], out: &mut [u8]) -> usize
    requires { IsStored state.old × T (legal_body body.now) × Later (decode state.old) × (reply_size ≤ length out.old) }
    ensures { Turned (handled (decode state.old) (guarded (statement_of body.now))) out.old state.new out.new result }
{
    if let Err(why) = refusals::refuse_statement(state, body) {
        return refuse_body(state, body, why, out);
    }
    let own = run_statement(state, body, out);
    wakes::settle(state, out, own)
}

// "`AG` host, process, branch count 1 to 4, branches".
fn ask_statement(state: &mut [u8], body: &[u8], out: &mut [u8]) -> usize
    requires { IsStored state.old × Later (decode state.old) × (reply_size ≤ length out.old) }
    ensures { Turned (asked AG body.now (decode state.old)) out.old state.new out.new result }
{
    if !bodies::body_ok(body) {
        return handling::malformed(state, out).size;
    }
    handle_statement(state, body, out)
}

// ---- the others

// A record of a mark but AG; rule 7 follows what is done.
fn ask_other(mark: Mark, state: &mut [u8], body: &[u8], out: &mut [u8]) -> usize
    requires { (mark ≢ Mark.Statement) × IsStored state.old × (reply_size ≤ length out.old) }
    ensures { Turned (asked (marked mark) body.now (decode state.old)) out.old state.new out.new result }
{
    let wanted = requests::read(mark, body);
    match answering::answer(state, wanted, out) {
        Ok(n) => wakes::settle(state, out, n),
        Err(refused) => refused.size,
    }
}

// ---- a record

// What a record asks, by its mark.
fn ask(mark: Mark, state: &mut [u8], body: &[u8], out: &mut [u8]) -> usize
    requires { IsStored state.old × Later (decode state.old) × (reply_size ≤ length out.old) }
    ensures { Turned (asked (marked mark) body.now (decode state.old)) out.old state.new out.new result }
{
    match mark {
        Mark::Statement => ask_statement(state, body, out),
        _ => ask_other(mark, state, body, out),
    }
}

// "A step sets the last number and tries the checks from 6 on".
fn step(state: &mut [u8], input: &[u8], out: &mut [u8]) -> usize
    requires { IsStored state.old × (position_of input.now ≡ some (suc (decode state.old).last)) × (reply_size ≤ length out.old) }
    ensures { Turned (step_bytes (decode state.old) input.now) out.old state.new out.new result }
{
    let Some(mark) = framing::mark_of(input) else {
        unreachable!()
    };
    handling::advance(state, input);
    ask(mark, state, &input[words::BODY_AT..], out)
}

// ---- the call

// The first of the checks 1 to 5 that fails.
fn turned_back(state: &[u8], input: &[u8], reply: &[u8]) -> Result<(), TurnedBack>
    ensures { back result ≡ refusal (lent state.now input.now reply.now) }
{
    if !validation::is_state(state) {
        return Err(TurnedBack::NoState);
    }
    framing::refusal_at(header::last(state), input, reply)
}

// "1 to 5: the call changes no byte", "A taken call returns its reply byte count".
pub fn take(state: &mut [u8], input: &[u8], reply: &mut [u8]) -> u64
    ensures { answer result state.new reply.new ≡ take_call (lent state.old input.now reply.old) }
{
    if let Err(why) = turned_back(state, input, reply) {
        return why.number();
    }
    step(state, input, reply) as u64
}
