// Rule 7 on the bytes of a state.
#![tactic(auto)]

ghost use Rattle.std.specs.Prelude.{◌+◌, ◌*◌, ◌≤◌, ◌<◌, length};
ghost use Rattle.basis.specs.Sizes.{most_reply};
ghost use Rattle.model.specs.Run.{laid, settle as settles};
ghost use Rattle.layout.specs.States.{decode};
ghost use Rattle.layout.specs.Stored.{IsStored, Turned};
ghost use Rattle.wakes.specs.Woken.{Further, PickedAt, woken_at, woken};

use walk::Choice;

// The waiting statement at an index "runs and leaves the queue, whatever its outcome": the branch that was chosen when it was found.
fn wake_at(state: &mut [u8], i: usize, choice: Choice, out: &mut [u8]) -> usize
    requires { IsStored state.old × (i < length (decode state.old).waiting) × PickedAt state.old i choice × (most_reply ≤ length out.old) }
    ensures { Turned (woken_at (decode state.old) i) out.old state.new out.new result × (result ≤ most_reply) }
{
    let mut body = [0u8; words::MOST_BODY];
    let who = leaving::leave(state, i, &mut body);
    running::run_chosen(state, who.position, &body[..who.size], choice, out)
}

// One turn of rule 7; 0 where no waiting statement has a guard that holds.
fn wake_one(state: &mut [u8], out: &mut [u8]) -> usize
    requires { IsStored state.old × (most_reply * length (decode state.old).waiting ≤ length out.old) }
    ensures { Turned (woken (decode state.old)) out.old state.new out.new result × (result ≤ most_reply) }
{
    let n = header::waiting_count(state);
    let m = header::tuple_count(state);
    let Some((i, choice)) = oldest::oldest_ready(
        &state[words::WAITING_AT..words::WAITING_END],
        n,
        &state[words::TUPLES_AT..words::TUPLES_END],
        m,
    ) else {
        return 0;
    };
    wake_at(state, i, choice, out)
}

// "before each search of the waiting queue": what is owed is laid, then one turn.
fn lay_and_wake(state: &mut [u8], out: &mut [u8]) -> usize
    requires { IsStored state.old × (most_reply * length (decode state.old).waiting ≤ length out.old) }
    ensures { Turned (woken (laid (decode state.old))) out.old state.new out.new result × (result ≤ most_reply) }
{
    notices::lay(state);
    wake_one(state, out)
}

// Rule 7: "this repeats from the oldest until none holds". "Each further reply starts where the one before it ended", the first after own bytes.
pub fn settle(state: &mut [u8], out: &mut [u8], own: usize) -> usize
    requires { IsStored state.old × (own + most_reply * length (decode state.old).waiting ≤ length out.old) }
    ensures { Further (settles (laid (decode state.old))) own out.old state.new out.new result }
{
    let mut at = own;
    loop {
        let n = lay_and_wake(state, &mut out[at..]);
        if n == 0 {
            return at;
        }
        at += n;
    }
}
