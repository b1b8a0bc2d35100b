// A statement on the bytes of a state, answered.
#![tactic(auto)]

ghost use Rattle.std.specs.Prelude.{◌≤◌, length, T};
ghost use Rattle.basis.specs.Sizes.{most_reply};
ghost use Rattle.model.specs.Legal.{legal_body};
ghost use Rattle.model.specs.Execution.{chosen, attempt};
ghost use Rattle.layout.specs.States.{decode};
ghost use Rattle.layout.specs.Stored.{IsStored, Turned, statement_of};
ghost use Rattle.replies.specs.Written.{ran_values};
ghost use Rattle.walk.specs.Choosing.{Chooses};
ghost use Rattle.running.specs.Executed.{MayRun, Picked, executed, Left};

use engine::Ran;
use walk::Choice;

// Rules 3 to 5 on the tuples of a state, with their count: the branch that was chosen.
fn execute_in(state: &mut [u8], body: &[u8], choice: Choice) -> Ran
    requires { IsStored state.old × MayRun (decode state.old) body.now × Picked (decode state.old) body.now choice }
    ensures { Left (decode state.old) (attempt (decode state.old).tuples (statement_of body.now)) state.new result.branch result.outcome (ran_values result.outcome result.vars.values) }
{
    let n = header::tuple_count(state);
    let ran = engine::execute(
        &mut state[words::TUPLES_AT..words::TUPLES_END],
        n,
        body,
        choice,
    );
    header::set_tuple_count(state, ran.n);
    ran
}

// A statement runs the branch that was chosen, and is answered at a position.
pub fn run_chosen(
    state: &mut [u8],
    position: u32,
    body: &[u8],
    choice: Choice,
    out: &mut [u8],
) -> usize
    requires { IsStored state.old × MayRun (decode state.old) body.now × Picked (decode state.old) body.now choice × (most_reply ≤ length out.old) }
    ensures { Turned (executed (decode state.old) position (statement_of body.now)) out.old state.new out.new result × (result ≤ most_reply) }
{
    let ran = execute_in(state, body, choice);
    replies::ran_reply(
        out,
        position,
        body[words::HOST_AT],
        words::word2(body, words::PROCESS_AT),
        ran.outcome,
        ran.branch,
        &ran.vars.values,
    )
}

// The branch of a statement that its guards choose on the tuples of a state, if any holds.
fn choose_in(state: &[u8], body: &[u8]) -> Option<Choice>
    requires { IsStored state.now × T (legal_body body.now) }
    ensures { Chooses body.now (decode state.now).tuples (chosen (decode state.now).tuples (statement_of body.now)) result }
{
    let n = header::tuple_count(state);
    guards::search(&state[words::TUPLES_AT..words::TUPLES_END], n, body)
}

// A statement runs where a guard of it holds, and is answered at a position; 0 where none does.
pub fn run_body(state: &mut [u8], position: u32, body: &[u8], out: &mut [u8]) -> usize
    requires { IsStored state.old × MayRun (decode state.old) body.now × (most_reply ≤ length out.old) }
    ensures { Turned (executed (decode state.old) position (statement_of body.now)) out.old state.new out.new result × (result ≤ most_reply) }
{
    let Some(choice) = choose_in(state, body) else {
        return 0;
    };
    run_chosen(state, position, body, choice, out)
}
