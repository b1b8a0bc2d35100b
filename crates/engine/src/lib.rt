// Rules 3 to 5: the branch that was chosen of a statement, on the tuples of a state.
#![tactic(auto)]

ghost use Rattle.std.specs.Prelude.{◌≡◌, ◌≤◌, ◌<◌, true, IfSome, length, T};
ghost use Rattle.basis.specs.Choice.{is_some};
ghost use Rattle.basis.specs.Lists.{all};
ghost use Rattle.basis.specs.Sizes.{most_fields, most_tuples};
ghost use Rattle.model.specs.Matching.{unbound};
ghost use Rattle.model.specs.Execution.{perform_all, chosen, attempt};
ghost use Rattle.model.specs.Legal.{legal_body};
ghost use Rattle.layout.specs.Stored.{statement_of};
ghost use Rattle.statements.specs.Flat.{field_is, operation_is, operation_at};
ghost use Rattle.tuples.specs.Section.{tuples_of, Section};
ghost use Rattle.bindings.specs.Variables.{bindings_of};
ghost use Rattle.bindings.specs.Fields.{fields_in};
ghost use Rattle.walk.specs.Walk.{Operations, operations_at};
ghost use Rattle.walk.specs.Choosing.{Finds, Picks};
ghost use Rattle.operations.specs.Performing.{Leaves};
ghost use Rattle.operations.specs.Codes.{room_after};
ghost use Rattle.engine.specs.Ahead.{Ahead};
ghost use Rattle.engine.specs.Unfailing.{is_plain, CannotFail, Passes};
ghost use Rattle.engine.specs.Attempting.{GuardRead, body_of, branch_of, Whole, Attempted};

use bindings::Vars;
use operations::Done;
use statements::{Field, OUT, Operation, standing_bare, standing_operation};
use walk::Choice;

// ---- operations in their order

// Rule 3: "The body runs in order": after what is done, so many operations from a position on; the first to fail decides.
fn run_operations(tuples: &mut [u8], body: &[u8], at: usize, count: usize, d: &mut Done)
    requires { (d.old.outcome ≡ 0) × Section tuples.old d.old.n × Ahead body.now at count (bindings_of d.old.vars) }
    ensures { Leaves (perform_all (operations_at body.now at count) (bindings_of d.old.vars) (tuples_of tuples.old d.old.n)) d.new.outcome d.new.n d.new.vars tuples.new }
{
    let mut next = at;
    for _ in 0..count {
        let (op, end) = standing_operation(body, next);
        *d = operations::perform(tuples, d.n, op, d.vars);
        if d.outcome != 0 {
            break;
        }
        next = end;
    }
}

// Rules 3 to 5 on a branch whose guard was read, and finds the tuple at index i: its guard, then its body.
fn run_branch(
    tuples: &mut [u8],
    n: usize,
    body: &[u8],
    guard: &(Operation, usize),
    i: usize,
) -> Done
    requires { Section tuples.old n × GuardRead body.now guard.now × Finds (tuples_of tuples.old n) (operation_is guard.now.0) i }
    ensures { Leaves (perform_all (branch_of body.now guard.now) unbound (tuples_of tuples.old n)) result.outcome result.n result.vars tuples.new × (CannotFail (room_after guard.now.0.code n) (body_of body.now guard.now) → result.outcome ≡ 0) }
{
    let end = guard.1;
    let mut d = operations::perform_guard(tuples, n, guard.0, i);
    run_operations(
        tuples,
        body,
        end + words::COUNT_WIDTH,
        words::size(body[end]),
        &mut d,
    );
    d
}

// ---- operations that cannot fail

// The code of a move.
const MOVE: u8 = 6;

// A field that gives its value, or its variable's, as it is.
fn is_plain(f: Field) -> bool
    ensures { result ≡ is_plain (field_is f) }
{
    matches!(f.form, 0 | 2)
}

// That an operation makes no sum, and so no value "off the range or not finite" (17).
fn makes_no_sum(op: Operation) -> bool
    requires { op.count ≤ most_fields }
    ensures { result ≡ all is_plain (fields_in op) }
{
    for f in &op.fields[..op.count] {
        if !is_plain(*f) {
            return false;
        }
    }
    true
}

// A move cannot fail, nor an out without a sum where there is room for its tuple: the position after it, and the room for tuples that it leaves. In, rd
// and copy can: their fields are not read.
fn pass_unfailing(body: &[u8], at: usize, room: usize) -> Option<(usize, usize)>
    requires { (at < length body.now) × T (is_some (operation_at body.now at)) }
    ensures { IfSome result (λ s. Passes body.now at room s.0 s.1) }
{
    let code = body[at];
    if code == MOVE {
        let (_, end) = standing_bare(body, at);
        return Some((end, room));
    }
    if code != OUT {
        return None;
    }
    if room == 0 {
        return None;
    }
    let (op, end) = standing_operation(body, at);
    if !makes_no_sum(op) {
        return None;
    }
    Some((end, room - 1))
}

// That so many operations from a position on cannot fail, whatever the tuples, where there is room for so many more.
fn cannot_fail(body: &[u8], at: usize, count: usize, room: usize) -> bool
    requires { Operations body.now at count }
    ensures { result ≡ true → CannotFail room (operations_at body.now at count) }
{
    let mut next = at;
    let mut free = room;
    for _ in 0..count {
        let Some((end, left)) = pass_unfailing(body, next, free) else {
            return false;
        };
        next = end;
        free = left;
    }
    true
}

// ---- whole or not at all

// Rule 5 on a branch that can fail: the tuples are saved, and put back where it fails.
fn run_saved(tuples: &mut [u8], n: usize, body: &[u8], guard: &(Operation, usize), i: usize) -> Done
    requires { Section tuples.old n × GuardRead body.now guard.now × Finds (tuples_of tuples.old n) (operation_is guard.now.0) i }
    ensures { Whole (perform_all (branch_of body.now guard.now) unbound (tuples_of tuples.old n)) (tuples_of tuples.old n) result.outcome result.n result.vars tuples.new }
{
    let mut saved = [0u8; words::TUPLES];
    tuples::copy_rows(&mut saved, 0, tuples, 0, n);
    let mut d = run_branch(tuples, n, body, guard, i);
    if d.outcome != 0 {
        tuples::copy_rows(tuples, 0, &saved, 0, usize::max(n, d.n));
        d.n = n;
        return d;
    }
    d
}

// Rule 5: the branch runs in place; the tuples are saved only where it can fail.
fn run_whole(tuples: &mut [u8], n: usize, body: &[u8], guard: &(Operation, usize), i: usize) -> Done
    requires { Section tuples.old n × GuardRead body.now guard.now × Finds (tuples_of tuples.old n) (operation_is guard.now.0) i }
    ensures { Whole (perform_all (branch_of body.now guard.now) unbound (tuples_of tuples.old n)) (tuples_of tuples.old n) result.outcome result.n result.vars tuples.new }
{
    let end = guard.1;
    let room = operations::room_after(guard.0.code, n);
    if cannot_fail(body, end + words::COUNT_WIDTH, words::size(body[end]), room) {
        return run_branch(tuples, n, body, guard, i);
    }
    run_saved(tuples, n, body, guard, i)
}

// What a statement did: the branch that ran, counted from 1, its outcome, and the tuples' number and the variables after it.
#[derive(Clone, Copy)]
pub struct Ran {
    pub branch: u8,
    pub outcome: u8,
    pub n: usize,
    pub vars: Vars,
}

// Rules 3 to 5 with the branch that was chosen, whole or not at all.
pub fn execute(tuples: &mut [u8], n: usize, body: &[u8], choice: Choice) -> Ran
    requires { Section tuples.old n × T (legal_body body.now) × Picks body.now (tuples_of tuples.old n) (chosen (tuples_of tuples.old n) (statement_of body.now)) choice }
    ensures { Attempted (attempt (tuples_of tuples.old n) (statement_of body.now)) (tuples_of tuples.old n) result.branch result.outcome result.n result.vars tuples.new }
{
    let guard = standing_operation(body, choice.at);
    let d = run_whole(tuples, n, body, &guard, choice.tuple);
    Ran {
        branch: choice.branch,
        outcome: d.outcome,
        n: d.n,
        vars: d.vars,
    }
}
