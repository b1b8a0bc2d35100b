// Rules 3 and 4: one operation on the tuples of a state.
#![tactic(auto)]

ghost use Rattle.std.specs.Prelude.{◌≡◌, ◌+◌, ◌≤◌, ◌<◌};
ghost use Rattle.basis.specs.Sizes.{most_fields, most_tuples, space_numbers};
ghost use Rattle.model.specs.Statement.{deposit, transfer};
ghost use Rattle.model.specs.Matching.{unbound};
ghost use Rattle.model.specs.Execution.{perform};
ghost use Rattle.statements.specs.Flat.{operation_is};
ghost use Rattle.tuples.specs.Section.{tuples_of, Section};
ghost use Rattle.walk.specs.Choosing.{Finds};
ghost use Rattle.bindings.specs.Variables.{bindings_of};
ghost use Rattle.bindings.specs.Fields.{fields_in};
ghost use Rattle.operations.specs.Performing.{Leaves, look_up, OldestAt, after_taking, CanDeposit};
ghost use Rattle.operations.specs.Codes.{CanPerform, room_after};

use bindings::Vars;
use statements::Operation;

// What an operation or a branch did: outcome 0, with the tuples' number and the variables after it; else the number of the failure.
#[derive(Clone, Copy)]
pub struct Done {
    pub outcome: u8,
    pub n: usize,
    pub vars: Vars,
}

// ---- in place: the outcome and the tuples' number after it, where the variables stand

// "in and inp remove the oldest match, rd and rdp read it": the tuple at index i is that match. How many tuples there are then.
fn take_found(
    tuples: &mut [u8],
    n: usize,
    op: Operation,
    v: &mut Vars,
    i: usize,
    withdraws: bool,
) -> usize
    requires { Section tuples.old n × (op.count ≤ most_fields) × OldestAt (bindings_of v.old) op.from (fields_in op) tuples.old n i }
    ensures { Leaves (look_up withdraws (bindings_of v.old) op.from (fields_in op) (tuples_of tuples.old n)) 0 result v.new tuples.new × (result ≡ after_taking withdraws n) }
{
    *v = bindings::bind_at(tuples, i, op, *v);
    if withdraws {
        tuples::remove(tuples, n, i);
        return n - 1;
    }
    n
}

// The oldest match is looked for, and taken or read; 16 where there is none.
fn look_up(
    tuples: &mut [u8],
    n: usize,
    op: &Operation,
    v: &mut Vars,
    withdraws: bool,
) -> (u8, usize)
    requires { Section tuples.old n × (op.now.count ≤ most_fields) }
    ensures { Leaves (look_up withdraws (bindings_of v.old) op.now.from (fields_in op.now) (tuples_of tuples.old n)) result.0 result.1 v.new tuples.new }
{
    match matching::find(tuples, n, bindings::template_of(*op, *v)) {
        Some(i) => (0, take_found(tuples, n, *op, v, i, withdraws)),
        None => (16, n),
    }
}

// "out appends": 17 where a value is off the range or not finite, 12 where the tuples would pass 512.
fn deposit(tuples: &mut [u8], n: usize, op: &Operation, v: &Vars) -> (u8, usize)
    requires { Section tuples.old n × (op.now.count ≤ most_fields) × CanDeposit (bindings_of v.now) op.now.from (fields_in op.now) }
    ensures { Leaves (perform (deposit op.now.from (fields_in op.now)) (bindings_of v.now) (tuples_of tuples.old n)) result.0 result.1 v.now tuples.new }
{
    let Some(tuple) = bindings::make_tuple(*op, *v) else {
        return (17, n);
    };
    if words::MOST_TUPLES <= n {
        return (12, n);
    }
    tuples::append(tuples, n, &tuple);
    (0, n + 1)
}

// "move removes all matches and appends them to the new space", copy appends copies; 12 where these would pass 512.
fn transfer(tuples: &mut [u8], n: usize, op: &Operation, v: &Vars, withdraws: bool) -> (u8, usize)
    requires { Section tuples.old n × (op.now.count ≤ most_fields) × (op.now.to < space_numbers) }
    ensures { Leaves (perform (transfer withdraws op.now.from op.now.to (fields_in op.now)) (bindings_of v.now) (tuples_of tuples.old n)) result.0 result.1 v.now tuples.new }
{
    let t = bindings::template_of(*op, *v);
    if withdraws {
        moves::move_all(tuples, n, t, op.to);
        return (0, n);
    }
    match moves::copy_all(tuples, n, t, op.to) {
        Some(m) => (0, m),
        None => (12, n),
    }
}

// One operation, by its code.
fn perform_in(tuples: &mut [u8], n: usize, op: &Operation, v: &mut Vars) -> (u8, usize)
    requires { Section tuples.old n × (op.now.count ≤ most_fields) × CanPerform (bindings_of v.old) (operation_is op.now) }
    ensures { Leaves (perform (operation_is op.now) (bindings_of v.old) (tuples_of tuples.old n)) result.0 result.1 v.new tuples.new }
{
    let code = op.code;
    match code {
        0 => (0, n),
        1 | 2 => look_up(tuples, n, op, v, true),
        3 | 4 => look_up(tuples, n, op, v, false),
        5 => deposit(tuples, n, op, v),
        6 => transfer(tuples, n, op, v, true),
        _ => transfer(tuples, n, op, v, false),
    }
}

// A guard whose tuple, if it looks for one, was found at index i. How many tuples there are then.
fn guard_in(tuples: &mut [u8], n: usize, op: &Operation, v: &mut Vars, i: usize) -> usize
    requires { Section tuples.old n × (op.now.count ≤ most_fields) × Finds (tuples_of tuples.old n) (operation_is op.now) i × (bindings_of v.old ≡ unbound) }
    ensures { Leaves (perform (operation_is op.now) unbound (tuples_of tuples.old n)) 0 result v.new tuples.new × (result + room_after op.now.code n ≡ most_tuples) }
{
    let code = op.code;
    match code {
        0 => n,
        1 | 2 => take_found(tuples, n, *op, v, i, true),
        _ => take_found(tuples, n, *op, v, i, false),
    }
}

// Rule 3: one operation, by its code.
pub fn perform(tuples: &mut [u8], n: usize, op: Operation, v: Vars) -> Done
    requires { Section tuples.old n × (op.count ≤ most_fields) × CanPerform (bindings_of v) (operation_is op) }
    ensures { Leaves (perform (operation_is op) (bindings_of v) (tuples_of tuples.old n)) result.outcome result.n result.vars tuples.new }
{
    let mut d = Done {
        outcome: 0,
        n,
        vars: v,
    };
    (d.outcome, d.n) = perform_in(tuples, n, &op, &mut d.vars);
    d
}

// A guard whose tuple, if it looks for one, was found at index i, with no variable bound before it.
pub fn perform_guard(tuples: &mut [u8], n: usize, op: Operation, i: usize) -> Done
    requires { Section tuples.old n × (op.count ≤ most_fields) × Finds (tuples_of tuples.old n) (operation_is op) i }
    ensures { Leaves (perform (operation_is op) unbound (tuples_of tuples.old n)) result.outcome result.n result.vars tuples.new × (result.outcome ≡ 0) × (result.n + room_after op.code n ≡ most_tuples) }
{
    let mut d = Done {
        outcome: 0,
        n,
        vars: bindings::no_vars(),
    };
    d.n = guard_in(tuples, n, &op, &mut d.vars, i);
    d
}

// The room for tuples after a guard of a code: in and inp make room for one more.
pub fn room_after(code: u8, n: usize) -> usize
    requires { n ≤ most_tuples }
    ensures { result ≡ room_after code n }
{
    let room = words::MOST_TUPLES - n;
    match code {
        1 | 2 => room + 1,
        _ => room,
    }
}
