// Whether an operation is legal where it stands, after those before it in its branch.
#![tactic(auto)]

ghost use Rattle.std.specs.Prelude.{◌≡◌, ◌≤◌, take};
ghost use Rattle.statements.specs.Flat.{fields_are, operation_is};
ghost use Rattle.basis.specs.Sizes.{most_fields};
ghost use Rattle.fields.specs.Kinds.{kinds_are, bound_is};
ghost use Rattle.fields.specs.Forms.{allowed_by};
ghost use Rattle.legality.specs.Judging.{judged};
ghost use Rattle.legality.specs.OperationLaws.{head_legal, operation_step};
ghost use Rattle.legality.specs.Steps.{step_at};
ghost use Rattle.legality.specs.Places.{place_by, step_is};

use fields::{Kinds, field_step};
use statements::{OUT, Operation, TRUE, TWO_SPACES, read_operation};

// The kinds after the fields of an operation, where they are legal: `earlier` has the kinds that earlier ones bound, and can be used; `start` those that may not be bound again.
pub fn fields_ok(op: Operation, earlier: &Kinds, start: &Kinds) -> Option<Kinds>
    requires { op.count ≤ most_fields }
    ensures { bound_is result ≡ judged (allowed_by op.code) (kinds_are earlier.now) (kinds_are start.now) (fields_are (take op.count op.fields)) }
{
    let mut now = *start;
    for f in &op.fields[..op.count] {
        now = field_step(op.code, *f, earlier, &now)?;
    }
    Some(now)
}

// The spaces and the field count of an operation: at least one field but in move and copy. Its spaces are space numbers
// whatever they are.
pub fn head_ok(op: Operation) -> bool
    requires { op.count ≤ most_fields }
    ensures { result ≡ head_legal op.code op.from op.to op.count }
{
    TWO_SPACES <= op.code || 0 < op.count
}

// An operation after the kinds that earlier ones bound: the kinds after it, where it is legal.
pub fn operation_ok(op: Operation, kinds: &Kinds) -> Option<Kinds>
    requires { op.count ≤ most_fields }
    ensures { bound_is result ≡ operation_step (kinds_are kinds.now) (operation_is op) }
{
    if op.code == TRUE {
        return Some(*kinds);
    }
    if !head_ok(op) {
        return None;
    }
    fields_ok(op, kinds, kinds)
}

// Where an operation of a code may stand: "2 inp (guard only)", "4 rdp (guard only)", "5 to 7 body only".
fn place_ok(code: u8, guard: bool) -> bool
    ensures { result ≡ place_by guard code }
{
    if guard {
        code < OUT
    } else {
        OUT <= code || code % 2 == 1
    }
}

// The operation at a position, as a guard or in a body, after the kinds that earlier ones bound: where it is legal, the kinds after it and the position after it.
pub fn operation_step(b: &[u8], at: usize, kinds: &Kinds, guard: bool) -> Option<(Kinds, usize)>
    ensures { step_is result ≡ step_at guard (kinds_are kinds.now) b.now at }
{
    let (op, end) = read_operation(b, at)?;
    if !place_ok(op.code, guard) {
        return None;
    }
    let after = operation_ok(op, kinds)?;
    Some((after, end))
}
