// An operation by itself, codes 1 to 4, read off bytes that are nothing more.
#![tactic(auto)]

ghost use Rattle.std.specs.Prelude.{◌≡◌, ◌≤◌, take};
ghost use Rattle.basis.specs.Sizes.{most_fields};
ghost use Rattle.model.specs.Meeting.{refers, lookup_in};
ghost use Rattle.statements.specs.Flat.{fields_are, operation_is};
ghost use Rattle.alone.specs.Alone.{ReadAlone, lookup_legal};

use legality::{fields_ok, head_ok};
use statements::{OUT, Operation, TRUE, read_operation};
use words::VARIABLES;

// Codes 1 to 4, space and fields legal by themselves: every variable counts as bound before, none as bound in the operation.
fn lookup_ok(op: Operation) -> bool
    requires { op.count ≤ most_fields }
    ensures { result ≡ lookup_legal (operation_is op) }
{
    (TRUE + 1..OUT).contains(&op.code)
        && head_ok(op)
        && fields_ok(op, &[Some(0); VARIABLES], &[None; VARIABLES]).is_some()
}

// The operation that some bytes are, and nothing more, if it is a legal one of codes 1 to 4.
pub fn read_alone(b: &[u8]) -> Option<Operation>
    ensures { ReadAlone result (lookup_in b.now) }
{
    let (op, end) = read_operation(b, 0)?;
    if end == b.len() && lookup_ok(op) {
        Some(op)
    } else {
        None
    }
}

// Some field is of form 2.
pub fn refers_to(op: Operation) -> bool
    requires { op.count ≤ most_fields }
    ensures { result ≡ refers (fields_are (take op.count op.fields)) }
{
    op.fields[..op.count].iter().any(|f| f.form == 2)
}
