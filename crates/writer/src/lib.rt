// The writer of AG bodies: what it is handed, and what it answers.
#![tactic(auto)]

ghost use Rattle.std.specs.Prelude.{◌≡◌};
ghost use Rattle.basis.specs.Lists.{all};
ghost use Rattle.statements.specs.Flat.{has_form};
ghost use Rattle.writer.specs.Writer.{is_handed, number};

use statements::{CODES, FORMS, Field, Operation, TRUE};
use words::MOST_FIELDS;

// Why an addition is refused: it would not leave a legal body, or the buffer is too short for that body. Each has its number.
#[derive(Clone, Copy, PartialEq, Eq)]
pub enum Reason {
    Malformed = 6,
    Short = 2,
}

impl From<Reason> for u8 {
    ghost from_gives = { λ reason n. n ≡ number reason };

    fn from(reason: Reason) -> u8 {
        reason as u8
    }
}

// An addition that is refused: why, and the count of filled bytes, which are as they were.
#[derive(Clone, Copy, PartialEq, Eq)]
pub struct WriteError {
    pub reason: Reason,
    pub fill: usize,
}

// Fields are each of one of the seven forms.
fn forms_ok(fields: &[Field]) -> bool
    ensures { result ≡ all has_form fields.now }
{
    fields.iter().all(|f| f.form < FORMS)
}

// Whether parts are an operation: one of the eight codes and, but for true, at most six fields of the seven forms. Its
// spaces are space numbers whatever they are.
pub fn is_handed(op: Operation) -> bool
    ensures { result ≡ is_handed op }
{
    op.code == TRUE
        || (op.code < CODES && op.count <= MOST_FIELDS && forms_ok(&op.fields[..op.count]))
}
