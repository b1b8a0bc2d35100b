// The bytes of an addition to an AG body.
#![tactic(auto)]

ghost use Rattle.std.specs.Prelude.{◌≡◌, true, ◌+◌, ◌≤◌, ◌<◌, length, take, T};
ghost use Rattle.basis.specs.Lists.{all};
ghost use Rattle.basis.specs.Sizes.{form_width, count_width, most_fields, value_size, range_size, fields_size, operation_size};
ghost use Rattle.model.specs.Value.{value};
ghost use Rattle.model.specs.Writing.{value_bytes};
ghost use Rattle.statements.specs.Flat.{forms, has_form};
ghost use Rattle.parts.specs.Puts.{Puts};
ghost use Rattle.writer.specs.Writer.{is_handed};
ghost use Rattle.parts.specs.Fields.{range_bytes, PutField, PutFields};
ghost use Rattle.parts.specs.Operations.{PutCounted, PutOperation};

use statements::{Field, Operation, TRUE, TWO_SPACES};
use words::{
    ANONYMOUS, CODE_WIDTH, COUNT_WIDTH, FORM_WIDTH, FORMAL, FROM_AT, HIGHEST_AT, PAST_KIND,
    PAST_TO, PAST_VARIABLE, RANGE_VARIABLE_AT, REFERENCE, TO_AT, VALUE, VALUE_BITS_AT,
    VARIABLE_WIDTH, put_space_number, put4,
};

// A kind and the four bytes of a value, from index at on. The index after them.
fn put_value(t: &mut [u8], at: usize, kind: u8, bits: u32) -> usize
    requires { at + value_size ≤ length t.old }
    ensures { Puts t.old at (value_bytes (value kind bits)) t.new result }
{
    t[at] = kind;
    put4(t, at + VALUE_BITS_AT, bits);
    at + VALUE
}

// A range and its variable, from index at on: kind, lowest, highest, variable. The index after them.
fn put_range(t: &mut [u8], at: usize, f: Field) -> usize
    requires { at + range_size ≤ length t.old + form_width }
    ensures { Puts t.old at (range_bytes f) t.new result }
{
    put_value(t, at, f.kind, f.bits);
    put4(t, at + HIGHEST_AT, f.highest);
    t[at + RANGE_VARIABLE_AT] = f.variable;
    at + RANGE_VARIABLE_AT + VARIABLE_WIDTH
}

// A field, from index at on: its form, then what the form has. The index after it.
fn put_field(t: &mut [u8], at: usize, f: Field) -> usize
    requires { (f.form < forms) × (at + range_size ≤ length t.old) }
    ensures { PutField f t.old at t.new result }
{
    let form = f.form;
    t[at] = form;
    match form {
        0 => put_value(t, at + FORM_WIDTH, f.kind, f.bits),
        1 => {
            t[at + FORM_WIDTH] = f.kind;
            t[at + PAST_KIND] = f.variable;
            at + FORMAL
        }
        2 => {
            t[at + FORM_WIDTH] = f.variable;
            at + REFERENCE
        }
        3 | 4 => {
            t[at + FORM_WIDTH] = f.variable;
            put_value(t, at + PAST_VARIABLE, f.kind, f.bits)
        }
        5 => {
            t[at + FORM_WIDTH] = f.kind;
            at + ANONYMOUS
        }
        _ => put_range(t, at + FORM_WIDTH, f),
    }
}

// Fields, one after the other. The index after them.
fn put_fields(t: &mut [u8], at: usize, fields: &[Field]) -> usize
    requires { (length fields.now ≤ most_fields) × T (all has_form fields.now) × (at + fields_size ≤ length t.old) }
    ensures { PutFields fields.now t.old at t.new result }
{
    let mut end = at;
    for f in fields {
        end = put_field(t, end, *f);
    }
    end
}

// A field count and the fields of an operation. The index after them.
fn put_counted(t: &mut [u8], at: usize, op: Operation) -> usize
    requires { (op.count ≤ most_fields) × T (all has_form (take op.count op.fields)) × (at + count_width + fields_size ≤ length t.old) }
    ensures { PutCounted (take op.count op.fields) t.old at t.new result }
{
    t[at] = op.count as u8;
    put_fields(t, at + COUNT_WIDTH, &op.fields[..op.count])
}

// An operation, from index at on: its code, its spaces, its field count and its fields. The index after it.
pub fn put_operation(t: &mut [u8], at: usize, op: Operation) -> usize
    requires { (is_handed op ≡ true) × (at + operation_size ≤ length t.old) }
    ensures { PutOperation op t.old at t.new result }
{
    t[at] = op.code;
    if op.code == TRUE {
        return at + CODE_WIDTH;
    }
    put_space_number(t, at + FROM_AT, op.from);
    if op.code < TWO_SPACES {
        return put_counted(t, at + TO_AT, op);
    }
    put_space_number(t, at + TO_AT, op.to);
    put_counted(t, at + PAST_TO, op)
}
