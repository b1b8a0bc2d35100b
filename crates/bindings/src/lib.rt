// The variables of a branch: what a template asks for with them, what a tuple binds, and the tuple that an out makes.
#![tactic(auto)]

ghost use Rattle.std.specs.Prelude.{◌≡◌, ◌+◌, ◌≤◌, length};
ghost use Rattle.basis.specs.Choice.{given};
ghost use Rattle.basis.specs.ListLaws.{Each};
ghost use Rattle.basis.specs.Sizes.{most_fields, tuple_size};
ghost use Rattle.model.specs.Value.{value};
ghost use Rattle.model.specs.Matching.{value_of, unbound, template_field, template, bind_field, bind};
ghost use Rattle.model.specs.Execution.{made};
ghost use Rattle.values.specs.Meaning.{scalar_is, scalar_given};
ghost use Rattle.sums.specs.Meaning.{sum_of};
ghost use Rattle.statements.specs.Flat.{field_is};
ghost use Rattle.tuples.specs.Section.{tuple_at};
ghost use Rattle.sections.specs.Rows.{HasRows};
ghost use Rattle.matching.specs.Meaning.{template_field_is, template_is};
ghost use Rattle.bindings.specs.Variables.{bindings_of};
ghost use Rattle.bindings.specs.Fields.{fields_in};
ghost use Rattle.bindings.specs.Making.{Summable, CanMake, made_bytes};

use matching::Template;
use statements::{Field, Operation};
use values::Scalar;

// The variables of a branch: the values of those that are bound.
#[derive(Clone, Copy)]
pub struct Vars {
    pub values: [Option<Scalar>; words::VARIABLES],
}

// A kind and, where one is given, a range of values; that of one value has its bits twice.
#[derive(Clone, Copy)]
struct Asks {
    pub kind: u8,
    pub given: bool,
    pub lowest: u32,
    pub highest: u32,
}

// Before a branch runs no variable is bound.
pub fn no_vars() -> Vars
    ensures { bindings_of result ≡ unbound }
{
    Vars {
        values: [None; words::VARIABLES],
    }
}

// A variable's kind and bits; whole 0 where it is not bound.
fn held(v: &Vars, variable: u8) -> Scalar
    ensures { scalar_is result ≡ value_of (bindings_of v.now) variable }
{
    let x = words::size(variable);
    if x < words::VARIABLES {
        if let Some(value) = v.values[x] {
            return value;
        }
    }
    Scalar { kind: 0, bits: 0 }
}

// What a template's field asks for: forms 0 and 2 one value, form 6 its range, the others any value of the kind.
fn asked(f: Field, v: &Vars) -> Asks
    ensures { template_field_is result.kind result.given result.lowest result.highest ≡ template_field (bindings_of v.now) (field_is f) }
{
    if f.form == 0 {
        return Asks {
            kind: f.kind,
            given: true,
            lowest: f.bits,
            highest: f.bits,
        };
    }
    if f.form == 2 {
        let h = held(v, f.variable);
        return Asks {
            kind: h.kind,
            given: true,
            lowest: h.bits,
            highest: h.bits,
        };
    }
    Asks {
        kind: f.kind,
        given: 6 <= f.form,
        lowest: f.bits,
        highest: f.highest,
    }
}

// Rule 1: the template of an operation's fields.
pub fn template_of(op: Operation, v: Vars) -> Template
    requires { op.count ≤ most_fields }
    ensures { (template_is result ≡ template (bindings_of v) op.from (fields_in op)) × (result.count ≤ most_fields) }
{
    let mut kinds = [0u8; words::MOST_FIELDS];
    let mut given = [false; words::MOST_FIELDS];
    let mut lowest = [0u32; words::MOST_FIELDS];
    let mut highest = [0u32; words::MOST_FIELDS];
    for i in 0..op.count {
        let a = asked(op.fields[i], &v);
        kinds[i] = a.kind;
        given[i] = a.given;
        lowest[i] = a.lowest;
        highest[i] = a.highest;
    }
    Template {
        space: op.from,
        count: op.count,
        kinds,
        given,
        lowest,
        highest,
    }
}

// What a field binds at a value is bound.
fn bind_field(v: &mut Vars, f: Field, value: Scalar)
    ensures { bindings_of v.new ≡ bind_field (bindings_of v.old) (field_is f) (scalar_is value) }
{
    let x = words::size(f.variable);
    if statements::binds(f) {
        if x < words::VARIABLES {
            v.values[x] = Some(value);
        }
    }
}

// The variables with what a template binds at the tuple with index i.
pub fn bind_at(tuples: &[u8], i: usize, op: Operation, v: Vars) -> Vars
    requires { (op.count ≤ most_fields) × HasRows tuple_size tuples.now (i + 1) × (length (tuple_at tuples.now i).values ≡ op.count) }
    ensures { bindings_of result ≡ bind (bindings_of v) (fields_in op) (tuple_at tuples.now i).values }
{
    let mut w = v;
    for j in 0..op.count {
        let value = Scalar {
            kind: tuples::kind(tuples, i, j),
            bits: tuples::bits(tuples, i, j),
        };
        bind_field(&mut w, op.fields[j], value);
    }
    w
}

// Rule 4: a variable plus, or minus, a field's value; nothing where the result is "off the range or not finite".
fn sum_value(f: Field, v: &Vars, subtract: bool) -> Option<Scalar>
    requires { Summable (bindings_of v.now) f.variable (value f.kind f.bits) }
    ensures { scalar_given result ≡ sum_of subtract f.kind (value_of (bindings_of v.now) f.variable).bits f.bits }
{
    let h = held(v, f.variable);
    let x = sums::add(f.kind, h.bits, f.bits, subtract)?;
    Some(Scalar {
        kind: x.kind(),
        bits: x.bits(),
    })
}

// The value of a field of an out.
fn field_value(f: Field, v: &Vars) -> Option<Scalar>
    requires { CanMake (bindings_of v.now) (field_is f) }
    ensures { scalar_given result ≡ made (bindings_of v.now) (field_is f) }
{
    match f.form {
        0 => Some(Scalar {
            kind: f.kind,
            bits: f.bits,
        }),
        2 => Some(held(v, f.variable)),
        3 => sum_value(f, v, false),
        4 => sum_value(f, v, true),
        _ => None,
    }
}

// Rules 3 and 4: the tuple of an out, where it can be made: its entry's bytes.
pub fn make_tuple(op: Operation, v: Vars) -> Option<[u8; words::TUPLE]>
    requires { (op.count ≤ most_fields) × Each (CanMake (bindings_of v)) (fields_in op) }
    ensures { given result ≡ made_bytes (bindings_of v) op.from (fields_in op) }
{
    let mut tuple = tuples::begin_entry(op.from, op.count);
    for j in 0..op.count {
        let x = field_value(op.fields[j], &v)?;
        tuples::put_value(&mut tuple, j, x.kind, x.bits);
    }
    Some(tuple)
}
