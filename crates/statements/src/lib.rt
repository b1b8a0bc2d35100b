// Reading the operations of an AG record's body.
#![tactic(auto)]

ghost use Rattle.std.specs.Prelude.{◌≡◌, ◌+◌, ◌≤◌, ◌<◌, length, get_or, T, IfSome, Some};
ghost use Rattle.model.specs.Statement.{binder_of};
ghost use Rattle.basis.specs.Choice.{given, is_some, provided};
ghost use Rattle.basis.specs.Lists.{all};
ghost use Rattle.basis.specs.Sizes.{space_width, most_fields, spaces_width};
ghost use Rattle.model.specs.Reading.{field, several};
ghost use Rattle.statements.specs.At.{read_at, passed, ended};
ghost use Rattle.statements.specs.Flat.{codes, has_form, field_is, field_read, fields_read, Reads, few_fields, operation_at};
ghost use Rattle.statements.specs.Front.{Fronts, bare_at, bare_is};
ghost use Rattle.statements.specs.Operations.{after_code, named_width, second_space};
ghost use Rattle.statements.specs.Binds.{binder_in};
ghost use Rattle.statements.specs.Fields.{width_of, FieldStands, field_parts, field_end};

use words::{
    ACTUAL, ANONYMOUS, CODE_WIDTH, COUNT_WIDTH, FORM_WIDTH, FORMAL, HIGHEST_AT, KIND_WIDTH,
    MOST_FIELDS, RANGE, RANGE_VARIABLE_AT, REFERENCE, SPACE_WIDTH, SPACES_WIDTH, SUM, SUM_BITS_AT,
    VALUE_BITS_AT, VARIABLE_WIDTH, size, space_number, word4,
};

// Codes: 0 true, 1 to 5 (out) name a space, 6 and 7 two; fields have the forms 0 to 6.
pub const TRUE: u8 = 0;

pub const OUT: u8 = 5;

pub const TWO_SPACES: u8 = 6;

pub const CODES: u8 = 8;

pub const FORMS: u8 = 7;

// A field: its form, and the kind, variable and four bytes of a value that the form has, of form 6 the lowest and the highest; parts that it lacks are 0.
#[repr(C)]
#[derive(Clone, Copy, Default)]
pub struct Field {
    pub form: u8,
    pub kind: u8,
    pub variable: u8,
    pub bits: u32,
    pub highest: u32,
}

// Whether a field binds: its variable, at its kind.
pub fn binds(f: Field) -> bool
    ensures { provided result (binder_in f) ≡ binder_of (field_is f) }
{
    f.form == 1 || 6 <= f.form
}

// An operation: its code, spaces and first `count` fields; parts that it lacks are 0.
#[repr(C)]
#[derive(Clone, Copy)]
pub struct Operation {
    pub code: u8,
    pub from: u16,
    pub to: u16,
    pub count: usize,
    pub fields: [Field; MOST_FIELDS],
}

// The bytes of a field of a form, its form byte included, if there is such a form.
fn field_width(form: u8) -> Option<usize>
    ensures { given result ≡ width_of form }
{
    match form {
        0 => Some(ACTUAL),
        1 => Some(FORMAL),
        2 => Some(REFERENCE),
        3 | 4 => Some(SUM),
        5 => Some(ANONYMOUS),
        6 => Some(RANGE),
        _ => None,
    }
}

// The position after the field at a position, if there is one.
fn field_end(b: &[u8], at: usize) -> Option<usize>
    ensures { given result ≡ field_end b.now at }
{
    let width = field_width(*b.get(at)?)?;
    if b.len() - at < width {
        return None;
    }
    Some(at + width)
}

// The parts of the field at a position.
fn field_parts(b: &[u8], at: usize) -> Field
    requires { FieldStands b.now at }
    ensures { (field_is result ≡ field_parts b.now at) × (result.form ≡ get_or b.now at 0) }
{
    let from = at + FORM_WIDTH;
    let first = b[from];
    let bare = Field {
        form: b[at],
        ..Field::default()
    };
    match bare.form {
        0 => Field {
            kind: first,
            bits: word4(b, from + VALUE_BITS_AT),
            ..bare
        },
        1 => Field {
            kind: first,
            variable: b[from + KIND_WIDTH],
            ..bare
        },
        2 => Field {
            variable: first,
            ..bare
        },
        3 | 4 => Field {
            kind: b[from + VARIABLE_WIDTH],
            variable: first,
            bits: word4(b, from + SUM_BITS_AT),
            ..bare
        },
        5 => Field {
            kind: first,
            ..bare
        },
        _ => Field {
            kind: first,
            variable: b[from + RANGE_VARIABLE_AT],
            bits: word4(b, from + VALUE_BITS_AT),
            highest: word4(b, from + HIGHEST_AT),
            ..bare
        },
    }
}

// The field at a position, and the position after it: form 0, kind, value; 1, kind, variable; 2, variable; 3 and 4, variable, kind, value; 5, kind; 6, kind, lowest, highest, variable.
pub fn read_field(b: &[u8], at: usize) -> Option<(Field, usize)>
    ensures { (field_read result ≡ read_at field b.now at) × IfSome result (λ r. T (has_form r.0)) }
{
    let end = field_end(b, at)?;
    Some((field_parts(b, at), end))
}

// So many fields from a position on, and the position after them.
fn read_fields(b: &[u8], at: usize, count: usize) -> Option<([Field; MOST_FIELDS], usize)>
    requires { (count ≤ most_fields) × (at ≤ length b.now) }
    ensures { (fields_read count result ≡ read_at (several field count) b.now at) × IfSome result (λ r. T (all has_form r.0)) }
{
    let mut fields = [Field::default(); MOST_FIELDS];
    let mut end = at;
    for field in &mut fields[..count] {
        (*field, end) = read_field(b, end)?;
    }
    Some((fields, end))
}

// The position after so many fields from a position on, if there are so many.
fn fields_end(b: &[u8], at: usize, count: usize) -> Option<usize>
    requires { at ≤ length b.now }
    ensures { given result ≡ ended (read_at (several field count) b.now at) }
{
    let mut end = at;
    for _ in 0..count {
        end = field_end(b, end)?;
    }
    Some(end)
}

// The bytes of the spaces that an operation of a code above 0 names.
fn spaces_width(code: u8) -> usize
    ensures { (result ≡ named_width code) × (space_width ≤ result) × (result ≤ spaces_width) }
{
    if code < TWO_SPACES {
        SPACE_WIDTH
    } else {
        SPACES_WIDTH
    }
}

// The second of two spaces that stand from a position on; 0 where the code has one.
fn second_space(b: &[u8], at: usize, code: u8) -> u16
    requires { at + named_width code ≤ length b.now }
    ensures { result ≡ second_space b.now at code }
{
    if code < TWO_SPACES {
        return 0;
    }
    space_number(b, at + SPACE_WIDTH)
}

// An operation without its fields: its code and spaces.
#[derive(Clone, Copy)]
pub struct Bare {
    pub code: u8,
    pub from: u16,
    pub to: u16,
}

// What stands before the fields of an operation: the operation without them, their count, and the position of the first.
#[derive(Clone, Copy)]
struct Front {
    pub bare: Bare,
    pub count: usize,
    pub at: usize,
}

// Codes 1 to 7, after the code: space, or from and to; then the field count.
fn front_on_spaces(b: &[u8], at: usize, code: u8) -> Option<Front>
    requires { (0 < code) × (at ≤ length b.now) × (code < codes) }
    ensures { Fronts result b.now (passed few_fields (read_at (after_code code) b.now at)) }
{
    let width = spaces_width(code);
    if b.len() - at < width + COUNT_WIDTH {
        return None;
    }
    let count = size(b[at + width]);
    if MOST_FIELDS < count {
        return None;
    }
    let first = space_number(b, at);
    let second = second_space(b, at, code);
    Some(Front {
        bare: Bare {
            code,
            from: first,
            to: second,
        },
        count,
        at: at + width + COUNT_WIDTH,
    })
}

// The front of the operation at a position: code 0, true, has no more bytes; 1 to 5 name a space, 6 and 7 two.
fn read_front(b: &[u8], at: usize) -> Option<Front>
    ensures { Fronts result b.now (operation_at b.now at) }
{
    let code = *b.get(at)?;
    match code {
        TRUE => Some(Front {
            bare: Bare {
                code,
                from: 0,
                to: 0,
            },
            count: 0,
            at: at + CODE_WIDTH,
        }),
        ..CODES => front_on_spaces(b, at + CODE_WIDTH, code),
        _ => None,
    }
}

// The operation at a position, with its fields, and the position after it.
pub fn read_operation(b: &[u8], at: usize) -> Option<(Operation, usize)>
    ensures { Reads result (operation_at b.now at) }
{
    let f = read_front(b, at)?;
    let (fields, end) = read_fields(b, f.at, f.count)?;
    Some((
        Operation {
            code: f.bare.code,
            from: f.bare.from,
            to: f.bare.to,
            count: f.count,
            fields,
        },
        end,
    ))
}

// The operation at a position, its end found from field to field, and no field read.
pub fn pass_operation(b: &[u8], at: usize) -> Option<(Bare, usize)>
    ensures { bare_is result ≡ bare_at (operation_at b.now at) }
{
    let f = read_front(b, at)?;
    let end = fields_end(b, f.at, f.count)?;
    Some((f.bare, end))
}

// The operation that stands at a position.
pub fn standing_operation(b: &[u8], at: usize) -> (Operation, usize)
    requires { T (is_some (operation_at b.now at)) }
    ensures { Reads (Some result) (operation_at b.now at) }
{
    read_operation(b, at).unwrap()
}

// The same, passed over.
pub fn standing_bare(b: &[u8], at: usize) -> (Bare, usize)
    requires { T (is_some (operation_at b.now at)) }
    ensures { bare_is (Some result) ≡ bare_at (operation_at b.now at) }
{
    pass_operation(b, at).unwrap()
}
