// Whether a field is legal in an operation, after the kinds that are bound.
#![tactic(auto)]

ghost use Rattle.std.specs.Prelude.{◌≡◌, T};
ghost use Rattle.std.proofs.Math.Option.{some};
ghost use Rattle.model.specs.Value.{value, range};
ghost use Rattle.model.specs.Statement.{Binder, binder_of};
ghost use Rattle.model.specs.Legal.{kind_in, legal_binder, summable, legal_range, legal_parts, legal_field, bind_kind};
ghost use Rattle.statements.specs.Flat.{field_is};
ghost use Rattle.basis.specs.Choice.{given};
ghost use Rattle.fields.specs.Kinds.{kinds_are, bound_is};
ghost use Rattle.fields.specs.Forms.{allows};
ghost use Rattle.fields.specs.Stepped.{stepped};

use statements::{Field, OUT, binds};
use values::{NAME, at_most, legal_value};
use words::{VARIABLES, size};

// Kinds are below it.
const KINDS: u8 = 3;

// The kind of each variable that is bound.
pub type Kinds = [Option<u8>; VARIABLES];

// The kind of a variable, where it is bound.
fn kind_at(kinds: &Kinds, variable: u8) -> Option<u8>
    ensures { given result ≡ kind_in (kinds_are kinds.now) variable }
{
    *kinds.get(size(variable))?
}

// "Forms 3 and 4 need the variable's kind to be theirs, and not name".
fn sum_ok(bound: Option<u8>, kind: u8, bits: u32) -> bool
    ensures { result ≡ summable (given bound) (value kind bits) }
{
    bound == Some(kind) && kind != NAME && legal_value(kind, bits)
}

// What a field binds: a kind, and a variable that is not bound yet.
fn binder_ok(kind: u8, variable: u8, now: &Kinds) -> bool
    ensures { result ≡ legal_binder (kinds_are now.now) (record { kind = kind; variable = variable }) }
{
    kind < KINDS && size(variable) < VARIABLES && kind_at(now, variable).is_none()
}

// A range: of whole numbers or metres, both ends legal, the lowest at most the highest.
#[tactic(auto, using(std::proofs::lemmas::Grind::common_steps), unfolding(model::specs::Legal::legal_range))]
fn range_ok(kind: u8, lowest: u32, highest: u32) -> bool
    ensures { result ≡ legal_range kind (range lowest highest) }
{
    kind != NAME
        && legal_value(kind, lowest)
        && legal_value(kind, highest)
        && at_most(kind, lowest, highest)
}

// What a form asks of a field's other parts.
fn parts_ok(f: Field, earlier: &Kinds) -> bool
    ensures { result ≡ legal_parts (kinds_are earlier.now) (field_is f) }
{
    match f.form {
        0 => legal_value(f.kind, f.bits),
        1 => true,
        2 => kind_at(earlier, f.variable).is_some(),
        3 | 4 => sum_ok(kind_at(earlier, f.variable), f.kind, f.bits),
        5 => f.kind < KINDS,
        _ => range_ok(f.kind, f.bits, f.highest),
    }
}

// A field after others: `earlier` has the kinds that earlier operations bound, `now` those bound so far.
fn field_ok(f: Field, earlier: &Kinds, now: &Kinds) -> bool
    ensures { result ≡ legal_field (kinds_are earlier.now) (kinds_are now.now) (field_is f) }
{
    parts_ok(f, earlier) && (!binds(f) || binder_ok(f.kind, f.variable, now))
}

// "1 to 4 allow forms 0, 1, 2, 5", and 6; "out 0, 2, 3, 4; move and copy 0, 2, 5".
fn form_ok(code: u8, form: u8) -> bool
    ensures { result ≡ allows code form }
{
    match form {
        0 => true,
        1 => code < OUT,
        2 => true,
        3 | 4 => code == OUT,
        5 => code != OUT,
        _ => code < OUT,
    }
}

// The kinds with what a field binds.
fn bind_kind(f: Field, now: &Kinds) -> Kinds
    requires { (b : Binder) → binder_of (field_is f) ≡ some b → T (legal_binder (kinds_are now.now) b) }
    ensures { kinds_are result ≡ bind_kind (kinds_are now.now) (field_is f) }
{
    let mut kinds = *now;
    if binds(f) {
        kinds[size(f.variable)] = Some(f.kind);
    }
    kinds
}

// One field of an operation of a code, whose form has to be allowed: the kinds after it, where it is legal after the fields before it.
pub fn field_step(code: u8, f: Field, earlier: &Kinds, now: &Kinds) -> Option<Kinds>
    ensures { bound_is result ≡ stepped code (kinds_are earlier.now) (kinds_are now.now) (field_is f) f.form }
{
    if form_ok(code, f.form) && field_ok(f, earlier, now) {
        Some(bind_kind(f, now))
    } else {
        None
    }
}
