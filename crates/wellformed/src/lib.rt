// Which rows of the tuples are the entries of legal tuples, and the zeros past them, for the test of a state.
#![tactic(auto)]

ghost use Rattle.std.specs.Prelude.{◌≡◌, ◌+◌, ◌<◌};
ghost use Rattle.basis.specs.Sizes.{most_fields, tuple_size};
ghost use Rattle.tuples.specs.Section.{entry_at};
ghost use Rattle.tuples.specs.Entry.{is_entry, value_in, values_in, each_field};
ghost use Rattle.sections.specs.Rows.{HasRows, unused_zero};
ghost use Rattle.wellformed.specs.Fields.{field_ok, field_ok_at};

// Whether the value of field f of the row at index i is legal or, where the field is not used, zero. Its four bytes are read only where
// they are asked for, since a read that many tests share is slow.
fn field_ok(tuples: &[u8], i: usize, f: usize, used: bool) -> bool
    requires { HasRows tuple_size tuples.now (i + 1) × (f < most_fields) }
    ensures { result ≡ field_ok used (value_in tuples.now i f) }
{
    let kind = tuples::kind(tuples, i, f);
    if used {
        kind == values::WHOLE || values::legal_value(kind, tuples::bits(tuples, i, f))
    } else {
        kind == 0 && tuples::bits(tuples, i, f) == 0
    }
}

// Whether of the six values of the row at index i the first `count` are legal and the others zero.
fn fields_ok(tuples: &[u8], i: usize, count: usize) -> bool
    requires { HasRows tuple_size tuples.now (i + 1) }
    ensures { result ≡ each_field (field_ok_at count) 0 (values_in tuples.now i most_fields) }
{
    for f in 0..words::MOST_FIELDS {
        if !field_ok(tuples, i, f, f < count) {
            return false;
        }
    }
    true
}

// Whether the row at index i is that of a legal tuple: "A tuple has 1 to 6 values", "All unused bytes are zero".
pub fn tuple_ok(tuples: &[u8], i: usize) -> bool
    requires { HasRows tuple_size tuples.now (i + 1) }
    ensures { result ≡ is_entry (entry_at tuples.now i) }
{
    let count = tuples::field_count(tuples, i);
    count >= 1 && count <= words::MOST_FIELDS && fields_ok(tuples, i, count)
}

// "All unused bytes are zero": those past n rows.
pub fn unused_zero(tuples: &[u8], n: usize) -> bool
    requires { HasRows tuple_size tuples.now n }
    ensures { result ≡ unused_zero tuple_size tuples.now n }
{
    scans::unused_zero(tuples, words::TUPLE, n)
}
