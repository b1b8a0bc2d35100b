// Rule 4: sums and differences of values.
#![tactic(auto)]

ghost use Rattle.std.specs.Prelude.{◌≡◌, T, cond, ◌+ℤ◌, ◌-ℤ◌};
ghost use Rattle.std.specs.Float.Ieee as Ieee;
ghost use Rattle.std.specs.Float.{binary32};
ghost use Rattle.std.specs.Float.Ieee.{of_bits, to_bits};
ghost use Rattle.model.specs.Value.{value, metres, legal_value, exact, rounded};
ghost use Rattle.values.specs.Meaning.{value_is, answered};
ghost use Rattle.sums.specs.Meaning.{off_range, sum_is, sum_of, Alike};

use values::{Value, read_value};

// The range of whole numbers.
const LEAST: i32 = -2147483648;

const MOST: i32 = 2147483647;

// Rule 4: a + b, exact, tested before it is computed; `None`, which is 17, "result off the range or not finite", exactly outside the range.
fn add_whole(a: i32, b: i32) -> Option<Value>
    ensures { sum_is result ≡ answered off_range (exact (a +ℤ b)) }
{
    if b < 0 {
        if a < LEAST - b {
            None
        } else {
            Some(Value::Whole(a + b))
        }
    } else if MOST - b < a {
        None
    } else {
        Some(Value::Whole(a + b))
    }
}

// Rule 4: a - b, exact, tested before it is computed; 17 exactly outside the range.
// (A function of its own, not one with `add_whole` by `subtract`: each has its own limits, tested before it computes.)
fn subtract_whole(a: i32, b: i32) -> Option<Value>
    ensures { sum_is result ≡ answered off_range (exact (a -ℤ b)) }
{
    if b < 0 {
        if MOST + b < a {
            None
        } else {
            Some(Value::Whole(a - b))
        }
    } else if a < LEAST + b {
        None
    } else {
        Some(Value::Whole(a - b))
    }
}

// Rule 4: a rounded sum or difference of metres, by its bits, if it is finite.
fn finite_metres(bits: u32) -> Option<Value>
    ensures { sum_is result ≡ answered off_range (rounded (of_bits binary32 bits)) }
{
    if bits % metres::SIGN < metres::INFINITE {
        Some(Value::Metres(f32::from_bits(bits)))
    } else {
        None
    }
}

// Rule 4: x + y, or x - y where `subtract` is set, rounded once; 17 exactly where that is not finite.
fn sum_metres(x: f32, y: f32, subtract: bool) -> Option<Value>
    requires { T (legal_value (value metres (to_bits binary32 x))) × T (legal_value (value metres (to_bits binary32 y))) }
    ensures { sum_is result ≡ answered off_range (rounded (cond subtract (Ieee.sub binary32 x y) (Ieee.add binary32 x y))) }
{
    let a = x.to_bits();
    let b = y.to_bits();
    if subtract {
        finite_metres(metres::subtract(a, b))
    } else {
        finite_metres(metres::add(a, b))
    }
}

// Rule 4: a + b, or a - b where `subtract` is set, of two legal values of one kind.
fn sum(a: Value, b: Value, subtract: bool) -> Option<Value>
    requires { Alike a b }
    ensures { sum_is result ≡ answered off_range (sum_of subtract (value_is b).kind (value_is a).bits (value_is b).bits) }
{
    match (a, b) {
        (Value::Whole(x), Value::Whole(y)) => {
            if subtract {
                subtract_whole(x, y)
            } else {
                add_whole(x, y)
            }
        }
        (Value::Metres(x), Value::Metres(y)) => sum_metres(x, y, subtract),
        _ => None,
    }
}

// Rule 4 on the bits of two legal values of one kind: minus where `subtract` is set, else plus.
pub fn add(kind: u8, a: u32, b: u32, subtract: bool) -> Option<Value>
    requires { T (legal_value (value kind a)) × T (legal_value (value kind b)) }
    ensures { sum_is result ≡ answered off_range (sum_of subtract kind a b) }
{
    let x = read_value(kind, a)?;
    let y = read_value(kind, b)?;
    sum(x, y, subtract)
}
