// Sums and differences of metres on their bits, by integers alone: no mode of the processor can change one.
#![tactic(auto)]

ghost use Rattle.std.specs.Prelude.{◌≡◌, ◌⊎◌, true, cond, ◌+◌, ◌-◌, ◌*◌, ◌%◌, ◌^◌, ◌<◌, ◌≤◌, min, max, ◌+ℤ◌};
ghost use Rattle.std.specs.Float.{binary32};
ghost use Rattle.std.specs.Float.Ieee.{of_bits, to_bits};
ghost use Rattle.std.specs.Float.Ieee as Ieee;
ghost use Rattle.std.specs.Float.Ieee.Nearest.{closest};
ghost use Rattle.rounding.specs.Parts.{sign, infinite, place, digits, magnitude, scaled, nearest_bits, bits_of};

// The sign's bit: the bits below it are a remainder by it.
pub const SIGN: u32 = 0x8000_0000;

pub const NEGATIVE_ZERO: u32 = SIGN;

const POSITIVE_ZERO: u32 = 0;

// The bits of an infinity: those of a finite value are, without the sign, below it.
pub const INFINITE: u32 = 0x7f80_0000;

// The leading one of 24 digits, and the weight of the exponent.
const LEAD: u32 = 0x80_0000;

// From so many places apart on, the smaller of two values does not move the larger.
const FAR: u32 = 26;

// Digits past the 24 that are kept, of 63.
const SPARE: u32 = 39;

// Bits without the sign stand for digits * 2 ^ place times 2 ^ -149, the smallest value above zero.
fn place_of(p: u32) -> u32
    ensures { result ≡ place p }
{
    (p / LEAD).saturating_sub(1)
}

fn digits_of(p: u32) -> u64
    ensures { result ≡ digits p }
{
    if p < LEAD {
        u64::from(p)
    } else {
        u64::from(p % LEAD + LEAD)
    }
}

// n / 2 ^ drop to the nearest whole number, a tie to the even one: just less than a half is added, and a half where the quotient is odd.
// The library's divisions round down or up.
fn nearest(n: u64, drop: u32) -> u64
    requires drop_nonzero { 0 < drop }
    requires drop_bound { drop < 64 }
    requires n_bound { n < 2 ^ 63 }
    ensures { result ≡ closest n (2 ^ drop) }
{
    let odd = (n >> drop) % 2;
    (n + ((1 << (drop - 1)) - 1) + odd) >> drop
}

// What is too large has an infinity's bits.
fn capped(bits: u32) -> u32
    ensures { result ≡ min bits infinite }
{
    bits.min(INFINITE)
}

// The bits of the value nearest to n * 2 ^ place. n is moved up to 63 digits; all but 24 are dropped, or more where the last one kept would be below
// the lowest place.
fn rounded(n: u64, place: u32) -> u32
    requires n_bound { n < 2 ^ 50 }
    requires place_bound { place < 254 }
    requires fact { (0 < n) ⊎ (place ≡ 0) }
    ensures { result ≡ nearest_bits (n * 2 ^ place) }
{
    let up = n.leading_zeros() - 1;
    let drop = SPARE.max(up.saturating_sub(place));
    let bits = (place + drop - up) * LEAD + nearest(n << up, drop) as u32;
    capped(bits)
}

// x - y where `minus` is set, else x + y.
fn joined(x: u64, y: u64, minus: bool) -> u64
    requires x_bound { x < 2 ^ 49 }
    requires y_bound { y < 2 ^ 24 }
    requires y_lt_x { minus ≡ true → y < x }
    ensures { result ≡ cond minus (x - y) (x + y) }
{
    if minus { x - y } else { x + y }
}

// The bits of hi + lo, or of hi - lo where `minus` is set, rounded; both without signs.
fn combined(hi: u32, lo: u32, minus: bool) -> u32
    requires lo_le_hi { lo ≤ hi }
    requires hi_lt_infinite { hi < infinite }
    requires lo_lt_hi { minus ≡ true → lo < hi }
    ensures { result ≡ nearest_bits (cond minus (magnitude hi - magnitude lo) (magnitude hi + magnitude lo)) }
{
    let low = place_of(lo);
    let apart = place_of(hi) - low;
    if apart < FAR {
        rounded(joined(digits_of(hi) << apart, digits_of(lo), minus), low)
    } else {
        hi
    }
}

// a + b, of which a is no smaller in size: what is not nothing has a's sign.
fn onto(a: u32, b: u32) -> u32
    requires sign_bound { b % sign ≤ a % sign }
    requires sign_bound_2 { a % sign < infinite }
    requires fact { a ≡ sign → ⊥ }
    ensures { result ≡ bits_of (scaled a +ℤ scaled b) }
{
    let hi = a % SIGN;
    let lo = b % SIGN;
    if a / SIGN == b / SIGN {
        a - hi + combined(hi, lo, false)
    } else if lo < hi {
        a - hi + combined(hi, lo, true)
    } else {
        POSITIVE_ZERO
    }
}

// a + b: to nearest, ties to even, subnormals kept; an infinity where it is too large. The larger one is put first.
pub fn add(a: u32, b: u32) -> u32
    requires sign_bound { a % sign < infinite }
    requires sign_bound_2 { b % sign < infinite }
    requires fact { a ≡ sign → ⊥ }
    ensures { result ≡ to_bits binary32 (Ieee.add binary32 (of_bits binary32 a) (of_bits binary32 b)) }
{
    if a % SIGN < b % SIGN {
        onto(b, a)
    } else {
        onto(a, b)
    }
}

// a - b: the sum with the sign of b turned, its highest bit.
pub fn subtract(a: u32, b: u32) -> u32
    requires sign_bound { a % sign < infinite }
    requires sign_bound_2 { b % sign < infinite }
    requires fact { a ≡ sign → ⊥ }
    ensures { result ≡ to_bits binary32 (Ieee.sub binary32 (of_bits binary32 a) (of_bits binary32 b)) }
{
    add(a, b.wrapping_add(SIGN))
}
