// The text of numbers: decimal and hexadecimal digits, written into a lent buffer.
#![tactic(auto)]

ghost use Rattle.std.specs.Prelude.{◌≡◌, ◌+◌, ◌*◌, ◌≤◌, ◌<◌, length, take, drop};
ghost use mathlib.Core.List.{◌∷◌, flat_map};
ghost use Rattle.basis.specs.Sizes.{bits_width};
ghost use Rattle.words.specs.Over.{over};
ghost use Rattle.text.specs.Lines.{decimal, hex_digit, hex_byte};
ghost use Rattle.text.specs.Written.{most_digits, byte_room};
ghost use Rattle.digits.specs.Put.{Put};

// The greatest number of four bytes has ten digits.
pub const MOST_DIGITS: usize = 10;

// "capital hexadecimal digits".
fn hex_digit(d: u8) -> u8
    requires { d < 16 }
    ensures { result ≡ hex_digit d }
{
    if d < 10 { b'0' + d } else { b'A' + (d - 10) }
}

// The two digits of a byte.
fn put_byte(out: &mut [u8], at: usize, b: u8)
    requires { at + 2 ≤ length out.old }
    ensures { out.new ≡ over out.old at (hex_byte b) 2 }
{
    out[at] = hex_digit(b / 16);
    out[at + 1] = hex_digit(b % 16);
}

// "eight capital hexadecimal digits": those of the four bytes from index from on.
pub fn put_bits(out: &mut [u8], at: usize, replies: &[u8], from: usize)
    requires { (at + 2 * bits_width ≤ length out.old) × (from + bits_width ≤ length replies.now) }
    ensures { out.new ≡ over out.old at (flat_map hex_byte (take bits_width (drop from replies.now))) (2 * bits_width) }
{
    for i in 0..words::BITS_WIDTH {
        put_byte(out, at + 2 * i, replies[from + i]);
    }
}

// A number in decimal, and the index past it.
pub fn put_number(out: &mut [u8], at: usize, n: u32) -> usize
    requires { at + most_digits ≤ length out.old }
    ensures { Put (decimal n) out.old out.new at result }
{
    let mut text = [0u8; 20];
    let k = io::decimal(u64::from(n), &mut text);
    spans::copy_at(out, at, &text[..k]);
    at + k
}

// A number in decimal that comes after a mark.
pub fn put_next(out: &mut [u8], at: usize, mark: u8, n: u32) -> usize
    requires { at + 1 + most_digits ≤ length out.old }
    ensures { Put (mark ∷ decimal n) out.old out.new at result }
{
    out[at] = mark;
    put_number(out, at + 1, n)
}

// A byte in decimal that comes after a mark.
pub fn put_part(out: &mut [u8], at: usize, mark: u8, b: u8) -> usize
    requires { at + 1 + most_digits ≤ length out.old }
    ensures put { Put (mark ∷ decimal b) out.old out.new at result }
    ensures upper_bound { result ≤ at + byte_room }
{
    put_next(out, at, mark, words::wide(b))
}
