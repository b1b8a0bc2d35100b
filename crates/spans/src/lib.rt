// Spans of bytes: copied, moved, cleared, looked through for zeros.
#![tactic(auto)]

ghost use Rattle.std.specs.Prelude.{◌≡◌, ◌+◌, ◌≤◌, length, drop, eqb};
ghost use Rattle.basis.specs.Lists.{all, zeros};
ghost use Rattle.basis.specs.Sizes.{most_row};
ghost use Rattle.words.specs.Over.{over, zeros_at};

// n bytes of s, those from index from on, over d's from index at on.
pub fn copy_part(d: &mut [u8], at: usize, s: &[u8], from: usize, n: usize)
    requires { (at + n ≤ length d.old) × (from + n ≤ length s.now) }
    ensures { d.new ≡ over d.old at (drop from s.now) n }
{
    d[at..at + n].copy_from_slice(&s[from..from + n]);
}

// All of s over d's from index at on.
pub fn copy_at(d: &mut [u8], at: usize, s: &[u8])
    requires { at + length s.now ≤ length d.old }
    ensures { d.new ≡ over d.old at s.now (length s.now) }
{
    d[at..at + s.len()].copy_from_slice(s);
}

// The n bytes from index from on, moved to index to, which is not above from.
pub fn move_down(a: &mut [u8], to: usize, from: usize, n: usize)
    requires { (to ≤ from) × (from + n ≤ length a.old) }
    ensures { a.new ≡ over a.old to (drop from a.old) n }
{
    // Not `copy_within`, which is written out where the loop becomes one call: with it 32 statements that wake take a third longer.
    for i in 0..n {
        a[to + i] = a[from + i];
    }
}

// The n bytes of a row, those from index from on, moved to any index, by way of a copy: where n is a constant, the compiler then moves them in few
// steps also where n is odd, and `copy_within` takes 3.5 times as long. A row that stands where it goes is left.
pub fn move_row(a: &mut [u8], to: usize, from: usize, n: usize)
    requires { (to + n ≤ length a.old) × (from + n ≤ length a.old) × (n ≤ most_row) }
    ensures { a.new ≡ over a.old to (drop from a.old) n }
{
    if to == from {
        return;
    }
    let mut row = [0u8; words::MOST_ROW];
    copy_part(&mut row, 0, a, from, n);
    copy_part(a, to, &row, 0, n);
}

// n zeros from index at on: "All unused bytes are zero".
pub fn clear(a: &mut [u8], at: usize, n: usize)
    requires { at + n ≤ length a.old }
    ensures { a.new ≡ over a.old at (zeros n) n }
{
    a[at..at + n].fill(0);
}

// Whether all bytes are zero, with no exit from the loop, so that it is compiled to vector instructions: with `all` it takes 40 times as long.
fn is_zero(piece: &[u8]) -> bool
    ensures { result ≡ all (λ b. eqb b 0) piece.now }
{
    let mut all = true;
    for &byte in piece {
        all &= byte == 0;
    }
    all
}

// Whether n bytes from index at on are zero: in pieces of 256, left at the first that is not.
pub fn zero_run(s: &[u8], at: usize, n: usize) -> bool
    requires { at + n ≤ length s.now }
    ensures { result ≡ zeros_at s.now at n }
{
    let (pieces, rest) = s[at..at + n].as_chunks::<256>();
    for piece in pieces {
        if !is_zero(piece) {
            return false;
        }
    }
    is_zero(rest)
}
