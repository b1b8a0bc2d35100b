// A section of a state: rows of one size, of which the first n are in use, then zeros. What is done to it does not depend on what the rows say.
#![tactic(auto)]

ghost use Rattle.std.specs.Prelude.{◌≡◌, ◌+◌, ◌*◌, ◌-◌, ◌≤◌, ◌<◌, [], ◌∷◌, ◌++◌, length};
ghost use Rattle.basis.specs.Lists.{keep, pad, pieces, remove_at};
ghost use Rattle.basis.specs.Numbers.{number_at};
ghost use Rattle.basis.specs.Sizes.{most_width, most_row};
ghost use Rattle.sections.specs.Rows.{Rows, Section, lacks, HasRows};

// The row at index i cut out: the later ones moved down, the last one's bytes cleared.
pub fn cut(rows: &mut [u8], size: usize, n: usize, i: usize)
    requires { Section size rows.old n × (i < n) }
    ensures { Rows (length rows.old) size rows.new (n - 1) (remove_at i (pieces n size rows.old)) }
{
    spans::move_down(rows, i * size, (i + 1) * size, (n - 1 - i) * size);
    spans::clear(rows, (n - 1) * size, size);
}

// A row after the n that are there; its last bytes may be left out where they are zero.
pub fn append(rows: &mut [u8], size: usize, n: usize, row: &[u8])
    requires { Section size rows.old n × HasRows size rows.old (n + 1) × (length row.now ≤ size) }
    ensures { Rows (length rows.old) size rows.new (n + 1) (pieces n size rows.old ++ (pad size row.now ∷ [])) }
{
    spans::copy_at(rows, n * size, row);
}

// The number of w bytes from at on of the row at index i.
pub fn field(rows: &[u8], size: usize, n: usize, i: usize, at: usize, w: usize) -> u32
    requires { HasRows size rows.now n × (i < n) × (at + w ≤ size) × (w ≤ most_width) }
    ensures { result ≡ number_at (i * size + at) w rows.now }
{
    words::number(rows, i * size + at, w)
}

// The rows that have another number in that place, in their order; how many.
pub fn drop_rows(rows: &mut [u8], size: usize, n: usize, at: usize, w: usize, value: u32) -> usize
    requires { Section size rows.old n × (at + w ≤ size) × (w ≤ most_width) × (size ≤ most_row) }
    ensures { Rows (length rows.old) size rows.new result (keep (lacks at w value) (pieces n size rows.old)) }
{
    let mut m = 0;
    for next in 0..n {
        if field(rows, size, n, next, at, w) != value {
            spans::move_row(rows, m * size, next * size, size);
            m += 1;
        }
    }
    spans::clear(rows, m * size, (n - m) * size);
    m
}
