// What is found by looking through the rows of a section: the first with a number, numbers that rise, numbers that differ, zeros past the rows.
#![tactic(auto)]

ghost use Rattle.std.specs.Prelude.{◌≡◌, ◌+◌, ◌≤◌, ◌<◌, [], drop, get_or};
ghost use Rattle.basis.specs.Choice.{given};
ghost use Rattle.basis.specs.Lists.{all, pairwise, pieces};
ghost use Rattle.basis.specs.Numbers.{number_at};
ghost use Rattle.basis.specs.Sizes.{most_width};
ghost use Rattle.sections.specs.Rows.{has, first_place, HasRows, unused_zero};
ghost use Rattle.scans.specs.Tests.{ascends, differ};

// The index of the first of n rows that has this number in that place.
pub fn find(rows: &[u8], size: usize, n: usize, at: usize, w: usize, value: u32) -> Option<usize>
    requires { HasRows size rows.now n × (at + w ≤ size) × (w ≤ most_width) }
    ensures { given result ≡ first_place (has at w value) (pieces n size rows.now) }
{
    for i in 0..n {
        if sections::field(rows, size, n, i, at, w) == value {
            return Some(i);
        }
    }
    None
}

// Whether the numbers in that place of n rows rise, none below least, none above most.
pub fn rises(
    rows: &[u8],
    size: usize,
    n: usize,
    at: usize,
    w: usize,
    least: usize,
    most: usize,
) -> bool
    requires { HasRows size rows.now n × (at + w ≤ size) × (w ≤ most_width) }
    ensures { result ≡ ascends (number_at at w) least most (pieces n size rows.now) }
{
    let mut low = least;
    for i in 0..n {
        let number = sections::field(rows, size, n, i, at, w) as usize;
        if !(low..=most).contains(&number) {
            return false;
        }
        low = number + 1;
    }
    true
}

// Whether no row of n after the one at index i has its number in that place.
fn is_alone(rows: &[u8], size: usize, n: usize, i: usize, at: usize, w: usize) -> bool
    requires { HasRows size rows.now n × (i < n) × (at + w ≤ size) × (w ≤ most_width) }
    ensures { result ≡ all (differ at w (get_or (pieces n size rows.now) i [])) (drop (i + 1) (pieces n size rows.now)) }
{
    let number = sections::field(rows, size, n, i, at, w);
    for j in i + 1..n {
        if sections::field(rows, size, n, j, at, w) == number {
            return false;
        }
    }
    true
}

// Whether no two of n rows have the same number in that place.
pub fn are_apart(rows: &[u8], size: usize, n: usize, at: usize, w: usize) -> bool
    requires { HasRows size rows.now n × (at + w ≤ size) × (w ≤ most_width) }
    ensures { result ≡ pairwise (differ at w) (pieces n size rows.now) }
{
    for i in 0..n {
        if !is_alone(rows, size, n, i, at, w) {
            return false;
        }
    }
    true
}

// "All unused bytes are zero": those past the n rows.
pub fn unused_zero(rows: &[u8], size: usize, n: usize) -> bool
    requires { HasRows size rows.now n }
    ensures { result ≡ unused_zero size rows.now n }
{
    let used = n * size;
    spans::zero_run(rows, used, rows.len() - used)
}
