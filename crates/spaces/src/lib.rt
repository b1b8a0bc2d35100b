// The open spaces of a state: rows that say number, kind and owner.
#![tactic(auto)]

ghost use Rattle.std.specs.Prelude.{◌≡◌, ◌+◌, ◌≤◌, ◌<◌, true, not, ◌&&◌, [], ◌∷◌, ◌++◌, length, get_or};
ghost use Rattle.basis.specs.Choice.{given};
ghost use Rattle.basis.specs.Lists.{all, keep, pieces};
ghost use Rattle.basis.specs.Sizes.{most_spaces, space_numbers, space_size, spaces_size};
ghost use Rattle.model.specs.Run.{is_open, denied_to, is_denied};
ghost use Rattle.layout.specs.States.{space_bytes};
ghost use Rattle.sections.specs.Rows.{HasRows};
ghost use Rattle.spaces.specs.Spaces.{spaces_of, Listed, IsListed, Rising, place_of, other_than, opening, no_space};
ghost use Rattle.spaces.specs.Legal.{spaces_legal, access_ok};
ghost use Rattle.spaces.specs.SearchLaws.{number_in, reached};

const ROW: usize = words::SPACE;

// The number of the space at an index.
fn number_at(spaces: &[u8], n: usize, i: usize) -> u16
    requires { HasRows space_size spaces.now n × (i < n) }
    ensures { result ≡ number_in (spaces_of spaces.now n) i }
{
    words::space_number(spaces, i * ROW)
}

// Whether there is a space at an index, whose number is not above this one.
fn reaches(spaces: &[u8], n: usize, i: usize, number: u16) -> bool
    requires { HasRows space_size spaces.now n }
    ensures { result ≡ reached (spaces_of spaces.now n) n number i }
{
    i < n && number_at(spaces, n, i) <= number
}

// The index of the space of a number, where numbers rise, if it is open. One space is compared; otherwise what is left from index `low` on
// is halved. Halving begins with room for all spaces, so that it always has the same few steps (branch-free speed: no loop over the spaces).
fn place(spaces: &[u8], n: usize, number: u16) -> Option<usize>
    requires { HasRows space_size spaces.now n × (n ≤ most_spaces) × Rising (spaces_of spaces.now n) }
    ensures { given result ≡ place_of number (spaces_of spaces.now n) }
{
    if n == 1 {
        return (number_at(spaces, n, 0) == number).then_some(0);
    }
    let mut low = 0;
    let mut left = words::MOST_SPACES;
    while 1 < left {
        let half = left / 2;
        if reaches(spaces, n, low + half, number) {
            low += half;
            left -= half;
        } else {
            left -= half;
        }
    }
    (low < n && number_at(spaces, n, low) == number).then_some(low)
}

// Whether a space is open.
pub fn is_open(spaces: &[u8], n: usize, number: u16) -> bool
    requires { IsListed spaces.now n × Rising (spaces_of spaces.now n) }
    ensures { result ≡ is_open (spaces_of spaces.now n) number }
{
    place(spaces, n, number).is_some()
}

// Whether the space at an index is private to another process.
fn denied_at(spaces: &[u8], n: usize, i: usize, process: u16) -> bool
    requires { HasRows space_size spaces.now n × (i < n) }
    ensures { result ≡ denied_to process (get_or (spaces_of spaces.now n) i no_space).access }
{
    sections::field(spaces, ROW, n, i, words::SPACE_KIND_AT, words::KIND_WIDTH) == 1
        && sections::field(
            spaces,
            ROW,
            n,
            i,
            words::SPACE_OWNER_AT,
            words::PROCESS_WIDTH,
        ) != u32::from(process)
}

// Whether a space is private to another process.
pub fn is_denied(spaces: &[u8], n: usize, number: u16, process: u16) -> bool
    requires { IsListed spaces.now n × Rising (spaces_of spaces.now n) }
    ensures { result ≡ is_denied (spaces_of spaces.now n) process number }
{
    let Some(i) = place(spaces, n, number) else {
        return false;
    };
    denied_at(spaces, n, i, process)
}

// Whether a space is open to a process.
pub fn is_open_to(spaces: &[u8], n: usize, number: u16, process: u16) -> bool
    requires { IsListed spaces.now n × Rising (spaces_of spaces.now n) }
    ensures { result ≡ (is_open (spaces_of spaces.now n) number && not (is_denied (spaces_of spaces.now n) process number)) }
{
    let Some(i) = place(spaces, n, number) else {
        return false;
    };
    !denied_at(spaces, n, i, process)
}

// A space's row: "number, kind, owner process; shared: 0".
fn row(number: u16, process: u16, owned: bool) -> [u8; ROW]
    ensures { result ≡ space_bytes (opening number process owned) }
{
    let mut row = [0u8; ROW];
    words::put_space_number(&mut row, 0, number);
    if owned {
        words::put_number(&mut row, words::SPACE_KIND_AT, words::KIND_WIDTH, 1);
        words::put2(&mut row, words::SPACE_OWNER_AT, process);
    }
    row
}

// "MS opens": a space more.
pub fn open(spaces: &mut [u8], n: usize, number: u16, process: u16, owned: bool)
    requires { IsListed spaces.old n × (n < most_spaces) × (number < space_numbers) }
    ensures { Listed spaces.new (n + 1) (spaces_of spaces.old n ++ (opening number process owned ∷ [])) }
{
    let row = row(number, process, owned);
    sections::append(spaces, ROW, n, &row);
}

// "DS closes": the spaces of other numbers; how many.
pub fn close(spaces: &mut [u8], n: usize, number: u16) -> usize
    requires { IsListed spaces.old n }
    ensures { Listed spaces.new result (keep (other_than number) (spaces_of spaces.old n)) }
{
    sections::drop_rows(spaces, ROW, n, 0, words::SPACE_WIDTH, u32::from(number))
}

// ---- the test of a state

// Kind and owner of the row at index i: private, or shared, whose owner is 0.
fn access_ok(spaces: &[u8], n: usize, i: usize) -> bool
    requires { HasRows space_size spaces.now n × (i < n) }
    ensures { result ≡ access_ok (get_or (pieces n space_size spaces.now) i []) }
{
    match sections::field(spaces, ROW, n, i, words::SPACE_KIND_AT, words::KIND_WIDTH) {
        0 => {
            sections::field(
                spaces,
                ROW,
                n,
                i,
                words::SPACE_OWNER_AT,
                words::PROCESS_WIDTH,
            ) == 0
        }
        1 => true,
        _ => false,
    }
}

// Those of n rows.
fn accesses_ok(spaces: &[u8], n: usize) -> bool
    requires { HasRows space_size spaces.now n }
    ensures { result ≡ all access_ok (pieces n space_size spaces.now) }
{
    for i in 0..n {
        if !access_ok(spaces, n, i) {
            return false;
        }
    }
    true
}

// "Spaces rise by number", "space 0 is open and shared, spaces are below the next number", and their section is as they are written.
pub fn are_legal(spaces: &[u8], n: usize, next: u32) -> bool
    requires { (length spaces.now ≡ spaces_size) × (n ≤ most_spaces) }
    ensures { result ≡ spaces_legal spaces.now n next }
{
    n > 0
        && next > 0
        && scans::unused_zero(spaces, ROW, n)
        && spans::zero_run(spaces, 0, ROW)
        && accesses_ok(spaces, n)
        && scans::rises(spaces, ROW, n, 0, words::SPACE_WIDTH, 0, next as usize - 1)
}
