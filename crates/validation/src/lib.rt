// The test of "The state buffer": whether bytes are a state.
#![tactic(auto)]

ghost use Rattle.std.specs.Prelude.{◌≡◌, ◌≤◌, length, T};
ghost use Rattle.basis.specs.Lists.{all, pieces};
ghost use Rattle.basis.specs.Numbers.{bits};
ghost use Rattle.basis.specs.Sizes.{hosts, most_tuples, tuple_size, tuples_size, state_size};
ghost use Rattle.model.specs.Valid.{counts_fit};
ghost use Rattle.layout.specs.States.{decode};
ghost use Rattle.layout.specs.IsState.{is_state};
ghost use Rattle.tuples.specs.Section.{tuples_of};
ghost use Rattle.spaces.specs.Spaces.{spaces_of, IsListed, Rising};
ghost use Rattle.queue.specs.Queue.{waiting_of, IsQueued};
ghost use Rattle.validation.specs.Validation.{row_open, tuples_legal, waits_legal, contents_legal};

// Each of m rows is that of a legal tuple, and "tuples lie in open spaces".
fn rows_ok(tuples: &[u8], m: usize, spaces: &[u8], n: usize) -> bool
    requires { (length tuples.now ≡ tuples_size) × (m ≤ most_tuples) × IsListed spaces.now n × Rising (spaces_of spaces.now n) }
    ensures { result ≡ all (row_open (spaces_of spaces.now n)) (pieces m tuple_size tuples.now) }
{
    for i in 0..m {
        if !wellformed::tuple_ok(tuples, i) {
            return false;
        }
        if !spaces::is_open(spaces, n, tuples::space(tuples, i)) {
            return false;
        }
    }
    true
}

// The tuples: their section is as they are written, each is legal and lies in an open space.
fn tuples_ok(tuples: &[u8], m: usize, spaces: &[u8], n: usize) -> bool
    requires { (length tuples.now ≡ tuples_size) × (m ≤ most_tuples) × IsListed spaces.now n × Rising (spaces_of spaces.now n) }
    ensures { result ≡ tuples_legal (spaces_of spaces.now n) tuples.now m }
{
    wellformed::unused_zero(tuples, m) && rows_ok(tuples, m, spaces, n)
}

// The waiting statements: their order, "of a process that no other entry has", each may wait, and none is ready (one walk of each body).
fn waits_ok(
    waiting: &[u8],
    k: usize,
    last: u32,
    up: u16,
    spaces: &[u8],
    n: usize,
    tuples: &[u8],
    m: usize,
) -> bool
    requires { IsQueued waiting.now k × IsListed spaces.now n × Rising (spaces_of spaces.now n) × (length tuples.now ≡ tuples_size) × (m ≤ most_tuples) }
    ensures { result ≡ waits_legal last (bits hosts up) (spaces_of spaces.now n) (tuples_of tuples.now m) (waiting_of waiting.now k) }
{
    queue::in_order(waiting, k, last)
        && queue::processes_differ(waiting, k)
        && waiting::all_may_wait(waiting, k, spaces, n, tuples, m, up)
}

// The sections, of bytes whose header is that of a state. Each is read once those before it are legal: one test after the other, since
// what each reads stands between.
fn contents_ok(b: &[u8]) -> bool
    requires { (length b.now ≡ state_size) × T (counts_fit (decode b.now)) }
    ensures { result ≡ contents_legal b.now }
{
    let n = header::space_count(b);
    let spaces = &b[words::SPACES_AT..words::SPACES_END];
    if !spaces::are_legal(spaces, n, header::next(b)) {
        return false;
    }
    let m = header::tuple_count(b);
    let tuples = &b[words::TUPLES_AT..words::TUPLES_END];
    if !tuples_ok(tuples, m, spaces, n) {
        return false;
    }
    let k = header::waiting_count(b);
    let waiting = &b[words::WAITING_AT..words::WAITING_END];
    if !waiting::is_queue(waiting, k) {
        return false;
    }
    waits_ok(
        waiting,
        k,
        header::last(b),
        header::hosts(b),
        spaces,
        n,
        tuples,
        m,
    )
}

// "It is a state exactly if this layout and every limit hold, ..".
pub fn is_state(b: &[u8]) -> bool
    ensures { result ≡ is_state b.now }
{
    b.len() == words::STATE && header::is_legal(b) && contents_ok(b)
}
