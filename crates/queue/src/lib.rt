// The waiting statements of a state: rows that say position, length and body.
#![tactic(auto)]

ghost use Rattle.std.specs.Prelude.{◌≡◌, ◌+◌, ◌-◌, ◌^◌, ◌≤◌, ◌<◌, [], ◌∷◌, ◌++◌, length, get_or, T};
ghost use Rattle.basis.specs.Lists.{any, keep, pad, pairwise, pieces, remove_at};
ghost use Rattle.basis.specs.Sizes.{length_width, hosts, most_body, most_waiting, waiting_size};
ghost use Rattle.model.specs.Legal.{legal_body};
ghost use Rattle.layout.specs.Stored.{statement_of};
ghost use Rattle.sections.specs.Rows.{HasRows, unused_zero};
ghost use Rattle.queue.specs.Queue.{waiting_of, Queued, IsQueued, of_other, of_process, waits};
ghost use Rattle.queue.specs.QueueLaws.{row_bytes};
ghost use Rattle.queue.specs.PlaceLaws.{waiting_nth, body_place, body_size, row_position};
ghost use Rattle.queue.specs.Legal.{body_fits, in_order, other_process};

const ROW: usize = words::WAITING;

// ---- where the parts of a row stand

// The position of the waiting statement at index i.
pub fn position(waiting: &[u8], i: usize) -> u32
    requires { HasRows waiting_size waiting.now (i + 1) }
    ensures { result ≡ row_position waiting.now i }
{
    words::word4(waiting, i * ROW)
}

// Where its body begins.
pub fn body_at(i: usize) -> usize
    requires { i < most_waiting }
    ensures { result ≡ body_place i }
{
    i * ROW + words::WAITING_BODY_AT
}

// The length of its body.
pub fn body_length(waiting: &[u8], i: usize) -> usize
    requires { HasRows waiting_size waiting.now (i + 1) }
    ensures { (result ≡ body_size waiting.now i) × (result < 256 ^ length_width) }
{
    usize::from(words::word2(waiting, i * ROW + words::WAITING_LENGTH_AT))
}

// Host and process of the waiting statement at index i.
pub fn host(waiting: &[u8], n: usize, i: usize) -> u8
    requires { IsQueued waiting.now n × (i < n) }
    ensures { (result ≡ (waiting_nth waiting.now n i).statement.host) × (result < hosts) }
{
    sections::field(
        waiting,
        ROW,
        n,
        i,
        words::WAITING_BODY_AT,
        words::HOST_WIDTH,
    ) as u8
}

pub fn process(waiting: &[u8], n: usize, i: usize) -> u16
    requires { IsQueued waiting.now n × (i < n) }
    ensures { result ≡ (waiting_nth waiting.now n i).statement.process }
{
    sections::field(
        waiting,
        ROW,
        n,
        i,
        words::WAITING_BODY_AT + words::PROCESS_AT,
        words::PROCESS_WIDTH,
    ) as u16
}

// ---- the queue

// "runs and leaves the queue": the waiting statement at index i.
pub fn leave(waiting: &mut [u8], n: usize, i: usize)
    requires { IsQueued waiting.old n × (i < n) }
    ensures { Queued waiting.new (n - 1) (remove_at i (waiting_of waiting.old n)) }
{
    sections::cut(waiting, ROW, n, i);
}

// "drops that host's waiting statements": the count of those left.
pub fn drop_host(waiting: &mut [u8], n: usize, host: u8) -> usize
    requires { IsQueued waiting.old n }
    ensures { Queued waiting.new result (keep (of_other host) (waiting_of waiting.old n)) }
{
    sections::drop_rows(
        waiting,
        ROW,
        n,
        words::WAITING_BODY_AT,
        words::HOST_WIDTH,
        u32::from(host),
    )
}

// Whether a process waits.
pub fn process_waits(waiting: &[u8], n: usize, process: u16) -> bool
    requires { IsQueued waiting.now n }
    ensures { result ≡ any (of_process process) (waiting_of waiting.now n) }
{
    scans::find(
        waiting,
        ROW,
        n,
        words::WAITING_BODY_AT + words::PROCESS_AT,
        words::PROCESS_WIDTH,
        u32::from(process),
    )
    .is_some()
}

// A waiting statement's row: "position, body length 2, body".
fn row(position: u32, body: &[u8]) -> [u8; ROW]
    requires { length body.now ≤ most_body }
    ensures { result ≡ pad waiting_size (row_bytes position body.now) }
{
    let mut row = [0u8; ROW];
    words::put4(&mut row, 0, position);
    words::put2(&mut row, words::WAITING_LENGTH_AT, body.len() as u16);
    spans::copy_at(&mut row, words::WAITING_BODY_AT, body);
    row
}

// The statement "waits without a reply".
pub fn enqueue(waiting: &mut [u8], n: usize, position: u32, body: &[u8])
    requires { IsQueued waiting.old n × (n < most_waiting) × T (legal_body body.now) }
    ensures { Queued waiting.new (n + 1) (waiting_of waiting.old n ++ (waits position (statement_of body.now) ∷ [])) }
{
    let row = row(position, body);
    sections::append(waiting, ROW, n, &row);
}

// ---- the test of a state

// The body of the row at index i fits, and "All unused bytes are zero" past it.
pub fn body_fits(waiting: &[u8], n: usize, i: usize) -> bool
    requires { HasRows waiting_size waiting.now n × (i < n) × (n ≤ most_waiting) }
    ensures { result ≡ body_fits (get_or (pieces n waiting_size waiting.now) i []) }
{
    let len = body_length(waiting, i);
    len <= words::MOST_BODY && spans::zero_run(waiting, body_at(i) + len, words::MOST_BODY - len)
}

// "All unused bytes are zero": those past n rows.
pub fn unused_zero(waiting: &[u8], n: usize) -> bool
    requires { HasRows waiting_size waiting.now n }
    ensures { result ≡ unused_zero waiting_size waiting.now n }
{
    scans::unused_zero(waiting, ROW, n)
}

// "waiting by position", "waiting positions are 1 to the last".
pub fn in_order(waiting: &[u8], n: usize, last: u32) -> bool
    requires { HasRows waiting_size waiting.now n }
    ensures { result ≡ in_order last (waiting_of waiting.now n) }
{
    scans::rises(waiting, ROW, n, 0, words::POSITION_WIDTH, 1, last as usize)
}

// "of a process that no other entry has".
pub fn processes_differ(waiting: &[u8], n: usize) -> bool
    requires { IsQueued waiting.now n }
    ensures { result ≡ pairwise other_process (waiting_of waiting.now n) }
{
    scans::are_apart(
        waiting,
        ROW,
        n,
        words::WAITING_BODY_AT + words::PROCESS_AT,
        words::PROCESS_WIDTH,
    )
}
