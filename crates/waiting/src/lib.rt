// The statements that wait in a state: what "The state buffer" asks of each.
#![tactic(auto)]

ghost use Rattle.std.specs.Prelude.{◌≡◌, ◌≤◌, ◌<◌, [], length, get_or, T};
ghost use Rattle.basis.specs.Lists.{all, pieces};
ghost use Rattle.basis.specs.Numbers.{bits};
ghost use Rattle.basis.specs.Sizes.{hosts, most_tuples, most_waiting, tuples_size, waiting_size, waiting_all_size};
ghost use Rattle.model.specs.Legal.{legal_body};
ghost use Rattle.layout.specs.Stored.{statement_of};
ghost use Rattle.tuples.specs.Section.{tuples_of};
ghost use Rattle.spaces.specs.Spaces.{spaces_of, IsListed, Rising};
ghost use Rattle.queue.specs.Queue.{waiting_of, IsQueued};
ghost use Rattle.queue.specs.PlaceLaws.{waiting_nth};
ghost use Rattle.queue.specs.Legal.{row_legal, queue_legal};
ghost use Rattle.sections.specs.Rows.{HasRows};
ghost use Rattle.waiting.specs.Waits.{waits, keeps_waiting};

use names::SpaceTest;
use statements::{Bare, standing_operation};

// ---- their section

// The row at index i has a legal body, and zeros past it.
fn row_ok(waiting: &[u8], n: usize, i: usize) -> bool
    requires { HasRows waiting_size waiting.now n × (i < n) × (n ≤ most_waiting) }
    ensures { result ≡ row_legal (get_or (pieces n waiting_size waiting.now) i []) }
{
    if !queue::body_fits(waiting, n, i) {
        return false;
    }
    let at = queue::body_at(i);
    let len = queue::body_length(waiting, i);
    bodies::body_ok(&waiting[at..at + len])
}

// Each of n rows.
fn rows_ok(waiting: &[u8], n: usize) -> bool
    requires { HasRows waiting_size waiting.now n × (n ≤ most_waiting) }
    ensures { result ≡ all row_legal (pieces n waiting_size waiting.now) }
{
    for i in 0..n {
        if !row_ok(waiting, n, i) {
            return false;
        }
    }
    true
}

// "each waiting body is legal", and their section is as they are written.
pub fn is_queue(waiting: &[u8], n: usize) -> bool
    requires { (length waiting.now ≡ waiting_all_size) × (n ≤ most_waiting) }
    ensures { result ≡ queue_legal waiting.now n }
{
    if !queue::unused_zero(waiting, n) {
        return false;
    }
    rows_ok(waiting, n)
}

// ---- what they say

// The statement of a legal body "names only spaces open to that process", "has an in or rd guard, and no guard that holds". One walk, branch by
// branch: the spaces of the guard and of its operations, and only then the search for the guard's tuple.
fn waits(body: &[u8], process: u16, spaces: &[u8], n: usize, tuples: &[u8], m: usize) -> bool
    requires { T (legal_body body.now) × IsListed spaces.now n × Rising (spaces_of spaces.now n) × (length tuples.now ≡ tuples_size) × (m ≤ most_tuples) }
    ensures { result ≡ waits (spaces_of spaces.now n) (tuples_of tuples.now m) process (statement_of body.now) }
{
    let mut at = words::BRANCHES_AT;
    let mut blocking = false;
    for _ in 0..body[words::BRANCH_COUNT_AT] {
        let (guard, end) = standing_operation(body, at);
        let bare = Bare {
            code: guard.code,
            from: guard.from,
            to: guard.to,
        };
        let what = SpaceTest::Shut(process);
        let Some(next) = names::pass_branch(body, bare, end, spaces, n, what) else {
            return false;
        };
        if guards::holds(tuples, m, guard) {
            return false;
        }
        blocking = blocking || guards::is_blocking(guard.code);
        at = next;
    }
    blocking
}

// The statement at index i is "of an up host", and waits rightly, with m spaces and k tuples.
fn may_wait(
    waiting: &[u8],
    n: usize,
    i: usize,
    spaces: &[u8],
    m: usize,
    tuples: &[u8],
    k: usize,
    up: u16,
) -> bool
    requires { IsQueued waiting.now n × (i < n) × IsListed spaces.now m × Rising (spaces_of spaces.now m) × (length tuples.now ≡ tuples_size) × (k ≤ most_tuples) }
    ensures { result ≡ keeps_waiting (bits hosts up) (spaces_of spaces.now m) (tuples_of tuples.now k) (waiting_nth waiting.now n i) }
{
    if !hosts::has_host(up, queue::host(waiting, n, i)) {
        return false;
    }
    let at = queue::body_at(i);
    let len = queue::body_length(waiting, i);
    let process = queue::process(waiting, n, i);
    waits(&waiting[at..at + len], process, spaces, m, tuples, k)
}

// Each of them.
pub fn all_may_wait(
    waiting: &[u8],
    n: usize,
    spaces: &[u8],
    m: usize,
    tuples: &[u8],
    k: usize,
    up: u16,
) -> bool
    requires { IsQueued waiting.now n × IsListed spaces.now m × Rising (spaces_of spaces.now m) × (length tuples.now ≡ tuples_size) × (k ≤ most_tuples) }
    ensures { result ≡ all (keeps_waiting (bits hosts up) (spaces_of spaces.now m) (tuples_of tuples.now k)) (waiting_of waiting.now n) }
{
    for i in 0..n {
        if !may_wait(waiting, n, i, spaces, m, tuples, k, up) {
            return false;
        }
    }
    true
}
