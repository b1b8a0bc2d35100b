// A body taken apart by the reader, and its parts handed to the writer: the same bytes.
#![tactic(auto)]

ghost use Rattle.std.specs.Prelude.{◌≡◌, true, List, ◌++◌, ℕ, ◌≤◌, length, drop, IfErr};
ghost use Rattle.model.specs.Legal.{legal_body};
ghost use Rattle.rewriter.specs.Copying.{Underway};
ghost use Rattle.writer.specs.Writer.{number};
ghost use Rattle.answers.specs.Settled.{refusal_of};
ghost use Rattle.copier.specs.Rewriting.{copied, done, rewritten};

use additions::{begin_at, branch_at, operation_at};
use answers::refusal;
use statements::standing_operation;
use words::{BRANCH_COUNT_AT, BRANCHES_AT, COUNT_WIDTH, HOST_AT, PROCESS_AT, size, word2};
use writer::Reason;

// Where the reader stands in the body, and how many bytes the writer has filled.
#[derive(Clone, Copy)]
struct Place {
    at: usize,
    fill: usize,
}

// So many operations that stand at a position of the body, each read and handed in.
fn copy_operations(body: &[u8], at: usize, count: usize, out: &mut [u8], fill: usize) -> Place
    requires { (buffer : List ℕ) × (later : ℕ) × Underway body.now buffer at count later fill out.old }
    ensures { (buffer : List ℕ) (later : ℕ) → Underway body.now buffer at count later fill out.old → Underway body.now buffer result.at 0 later result.fill out.new }
{
    let mut next = at;
    let mut filled = fill;
    for _ in 0..count {
        let (op, end) = standing_operation(body, next);
        filled = operation_at(out, filled, op).unwrap();
        next = end;
    }
    Place {
        at: next,
        fill: filled,
    }
}

// So many branches from a position of the body on, to its end: of each the guard, then the operations.
fn copy_branches(body: &[u8], at: usize, branches: usize, out: &mut [u8], fill: usize) -> usize
    requires { Underway body.now out.old at 0 branches fill out.old }
    ensures { (result ≡ length body.now) × (out.new ≡ body.now ++ drop (length body.now) out.old) }
{
    let mut next = at;
    let mut filled = fill;
    for _ in 0..branches {
        let (op, end) = standing_operation(body, next);
        let begun = branch_at(out, filled, op).unwrap();
        let c = copy_operations(body, end + COUNT_WIDTH, size(body[end]), out, begun);
        next = c.at;
        filled = c.fill;
    }
    filled
}

// A legal body, for which there is room: begun with host, process and first guard, then all else.
fn copy_body(body: &[u8], out: &mut [u8]) -> usize
    requires { (legal_body body.now ≡ true) × (length body.now ≤ length out.old) }
    ensures { (result ≡ length body.now) × (out.new ≡ body.now ++ drop (length body.now) out.old) }
{
    let (op, end) = standing_operation(body, BRANCHES_AT);
    let process = word2(body, PROCESS_AT);
    let begun = begin_at(out, body[HOST_AT], process, op).unwrap();
    let c = copy_operations(body, end + COUNT_WIDTH, size(body[end]), out, begun);
    copy_branches(body, c.at, size(body[BRANCH_COUNT_AT]) - 1, out, c.fill)
}

// A legal body, read and written anew at the front of a buffer with room for it: the count of its bytes; else why not, and nothing is changed.
pub fn rewrite(body: &[u8], out: &mut [u8]) -> Result<usize, Reason>
    ensures bytes { copied (done result) out.new ≡ rewritten body.now out.old }
    ensures why { IfErr result (λ reason. number reason ≡ refusal_of (legal_body body.now) (length body.now) (length out.old)) }
{
    refusal(out.len(), body)?;
    Ok(copy_body(body, out))
}
