// From position to position of a body: where operations and branches end, and where the last branch's operation count stands.
#![tactic(auto)]

ghost use Rattle.std.specs.Prelude.{◌≡◌, ◌≤◌, length, T, true};
ghost use Rattle.std.proofs.Math.Option.{some};
ghost use Rattle.basis.specs.Choice.{given, is_some};
ghost use Rattle.basis.specs.Lists.{all};
ghost use Rattle.model.specs.Reading.{several, operation, branch};
ghost use Rattle.statements.specs.Flat.{few_fields};
ghost use Rattle.statements.specs.Ends.{end_at};
ghost use Rattle.walk.specs.BranchEnds.{few_in};
ghost use Rattle.model.specs.Legal.{legal_body};
ghost use Rattle.walk.specs.LastCount.{LastCount};

use statements::{pass_operation, standing_bare};
use words::{BRANCH_COUNT_AT, BRANCHES_AT, COUNT_WIDTH, size};

// A branch that was chosen, counted from 1, the position of its guard, and the index of the tuple that the guard finds.
#[derive(Clone, Copy)]
pub struct Choice {
    pub branch: u8,
    pub at: usize,
    pub tuple: usize,
}

// The position after so many operations from a position on, if there are so many.
pub fn operations_end(b: &[u8], at: usize, count: usize) -> Option<usize>
    requires { at ≤ length b.now }
    ensures { given result ≡ end_at (several operation count) (all few_fields) b.now at }
{
    let mut end = at;
    for _ in 0..count {
        (_, end) = pass_operation(b, end)?;
    }
    Some(end)
}

// The position after so many operations that stand at a position.
pub fn standing_end(b: &[u8], at: usize, count: usize) -> usize
    requires { (at ≤ length b.now) × T (is_some (end_at (several operation count) (all few_fields) b.now at)) }
    ensures { some result ≡ end_at (several operation count) (all few_fields) b.now at }
{
    operations_end(b, at, count).unwrap()
}

// The position after the branch at a position, if there is one.
pub fn branch_end(b: &[u8], at: usize) -> Option<usize>
    ensures { given result ≡ end_at branch few_in b.now at }
{
    let (_, end) = pass_operation(b, at)?;
    let count = size(*b.get(end)?);
    operations_end(b, end + COUNT_WIDTH, count)
}

// The index of the operation count of a legal body's last branch.
pub fn last_count(b: &[u8]) -> usize
    requires { legal_body b.now ≡ true }
    ensures { LastCount b.now result }
{
    let count = size(b[BRANCH_COUNT_AT]);
    let mut at = BRANCHES_AT;
    for _ in 1..count {
        at = branch_end(b, at).unwrap();
    }
    standing_bare(b, at).1
}
