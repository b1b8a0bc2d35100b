// The spaces that a body names: whether one of them passes a test.
#![tactic(auto)]

ghost use Rattle.std.specs.Prelude.{◌≡◌, ◌+◌, ◌≤◌, ◌<◌, [], length, get_or, T};
ghost use Rattle.basis.specs.Lists.{any};
ghost use Rattle.basis.specs.Sizes.{count_width};
ghost use Rattle.model.specs.Statement.{spaces_of as spacesIn, spaces_named};
ghost use Rattle.model.specs.Legal.{legal_body};
ghost use Rattle.layout.specs.Stored.{statement_of};
ghost use Rattle.statements.specs.Flat.{operation_of};
ghost use Rattle.walk.specs.Walk.{Operations};
ghost use Rattle.spaces.specs.Spaces.{spaces_of, IsListed, Rising};
ghost use Rattle.names.specs.Asks.{asks};
ghost use Rattle.names.specs.Named.{PastOperations, PastBranch};

use statements::{Bare, TRUE, TWO_SPACES, standing_bare};

// What a space is tested for: that it is not open, not open to a process, or that of a number.
// An enum and not a closure: the contracts name the test by its value, and each rule stands in one arm.
#[derive(Clone, Copy)]
pub enum SpaceTest {
    Closed,
    Shut(u16),
    Same(u16),
}

// Whether a space passes.
fn passes(spaces: &[u8], n: usize, what: SpaceTest, space: u16) -> bool
    requires { IsListed spaces.now n × Rising (spaces_of spaces.now n) }
    ensures { result ≡ asks (spaces_of spaces.now n) what space }
{
    match what {
        SpaceTest::Closed => !spaces::is_open(spaces, n, space),
        SpaceTest::Shut(process) => !spaces::is_open_to(spaces, n, space, process),
        SpaceTest::Same(number) => number == space,
    }
}

// ---- from operation to operation, and from branch to branch

// Whether an operation names a space that passes.
fn operation_names(operation: Bare, spaces: &[u8], n: usize, what: SpaceTest) -> bool
    requires { IsListed spaces.now n × Rising (spaces_of spaces.now n) }
    ensures { result ≡ any (asks (spaces_of spaces.now n) what) (spacesIn (operation_of operation.code operation.from operation.to [])) }
{
    if operation.code == TRUE {
        return false;
    }
    if passes(spaces, n, what, operation.from) {
        return true;
    }
    if operation.code < TWO_SPACES {
        return false;
    }
    passes(spaces, n, what, operation.to)
}

// Past so many operations: the position after them; none where one names a space that passes.
fn pass_operations(
    body: &[u8],
    at: usize,
    count: usize,
    spaces: &[u8],
    n: usize,
    what: SpaceTest,
) -> Option<usize>
    requires { Operations body.now at count × (at ≤ length body.now) × IsListed spaces.now n × Rising (spaces_of spaces.now n) }
    ensures { PastOperations (asks (spaces_of spaces.now n) what) body.now at count result }
{
    let mut end = at;
    for _ in 0..count {
        let (operation, next) = standing_bare(body, end);
        if operation_names(operation, spaces, n, what) {
            return None;
        }
        end = next;
    }
    Some(end)
}

// Past a branch with such a guard, which ends at a position: the position after its operations; none where guard or operations name a space that passes.
pub fn pass_branch(
    body: &[u8],
    guard: Bare,
    end: usize,
    spaces: &[u8],
    n: usize,
    what: SpaceTest,
) -> Option<usize>
    requires { (end < length body.now) × Operations body.now (end + count_width) (get_or body.now end 0) × IsListed spaces.now n × Rising (spaces_of spaces.now n) }
    ensures { PastBranch (asks (spaces_of spaces.now n) what) body.now guard end result }
{
    if operation_names(guard, spaces, n, what) {
        return None;
    }
    pass_operations(
        body,
        end + words::COUNT_WIDTH,
        words::size(body[end]),
        spaces,
        n,
        what,
    )
}

// Whether a legal body names a space that passes, in any operation of any branch.
pub fn some_named(body: &[u8], spaces: &[u8], n: usize, what: SpaceTest) -> bool
    requires { T (legal_body body.now) × IsListed spaces.now n × Rising (spaces_of spaces.now n) }
    ensures { result ≡ any (asks (spaces_of spaces.now n) what) (spaces_named (statement_of body.now)) }
{
    let mut at = words::BRANCHES_AT;
    for _ in 0..body[words::BRANCH_COUNT_AT] {
        let (guard, end) = standing_bare(body, at);
        let Some(next) = pass_branch(body, guard, end, spaces, n, what) else {
            return true;
        };
        at = next;
    }
    false
}
