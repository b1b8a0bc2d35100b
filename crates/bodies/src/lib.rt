// Whether bytes are the body of an AG record.
#![tactic(auto)]

ghost use Rattle.std.specs.Prelude.{◌≡◌, ◌≤◌, length};
ghost use Rattle.basis.specs.Choice.{given};
ghost use Rattle.basis.specs.Lists.{all};
ghost use Rattle.basis.specs.Sizes.{branches_at};
ghost use Rattle.model.specs.Reading.{several, operation, branch};
ghost use Rattle.model.specs.Legal.{legal_branch, legal_body};
ghost use Rattle.fields.specs.Kinds.{kinds_are};
ghost use Rattle.statements.specs.Ends.{end_at};
ghost use Rattle.bodies.specs.BodyLaws.{head_ok, ends_at};
ghost use Rattle.legality.specs.Steps.{body_legal};

use fields::Kinds;
use legality::operation_step;
use words::{
    BRANCH_COUNT_AT, BRANCHES_AT, COUNT_WIDTH, HOST_AT, HOSTS, MOST_BODY, MOST_BRANCHES,
    MOST_OPERATIONS, VARIABLES, size,
};

// So many body operations from a position on, after the kinds that the guard bound: the position after them, where they are legal.
fn operations_ok(b: &[u8], at: usize, count: usize, kinds: Kinds) -> Option<usize>
    requires { at ≤ length b.now }
    ensures { given result ≡ end_at (several operation count) (body_legal (kinds_are kinds)) b.now at }
{
    let mut now = kinds;
    let mut end = at;
    for _ in 0..count {
        (now, end) = operation_step(b, end, &now, false)?;
    }
    Some(end)
}

// A branch at a position: its guard, a count 0 to 8, and that many body operations. The position after it, where it is legal.
fn branch_ok(b: &[u8], at: usize) -> Option<usize>
    ensures { given result ≡ end_at branch legal_branch b.now at }
{
    let (kinds, end) = operation_step(b, at, &[None; VARIABLES], true)?;
    let count = *b.get(end)?;
    if MOST_OPERATIONS < count {
        return None;
    }
    operations_ok(b, end + COUNT_WIDTH, size(count), kinds)
}

// The position after so many branches, where they are legal.
fn branches_ok(b: &[u8], count: usize) -> Option<usize>
    requires { branches_at ≤ length b.now }
    ensures { given result ≡ end_at (several branch count) (all legal_branch) b.now branches_at }
{
    let mut at = BRANCHES_AT;
    for _ in 0..count {
        at = branch_ok(b, at)?;
    }
    Some(at)
}

// The host, and a branch count 1 to 4.
fn head_legal(host: u8, count: u8) -> bool
    ensures { result ≡ head_ok host count }
{
    host < HOSTS && (1..=MOST_BRANCHES).contains(&count)
}

// Whether what ends at a position, if it is legal, takes up n bytes.
fn takes_up(end: Option<usize>, n: usize) -> bool
    ensures { result ≡ ends_at (given end) n }
{
    match end {
        Some(at) => at == n,
        None => false,
    }
}

// Whether bytes are the body of an AG record: host, process, branch count and branches, which take up the rest ("Spare bytes
// .. make the body malformed"), at most 250 bytes.
pub fn body_ok(b: &[u8]) -> bool
    ensures { result ≡ legal_body b.now }
{
    (BRANCHES_AT..=MOST_BODY).contains(&b.len())
        && head_legal(b[HOST_AT], b[BRANCH_COUNT_AT])
        && takes_up(branches_ok(b, size(b[BRANCH_COUNT_AT])), b.len())
}
