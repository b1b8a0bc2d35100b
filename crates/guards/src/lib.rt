// Rule 2: the guards of a statement, which branch they choose, and whether it can wait.
#![tactic(auto)]

ghost use Rattle.std.specs.Prelude.{◌≡◌, ◌≤◌, ◌||◌, length, T, eqb};
ghost use Rattle.basis.specs.Sizes.{most_fields, most_tuples, tuples_size};
ghost use Rattle.model.specs.Execution.{holds, chosen, can_wait};
ghost use Rattle.model.specs.Legal.{is_guard, legal_body};
ghost use Rattle.layout.specs.Stored.{statement_of};
ghost use Rattle.statements.specs.Flat.{operation_is};
ghost use Rattle.tuples.specs.Section.{tuples_of};
ghost use Rattle.walk.specs.Choosing.{Chooses};

use statements::{Operation, TRUE, standing_bare, standing_operation};
use walk::{Choice, standing_end};

// Rule 2: "The branch search stops at the first branch whose guard finds a tuple or is true".
pub fn search(tuples: &[u8], n: usize, body: &[u8]) -> Option<Choice>
    requires { (length tuples.now ≡ tuples_size) × (n ≤ most_tuples) × T (legal_body body.now) }
    ensures { Chooses body.now (tuples_of tuples.now n) (chosen (tuples_of tuples.now n) (statement_of body.now)) result }
{
    let mut at = words::BRANCHES_AT;
    let mut choice = None;
    'branches: for i in 0..body[words::BRANCH_COUNT_AT] {
        let (op, end) = standing_operation(body, at);
        let branch = i + 1;
        if op.code == TRUE {
            choice = Some(Choice {
                branch,
                at,
                tuple: 0,
            });
            break 'branches;
        }
        let template = bindings::template_of(op, bindings::no_vars());
        'tuples: for tuple in 0..n {
            if matching::is_match(tuples, tuple, template) {
                choice = Some(Choice { branch, at, tuple });
                break 'branches;
            }
        }
        at = standing_end(body, end + words::COUNT_WIDTH, words::size(body[end]));
    }
    choice
}

// Whether a guard of a code is in or rd.
pub fn is_blocking(code: u8) -> bool
    ensures { result ≡ (eqb code 1 || eqb code 3) }
{
    matches!(code, 1 | 3)
}

// "the statement waits when some guard is in or rd".
pub fn can_wait(body: &[u8]) -> bool
    requires { T (legal_body body.now) }
    ensures { result ≡ can_wait (statement_of body.now) }
{
    let mut at = words::BRANCHES_AT;
    for _ in 0..body[words::BRANCH_COUNT_AT] {
        let (guard, end) = standing_bare(body, at);
        if is_blocking(guard.code) {
            return true;
        }
        at = standing_end(body, end + words::COUNT_WIDTH, words::size(body[end]));
    }
    false
}

// "finds a tuple or is true": whether a guard holds.
pub fn holds(tuples: &[u8], n: usize, guard: Operation) -> bool
    requires { (length tuples.now ≡ tuples_size) × (n ≤ most_tuples) × T (is_guard (operation_is guard)) × (guard.count ≤ most_fields) }
    ensures { result ≡ holds (tuples_of tuples.now n) (operation_is guard) }
{
    if guard.code == TRUE {
        return true;
    }
    let template = bindings::template_of(guard, bindings::no_vars());
    matching::find(tuples, n, template).is_some()
}
