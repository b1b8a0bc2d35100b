// Rule 7: "the oldest waiting statement with a guard that holds", looked for in the section of the queue.
#![tactic(auto)]

ghost use Rattle.std.specs.Prelude.{◌≡◌, ◌≤◌, ◌<◌, length};
ghost use Rattle.basis.specs.Sizes.{most_tuples, tuples_size};
ghost use Rattle.tuples.specs.Section.{tuples_of};
ghost use Rattle.queue.specs.Queue.{IsQueued};
ghost use Rattle.oldest.specs.Searching.{ChoosesAt, Answers};

use walk::Choice;

// The branch that the guards of the waiting statement at an index choose, if any holds.
fn waiting_choice(waiting: &[u8], n: usize, i: usize, tuples: &[u8], m: usize) -> Option<Choice>
    requires { IsQueued waiting.now n × (i < n) × (length tuples.now ≡ tuples_size) × (m ≤ most_tuples) }
    ensures { ChoosesAt waiting.now n (tuples_of tuples.now m) i result }
{
    let from = queue::body_at(i);
    let end = from + queue::body_length(waiting, i);
    guards::search(tuples, m, &waiting[from..end])
}

// Who runs next: the index of the oldest of n waiting statements with a guard that holds, with m tuples, and the branch that its guards choose.
pub fn oldest_ready(waiting: &[u8], n: usize, tuples: &[u8], m: usize) -> Option<(usize, Choice)>
    requires { IsQueued waiting.now n × (length tuples.now ≡ tuples_size) × (m ≤ most_tuples) }
    ensures { Answers waiting.now n (tuples_of tuples.now m) result }
{
    for i in 0..n {
        if let Some(choice) = waiting_choice(waiting, n, i, tuples, m) {
            return Some((i, choice));
        }
    }
    None
}
