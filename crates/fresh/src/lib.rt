// The fresh-state call.
#![tactic(auto)]

ghost use Rattle.std.specs.Prelude.{◌≡◌};
ghost use Rattle.calls.specs.Calls.{fresh_answer, fresh_call};

// "The fresh-state call gives 1 for length, else 0". "Fresh: position 0, no host up, next number 1, space 0 only".
pub fn fresh(state: &mut [u8]) -> u64
    ensures { fresh_answer result state.new ≡ fresh_call state.old }
{
    if state.len() != words::STATE {
        return 1;
    }
    spans::clear(state, 0, words::STATE);
    header::set_mark(state);
    header::set_next(state, 1);
    header::set_space_count(state, 1);
    0
}
