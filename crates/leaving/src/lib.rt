// A waiting statement of a state leaves the queue.
#![tactic(auto)]

ghost use Rattle.std.specs.Prelude.{◌≡◌, ◌+◌, ◌≤◌, ◌<◌, length, take};
ghost use Rattle.basis.specs.Sizes.{most_body, most_waiting, waiting_size};
ghost use Rattle.layout.specs.States.{decode};
ghost use Rattle.layout.specs.Stored.{IsStored};
ghost use Rattle.queue.specs.PlaceLaws.{body_size, body_of};
ghost use Rattle.sections.specs.Rows.{HasRows};
ghost use Rattle.leaving.specs.Leaving.{Gone};

// Who has left: the position of its record, and the length of its body.
#[derive(Clone, Copy)]
pub struct Leaver {
    pub position: u32,
    pub size: usize,
}

// The body of the waiting statement at an index, copied; its length.
fn copy_body(waiting: &[u8], i: usize, body: &mut [u8]) -> usize
    requires { HasRows waiting_size waiting.now (i + 1) × (i < most_waiting) × (body_size waiting.now i ≤ most_body) × (most_body ≤ length body.old) }
    ensures { (result ≤ most_body) × (take result body.new ≡ body_of waiting.now i) }
{
    let size = queue::body_length(waiting, i);
    spans::copy_part(body, 0, waiting, queue::body_at(i), size);
    size
}

// The waiting statement at an index "leaves the queue", its body copied.
pub fn leave(state: &mut [u8], i: usize, body: &mut [u8]) -> Leaver
    requires { IsStored state.old × (i < length (decode state.old).waiting) × (most_body ≤ length body.old) }
    ensures { Gone state.old i state.new body.new result.position result.size }
{
    let size = copy_body(&state[words::WAITING_AT..words::WAITING_END], i, body);
    let position = queue::position(&state[words::WAITING_AT..words::WAITING_END], i);
    state::leave(state, i);
    Leaver { position, size }
}
