// The frame of a record: its mark, its length and its position; the checks 2 to 5, which look at no byte of a state.
#![tactic(auto)]

ghost use Rattle.std.specs.Prelude.{◌≡◌, ◌≤◌, length, take};
ghost use Rattle.std.proofs.Math.Option.{some};
ghost use Rattle.basis.specs.Choice.{is_some};
ghost use Rattle.basis.specs.Sizes.{mark_width};
ghost use Rattle.model.specs.Step.{mark_of, record_of};
ghost use Rattle.calls.specs.Calls.{in_turn, refusal_at};
ghost use Rattle.framing.specs.Marks.{mark_is};
ghost use Rattle.framing.specs.Back.{number_of, back};

// The mark of a record: two ASCII letters.
#[derive(Clone, Copy, PartialEq, Eq)]
pub enum Mark {
    Recover,
    Crash,
    Monitor,
    Open,
    Close,
    Statement,
}

// What a record is turned back with, so that the call changes no byte: 1 to 5.
#[derive(Clone, Copy, PartialEq, Eq)]
pub enum TurnedBack {
    NoState = 1,
    ShortReply,
    NoRecord,
    Taken,
    Ahead,
}

impl TurnedBack {
    // The number that the call returns.
    pub fn number(self) -> u64
        ensures { result ≡ number_of self }
    {
        self as u64
    }
}

// The mark that a record begins with; none for an unknown one.
// A `match` on the byte strings was tried: what its arms know of the bytes has no names that a proof may cite.
pub fn mark_of(input: &[u8]) -> Option<Mark>
    requires { mark_width ≤ length input.now }
    ensures { mark_is result ≡ mark_of (take mark_width input.now) }
{
    if words::has_mark(input, b"RV") {
        return Some(Mark::Recover);
    }
    if words::has_mark(input, b"CR") {
        return Some(Mark::Crash);
    }
    if words::has_mark(input, b"MO") {
        return Some(Mark::Monitor);
    }
    if words::has_mark(input, b"MS") {
        return Some(Mark::Open);
    }
    if words::has_mark(input, b"DS") {
        return Some(Mark::Close);
    }
    if words::has_mark(input, b"AG") {
        return Some(Mark::Statement);
    }
    None
}

// ---- the checks 2 to 5

// Check 3: "mark unknown, or size not 8 + length".
fn is_record(input: &[u8]) -> bool
    ensures { result ≡ is_some (record_of input.now) }
{
    if input.len() < words::BODY_AT {
        return false;
    }
    if mark_of(input).is_none() {
        return false;
    }
    input.len()
        == words::BODY_AT + words::number(input, words::LENGTH_AT, words::LENGTH_WIDTH) as usize
}

// Checks 4 and 5: "position not above the last", "position above the next".
fn out_of_turn(last: u32, position: u32) -> Result<(), TurnedBack>
    ensures { back result ≡ in_turn last (some position) }
{
    if position <= last {
        return Err(TurnedBack::Taken);
    }
    if 1 < position - last {
        return Err(TurnedBack::Ahead);
    }
    Ok(())
}

// The first of the checks 2 to 5 that fails, against the last position taken.
pub fn refusal_at(last: u32, input: &[u8], reply: &[u8]) -> Result<(), TurnedBack>
    ensures { back result ≡ refusal_at last input.now reply.now }
{
    if reply.len() < words::REPLY {
        return Err(TurnedBack::ShortReply);
    }
    if !is_record(input) {
        return Err(TurnedBack::NoRecord);
    }
    let position = words::number(input, words::POSITION_AT, words::POSITION_WIDTH);
    out_of_turn(last, position)
}
