// The program `cabinet`: a stream of records on standard input, "a line per reply" on standard output.
#![tactic(auto)]

ghost use Rattle.std.specs.Prelude.{◌+◌, ◌*◌, ◌≤◌, ◌<◌, ◌≡◌, ◌≢◌, true, false, length, take, T};
ghost use Rattle.std.proofs.Math.Pow.{are_bytes};
ghost use Rattle.basis.specs.Choice.{is_some};
ghost use Rattle.basis.specs.Sizes.{body_at, most_length, reply_size};
ghost use Rattle.model.specs.Run.{fresh};
ghost use Rattle.model.specs.Step.{record_of};
ghost use Rattle.layout.specs.States.{encode};
ghost use Rattle.layout.specs.IsState.{is_state};
ghost use Rattle.calls.specs.Calls.{Lent, lent, take_call};
ghost use Rattle.text.specs.Written.{growth};
ghost use Rattle.io.specs.Counts.{IsPrefixLen};
ghost use Rattle.cabinet.specs.Printed.{most_turns, size_said, text_of, printed, answered, Answers};

// The file descriptors of the standard input and output.
const STDIN: i32 = 0;

const STDOUT: i32 = 1;

// The longest record: its head and the longest body.
const RECORD: usize = words::BODY_AT + words::MOST_LENGTH;

// The text of what answers a record: its length, and whether the stream goes on.
#[derive(Clone, Copy)]
struct Response {
    end: usize,
    more: bool,
}

// The turns taken so far, and the last of them: the count of bytes read, the length of the text that answers them, whether the stream
// goes on, whether the text was written.
#[derive(Clone, Copy)]
struct Turn {
    turns: u64,
    size: usize,
    end: usize,
    more: bool,
    written: bool,
}

// Reads a record into the front of the buffer, and gives its size: less than it should be where the input ends within it, 0 where it
// has ended before. A read that fails is taken for the end, as in `io`. It reads no byte past the record.
// A size of 0 is a count of bytes like any other, as of a reader's at its end: no option.
fn read_record(record: &mut [u8]) -> usize
    requires { body_at + most_length ≤ length «record».old }
    ensures in_bounds { IsPrefixLen result «record».new }
    ensures within_record { result ≤ size_said «record».new }
{
    let head = io::read_full(STDIN, &mut record[..words::BODY_AT]);
    if head < words::BODY_AT {
        return head;
    }
    let end = words::BODY_AT + usize::from(words::word2(record, words::LENGTH_AT));
    words::BODY_AT + io::read_full(STDIN, &mut record[words::BODY_AT..end])
}

// The text of what the call for a record returned: "Refusals 3 to 5 print `refused n`", else the lines of its replies. 1 and 2 are
// refusals too, which do not come up here: the buffer is a state, and the replies have room.
fn put_answer(text: &mut [u8], returned: u64, reply: &[u8]) -> usize
    ensures in_bounds { IsPrefixLen result text.new }
    ensures text_is { (l : Lent) → T (are_bytes l.input) → returned ≡ (take_call l).returned → reply.now ≡ (take_call l).reply → growth * reply_size ≤ length text.old → take result text.new ≡ text_of l }
{
    match returned {
        1..=5 => lines::refused(returned as u32, text),
        _ => lines::lines(reply, returned as usize, text),
    }
}

// Answers the bytes that were read as a record: none where the input has ended. "3, also for a cut last record, ends it".
fn answer(state: &mut [u8], record: &[u8], reply: &mut [u8], text: &mut [u8]) -> Response
    requires { growth * reply_size ≤ length text.old }
    ensures in_bounds { IsPrefixLen result.end text.new }
    ensures is_answered { printed state.new (take result.end text.new) result.more ≡ answered (lent state.old «record».now reply.old) }
{
    if record.is_empty() {
        return Response {
            end: 0,
            more: false,
        };
    }
    let returned = replica::replica_take(state, record, reply);
    let end = put_answer(text, returned, reply);
    Response {
        end,
        more: returned != 3,
    }
}

// Prints the text that answers these bytes and leaves this state, and gives the turn.
fn print(text: &[u8], record: &[u8], state: &[u8], more: bool, turns: u64) -> Turn
    requires { Answers «record».now state.now text.now more }
    ensures turn { (result.turns ≡ turns) × (result.more ≡ more) }
    ensures sizes { (result.size ≡ length «record».now) × (result.end ≡ length text.now) }
{
    Turn {
        turns,
        size: record.len(),
        end: text.len(),
        more,
        written: io::write_all(STDOUT, text),
    }
}

// Takes one record from the stream and prints what answers it, where the turn before let the stream go on.
fn take_one(
    before: Turn,
    state: &mut [u8],
    record: &mut [u8],
    reply: &mut [u8],
    text: &mut [u8],
) -> Turn
    requires goes_on { (before.turns < most_turns) × (before.more ≡ true) × (before.written ≡ true) }
    requires from_state { T (is_state state.old) }
    requires room { (body_at + most_length ≤ length «record».old) × (reply_size ≤ length reply.old) × (growth * reply_size ≤ length text.old) }
    ensures one_turn { result.turns ≡ before.turns + 1 }
    ensures within_record { result.size ≤ size_said «record».new }
    ensures is_answered { printed state.new (take result.end text.new) result.more ≡ answered (lent state.old (take result.size «record».new) reply.old) }
    ensures to_state { T (is_state state.new) }
    ensures while_records { result.more ≡ is_some (record_of (take result.size «record».new)) }
{
    let size = read_record(record);
    let response = answer(state, &record[..size], reply, text);
    let end = response.end;
    print(
        &text[..end],
        &record[..size],
        state,
        response.more,
        before.turns + 1,
    )
}

// Takes the records of the stream, from the fresh state on. It ends where the bytes read last are no record, or their text could not
// be written. A proved loop has to end, so its turns are counted, up to a number that no run reaches.
fn take_all(
    first: Turn,
    state: &mut [u8],
    record: &mut [u8],
    reply: &mut [u8],
    text: &mut [u8],
) -> Turn
    requires first_turn { (first.turns ≡ 0) × (first.more ≡ true) × (first.written ≡ true) }
    requires fresh_state { state.old ≡ encode fresh }
    requires room { (body_at + most_length ≤ length «record».old) × (reply_size ≤ length reply.old) × (growth * reply_size ≤ length text.old) }
    ensures some_turn { result.turns ≢ 0 }
    ensures to_state { T (is_state state.new) }
    ensures until_no_record { result.turns ≢ most_turns → result.written ≡ true → is_some (record_of (take result.size «record».new)) ≡ false }
{
    let mut turn = first;
    for _ in 0..u64::MAX {
        turn = take_one(turn, state, record, reply, text);
        if !turn.more || !turn.written {
            break;
        }
    }
    turn
}

// "starts from the fresh state".
fn main() {
    let mut state = [0u8; words::STATE];
    let mut record = [0u8; RECORD];
    let mut reply = [0u8; words::REPLY];
    let mut text = [0u8; lines::ROOM];
    replica::replica_fresh(&mut state);
    let first = Turn {
        turns: 0,
        size: 0,
        end: 0,
        more: true,
        written: true,
    };
    take_all(first, &mut state, &mut record, &mut reply, &mut text);
}
