// "Replies": one reply, written at the front of a lent buffer.
#![tactic(auto)]

ghost use Rattle.std.specs.Prelude.{◌≡◌, [], ◌+◌, ◌≤◌, length};
ghost use Rattle.basis.specs.Sizes.{variables, reply_header_size, reply_value_size, most_reply};
ghost use Rattle.words.specs.Over.{over};
ghost use Rattle.values.specs.Meaning.{scalar_is};
ghost use Rattle.model.specs.Step.{in_variable0};
ghost use Rattle.layout.specs.Replies.{reply_value};
ghost use Rattle.replies.specs.Written.{head_bytes, bound_to, PutValues, reply, ran_values, Wrote};

use values::Scalar;

// "`RP`, position of the record answered (4), host, process (2), outcome, branch, value count".
fn put_head(
    out: &mut [u8],
    position: u32,
    host: u8,
    process: u16,
    outcome: u8,
    branch: u8,
    count: u8,
)
    requires { reply_header_size ≤ length out.old }
    ensures { out.new ≡ over out.old 0 (head_bytes position host process outcome branch count) reply_header_size }
{
    spans::copy_at(out, 0, b"RP");
    words::put4(out, words::REPLY_POSITION_AT, position);
    out[words::REPLY_HOST_AT] = host;
    words::put2(out, words::REPLY_PROCESS_AT, process);
    out[words::REPLY_OUTCOME_AT] = outcome;
    out[words::REPLY_BRANCH_AT] = branch;
    out[words::REPLY_COUNT_AT] = count;
}

// "per value: variable, kind, 4 bytes".
fn put_value(out: &mut [u8], at: usize, variable: u8, value: Scalar)
    requires { at + reply_value_size ≤ length out.old }
    ensures { out.new ≡ over out.old at (reply_value (variable, scalar_is value)) reply_value_size }
{
    out[at] = variable;
    out[at + words::REPLY_KIND_AT] = value.kind;
    words::put4(out, at + words::REPLY_BITS_AT, value.bits);
}

// "A statement's values are all its bound variables in rising number": from the end of the head on; their count.
fn put_values(out: &mut [u8], values: &[Option<Scalar>; words::VARIABLES]) -> usize
    requires { most_reply ≤ length out.old }
    ensures { PutValues (bound_to variables values.now) out.old out.new result }
{
    let mut count = 0;
    for x in 0..words::VARIABLES {
        if let Some(v) = values[x] {
            put_value(
                out,
                words::REPLY_HEADER + count * words::REPLY_VALUE,
                x as u8,
                v,
            );
            count += 1;
        }
    }
    count
}

// A reply with no branch and no value.
pub fn plain_reply(out: &mut [u8], position: u32, host: u8, process: u16, outcome: u8) -> usize
    requires { reply_header_size ≤ length out.old }
    ensures { Wrote (reply position host process outcome 0 []) out.old out.new result }
{
    put_head(out, position, host, process, outcome, 0, 0);
    words::REPLY_HEADER
}

// "each as variable 0, whole": done, with one number.
pub fn number_reply(out: &mut [u8], position: u32, host: u8, process: u16, n: u32) -> usize
    requires { reply_header_size + reply_value_size ≤ length out.old }
    ensures { Wrote (reply position host process 0 0 (in_variable0 n)) out.old out.new result }
{
    put_value(out, words::REPLY_HEADER, 0, Scalar { kind: 0, bits: n });
    put_head(out, position, host, process, 0, 0, 1);
    words::REPLY_HEADER + words::REPLY_VALUE
}

// The reply to a statement that ran: the variables that are bound, where it is done.
pub fn ran_reply(
    out: &mut [u8],
    position: u32,
    host: u8,
    process: u16,
    outcome: u8,
    branch: u8,
    values: &[Option<Scalar>; words::VARIABLES],
) -> usize
    requires { most_reply ≤ length out.old }
    ensures { Wrote (reply position host process outcome branch (ran_values outcome values.now)) out.old out.new result }
{
    if outcome != 0 {
        put_head(out, position, host, process, outcome, branch, 0);
        return words::REPLY_HEADER;
    }
    let count = put_values(out, values);
    put_head(out, position, host, process, outcome, branch, count as u8);
    words::REPLY_HEADER + count * words::REPLY_VALUE
}
