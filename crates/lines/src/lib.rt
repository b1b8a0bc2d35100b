// The text that the program `cabinet` prints: "a line per reply", and refusals.
#![tactic(auto)]

ghost use Rattle.std.specs.Prelude.{◌≡◌, List, ◌+◌, ◌*◌, ◌-◌, ◌≤◌, ◌<◌, length, take, drop};
ghost use Rattle.basis.specs.Choice.{given};
ghost use Rattle.basis.specs.Sizes.{reply_header_size, reply_value_size};
ghost use Rattle.model.specs.Run.{Reply};
ghost use Rattle.io.specs.Counts.{IsPrefixLen};
ghost use Rattle.text.specs.Lines.{lines_of, refused_line};
ghost use Rattle.text.specs.Written.{value_in, values_in, source_in, head_in, line_in, span_at, size_at, growth, value_room, head_room, source_room, refused_room, Given};
ghost use Rattle.digits.specs.Put.{Put};

// A line is at most three times as long as its reply.
const GROWTH: usize = 3;

// Room for the lines of any record's replies.
pub const ROOM: usize = GROWTH * words::REPLY;

// Where "`refused n`" has its number, and room for the greatest n.
const REFUSED_AT: usize = 8;

const REFUSED: usize = REFUSED_AT + digits::MOST_DIGITS + 1;

// ---- the line of the reply that stands at index from of the replies

// "variable:kind:eight capital hexadecimal digits": a space and the value that stands at index from.
fn put_value(out: &mut [u8], at: usize, replies: &[u8], from: usize) -> usize
    requires { (at + value_room ≤ length out.old) × (from + reply_value_size ≤ length replies.now) }
    ensures put { Put (value_in (drop from replies.now)) out.old out.new at result }
    ensures upper_bound { result ≤ at + value_room }
{
    let kind_at = digits::put_part(out, at, b' ', replies[from]);
    let bits_at = digits::put_part(out, kind_at, b':', replies[from + words::REPLY_KIND_AT]);
    out[bits_at] = b':';
    digits::put_bits(out, bits_at + 1, replies, from + words::REPLY_BITS_AT);
    bits_at + 1 + 2 * words::BITS_WIDTH
}

// So many values, one after the other from index from on.
fn put_values(out: &mut [u8], at: usize, replies: &[u8], from: usize, count: usize) -> usize
    requires { (at + value_room * count ≤ length out.old) × (from + reply_value_size * count ≤ length replies.now) }
    ensures put { Put (values_in count (drop from replies.now)) out.old out.new at result }
    ensures upper_bound { result ≤ at + value_room * count }
{
    let mut end = at;
    for i in 0..count {
        end = put_value(out, end, replies, from + words::REPLY_VALUE * i);
    }
    end
}

// "position, host, process".
fn put_source(out: &mut [u8], at: usize, replies: &[u8], from: usize) -> usize
    requires { (at + head_room ≤ length out.old) × (from + reply_header_size ≤ length replies.now) }
    ensures put { Put (source_in (drop from replies.now)) out.old out.new at result }
    ensures upper_bound { result ≤ at + source_room }
{
    let host_at = digits::put_number(
        out,
        at,
        words::word4(replies, from + words::REPLY_POSITION_AT),
    );
    let process_at = digits::put_part(out, host_at, b' ', replies[from + words::REPLY_HOST_AT]);
    digits::put_next(
        out,
        process_at,
        b' ',
        u32::from(words::word2(replies, from + words::REPLY_PROCESS_AT)),
    )
}

// "position, host, process, outcome, branch".
fn put_head(out: &mut [u8], at: usize, replies: &[u8], from: usize) -> usize
    requires { (at + head_room ≤ length out.old) × (from + reply_header_size ≤ length replies.now) }
    ensures put { Put (head_in (drop from replies.now)) out.old out.new at result }
    ensures upper_bound { result < at + head_room }
{
    let outcome_at = put_source(out, at, replies, from);
    let branch_at = digits::put_part(
        out,
        outcome_at,
        b' ',
        replies[from + words::REPLY_OUTCOME_AT],
    );
    digits::put_part(out, branch_at, b' ', replies[from + words::REPLY_BRANCH_AT])
}

// "a line per reply".
fn put_line(out: &mut [u8], at: usize, replies: &[u8], from: usize) -> usize
    requires { (at + growth * span_at replies.now from ≤ length out.old) × (from + span_at replies.now from ≤ length replies.now) }
    ensures put { Put (line_in (drop from replies.now)) out.old out.new at result }
    ensures upper_bound { result ≤ at + growth * span_at replies.now from }
{
    let values_at = put_head(out, at, replies, from);
    let count = words::size(replies[from + words::REPLY_COUNT_AT]);
    let end = put_values(out, values_at, replies, from + words::REPLY_HEADER, count);
    out[end] = b'\n';
    end + 1
}

// ---- the lines

// The size of the reply that stands whole at index from of n bytes.
fn reply_size(replies: &[u8], from: usize, n: usize) -> Option<usize>
    requires { (from ≤ n) × (n ≤ length replies.now) }
    ensures { given result ≡ size_at replies.now from (n - from) }
{
    let left = n - from;
    if left < words::REPLY_HEADER {
        return None;
    }
    let size = words::REPLY_HEADER
        + words::REPLY_VALUE * words::size(replies[from + words::REPLY_COUNT_AT]);
    (size <= left).then_some(size)
}

// The lines of the replies that n bytes are, and their length.
fn put_lines(out: &mut [u8], replies: &[u8], n: usize) -> usize
    requires { (n ≤ length replies.now) × (growth * n ≤ length out.old) }
    ensures upper_bound { result ≤ length out.old }
    ensures out_after { (rs : List Reply) → Given rs replies.now n → take result out.new ≡ lines_of rs }
    ensures out_unchanged { drop result out.new ≡ drop result out.old }
{
    let mut from = 0;
    let mut at = 0;
    while let Some(size) = reply_size(replies, from, n) {
        at = put_line(out, at, replies, from);
        from += size;
    }
    at
}

// "a line per reply": the lines of the first n bytes of the replies, and their length. Three bytes for each of these are room enough;
// with less, nothing is written.
pub fn lines(replies: &[u8], n: usize, out: &mut [u8]) -> usize
    ensures prefix_len { IsPrefixLen result out.new }
    ensures out_after { (rs : List Reply) → Given rs replies.now n → growth * n ≤ length out.old → take result out.new ≡ lines_of rs }
    ensures out_unchanged { drop result out.new ≡ drop result out.old }
{
    if replies.len() < n || out.len() / GROWTH < n {
        return 0;
    }
    put_lines(out, replies, n)
}

// "`refused n`", and its length. With less room than for the greatest number, nothing is written.
pub fn refused(n: u32, out: &mut [u8]) -> usize
    ensures prefix_len { IsPrefixLen result out.new }
    ensures out_after { refused_room ≤ length out.old → take result out.new ≡ refused_line n }
    ensures out_unchanged { drop result out.new ≡ drop result out.old }
{
    if out.len() < REFUSED {
        return 0;
    }
    spans::copy_at(out, 0, b"refused ");
    let end = digits::put_number(out, REFUSED_AT, n);
    out[end] = b'\n';
    end + 1
}
