// The header of a state, row by row: "`TS`, last position taken (4), hosts-up mask (2, bit h for host h), monitors, next space number", of
// four bytes, "counts of spaces, tuples (2), waiting", and the owed masks "right after the count of waiting". Only here is it said where a row stands.
#![tactic(auto)]

ghost use Rattle.std.specs.Prelude.{◌≡◌, ◌+◌, ◌-◌, ◌*◌, ◌≤◌, ◌<◌, not, ◌&&◌, length, drop, T};
ghost use Rattle.basis.specs.Numbers.{number_at, bits};
ghost use Rattle.basis.specs.Sizes.{position_width, mask_width, count_width, next_width, tuple_count_width, hosts, most_monitors, most_spaces, most_tuples, most_waiting, last_at, mask_at, monitors_at, next_at, space_count_at, tuple_count_at, waiting_count_at, owed_at, header_used, header_size};
ghost use Rattle.model.specs.Run.{owed_mask, none_owed, owes_some};
ghost use Rattle.model.specs.Valid.{counts_fit};
ghost use Rattle.layout.specs.States.{decode};
ghost use Rattle.words.specs.Over.{zeros_at};
ghost use Rattle.header.specs.Rows.{last_part, mask_part, monitors_part, next_part, space_count_part, tuple_count_part, waiting_count_part, owed_part, with_mark, with_row};
ghost use Rattle.header.specs.Whole.{debts_fit, header_legal};

// `TS`.
pub fn set_mark(state: &mut [u8])
    requires { header_size ≤ length state.old }
    ensures { state.new ≡ with_mark state.old }
{
    spans::copy_at(state, 0, b"TS");
}

// "last position taken (4)".
pub fn last(state: &[u8]) -> u32
    requires { header_size ≤ length state.now }
    ensures { (result ≡ (decode state.now).last) × (result ≡ number_at last_at position_width state.now) }
{
    words::word4(state, words::LAST_AT)
}

pub fn set_last(state: &mut [u8], position: u32)
    requires { header_size ≤ length state.old }
    ensures { state.new ≡ with_row last_part position state.old }
{
    words::put4(state, words::LAST_AT, position);
}

// "hosts-up mask (2, bit h for host h)".
pub fn hosts(state: &[u8]) -> u16
    requires { header_size ≤ length state.now }
    ensures { (bits hosts result ≡ (decode state.now).up) × (result ≡ number_at mask_at mask_width state.now) }
{
    words::word2(state, words::MASK_AT)
}

pub fn set_hosts(state: &mut [u8], mask: u16)
    requires { header_size ≤ length state.old }
    ensures { state.new ≡ with_row mask_part mask state.old }
{
    words::put2(state, words::MASK_AT, mask);
}

// "monitors".
pub fn monitors(state: &[u8]) -> usize
    requires { header_size ≤ length state.now }
    ensures { (result ≡ (decode state.now).monitors) × (result ≡ number_at monitors_at count_width state.now) }
{
    usize::from(state[words::MONITORS_AT])
}

pub fn set_monitors(state: &mut [u8], n: usize)
    requires { (header_size ≤ length state.old) × (n ≤ most_monitors) }
    ensures { state.new ≡ with_row monitors_part n state.old }
{
    state[words::MONITORS_AT] = n as u8;
}

// "The next number takes four bytes in the header".
pub fn next(state: &[u8]) -> u32
    requires { header_size ≤ length state.now }
    ensures { (result ≡ (decode state.now).next) × (result ≡ number_at next_at next_width state.now) }
{
    words::word4(state, words::NEXT_AT)
}

pub fn set_next(state: &mut [u8], number: u32)
    requires { header_size ≤ length state.old }
    ensures { state.new ≡ with_row next_part number state.old }
{
    words::put4(state, words::NEXT_AT, number);
}

// "counts of spaces".
pub fn space_count(state: &[u8]) -> usize
    requires { header_size ≤ length state.now }
    ensures { (result ≡ length (decode state.now).spaces) × (result ≡ number_at space_count_at count_width state.now) }
{
    usize::from(state[words::SPACE_COUNT_AT])
}

pub fn set_space_count(state: &mut [u8], n: usize)
    requires { (header_size ≤ length state.old) × (n ≤ most_spaces) }
    ensures { state.new ≡ with_row space_count_part n state.old }
{
    state[words::SPACE_COUNT_AT] = n as u8;
}

// "tuples (2)".
pub fn tuple_count(state: &[u8]) -> usize
    requires { header_size ≤ length state.now }
    ensures { (result ≡ length (decode state.now).tuples) × (result ≡ number_at tuple_count_at tuple_count_width state.now) }
{
    usize::from(words::word2(state, words::TUPLE_COUNT_AT))
}

pub fn set_tuple_count(state: &mut [u8], n: usize)
    requires { (header_size ≤ length state.old) × (n ≤ most_tuples) }
    ensures { state.new ≡ with_row tuple_count_part n state.old }
{
    words::put2(state, words::TUPLE_COUNT_AT, n as u16);
}

// "waiting".
pub fn waiting_count(state: &[u8]) -> usize
    requires { header_size ≤ length state.now }
    ensures { (result ≡ length (decode state.now).waiting) × (result ≡ number_at waiting_count_at count_width state.now) }
{
    usize::from(state[words::WAITING_COUNT_AT])
}

pub fn set_waiting_count(state: &mut [u8], n: usize)
    requires { (header_size ≤ length state.old) × (n ≤ most_waiting) }
    ensures { state.new ≡ with_row waiting_count_part n state.old }
{
    state[words::WAITING_COUNT_AT] = n as u8;
}

// Where the mask of place i stands.
fn owed_at(i: usize) -> usize
    requires { i ≤ most_monitors }
    ensures { result ≡ owed_at + i * mask_width }
{
    words::OWED_AT + i * words::MASK_WIDTH
}

// "a two-byte mask for each of the eight monitor numbers": that of place i, which is monitor number i + 1's.
pub fn owed(state: &[u8], i: usize) -> u16
    requires { (header_size ≤ length state.now) × (i < most_monitors) }
    ensures { (bits hosts result ≡ owed_mask (decode state.now) i) × (result ≡ number_at (owed_at + i * mask_width) mask_width state.now) }
{
    words::word2(state, owed_at(i))
}

pub fn set_owed(state: &mut [u8], i: usize, mask: u16)
    requires { (header_size ≤ length state.old) × (i < most_monitors) }
    ensures { state.new ≡ with_row (owed_part + i) mask state.old }
{
    words::put2(state, owed_at(i), mask);
}

// Whether no mask has a host.
pub fn owes_nothing(state: &[u8]) -> bool
    requires { header_size ≤ length state.now }
    ensures { result ≡ not (owes_some (decode state.now)) }
{
    spans::zero_run(state, words::OWED_AT, words::HEADER_USED - words::OWED_AT)
}

// ---- the test of a state

// "every limit": of the counts.
fn limits_ok(state: &[u8]) -> bool
    requires { header_size ≤ length state.now }
    ensures { result ≡ counts_fit (decode state.now) }
{
    monitors(state) <= words::MOST_MONITORS
        && next(state) <= words::SPACE_NUMBERS
        && space_count(state) <= words::MOST_SPACES
        && tuple_count(state) <= words::MOST_TUPLES
        && waiting_count(state) <= words::MOST_WAITING
}

// Whether all bytes from the mask of place i on are zero.
fn zero_from(state: &[u8], i: usize) -> bool
    requires { (header_size ≤ length state.now) × (i ≤ most_monitors) }
    ensures { result ≡ (none_owed (drop i (decode state.now).owed) && zeros_at state.now header_used (header_size - header_used)) }
{
    let at = owed_at(i);
    spans::zero_run(state, at, words::HEADER - at)
}

// The masks, "only while it holds 512 tuples" and only to numbers that were given, and the unused bytes after them.
fn rest_ok(state: &[u8]) -> bool
    requires { (header_size ≤ length state.now) × T (counts_fit (decode state.now)) }
    ensures { result ≡ (debts_fit (decode state.now) && zeros_at state.now header_used (header_size - header_used)) }
{
    if tuple_count(state) < words::MOST_TUPLES {
        zero_from(state, 0)
    } else {
        let given = monitors(state);
        zero_from(state, given)
    }
}

// `TS`, every limit, the owed masks, and "All unused bytes are zero".
pub fn is_legal(state: &[u8]) -> bool
    requires { header_size ≤ length state.now }
    ensures { result ≡ header_legal state.now }
{
    words::has_mark(state, b"TS") && limits_ok(state) && rest_ok(state)
}
