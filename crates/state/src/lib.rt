// The effects of the records on the bytes of a state, but for failure tuples: the rows of its header by `header`, each section lent to its home.
#![tactic(auto)]

ghost use Rattle.std.specs.Prelude.{◌≡◌, true, false, not, ◌||◌, ◌≤◌, ◌<◌, length, set, T, leb, eqb};
ghost use Rattle.basis.specs.Lists.{all, keep, remove_at};
ghost use Rattle.basis.specs.Sizes.{hosts, most_waiting, most_spaces, space_numbers};
ghost use Rattle.model.specs.Legal.{legal_body};
ghost use Rattle.model.specs.Run.{with_last, with_up, with_monitors, with_spaces, with_tuples, with_waiting, host_up, next_monitor, monitors_used_up};
ghost use Rattle.model.specs.Step.{some_waiting_names, recovered, dropped, opened, closed};
ghost use Rattle.model.proofs.Fit.{Fit};
ghost use Rattle.layout.specs.States.{decode};
ghost use Rattle.layout.specs.Stored.{Stored, IsStored, statement_of};
ghost use Rattle.spaces.specs.Spaces.{other_than};
ghost use Rattle.queue.specs.Queue.{of_other};
ghost use Rattle.tuples.specs.Section.{outside};
ghost use Rattle.state.specs.Meaning.{enqueued};

// ---- the header

// "A step sets the last number".
pub fn set_last(state: &mut [u8], position: u32)
    requires { IsStored state.old × ((decode state.old).last ≤ position) }
    ensures { Stored state.new (with_last (decode state.old) position) }
{
    header::set_last(state, position);
}

// "RV adds the host".
pub fn recover(state: &mut [u8], host: u8)
    requires { IsStored state.old × (host < hosts) × (host_up (decode state.old) host ≡ false) }
    ensures { Stored state.new (recovered (decode state.old) host) }
{
    let up = header::hosts(state);
    header::set_hosts(state, hosts::with_host(up, host));
}

// "CR removes it", once no statement of the host waits.
fn host_down(state: &mut [u8], host: u8)
    requires { IsStored state.old × (host < hosts) × (host_up (decode state.old) host ≡ true) × T (all (of_other host) (decode state.old).waiting) }
    ensures { Stored state.new (with_up (decode state.old) (set (decode state.old).up host false)) }
{
    let up = header::hosts(state);
    header::set_hosts(state, hosts::without_host(up, host));
}

// "MO adds one to the count"; the new number.
pub fn monitor(state: &mut [u8]) -> u32
    requires { IsStored state.old × T (not (monitors_used_up (decode state.old))) }
    ensures { (result ≡ next_monitor (decode state.old)) × Stored state.new (with_monitors (decode state.old) (next_monitor (decode state.old))) }
{
    let n = header::monitors(state) + 1;
    header::set_monitors(state, n);
    n as u32
}

// ---- the waiting statements

// "runs and leaves the queue": the waiting statement at index i.
pub fn leave(state: &mut [u8], i: usize)
    requires { IsStored state.old × (i < length (decode state.old).waiting) }
    ensures { Stored state.new (with_waiting (decode state.old) (remove_at i (decode state.old).waiting)) }
{
    let n = header::waiting_count(state);
    queue::leave(&mut state[words::WAITING_AT..words::WAITING_END], n, i);
    header::set_waiting_count(state, n - 1);
}

// "drops that host's waiting statements".
fn drop_waiting(state: &mut [u8], host: u8)
    requires { IsStored state.old }
    ensures { Stored state.new (with_waiting (decode state.old) (keep (of_other host) (decode state.old).waiting)) }
{
    let n = header::waiting_count(state);
    let left = queue::drop_host(&mut state[words::WAITING_AT..words::WAITING_END], n, host);
    header::set_waiting_count(state, left);
}

// The statement "waits without a reply", at the last position.
pub fn enqueue(state: &mut [u8], body: &[u8])
    requires { IsStored state.old × (length (decode state.old).waiting < most_waiting) × T (legal_body body.now) × Fit (enqueued (decode state.old) (statement_of body.now)) }
    ensures { Stored state.new (enqueued (decode state.old) (statement_of body.now)) }
{
    let n = header::waiting_count(state);
    let last = header::last(state);
    queue::enqueue(
        &mut state[words::WAITING_AT..words::WAITING_END],
        n,
        last,
        body,
    );
    header::set_waiting_count(state, n + 1);
}

// ---- the spaces

// "MS opens the next space number and steps it on"; that number.
pub fn open_space(state: &mut [u8], process: u16, owned: bool) -> u32
    requires { IsStored state.old × T (not (leb most_spaces (length (decode state.old).spaces) || leb space_numbers (decode state.old).next)) }
    ensures { (result ≡ (decode state.old).next) × Stored state.new (opened (decode state.old) process owned) }
{
    let n = header::space_count(state);
    let number = header::next(state);
    spaces::open(
        &mut state[words::SPACES_AT..words::SPACES_END],
        n,
        number as u16,
        process,
        owned,
    );
    header::set_space_count(state, n + 1);
    header::set_next(state, number + 1);
    number
}

// A space with no tuples, which no waiting statement names, is taken from the list.
fn close_entry(state: &mut [u8], space: u16)
    requires { IsStored state.old × T (all (outside space) (decode state.old).tuples) × T (not (eqb space 0 || some_waiting_names (decode state.old) space)) }
    ensures { Stored state.new (with_spaces (decode state.old) (decode state.old).next (keep (other_than space) (decode state.old).spaces)) }
{
    let n = header::space_count(state);
    let left = spaces::close(&mut state[words::SPACES_AT..words::SPACES_END], n, space);
    header::set_space_count(state, left);
}

// ---- the tuples

// "and its tuples".
fn close_tuples(state: &mut [u8], space: u16)
    requires { IsStored state.old }
    ensures { Stored state.new (with_tuples (decode state.old) (keep (outside space) (decode state.old).tuples)) }
{
    let n = header::tuple_count(state);
    let left = tuples::drop_space(&mut state[words::TUPLES_AT..words::TUPLES_END], n, space);
    header::set_tuple_count(state, left);
}

// ---- what uses several

// "A crash drops that host's waiting statements"; the host is up no more.
pub fn drop_host(state: &mut [u8], host: u8)
    requires { IsStored state.old × (host < hosts) × (host_up (decode state.old) host ≡ true) }
    ensures { Stored state.new (dropped (decode state.old) host) }
{
    drop_waiting(state, host);
    host_down(state, host);
}

// "closes a space, with its tuples".
pub fn close_space(state: &mut [u8], space: u16)
    requires { IsStored state.old × T (not (eqb space 0 || some_waiting_names (decode state.old) space)) }
    ensures { Stored state.new (closed (decode state.old) space) }
{
    close_tuples(state, space);
    close_entry(state, space);
}
