// Failure tuples on the bytes of a state: a crash's own, those that it owes for want of room, and their laying down.
#![tactic(auto)]

ghost use Rattle.std.specs.Prelude.{◌≡◌, true, false, ◌-◌, ◌≤◌, ◌<◌};
ghost use Rattle.basis.specs.Sizes.{hosts};
ghost use Rattle.model.specs.Run.{host_up, failure_tuple, has_room, noticed, is_owed, set_owed, laid_one, laid_for, laid};
ghost use Rattle.model.specs.Step.{notified, crashed};
ghost use Rattle.layout.specs.States.{decode};
ghost use Rattle.layout.specs.Stored.{Stored, IsStored};
ghost use Rattle.tuples.specs.Section.{entry_bytes};
ghost use Rattle.notices.specs.Pairs.{IsPair};

// ---- a failure tuple

// "the tuple (name 1, whole monitor number, whole host)" in space 0.
fn failure_tuple(host: u8, monitor: u32) -> [u8; words::TUPLE]
    ensures { result ≡ entry_bytes (failure_tuple host monitor) }
{
    let mut tuple = tuples::begin_entry(0, words::FAILURE_FIELDS);
    tuples::put_value(&mut tuple, 0, values::NAME, 1);
    tuples::put_value(&mut tuple, 1, values::WHOLE, monitor);
    tuples::put_value(&mut tuple, 2, values::WHOLE, u32::from(host));
    tuple
}

// Whether one more tuple has room.
fn has_room(state: &[u8]) -> bool
    requires { IsStored state.now }
    ensures { result ≡ has_room (decode state.now) }
{
    header::tuple_count(state) < words::MOST_TUPLES
}

// It is laid down at the end.
fn notice(state: &mut [u8], monitor: usize, host: u8)
    requires { IsStored state.old × (has_room (decode state.old) ≡ true) × IsPair (decode state.old) monitor host }
    ensures { Stored state.new (noticed (decode state.old) monitor host) }
{
    let n = header::tuple_count(state);
    let tuple = failure_tuple(host, monitor as u32);
    tuples::append(&mut state[words::TUPLES_AT..words::TUPLES_END], n, &tuple);
    header::set_tuple_count(state, n + 1);
}

// ---- a pair that is owed

// The place of a monitor number among the masks.
fn place(monitor: usize) -> usize
    requires { 1 ≤ monitor }
    ensures { result ≡ monitor - 1 }
{
    monitor - 1
}

// Whether it is.
fn is_owed(state: &[u8], monitor: usize, host: u8) -> bool
    requires { IsStored state.now × IsPair (decode state.now) monitor host }
    ensures { result ≡ is_owed (decode state.now) monitor host }
{
    hosts::has_host(header::owed(state, place(monitor)), host)
}

// "each pair at most once": one that is owed already stays so.
fn owe(state: &mut [u8], monitor: usize, host: u8)
    requires { IsStored state.old × IsPair (decode state.old) monitor host }
    ensures { Stored state.new (set_owed (decode state.old) monitor host true) }
{
    let mask = header::owed(state, place(monitor));
    if !hosts::has_host(mask, host) {
        header::set_owed(state, place(monitor), hosts::with_host(mask, host));
    }
}

// It is owed no more.
fn strike(state: &mut [u8], monitor: usize, host: u8)
    requires { IsStored state.old × IsPair (decode state.old) monitor host × (is_owed (decode state.old) monitor host ≡ true) }
    ensures { Stored state.new (set_owed (decode state.old) monitor host false) }
{
    let mask = header::owed(state, place(monitor));
    header::set_owed(state, place(monitor), hosts::without_host(mask, host));
}

// ---- a crash

// "A failure tuple without room is now owed".
fn notify(state: &mut [u8], monitor: usize, host: u8)
    requires { IsStored state.old × IsPair (decode state.old) monitor host }
    ensures { Stored state.new (notified host (decode state.old) monitor) }
{
    if has_room(state) {
        notice(state, monitor, host);
    } else {
        owe(state, monitor, host);
    }
}

// Rule 6: "for each monitor number in rising order". The loop counts from 0: a range that includes its end has two ways out, each
// to be proved.
pub fn crash(state: &mut [u8], host: u8)
    requires { IsStored state.old × (host < hosts) × (host_up (decode state.old) host ≡ true) }
    ensures { Stored state.new (crashed (decode state.old) host) }
{
    state::drop_host(state, host);
    let monitors = header::monitors(state);
    for m in 0..monitors {
        notify(state, m + 1, host);
    }
}

// ---- laying down

// A pair that is owed, where there is room.
fn lay_one(state: &mut [u8], monitor: usize, host: u8)
    requires { IsStored state.old × IsPair (decode state.old) monitor host }
    ensures { Stored state.new (laid_one (decode state.old) monitor host) }
{
    if is_owed(state, monitor, host) && has_room(state) {
        strike(state, monitor, host);
        notice(state, monitor, host);
    }
}

// Of one monitor number, the lowest host first.
fn lay_for(state: &mut [u8], monitor: usize)
    requires { IsStored state.old × IsPair (decode state.old) monitor 0 }
    ensures { Stored state.new (laid_for (decode state.old) monitor) }
{
    for host in 0..words::HOSTS {
        lay_one(state, monitor, host);
    }
}

// The lowest monitor number first.
fn lay_all(state: &mut [u8])
    requires { IsStored state.old }
    ensures { Stored state.new (laid (decode state.old)) }
{
    let monitors = header::monitors(state);
    for m in 0..monitors {
        lay_for(state, m + 1);
    }
}

// "Owed tuples are laid down as room appears": nothing is walked where there is no room, or nothing is owed.
pub fn lay(state: &mut [u8])
    requires { IsStored state.old }
    ensures { Stored state.new (laid (decode state.old)) }
{
    if has_room(state) && !header::owes_nothing(state) {
        lay_all(state);
    }
}
