// The effect of each record but AG that no check refuses, with its reply.
#![tactic(auto)]

ghost use Rattle.std.specs.Prelude.{◌≡◌, true, false, not, ◌||◌, ◌+◌, ◌≤◌, ◌<◌, length, T, leb, eqb};
ghost use Rattle.basis.specs.Numbers.{count};
ghost use Rattle.basis.specs.Sizes.{hosts, most_spaces, space_numbers, reply_header_size, reply_value_size};
ghost use Rattle.model.specs.Run.{host_up, monitors_used_up};
ghost use Rattle.model.specs.Step.{recover, crash, monitor, open_space, close_space, some_waiting_names, in_variable0, effect};
ghost use Rattle.layout.specs.States.{decode};
ghost use Rattle.replies.specs.Written.{reply, Wrote};
ghost use Rattle.layout.specs.Stored.{IsStored, Turned};

// "CR and RV the count of hosts now up", "replies show process 0".
fn answer_up(state: &[u8], out: &mut [u8], host: u8) -> usize
    requires { IsStored state.now × (reply_header_size + reply_value_size ≤ length out.old) }
    ensures { Wrote (reply (decode state.now).last host 0 0 0 (in_variable0 (count (decode state.now).up))) out.old out.new result }
{
    let up = hosts::hosts_up(header::hosts(state));
    let last = header::last(state);
    replies::number_reply(out, last, host, 0, up)
}

// RV: "the host is up".
pub fn take_recover(state: &mut [u8], out: &mut [u8], host: u8) -> usize
    requires { IsStored state.old × (host < hosts) × (host_up (decode state.old) host ≡ false) × (reply_header_size + reply_value_size ≤ length out.old) }
    ensures { Turned (effect (decode state.old) (recover host)) out.old state.new out.new result }
{
    state::recover(state, host);
    answer_up(state, out, host)
}

// CR: "it has crashed".
pub fn take_crash(state: &mut [u8], out: &mut [u8], host: u8) -> usize
    requires { IsStored state.old × (host < hosts) × (host_up (decode state.old) host ≡ true) × (reply_header_size + reply_value_size ≤ length out.old) }
    ensures { Turned (effect (decode state.old) (crash host)) out.old state.new out.new result }
{
    notices::crash(state, host);
    answer_up(state, out, host)
}

// MO: "a new monitor number".
pub fn take_monitor(state: &mut [u8], out: &mut [u8], host: u8, process: u16) -> usize
    requires { IsStored state.old × T (not (monitors_used_up (decode state.old))) × (reply_header_size + reply_value_size ≤ length out.old) }
    ensures { Turned (effect (decode state.old) (monitor host process)) out.old state.new out.new result }
{
    let n = state::monitor(state);
    let last = header::last(state);
    replies::number_reply(out, last, host, process, n)
}

// MS: "opens the next space number".
pub fn take_open(state: &mut [u8], out: &mut [u8], host: u8, process: u16, owned: bool) -> usize
    requires { IsStored state.old × T (not (leb most_spaces (length (decode state.old).spaces) || leb space_numbers (decode state.old).next))
        × (reply_header_size + reply_value_size ≤ length out.old) }
    ensures { Turned (effect (decode state.old) (open_space host process owned)) out.old state.new out.new result }
{
    let n = state::open_space(state, process, owned);
    let last = header::last(state);
    replies::number_reply(out, last, host, process, n)
}

// DS: "closes a space, with its tuples".
pub fn take_close(state: &mut [u8], out: &mut [u8], host: u8, process: u16, space: u16) -> usize
    requires { IsStored state.old × T (not (eqb space 0 || some_waiting_names (decode state.old) space)) × (reply_header_size ≤ length out.old) }
    ensures { Turned (effect (decode state.old) (close_space host process space)) out.old state.new out.new result }
{
    state::close_space(state, space);
    let last = header::last(state);
    replies::plain_reply(out, last, host, process, 0)
}
