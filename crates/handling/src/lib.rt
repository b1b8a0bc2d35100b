// RV, CR, MO and MS on the bytes of a state: the checks from 7 on, then the effect and the own reply. Rule 7 comes after it.
#![tactic(auto)]

ghost use Rattle.std.specs.Prelude.{◌≡◌, suc, ◌≤◌, ◌<◌, length};
ghost use Rattle.std.proofs.Math.Option.{some};
ghost use Rattle.basis.specs.Sizes.{hosts, reply_header_size, most_reply};
ghost use Rattle.model.specs.Run.{with_last};
ghost use Rattle.model.specs.Step.{recover, crash, monitor, open_space, refused, malformed as malforms};
ghost use Rattle.layout.specs.States.{decode};
ghost use Rattle.layout.specs.Stored.{Stored, IsStored, Turned};
ghost use Rattle.calls.specs.Calls.{number_of as position_of};
ghost use Rattle.handling.specs.Answers.{Answers};

use order::Refusal;

// A check refused a record: the size of the one reply that says so.
#[derive(Clone, Copy)]
pub struct Refused {
    pub size: usize,
}

// "A step sets the last number".
pub fn advance(state: &mut [u8], input: &[u8])
    requires { IsStored state.old × (position_of input.now ≡ some (suc (decode state.old).last)) }
    ensures { Stored state.new (with_last (decode state.old) (suc (decode state.old).last)) }
{
    let position = words::number(input, words::POSITION_AT, words::POSITION_WIDTH);
    state::set_last(state, position);
}

// ---- a refusal

// "one reply carries the number, nothing else changes".
pub fn refuse(state: &[u8], host: u8, process: u16, outcome: u8, out: &mut [u8]) -> Refused
    requires { IsStored state.now × (reply_header_size ≤ length out.old) }
    ensures { Turned (refused (decode state.now) host process outcome) out.old state.now out.new result.size }
{
    Refused {
        size: replies::plain_reply(out, header::last(state), host, process, outcome),
    }
}

// "For 6 the reply has host 255, process 65,535".
pub fn malformed(state: &[u8], out: &mut [u8]) -> Refused
    requires { IsStored state.now × (reply_header_size ≤ length out.old) }
    ensures { Turned (malforms (decode state.now)) out.old state.now out.new result.size }
{
    refuse(state, 255, 65535, Refusal::Malformed.number(), out)
}

// ---- by the record: the checks, then the effect with the size of its reply
// One function of the check and the effect as closures is no plainer: each body is four lines, which the closures' contracts would say again.

// RV.
pub fn answer_recover(state: &mut [u8], host: u8, out: &mut [u8]) -> Result<usize, Refused>
    requires { IsStored state.old × (host < hosts) × (most_reply ≤ length out.old) }
    ensures { Answers (some (recover host)) (decode state.old) out.old state.new out.new result }
{
    if let Err(why) = standing::refuse_recover(state, host) {
        return Err(refuse(state, host, 0, why.number(), out));
    }
    Ok(effects::take_recover(state, out, host))
}

// CR.
pub fn answer_crash(state: &mut [u8], host: u8, out: &mut [u8]) -> Result<usize, Refused>
    requires { IsStored state.old × (host < hosts) × (most_reply ≤ length out.old) }
    ensures { Answers (some (crash host)) (decode state.old) out.old state.new out.new result }
{
    if let Err(why) = standing::refuse_crash(state, host) {
        return Err(refuse(state, host, 0, why.number(), out));
    }
    Ok(effects::take_crash(state, out, host))
}

// MO.
pub fn answer_monitor(
    state: &mut [u8],
    host: u8,
    process: u16,
    out: &mut [u8],
) -> Result<usize, Refused>
    requires { IsStored state.old × (host < hosts) × (most_reply ≤ length out.old) }
    ensures { Answers (some (monitor host process)) (decode state.old) out.old state.new out.new result }
{
    if let Err(why) = standing::refuse_monitor(state, host, process) {
        return Err(refuse(state, host, process, why.number(), out));
    }
    Ok(effects::take_monitor(state, out, host, process))
}

// MS.
pub fn answer_open(
    state: &mut [u8],
    host: u8,
    process: u16,
    owned: bool,
    out: &mut [u8],
) -> Result<usize, Refused>
    requires { IsStored state.old × (host < hosts) × (most_reply ≤ length out.old) }
    ensures { Answers (some (open_space host process owned)) (decode state.old) out.old state.new out.new result }
{
    if let Err(why) = standing::refuse_open(state, host, process) {
        return Err(refuse(state, host, process, why.number(), out));
    }
    Ok(effects::take_open(state, out, host, process, owned))
}
