// What a record but AG asks, answered: DS here, with the spaces that waiting statements name; the others below.
#![tactic(auto)]

ghost use Rattle.std.proofs.Math.Option.{some};
ghost use Rattle.std.specs.Prelude.{◌≤◌, ◌<◌, length, IfSome};
ghost use Rattle.basis.specs.Sizes.{hosts, space_numbers, most_reply};
ghost use Rattle.model.specs.Step.{close_space};
ghost use Rattle.layout.specs.States.{decode};
ghost use Rattle.layout.specs.Stored.{IsStored};
ghost use Rattle.requests.specs.Asking.{asked_is, Within};
ghost use Rattle.handling.specs.Answers.{Answers};

use handling::Refused;
use requests::Request;

// DS.
fn answer_close(
    state: &mut [u8],
    host: u8,
    process: u16,
    space: u16,
    out: &mut [u8],
) -> Result<usize, Refused>
    requires { IsStored state.old × (host < hosts) × (space < space_numbers) × (most_reply ≤ length out.old) }
    ensures { Answers (some (close_space host process space)) (decode state.old) out.old state.new out.new result }
{
    if let Err(why) = refusals::refuse_close(state, host, process, space) {
        return Err(handling::refuse(state, host, process, why.number(), out));
    }
    Ok(effects::take_close(state, out, host, process, space))
}

// What a record asks, answered; 6 where its body is malformed.
pub fn answer(state: &mut [u8], asked: Option<Request>, out: &mut [u8]) -> Result<usize, Refused>
    requires { IsStored state.old × IfSome asked Within × (most_reply ≤ length out.old) }
    ensures { Answers (asked_is asked) (decode state.old) out.old state.new out.new result }
{
    let Some(request) = asked else {
        return Err(handling::malformed(state, out));
    };
    match request {
        Request::Recover(host) => handling::answer_recover(state, host, out),
        Request::Crash(host) => handling::answer_crash(state, host, out),
        Request::Monitor(host, process) => handling::answer_monitor(state, host, process, out),
        Request::Open(host, process, owned) => handling::answer_open(
            state, host, process, owned, out,
        ),
        Request::Close(host, process, space) => answer_close(state, host, process, space, out),
    }
}
