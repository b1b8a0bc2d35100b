// The checks of the host and the process that ask, and of the counts: 7, 8, 9 and 14 on the bytes of a state.
#![tactic(auto)]

ghost use Rattle.std.specs.Prelude.{◌≡◌, ◌<◌, Bool};
ghost use Rattle.basis.specs.Sizes.{hosts};
ghost use Rattle.model.specs.Run.{host_up, is_waiting};
ghost use Rattle.model.specs.Step.{checks, standing, recover, crash, monitor, open_space};
ghost use Rattle.layout.specs.States.{decode};
ghost use Rattle.layout.specs.Stored.{IsStored};
ghost use Rattle.order.specs.Refusal.{refusal, used_up};
ghost use Rattle.order.specs.Told.{told};

use order::Refusal;

// ---- the host and the process that ask

// Whether a host is up.
fn host_is_up(state: &[u8], host: u8) -> bool
    requires { IsStored state.now × (host < hosts) }
    ensures { result ≡ host_up (decode state.now) host }
{
    hosts::has_host(header::hosts(state), host)
}

// Whether a process waits.
fn process_waits(state: &[u8], process: u16) -> bool
    requires { IsStored state.now }
    ensures { result ≡ is_waiting (decode state.now) process }
{
    let n = header::waiting_count(state);
    queue::process_waits(&state[words::WAITING_AT..words::WAITING_END], n, process)
}

// 7, "host not up", and 9, "process waits already".
pub fn refuse_standing(state: &[u8], host: u8, process: u16) -> Result<(), Refusal>
    requires { IsStored state.now × (host < hosts) }
    ensures { told result ≡ refusal (standing (decode state.now) host process) }
{
    if !host_is_up(state, host) {
        return Err(Refusal::HostDown);
    }
    if process_waits(state, process) {
        return Err(Refusal::ProcessWaits);
    }
    Ok(())
}

// ---- the records that need no more than the counts

// RV: 8, "host already up".
pub fn refuse_recover(state: &[u8], host: u8) -> Result<(), Refusal>
    requires { IsStored state.now × (host < hosts) }
    ensures { told result ≡ refusal (checks (decode state.now) (recover host)) }
{
    if host_is_up(state, host) {
        return Err(Refusal::HostUp);
    }
    Ok(())
}

// CR: 7. "Refusal 12 no longer occurs for a crash".
pub fn refuse_crash(state: &[u8], host: u8) -> Result<(), Refusal>
    requires { IsStored state.now × (host < hosts) }
    ensures { told result ≡ refusal (checks (decode state.now) (crash host)) }
{
    if !host_is_up(state, host) {
        return Err(Refusal::HostDown);
    }
    Ok(())
}

// MO: 7 and 9, then 14, where the monitors are used up.
pub fn refuse_monitor(state: &[u8], host: u8, process: u16) -> Result<(), Refusal>
    requires { IsStored state.now × (host < hosts) }
    ensures { told result ≡ refusal (checks (decode state.now) (monitor host process)) }
{
    refuse_standing(state, host, process)?;
    if words::MOST_MONITORS <= header::monitors(state) {
        return Err(Refusal::UsedUp);
    }
    Ok(())
}

// 14 of spaces: as many as can be are open, or their numbers are used up.
fn refuse_more(state: &[u8]) -> Result<(), Refusal>
    requires { IsStored state.now }
    ensures { told result ≡ refusal (used_up (decode state.now)) }
{
    if words::MOST_SPACES <= header::space_count(state) {
        return Err(Refusal::UsedUp);
    }
    if words::SPACE_NUMBERS <= header::next(state) {
        return Err(Refusal::UsedUp);
    }
    Ok(())
}

// MS: 7 and 9, then 14.
pub fn refuse_open(state: &[u8], host: u8, process: u16) -> Result<(), Refusal>
    requires { IsStored state.now × (host < hosts) }
    ensures { (isPrivate : Bool) → told result ≡ refusal (checks (decode state.now) (open_space host process isPrivate)) }
{
    refuse_standing(state, host, process)?;
    refuse_more(state)
}
