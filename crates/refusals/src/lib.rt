// The checks of the spaces that a record names: 10, 11 and 15 on the bytes of a state.
#![tactic(auto)]

ghost use Rattle.std.specs.Prelude.{◌≡◌, ◌<◌, ◌||◌, T, eqb};
ghost use Rattle.basis.specs.Lists.{any};
ghost use Rattle.basis.specs.Sizes.{hosts, space_numbers};
ghost use Rattle.model.specs.Statement.{spaces_named};
ghost use Rattle.model.specs.Legal.{legal_body};
ghost use Rattle.model.specs.Step.{checks, access, some_waiting_names, close_space, guarded};
ghost use Rattle.layout.specs.States.{decode};
ghost use Rattle.layout.specs.Stored.{IsStored, statement_of};
ghost use Rattle.order.specs.Refusal.{refusal, closing};
ghost use Rattle.order.specs.Told.{told};
ghost use Rattle.spaces.specs.Spaces.{spaces_of, IsListed, Rising};
ghost use Rattle.queue.specs.Queue.{waiting_of, IsQueued};
ghost use Rattle.queue.specs.PlaceLaws.{waiting_nth};
ghost use Rattle.refusals.specs.Naming.{naming};

use names::SpaceTest;
use order::Refusal;

// ---- the spaces that a body names

// 10 over all spaces that a legal body names, then 11 over all; neither, where all are open to the process.
fn refuse_named(state: &[u8], process: u16, body: &[u8]) -> Result<(), Refusal>
    requires { IsStored state.now × T (legal_body body.now) }
    ensures { told result ≡ refusal (access (decode state.now) process (spaces_named (statement_of body.now))) }
{
    let n = header::space_count(state);
    if !names::some_named(
        body,
        &state[words::SPACES_AT..words::SPACES_END],
        n,
        SpaceTest::Shut(process),
    ) {
        return Ok(());
    }
    if names::some_named(
        body,
        &state[words::SPACES_AT..words::SPACES_END],
        n,
        SpaceTest::Closed,
    ) {
        return Err(Refusal::NotOpen);
    }
    Err(Refusal::Denied)
}

// ---- the spaces that waiting statements name

// Whether the waiting statement at an index names a space.
fn waiting_names(waiting: &[u8], n: usize, i: usize, spaces: &[u8], m: usize, space: u16) -> bool
    requires { IsQueued waiting.now n × (i < n) × IsListed spaces.now m × Rising (spaces_of spaces.now m) }
    ensures { result ≡ naming space (waiting_nth waiting.now n i) }
{
    let from = queue::body_at(i);
    let end = from + queue::body_length(waiting, i);
    names::some_named(&waiting[from..end], spaces, m, SpaceTest::Same(space))
}

// Whether some waiting statement names a space.
fn some_waiting_names(waiting: &[u8], n: usize, spaces: &[u8], m: usize, space: u16) -> bool
    requires { IsQueued waiting.now n × IsListed spaces.now m × Rising (spaces_of spaces.now m) }
    ensures { result ≡ any (naming space) (waiting_of waiting.now n) }
{
    for i in 0..n {
        if waiting_names(waiting, n, i, spaces, m, space) {
            return true;
        }
    }
    false
}

// The same of a state.
fn named_by_waiting(state: &[u8], space: u16) -> bool
    requires { IsStored state.now }
    ensures { result ≡ some_waiting_names (decode state.now) space }
{
    let n = header::waiting_count(state);
    let m = header::space_count(state);
    some_waiting_names(
        &state[words::WAITING_AT..words::WAITING_END],
        n,
        &state[words::SPACES_AT..words::SPACES_END],
        m,
        space,
    )
}

// 15: "DS of 0, or of a space a waiting statement names".
fn in_use(state: &[u8], space: u16) -> bool
    requires { IsStored state.now }
    ensures { result ≡ (eqb space 0 || some_waiting_names (decode state.now) space) }
{
    if space == 0 {
        return true;
    }
    named_by_waiting(state, space)
}

// 10, 11 and 15 of the one space that DS names.
fn refuse_space(state: &[u8], process: u16, space: u16) -> Result<(), Refusal>
    requires { IsStored state.now }
    ensures { told result ≡ refusal (closing (decode state.now) process space) }
{
    let n = header::space_count(state);
    if !spaces::is_open(&state[words::SPACES_AT..words::SPACES_END], n, space) {
        return Err(Refusal::NotOpen);
    }
    if spaces::is_denied(
        &state[words::SPACES_AT..words::SPACES_END],
        n,
        space,
        process,
    ) {
        return Err(Refusal::Denied);
    }
    if in_use(state, space) {
        return Err(Refusal::InUse);
    }
    Ok(())
}

// ---- the records

// DS: 7 and 9, then 10, 11 and 15.
pub fn refuse_close(state: &[u8], host: u8, process: u16, space: u16) -> Result<(), Refusal>
    requires { IsStored state.now × (host < hosts) × (space < space_numbers) }
    ensures { told result ≡ refusal (checks (decode state.now) (close_space host process space)) }
{
    standing::refuse_standing(state, host, process)?;
    refuse_space(state, process, space)
}

// AG: 7 and 9, then 10 and 11.
pub fn refuse_statement(state: &[u8], body: &[u8]) -> Result<(), Refusal>
    requires { IsStored state.now × T (legal_body body.now) }
    ensures { told result ≡ refusal (checks (decode state.now) (guarded (statement_of body.now))) }
{
    let process = words::word2(body, words::PROCESS_AT);
    standing::refuse_standing(state, body[words::HOST_AT], process)?;
    refuse_named(state, process, body)
}
