// Check 6 of every record but AG: what its body asks, if it is not malformed.
#![tactic(auto)]

ghost use Rattle.std.specs.Prelude.{◌≡◌, ◌≢◌, ◌≤◌, ◌<◌, false, MatchOption, IfSome};
ghost use Rattle.basis.specs.Sizes.{process_body};
ghost use Rattle.model.specs.Step.{RV, CR, MO, MS, DS, request_of};
ghost use Rattle.framing.specs.Marks.{marked};
ghost use Rattle.requests.specs.Asking.{from_host, IsFrom, AreFrom, asked_is, Within};

use framing::Mark;

// What a record asks, with host, process, and whether the space is private, or its number.
#[derive(Clone, Copy)]
pub enum Request {
    Recover(u8),
    Crash(u8),
    Monitor(u8, u16),
    Open(u8, u16, bool),
    Close(u8, u16, u16),
}

// The first byte of a body of n bytes, if it is a host: "Host is one byte, 0 to 15".
fn read_host(body: &[u8], n: usize) -> Option<u8>
    requires { 0 < n }
    ensures { MatchOption result (from_host body.now n ≡ false) (IsFrom body.now n) }
{
    if body.len() != n {
        return None;
    }
    let host = body[words::HOST_AT];
    if words::HOSTS <= host {
        return None;
    }
    Some(host)
}

// The host and the process that a body of n bytes begins with.
fn read_asker(body: &[u8], n: usize) -> Option<(u8, u16)>
    requires { process_body ≤ n }
    ensures { MatchOption result (from_host body.now n ≡ false) (λ r. AreFrom body.now n r.0 r.1) }
{
    let host = read_host(body, n)?;
    Some((host, words::word2(body, words::PROCESS_AT)))
}

// "`RV` host".
fn read_recover(body: &[u8]) -> Option<Request>
    ensures { (asked_is result ≡ request_of RV body.now) × IfSome result Within }
{
    let host = read_host(body, words::HOST_BODY)?;
    Some(Request::Recover(host))
}

// "`CR` host".
fn read_crash(body: &[u8]) -> Option<Request>
    ensures { (asked_is result ≡ request_of CR body.now) × IfSome result Within }
{
    let host = read_host(body, words::HOST_BODY)?;
    Some(Request::Crash(host))
}

// "`MO` host, process".
fn read_monitor(body: &[u8]) -> Option<Request>
    ensures { (asked_is result ≡ request_of MO body.now) × IfSome result Within }
{
    let (host, process) = read_asker(body, words::PROCESS_BODY)?;
    Some(Request::Monitor(host, process))
}

// "`MS` host, process, kind byte (0 shared, 1 private to the process; byte absent: shared)".
fn read_open(body: &[u8]) -> Option<Request>
    ensures { (asked_is result ≡ request_of MS body.now) × IfSome result Within }
{
    if let Some((host, process)) = read_asker(body, words::PROCESS_BODY) {
        return Some(Request::Open(host, process, false));
    }
    let (host, process) = read_asker(body, words::KIND_BODY)?;
    let kind = body[words::KIND_AT];
    if 1 < kind {
        return None;
    }
    Some(Request::Open(host, process, kind == 1))
}

// "`DS` host, process, space", which has two bytes.
fn read_close(body: &[u8]) -> Option<Request>
    ensures { (asked_is result ≡ request_of DS body.now) × IfSome result Within }
{
    let (host, process) = read_asker(body, words::SPACE_BODY)?;
    let space = words::space_number(body, words::SPACE_AT);
    Some(Request::Close(host, process, space))
}

// By the mark, of those but AG.
pub fn read(mark: Mark, body: &[u8]) -> Option<Request>
    requires { mark ≢ Mark.Statement }
    ensures { (asked_is result ≡ request_of (marked mark) body.now) × IfSome result Within }
{
    match mark {
        Mark::Recover => read_recover(body),
        Mark::Crash => read_crash(body),
        Mark::Monitor => read_monitor(body),
        Mark::Open => read_open(body),
        Mark::Close => read_close(body),
        Mark::Statement => unreachable!(),
    }
}
