// The answer that a composed AG body gets, and the buffer after it.
#![tactic(auto)]

ghost use Rattle.std.specs.Prelude.{◌≡◌, length};
ghost use Rattle.model.specs.Legal.{legal_body};
ghost use Rattle.writer.specs.Writer.{added, written_is};
ghost use Rattle.answers.specs.Settled.{refusal_is, refusal_of, settled};

use bodies::body_ok;
use spans::copy_at;
use writer::{Reason, WriteError};

// "One that would not leave a legal body is refused 6, then a short buffer 2".
pub fn refusal(room: usize, body: &[u8]) -> Result<(), Reason>
    ensures { refusal_is result ≡ refusal_of (legal_body body.now) (length body.now) room }
{
    if !body_ok(body) {
        return Err(Reason::Malformed);
    }
    if room < body.len() {
        return Err(Reason::Short);
    }
    Ok(())
}

// A composed body goes over the buffer's front, unless it is refused.
pub fn settle(buffer: &mut [u8], fill: usize, body: &[u8]) -> Result<usize, WriteError>
    ensures { written_is (added result) buffer.new ≡ settled buffer.old fill body.now }
{
    refusal(buffer.len(), body).map_err(|reason| WriteError { reason, fill })?;
    copy_at(buffer, 0, body);
    Ok(body.len())
}
