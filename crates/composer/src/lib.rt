// An AG body with an addition: begun, with one operation more, or with one branch more.
#![tactic(auto)]

ghost use Rattle.std.specs.Prelude.{◌≡◌, true, ◌≤◌, length, take};
ghost use Rattle.basis.specs.Choice.{is_some};
ghost use Rattle.writer.specs.Writer.{is_handed, held, with_operation, with_branch};
ghost use Rattle.basis.specs.Sizes.{writer_room};
ghost use Rattle.composer.specs.Composed.{Begun, Composed};

use parts::put_operation;
use spans::copy_part;
use statements::Operation;
use walk::last_count;
use words::{BRANCH_COUNT_AT, BRANCHES_AT, COUNT_WIDTH, HOST_AT, PROCESS_AT, put2};

// Host, process and a branch with this guard and no operation. The count of its bytes.
pub fn compose_begun(t: &mut [u8], host: u8, process: u16, guard: Operation) -> usize
    requires { (length t.old ≡ writer_room) × (is_handed guard ≡ true) }
    ensures { (result ≤ writer_room) × Begun host process guard (take result t.new) }
{
    t[HOST_AT] = host;
    put2(t, PROCESS_AT, process);
    t[BRANCH_COUNT_AT] = 1;
    let end = put_operation(t, BRANCHES_AT, guard);
    t[end] = 0;
    end + COUNT_WIDTH
}

// The filled bytes with an operation more: the last branch's operation count is raised. The count of all bytes.
pub fn compose_operation(t: &mut [u8], buffer: &[u8], fill: usize, op: Operation) -> usize
    requires { (length t.old ≡ writer_room) × (is_some (held buffer.now fill) ≡ true) × (is_handed op ≡ true) }
    ensures { (result ≤ writer_room) × Composed with_operation buffer.now fill op (take result t.new) }
{
    copy_part(t, 0, buffer, 0, fill);
    let at = last_count(&buffer[..fill]);
    t[at] += 1;
    put_operation(t, fill, op)
}

// The filled bytes with a branch more: the branch count is raised. The count of all bytes.
pub fn compose_branch(t: &mut [u8], buffer: &[u8], fill: usize, guard: Operation) -> usize
    requires { (length t.old ≡ writer_room) × (is_some (held buffer.now fill) ≡ true) × (is_handed guard ≡ true) }
    ensures { (result ≤ writer_room) × Composed with_branch buffer.now fill guard (take result t.new) }
{
    copy_part(t, 0, buffer, 0, fill);
    t[BRANCH_COUNT_AT] += 1;
    let end = put_operation(t, fill, guard);
    t[end] = 0;
    end + COUNT_WIDTH
}
