// A statement with no guard that holds: what it is refused with, or that it waits.
#![tactic(auto)]

ghost use Rattle.std.specs.Prelude.{◌≡◌, length, OnOk};
ghost use Rattle.model.specs.Statement.{Statement};
ghost use Rattle.model.specs.Execution.{can_wait};
ghost use Rattle.model.specs.Run.{Run};
ghost use Rattle.model.specs.Step.{unmet};
ghost use Rattle.unmet.specs.Unmet.{answered_by, Waits};

use order::Refusal;

// 18 where it does not wait, since no guard is in or rd; 13, "must wait, 32 wait"; none where it waits.
pub fn refusal(waits: bool, waiting: usize) -> Result<(), Refusal>
    ensures answer { (s : Run) (st : Statement) → can_wait st ≡ waits → length s.waiting ≡ waiting → unmet s st ≡ answered_by result s st }
    ensures waits { OnOk result (Waits waits waiting) }
{
    if !waits {
        return Err(Refusal::CannotWait);
    }
    if words::MOST_WAITING <= waiting {
        return Err(Refusal::QueueFull);
    }
    Ok(())
}
