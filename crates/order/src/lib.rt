// "Checks run in this order": what a record is turned back with, and the number of the first check that refuses. See `specs/`.
#![tactic(auto)]

ghost use Rattle.std.specs.Prelude.{◌≡◌};
ghost use Rattle.order.specs.Told.{number_of};

// What a record that is taken is refused with: 6 to 17, and 18 of a statement that cannot wait.
#[derive(Clone, Copy, PartialEq, Eq)]
pub enum Refusal {
    Malformed = 6,
    HostDown,
    HostUp,
    ProcessWaits,
    NotOpen,
    Denied,
    NoRoom,
    QueueFull,
    UsedUp,
    InUse,
    NoMatch,
    OffRange,
    CannotWait,
}

impl Refusal {
    // The number that the one reply carries.
    pub fn number(self) -> u8
        ensures { result ≡ number_of self }
    {
        self as u8
    }
}
