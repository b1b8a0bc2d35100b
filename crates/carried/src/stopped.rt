// What ends a chain of additions.
ghost use Rattle.std.specs.Prelude.{◌<◌};

// The answer that ended it, which is not 0, and the count of filled bytes at it. Additions answer 6 or 2; a writer that its holder made may have another.
#[derive(Clone, Copy, PartialEq, Eq)]
pub struct Stopped {
    pub answer: u8,
    pub fill: usize,
    pub ghost refused: { 0 < answer },
}
