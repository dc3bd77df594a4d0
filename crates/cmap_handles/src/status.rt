//! The outcome of a call, as a number for C.

ghost use Rattle.std.specs.Prelude.{◌≡◌};
ghost use Rattle.cmap_handles.specs.Statuses.{number};

/// The outcome of a call.
#[derive(Clone, Copy)]
pub enum Status {
    /// There is an answer, and it was written.
    Done,
    /// The file, or a file that it uses, is missing or doesn't follow the grammar.
    Refused,
    /// Out of memory: an allocation failed.
    NoMemory,
    /// The opened files have more bytes than the budget.
    OverBudget,
    /// The bundle is invalid.
    NotABundle,
    /// There is no answer.
    Absent,
    /// There is an answer, and it is longer than its buffer.
    NoRoom,
}

impl Status {
    /// The number in the C header.
    pub fn number(self) -> u32
        ensures { result ≡ number self }
    {
        match self {
            Status::Done => 0,
            Status::Refused => 1,
            Status::NoMemory => 2,
            Status::OverBudget => 3,
            Status::NotABundle => 4,
            Status::Absent => 5,
            Status::NoRoom => 6,
        }
    }
}
