// What is wrong in the input of a call.
ghost use Rattle.std.specs.Prelude.{◌≡◌};
ghost use Rattle.terms.specs.Faults.{number_of, place_of};
ghost use Rattle.terms.specs.declared.fault.Fault.TheVariants.{OutOfMemory};

use std::alloc::AllocError;

// Each case has a number, whose tens digit is the layer: 1 the books, 2 the recipe, 3 the pins, 4 writes, 5 the stream, 6 a making.
// `frames` is the number of frames before the call, `index` that of a change in its list.
#[derive(Clone, Copy, PartialEq, Eq, Debug)]
pub enum Fault {
    // 11: no open transaction has the number
    NotOpen,
    // 12: as many transactions are open as may be
    TooManyOpen,
    // 13: the limit is over a day
    LimitTooLong,
    // 14: the transaction numbers are used up
    NumbersUsedUp,
    // 15: frames are open
    FramesOpen,
    // 16: no frame is open
    NoFrame,
    // 17: a table that is not there, asked directly
    QueryTable,
    // 21: a sheet that is not there
    SheetUnknown { frames: usize },
    // 22: a miss, with as many frames as may be
    TooDeep { frames: usize },
    // 23: the recipe has been asked 32 times and is not done
    NeverDone { frames: usize },
    // 24: a table that is not there, asked by a recipe
    RecipeTable { frames: usize },
    // 31: no pin can be had
    NoPin { frames: usize },
    // 32: the moment is not held
    NotHeld { frames: usize },
    // 41: no change
    NoChange,
    // 42: over 16 changes
    TooManyChanges,
    // 43: the record is named earlier in the list
    RecordRepeated { index: usize },
    // 44: the change's table is not there
    ChangeTable { index: usize },
    // 45: the latest moment is the highest
    MomentsUsedUp,
    // 46: too few rows in the stream
    StreamFull,
    // 47: the free number is below the number of changes
    StoreFull,
    // 51: the stream is empty
    StreamEmpty,
    // 61: a size, first moment or first number outside its range
    OutOfRange,
    // 62: no memory for what a making reserves
    OutOfMemory,
}

impl Fault {
    // By hand, since a case that holds its place takes no `as`.
    pub fn number(self) -> u8
        ensures { result ≡ number_of self }
    {
        match self {
            Fault::NotOpen => 11,
            Fault::TooManyOpen => 12,
            Fault::LimitTooLong => 13,
            Fault::NumbersUsedUp => 14,
            Fault::FramesOpen => 15,
            Fault::NoFrame => 16,
            Fault::QueryTable => 17,
            Fault::SheetUnknown { .. } => 21,
            Fault::TooDeep { .. } => 22,
            Fault::NeverDone { .. } => 23,
            Fault::RecipeTable { .. } => 24,
            Fault::NoPin { .. } => 31,
            Fault::NotHeld { .. } => 32,
            Fault::NoChange => 41,
            Fault::TooManyChanges => 42,
            Fault::RecordRepeated { .. } => 43,
            Fault::ChangeTable { .. } => 44,
            Fault::MomentsUsedUp => 45,
            Fault::StreamFull => 46,
            Fault::StoreFull => 47,
            Fault::StreamEmpty => 51,
            Fault::OutOfRange => 61,
            Fault::OutOfMemory => 62,
        }
    }

    pub fn place(self) -> usize
        ensures { result ≡ place_of self }
    {
        match self {
            Fault::SheetUnknown { frames }
            | Fault::TooDeep { frames }
            | Fault::NeverDone { frames }
            | Fault::RecipeTable { frames }
            | Fault::NoPin { frames }
            | Fault::NotHeld { frames } => frames,
            Fault::RecordRepeated { index } | Fault::ChangeTable { index } => index,
            _ => 0,
        }
    }
}

// Only a making asks for memory.
impl From<AllocError> for Fault {
    ghost from_gives = { λ _ fault. fault ≡ OutOfMemory };

    fn from(_: AllocError) -> Fault {
        Fault::OutOfMemory
    }
}
