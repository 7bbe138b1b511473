// The grounds for turning work down, with their numbers, and a refusal: a ground with its place.
ghost use Rattle.std.specs.Prelude.{◌≡◌};
ghost use Rattle.circuit.specs.Refusal.{ground_number};

#[derive(Clone, Copy, PartialEq, Eq)]
pub enum Ground {
    TableTooLong = 1,
    TableNotWhole,
    OutputShort,
    ScratchShort,
    UnknownKind,
    BadWidth,
    UnknownCode,
    UnusedNotZero,
    NoSuchVariable,
    ValueTooWide,
    Loop,
    StimuliNotWhole,
    TooManyStimuli,
    BadStimulus,
    NotAnInput,
    PokeTooWide,
    FixedInput,
    TooManySizes,
    SizeTooLarge,
    NoSuchKept,
    TrimmedShort,
    BadCertificate,
    NotMarked,
    ForeignCertificate,
}

// The first ground that holds, and its place.
#[derive(Clone, Copy, PartialEq, Eq)]
pub struct Refusal {
    pub reason: Ground,
    pub place: usize,
}

// What a check of some grounds finds: none holds, or the first that does.
pub type Check = Result<(), Refusal>;

impl Ground {
    // A refusal on this ground.
    pub fn at(self, place: usize) -> Refusal
        ensures { result ≡ record { reason = self; place = place } }
    {
        Refusal {
            reason: self,
            place,
        }
    }
}

// A ground's number.
pub fn ground_number(reason: Ground) -> u64
    ensures { result ≡ ground_number reason }
{
    reason as u64
}
