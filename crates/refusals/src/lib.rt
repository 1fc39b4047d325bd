// Why bytes, a question or a restore are refused: a name for each number of docs/REFUSALS.md.
#![tactic(auto)]

ghost use Rattle.std.specs.Prelude.{◌≡◌};
ghost use Rattle.refusals.specs.Refusal.{number_of_cause};

// In the order of the numbers. docs/REFUSALS.md says when each is given, and what its place is.
#[derive(Clone, Copy)]
pub enum Cause {
    WrongLength,
    UnknownVersion,
    NotZero,
    CutOff,
    WrongCounts,
    UnknownKind,
    NotInPool,
    AddressOverflow,
    BytesAfter,
    NoRecord,
    NoItem,
    NoStatepoint,
    WrongImage,
    WrongTable,
    SharedAddress,
    ExtentOutside,
    TooManyPointers,
    WrongPair,
    SlotOutside,
    Collision,
    UnknownBase,
    WrongItem,
    TooManyItems,
    TooShort,
    WrongFrames,
    SharedExtent,
    OtherVersion,
    TooWide,
    OtherIndex,
    NoEditionFree,
    UnknownEdition,
    EditionTooLarge,
    NotAllowed,
    TotalOverflow,
    WrongTrace,
    WrongFlatLength,
    UnknownFlatVersion,
    Misplaced,
    PastArray,
    ReservedBit,
    NoFrameRecord,
    OutsideProfile,
    WrongEdition,
}

impl Cause {
    // The refusal's number.
    pub fn number(self) -> u8
        ensures { result ≡ number_of_cause self }
    {
        match self {
            Cause::WrongLength => 1,
            Cause::UnknownVersion => 2,
            Cause::NotZero => 3,
            Cause::CutOff => 4,
            Cause::WrongCounts => 5,
            Cause::UnknownKind => 6,
            Cause::NotInPool => 7,
            Cause::AddressOverflow => 8,
            Cause::BytesAfter => 9,
            Cause::NoRecord => 10,
            Cause::NoItem => 11,
            Cause::NoStatepoint => 12,
            Cause::WrongImage => 13,
            Cause::WrongTable => 14,
            Cause::SharedAddress => 15,
            Cause::ExtentOutside => 16,
            Cause::TooManyPointers => 17,
            Cause::WrongPair => 18,
            Cause::SlotOutside => 19,
            Cause::Collision => 20,
            Cause::UnknownBase => 21,
            Cause::WrongItem => 22,
            Cause::TooManyItems => 23,
            Cause::TooShort => 24,
            Cause::WrongFrames => 25,
            Cause::SharedExtent => 26,
            Cause::OtherVersion => 27,
            Cause::TooWide => 28,
            Cause::OtherIndex => 29,
            Cause::NoEditionFree => 30,
            Cause::UnknownEdition => 31,
            Cause::EditionTooLarge => 32,
            Cause::NotAllowed => 33,
            Cause::TotalOverflow => 34,
            Cause::WrongTrace => 35,
            Cause::WrongFlatLength => 36,
            Cause::UnknownFlatVersion => 37,
            Cause::Misplaced => 38,
            Cause::PastArray => 39,
            Cause::ReservedBit => 40,
            Cause::NoFrameRecord => 41,
            Cause::OutsideProfile => 50,
            Cause::WrongEdition => 51,
        }
    }
}

// A cause, and the place that it is given for.
#[derive(Clone, Copy)]
pub struct Refusal(pub Cause, pub usize);
