//! The reasons for which a text is refused.
ghost use Rattle.std.specs.Prelude.{◌≡◌};
ghost use Rattle.xe_scene.specs.Reasons.{reason_number};

/// Why a line is bad, in the order of the numbers that are printed, from 1.
#[derive(Clone, Copy, Debug, PartialEq, Eq)]
pub enum Reason {
    Header,
    BadByte,
    LongLine,
    Spacing,
    UnknownCommand,
    WordCount,
    UnknownName,
    BadNumber,
    BadBytes,
    BadRegion,
    TooMuchRam,
    LateRam,
    TooMany,
    TooLong,
}

impl Reason {
    /// The number that is printed.
    pub fn number(self) -> u8
        ensures { result ≡ reason_number self }
    {
        match self {
            Reason::Header => 1,
            Reason::BadByte => 2,
            Reason::LongLine => 3,
            Reason::Spacing => 4,
            Reason::UnknownCommand => 5,
            Reason::WordCount => 6,
            Reason::UnknownName => 7,
            Reason::BadNumber => 8,
            Reason::BadBytes => 9,
            Reason::BadRegion => 10,
            Reason::TooMuchRam => 11,
            Reason::LateRam => 12,
            Reason::TooMany => 13,
            Reason::TooLong => 14,
        }
    }
}
