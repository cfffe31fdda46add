// Every refusal of the library, once. The paper's number and values of each case are `line` in
// specs/Paper.antt, by which the contracts speak.
#![tactic(auto)]

ghost use Rattle.std.specs.Prelude.{◌≡◌};
ghost use Rattle.refusals.specs.Paper.{line, list_number};

// A day: a year and the day of that year.
#[derive(Clone, Copy)]
pub struct Day {
    pub year: i32,
    pub day_of_year: i32,
}

// The lent lists, those of a set and the two of a second set that are read beside it.
#[derive(Clone, Copy, PartialEq, Eq)]
pub enum ListName {
    G,
    H,
    GDot,
    HDot,
    SecondG,
    SecondH,
}

impl ListName {
    // The list's number in refusal 7.
    pub fn number(self) -> u8
        ensures { result ≡ list_number self }
    {
        match self {
            ListName::G => 0,
            ListName::H => 1,
            ListName::GDot => 2,
            ListName::HDot => 3,
            ListName::SecondG => 4,
            ListName::SecondH => 5,
        }
    }
}

#[derive(Clone, Copy)]
pub enum Refusal {
    // 1: the two limits, in kilometres.
    Height { min_km: f32, max_km: f32 },
    // 2
    Latitude,
    // 3
    Longitude,
    // 4
    DayOfYear,
    // 5: the first and the last day that a set answers for.
    EpochYear { first: Day, last: Day },
    // 6
    Length,
    // 7: the list and the index.
    Coefficient { list: ListName, index: usize },
    // 8: the epoch years of the day and of the set.
    OtherEpoch { of_day: i32, of_set: i32 },
    // 9
    Colatitude,
    // 10
    Ratio,
    // 11
    Offset,
    // 12
    Unusable,
    // 13: the line's number, from 1 on.
    Malformed { line: usize },
    // 14: the number of the line, or of the one that should have been there.
    OutOfOrder { line: usize },
    // 15: a lent list has no error record of the year.
    NoErrorRecord,
    // 16: of a latitude or a longitude in degrees, or of any other angle.
    Angle,
    // 17: the place of the tag in the bytes, from 0 on.
    WrongTag { place: usize },
    // 18: the place of the length.
    WrongLength { place: usize },
    // 19: where the bytes end too soon, or the first byte that is left over.
    WrongEnd { place: usize },
    // 20: for the bytes of a set, or for its epoch year in two of them.
    NoRoom,
    // 21: H or F is zero, by which a yearly rate would be divided.
    ZeroDivisor,
    // 22: a rate above degree 8 that is not zero, in the IGRF profile.
    RateAboveEight,
    // 23: lists of different degree.
    Degree,
}

impl Refusal {
    // A refusal's number.
    pub fn number(self) -> u32
        ensures { result ≡ (line self).number }
    {
        match self {
            Refusal::Height { .. } => 1,
            Refusal::Latitude => 2,
            Refusal::Longitude => 3,
            Refusal::DayOfYear => 4,
            Refusal::EpochYear { .. } => 5,
            Refusal::Length => 6,
            Refusal::Coefficient { .. } => 7,
            Refusal::OtherEpoch { .. } => 8,
            Refusal::Colatitude => 9,
            Refusal::Ratio => 10,
            Refusal::Offset => 11,
            Refusal::Unusable => 12,
            Refusal::Malformed { .. } => 13,
            Refusal::OutOfOrder { .. } => 14,
            Refusal::NoErrorRecord => 15,
            Refusal::Angle => 16,
            Refusal::WrongTag { .. } => 17,
            Refusal::WrongLength { .. } => 18,
            Refusal::WrongEnd { .. } => 19,
            Refusal::NoRoom => 20,
            Refusal::ZeroDivisor => 21,
            Refusal::RateAboveEight => 22,
            Refusal::Degree => 23,
        }
    }
}

// What a group of checks finds: nothing, or the first refusal.
pub type Verdict = Result<(), Refusal>;
