// A refusal, and where it stands.
ghost use Rattle.std.specs.Prelude.{◌≡◌};

// What is wrong: the refusals of clauses 10.1 to 10.21 of docs/FORMAT.md, in their order.
#[derive(Clone, Copy, PartialEq, Eq)]
pub enum Refusal {
    TextTooLong,
    TextNotEnded,
    NoLine,
    FieldLineMisplaced,
    NoOddPrime,
    NumberOffRange,
    NameNotMade,
    TooManyValues,
    TooManyCells,
    DigitsTooWide,
    SumOffRange,
    NothingShared,
    TableLength,
    CellTooGreat,
    RowFails,
    InputCount,
    InputOffRange,
    StatementFalse,
    DeskDamaged,
    DeskFull,
    BufferTooShort,
}

// Its number. FORMAT 10.1 to 10.21
impl From<Refusal> for u32 {
    ghost use Rattle.std.specs.Prelude.{◌≡◌};
    ghost use Rattle.refusal.specs.Refusal.{number_of};

    ghost from_gives = { λ refusal number. number ≡ number_of refusal };

    fn from(refusal: Refusal) -> u32 {
        match refusal {
            Refusal::TextTooLong => 1,
            Refusal::TextNotEnded => 2,
            Refusal::NoLine => 3,
            Refusal::FieldLineMisplaced => 4,
            Refusal::NoOddPrime => 5,
            Refusal::NumberOffRange => 6,
            Refusal::NameNotMade => 7,
            Refusal::TooManyValues => 8,
            Refusal::TooManyCells => 9,
            Refusal::DigitsTooWide => 10,
            Refusal::SumOffRange => 11,
            Refusal::NothingShared => 12,
            Refusal::TableLength => 13,
            Refusal::CellTooGreat => 14,
            Refusal::RowFails => 15,
            Refusal::InputCount => 16,
            Refusal::InputOffRange => 17,
            Refusal::StatementFalse => 18,
            Refusal::DeskDamaged => 19,
            Refusal::DeskFull => 20,
            Refusal::BufferTooShort => 21,
        }
    }
}

// A refusal with the line, cell, row or input that it is of, counted from 0; 0 where it is of the whole. FORMAT 10.1 to 10.21
#[derive(Clone, Copy, PartialEq, Eq)]
pub struct Refused {
    pub refusal: Refusal,
    pub place: usize,
}

impl Refusal {
    // At a place.
    pub fn at(self, place: usize) -> Refused
        ensures refusal { result.refusal ≡ self }
        ensures place { result.place ≡ place }
    {
        Refused {
            refusal: self,
            place,
        }
    }
}
