// The reasons of the refusals: document 01, "Numbered refusals", and those that 1/13, 4/13, 7/13, 8/13, 9/13 and 10/13 of document 02 add.
ghost use Rattle.std.specs.Prelude.{◌≡◌, ◌^◌, ◌<◌};
ghost use Rattle.words.specs.Answer.{at, at_item, nowhere};
ghost use Rattle.words.specs.Reasons.{number_of};

use crate::found::Place;

// Why something is refused: each has the number that the documents give it.
#[derive(Clone, Copy, PartialEq, Eq)]
pub enum Reason {
    ManyPairs = 1,
    PairForm = 2,
    NothingToRead = 3,
    NoRoomFound = 4,
    PlanForm = 5,
    GateOrder = 6,
    WriteOuts = 7,
    Totals = 8,
    Slot = 9,
    NotInStageBefore = 10,
    ReadAndComputed = 11,
    NoPosition = 12,
    TableEntry = 13,
    ResultShort = 14,
    ScriptForm = 15,
    Turn = 16,
    Record = 17,
    BeforeGates = 18,
    Difference = 19,
    CutGates = 20,
    ManyBits = 21,
    ManyWide = 22,
    NotEmpty = 24,
    Level = 25,
    NoGate = 26,
    NoPacking = 27,
    BatchFull = 28,
    NoEdition = 29,
    RoomShort = 32,
    NotWritable = 33,
    CountShort = 34,
}

impl Reason {
    pub fn number(self) -> u32
        ensures { result ≡ number_of self }
    {
        self as u32
    }
}

// A refusal: its number, and the place it is told at.
#[derive(Clone, Copy)]
pub struct Refusal {
    pub number: u32,
    pub part: u32,
    pub item: u64,
}

impl Refusal {
    // At a place of a plan.
    pub fn at(reason: Reason, place: Place) -> Refusal
        requires { place.part < 2 ^ 32 }
        ensures { result ≡ at (number_of reason) (record { part = place.part; item = place.item }) }
    {
        Refusal {
            number: reason.number(),
            part: place.part as u32,
            item: place.item as u64,
        }
    }

    // At an item of what has no parts.
    pub fn at_item(reason: Reason, item: u64) -> Refusal
        ensures { result ≡ at_item (number_of reason) item }
    {
        Refusal {
            number: reason.number(),
            part: 0,
            item,
        }
    }

    // At no place.
    pub fn nowhere(reason: Reason) -> Refusal
        ensures { result ≡ nowhere (number_of reason) }
    {
        Refusal::at_item(reason, 0)
    }
}
