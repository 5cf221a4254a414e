// From the answer of a step to its refusal.
ghost use Rattle.std.specs.Prelude.{◌≡◌, ◌^◌, ◌<◌};
ghost use Rattle.std.proofs.Math.Option.{none};
ghost use Rattle.words.specs.Answer.{at};
ghost use Rattle.plan_refusals.specs.Refusals.{or_else, unless};
ghost use Rattle.plan_refusals.specs.RefusalGroups.{Few};
ghost use Rattle.plan_checks.specs.Verdicts.{verdict_of, lowest_place, list_place, unread_place, unread_number};

use plan_reads::check::Unread;
use words::found::Place;
use words::refusals::{Reason, Refusal};

// Refused at no place where a test fails.
// stays: a number and no `Reason`, here and in `of_lowest`, since both are public and took any number.
pub fn of_test(number: u32, right: bool) -> Result<(), Refusal>
    ensures { result ≡ verdict_of (unless number right none) }
{
    if right {
        return Ok(());
    }
    Err(Refusal {
        number,
        part: 0,
        item: 0,
    })
}

pub fn of_gates(list: Option<usize>) -> Result<(), Refusal>
    ensures { result ≡ verdict_of (or_else 6 (list_place list) none) }
{
    match list {
        None => Ok(()),
        Some(g) => Err(Refusal::at_item(Reason::GateOrder, g as u64)),
    }
}

// Refused at the place that was found.
pub fn of_lowest(number: u32, found: Option<Place>) -> Result<(), Refusal>
    requires { Few (lowest_place found) }
    ensures { result ≡ verdict_of (or_else number (lowest_place found) none) }
{
    match found {
        None => Ok(()),
        Some(place) => Err(Refusal {
            number,
            part: place.part as u32,
            item: place.item as u64,
        }),
    }
}

// Refusals 3, 21, 22 and 4.
pub fn refusal_of(unread: Unread) -> Refusal
    requires { (unread_place unread).part < 2 ^ 32 }
    ensures { result ≡ at (unread_number unread) (unread_place unread) }
{
    let (reason, part, item) = match unread {
        Unread::Nothing(p) => (Reason::NothingToRead, p, 0),
        Unread::Bits(p) => (Reason::ManyBits, p, 0),
        Unread::Wide(p) => (Reason::ManyWide, p, 0),
        Unread::NoRoom(p, word) => (Reason::NoRoomFound, p, word as usize),
    };
    Refusal::at(reason, Place { part, item })
}
