// The entries of the two slot tables: refusal 13.
#![tactic(auto)]

ghost use Rattle.std.specs.Prelude.{◌≡◌, true, ◌*◌, ◌<◌};
ghost use Rattle.plan_record.specs.Form.{plan_form};
ghost use Rattle.words.specs.Found.{item_of, lowest_of};
ghost use Rattle.plan_entries.specs.TableEntries.{thirteen_right, bad_entry};

use plan_record::bodies::{Part, first_body, parts_of};
use words::found::{Place, first_not};

// Whether entry i, the enables' from the number of slots on, is a position. Between the two tables' entries stand the inversions and the zeros of the
// first.
fn entry_right(part: &Part, i: usize) -> bool
    requires { i < 64 * part.now.body.lanes }
    ensures { result ≡ thirteen_right part.now.d.now part.now.p i }
{
    let slots = 32 * part.body.lanes;
    if i < slots {
        return (part.table_word(i) as usize) < slots;
    }
    (part.table_word(i + 2 * part.body.lanes) as usize) < slots
}

// The first entry of a part that is not.
fn bad_entry(part: &Part) -> Option<usize>
    ensures { result ≡ item_of (bad_entry part.now.d.now part.now.p) }
{
    first_not(64 * part.body.lanes, |i| entry_right(part, i))
}

// Refusal 13.
pub fn refusal13(d: &[u8]) -> Option<Place>
    requires { plan_form d.now ≡ true }
    ensures { result ≡ lowest_of (Rattle.plan_entries.specs.TableEntries.refusal13 d.now) }
{
    let mut at = first_body(d);
    for p in 0..parts_of(d) {
        let part = Part::at(d, p, at);
        if let Some(item) = bad_entry(&part) {
            return Some(Place { part: p, item });
        }
        at = part.body.end;
    }
    None
}
