// Captured words: document 01, "A write-out location w captures positions 32w..32w+31".
ghost use Rattle.std.specs.Prelude.{◌≡◌, ◌<◌, length, drop};
ghost use Rattle.std.proofs.lemmas.List.Edits.{sets};
ghost use Rattle.run_machine.specs.Part.{normal_at};
ghost use Rattle.run_machine.specs.Turn.{captured};
ghost use Rattle.run_machine.specs.Room.{block_room, captured_from};
ghost use Rattle.run_turns.specs.Capture.{captured_word};

use crate::room::CAPTURED;
use run_form::part::PartInForm;

// Captured word l after stage k.
fn capture_word(part: &PartInForm, k: usize, room: &[u32], l: usize) -> u32
    requires { (length room.now ≡ block_room) × (l < normal_at part.now.part.script.words.now part.now.part.at) }
    ensures { result ≡ captured_word part.now.part.script.lanes part.now.part.script.words.now part.now.part.at k room.now (drop captured_from room.now) l }
{
    let place = part.part.location(l);
    if place.stage as usize == k {
        room[place.word as usize]
    } else {
        room[CAPTURED + l]
    }
}

// The captured words after stage k.
pub fn capture(part: &PartInForm, k: usize, room: &mut [u32])
    requires { length room.old ≡ block_room }
    ensures { room.new ≡ sets room.old captured_from (captured part.now.part.script.lanes part.now.part.script.words.now part.now.part.at k room.old (drop captured_from room.old)) }
{
    for l in 0..part.normal() {
        room[CAPTURED + l] = capture_word(part, k, room, l);
    }
}
