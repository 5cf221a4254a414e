// The listing program's work: records read, lanes printed. Document 01, "Listing program".
#![tactic(auto)]

mod answer;
mod lines;

ghost use Rattle.std.specs.Prelude.{◌≡◌, ◌≤◌, ◌<◌, length, take, replicate};
ghost use Rattle.std.proofs.lemmas.List.Edits.{sets};
ghost use Rattle.words.specs.Answer.{result_of};
ghost use Rattle.reads.specs.ReadSet.{pairs_of};
ghost use Rattle.reads.specs.SetAnswer.{read_set, set_fitted, result_after, set_room_after};
ghost use Rattle.listing_records.specs.Records.{records};
ghost use Rattle.listing.specs.ListingAnswer.{answered, answer_to, section_after, answer_text};
ghost use Rattle.listing.specs.Listing.{listing, listed, text_after};

use answer::{Unlisted, put_answer};
use lines::Section;
use listing_records::{POSITIONS, SET_WORDS, read_set_of};
use text::Writer;
use words::clear::clear;
use words::edition::{Edition, is_edition};
use words::refusals::{Reason, Refusal};

// The first bytes of records, which alone matter: the positions, the end, and one byte more.
pub const RECORD_BYTES: usize = 5 * POSITIONS + 2;

// No text is longer.
pub const TEXT_BYTES: usize = 237578;

// The words of a read section of 32 rounds, the most that there are, in the full edition.
const SECTION_WORDS: usize = 2 * Edition::LANES * 32;

// A row of 32 entries for each lane of it.
const LANE_ROWS: usize = 32 * Edition::LANES;

// The words of working room that the rounds of a read set ask for.
const ROOM_WORDS: usize = 16384;

// The rounds of a read set, and the read section that they fill. What keys and scratch hold afterwards is left open.
fn rounds_of(
    set: &[u32],
    section: &mut [u32],
    keys: &mut [u64],
    scratch: &mut [u64],
    lanes: usize,
) -> Result<u32, Unlisted>
    requires { (length section.old ≡ 16384) × (length keys.old ≡ 8192) × (length scratch.old ≡ 8192) × (0 < lanes) × (lanes ≤ 256) }
    ensures value { result ≡ answered (set_fitted lanes 16384 (read_set lanes (pairs_of set.now))) }
    ensures section_after { section.new ≡ result_after (set_fitted lanes 16384 (read_set lanes (pairs_of set.now))) section.old }
{
    let mut table = [0u32; LANE_ROWS];
    let rows = 32 * lanes;
    match rounds::rounds_over(set, &mut table[..rows], section, keys, scratch, lanes) {
        Ok(placed) => Ok(placed.rounds),
        Err(refusal) => Err(Unlisted::Set(refusal)),
    }
}

// The answer to records, with the read section of its rounds. The room holds the read set, and is clear afterwards; what keys and scratch then
// hold is left open.
fn answer_to(
    s: &[u8],
    room: &mut [u32],
    section: &mut [u32],
    keys: &mut [u64],
    scratch: &mut [u64],
    lanes: usize,
) -> Result<u32, Unlisted>
    requires { (16384 ≤ length room.old) × (length section.old ≡ 16384) × (length keys.old ≡ 8192) × (length scratch.old ≡ 8192) × (0 < lanes) × (lanes ≤ 256) }
    ensures value { result ≡ answer_to lanes (records s.now) }
    ensures room_after { room.new ≡ replicate (length room.old) 0 }
    ensures section_after { section.new ≡ section_after lanes (records s.now) section.old }
{
    match read_set_of(s, &mut room[..SET_WORDS], keys, scratch) {
        Ok(n) => {
            let answer = rounds_of(&room[..n], section, keys, scratch, lanes);
            clear(room);
            answer
        }
        Err(byte) => {
            clear(room);
            Err(Unlisted::Record(byte))
        }
    }
}

// How long an answer's text is: it is written past the end of no bytes.
fn text_length(answer: Result<u32, Unlisted>, section: &Section) -> usize
    ensures { result ≡ length (answer_text section.now.lanes answer section.now.words.now) }
{
    let mut nothing = [0u8; 0];
    let mut out = Writer::new(&mut nothing);
    put_answer(&mut out, answer, section);
    out.at
}

// An answer's text, from the start of `out` as far as it goes.
fn put_text(out: &mut [u8], answer: Result<u32, Unlisted>, section: &Section)
    ensures { out.new ≡ sets out.old 0 (answer_text section.now.lanes answer section.now.words.now) }
{
    put_answer(&mut Writer::new(out), answer, section);
}

// What the listing program prints for the bytes of its standard input, with the lanes of an edition: the text's length, or the refusal.
pub fn list(
    records: &[u8],
    room: &mut [u32],
    out: &mut [u8],
    edition: u32,
) -> Result<usize, Refusal>
    ensures value { result ≡ result_of length (listed edition records.now (length out.old) (length room.old)) }
    ensures room_after { room.new ≡ set_room_after room.old }
    ensures out_after { out.new ≡ text_after (listed edition records.now (length out.old) (length room.old)) out.old }
{
    if room.len() < ROOM_WORDS {
        return Err(Refusal::nowhere(Reason::RoomShort));
    }
    if !is_edition(edition) {
        clear(room);
        return Err(Refusal::nowhere(Reason::NoEdition));
    }
    let lanes = edition as usize;
    let mut words = [0u32; SECTION_WORDS];
    let mut keys = [0u64; POSITIONS];
    let mut scratch = [0u64; POSITIONS];
    let answer = answer_to(records, room, &mut words, &mut keys, &mut scratch, lanes);
    let section = Section {
        words: &words,
        lanes,
    };
    let n = text_length(answer, &section);
    if out.len() < n {
        return Err(Refusal::nowhere(Reason::ResultShort));
    }
    put_text(out, answer, &section);
    Ok(n)
}

// The same for a program, which is of the full edition and whose lent bytes hold every text: the answer is the text's length, and a part of that
// length is there to lend.
pub fn text_of(records: &[u8], out: &mut [u8]) -> usize
    requires { 237578 ≤ length out.old }
    ensures upper_bound { (result ≤ length out.new) × (result ≡ length (take result out.new)) }
    ensures value { result ≡ length (listing 256 records.now) }
    ensures out_after { out.new ≡ sets out.old 0 (listing 256 records.now) }
{
    let mut room = [0u32; ROOM_WORDS];
    list(records, &mut room, out, Edition::LANES as u32).unwrap()
}
