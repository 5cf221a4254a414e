// The records of standard input, one after the other: document 01, "Listing program".
#![tactic(auto)]

ghost use Rattle.std.specs.Prelude.{◌≡◌, ◌+◌, ◌^◌, ◌≤◌, ◌<◌, length};
ghost use Rattle.std.proofs.lemmas.List.Edits.{sets};
ghost use Rattle.listing_records.specs.Records.{number_at, position_at, record_at, records_from, records};
ghost use Rattle.listing_records.specs.RecordsRead.{read_of, set_of, set_after};

use words::units::{AskedBit, StatePosition};

// The most positions that records may have.
pub const POSITIONS: usize = 8192;

// The words of their read set, a pair to each position at most.
pub const SET_WORDS: usize = 2 * POSITIONS;

// The four-byte little-endian number at byte i.
fn number_at(s: &[u8], i: usize) -> u32
    requires { i + 4 ≤ length s.now }
    ensures { result ≡ number_at s.now i }
{
    u32::from_le_bytes([s[i], s[i + 1], s[i + 2], s[i + 3]])
}

// The position of the record at byte `at`, unstaged (0) or staged (1), where its body is not cut.
#[tactic(auto, unfolding(crate::specs::Records::position_at))]
fn position_at(s: &[u8], at: usize, staged: u32) -> Result<Option<AskedBit>, usize>
    requires { (at < 2 ^ 62) × (staged < 2) }
    ensures { result ≡ position_at s.now at staged }
{
    if s.len() < at + 5 {
        return Err(at);
    }
    let position = StatePosition(number_at(s, at + 1));
    Ok(Some(position.asked(staged)))
}

// What stands at byte `at`: a position, as the bit that it asks for; the end; or a record that is refused, by the byte that it is told at.
#[tactic(auto, unfolding(crate::specs::Records::record_at, crate::specs::Records::kind_at, crate::specs::Records::end_record_at))]
fn record_at(s: &[u8], at: usize) -> Result<Option<AskedBit>, usize>
    requires { at < 2 ^ 62 }
    ensures { result ≡ record_at s.now at }
{
    if s.len() <= at {
        return Err(at);
    }
    match s[at] {
        0 if at + 1 < s.len() => Err(at + 1),
        0 => Ok(None),
        1 => position_at(s, at, 0),
        2 => position_at(s, at, 1),
        _ => Err(at),
    }
}

// All records: the bits they ask for are put into `keys`, which has a place for each position that may come. How many there are, or the byte of the
// first bad record.
fn read_records(s: &[u8], keys: &mut [u64]) -> Result<usize, usize>
    requires { length keys.old < 2 ^ 32 }
    ensures value { result ≡ read_of (records_from (length keys.old) s.now 0) }
    ensures keys_after { keys.new ≡ sets keys.old 0 (records_from (length keys.old) s.now 0).keys }
{
    let mut n = 0;
    let mut at = 0;
    while let Some(asked) = record_at(s, at)? {
        if n == keys.len() {
            return Err(at);
        }
        keys[n] = asked.0;
        n += 1;
        at += 5;
    }
    Ok(n)
}

// The read set that the records ask for, from the start of `set`: how many words it has, or the byte of the first bad record. What keys and scratch
// hold afterwards is left open.
pub fn read_set_of(
    s: &[u8],
    set: &mut [u32],
    keys: &mut [u64],
    scratch: &mut [u64],
) -> Result<usize, usize>
    requires { (length set.old ≡ 16384) × (length keys.old ≡ 8192) × (length scratch.old ≡ 8192) }
    ensures value { result ≡ set_of (records s.now) }
    ensures set_after { set.new ≡ set_after (records s.now) set.old }
{
    let n = read_records(s, keys)?;
    Ok(reads_asked::read_set(&mut keys[..n], scratch, set))
}
