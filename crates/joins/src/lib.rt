// Read sets joined: document 02, 11/13.
#![tactic(auto)]

pub mod merging;

ghost use Rattle.std.specs.Prelude.{◌≡◌, ◌&&◌, leb, length};
ghost use Rattle.words.specs.Answer.{result_of};
ghost use Rattle.joins_sets.specs.Join.{set_refusal, joining, join_after};
ghost use Rattle.joins.specs.Merge.{pairs_count, tested_of, fits_of, FineSets};

use merging::{count_words, write_pairs};
use words::refusals::{Reason, Refusal};

// The most words of a set.
const SET_WORDS: usize = 16384;

// 1, then 2.
fn test_set(set: &[u32]) -> Result<(), Refusal>
    ensures { result ≡ tested_of (set_refusal set.now) }
{
    if SET_WORDS < set.len() {
        return Err(Refusal::nowhere(Reason::ManyPairs));
    }
    match reads_section::check_form(set) {
        Some(i) => Err(Refusal::at_item(Reason::PairForm, i as u64)),
        None => Ok(()),
    }
}

// Whether any join of so many words of both sets is written: no join is longer than both sets.
fn is_roomy(words: usize, room: usize) -> bool
    ensures { result ≡ (leb words 16384 && leb words room) }
{
    words <= SET_WORDS && words <= room
}

// 1, then 14, of the join of two sets in form. Its words are counted only where it could be refused.
fn test_room(a: &[u32], b: &[u32], room: usize) -> Result<(), Refusal>
    requires { FineSets a.now b.now }
    ensures { result ≡ fits_of (joining a.now b.now room) }
{
    if is_roomy(a.len() + b.len(), room) {
        return Ok(());
    }
    let words = count_words(a, b);
    if SET_WORDS < words {
        return Err(Refusal::nowhere(Reason::ManyPairs));
    }
    if room < words {
        return Err(Refusal::nowhere(Reason::ResultShort));
    }
    Ok(())
}

// The join of two read sets, from the start of `out`: the number of pairs that were written, or the refusal.
pub fn join_sets(a: &[u32], b: &[u32], out: &mut [u32]) -> Result<usize, Refusal>
    ensures value { result ≡ result_of pairs_count (joining a.now b.now (length out.old)) }
    ensures out_after { out.new ≡ join_after (joining a.now b.now (length out.old)) out.old }
{
    test_set(a)?;
    test_set(b)?;
    test_room(a, b, out.len())?;
    Ok(write_pairs(a, b, out) / 2)
}
