// The words of a batch of the monthly report, and whether they are one. Document 02, 9/13.
#![tactic(auto)]

ghost use Rattle.std.specs.Prelude.{◌≡◌, ◌+◌, ◌*◌, ◌≤◌, ◌&&◌, leb, eqb};
ghost use Rattle.report.specs.Batch.{batch_at, refused_below, most_parts, edition_right, totals_right, batch_form};

use words::edition::{Edition, SmallEdition};

// The words of a batch; the most parts; from where on the refused ones are counted, number by number, and how many numbers there are.
pub const BATCH_WORDS: usize = 48;

pub const MOST_PARTS: u64 = 100_000;

pub const REFUSALS: usize = 8;

pub const NUMBERS: usize = 40;

// A word of a batch; one that is not there reads 0.
pub fn word(batch: &[u64], i: usize) -> u64
    ensures { result ≡ batch_at batch.now i }
{
    batch.get(i).copied().unwrap_or(0)
}

// Whether the parts that were fed are the good and the refused ones. No sum is taken that could be too long for a word.
fn is_counted(batch: &[u64]) -> bool
    ensures { result ≡ eqb (batch_at batch.now 0) (batch_at batch.now 1 + refused_below batch.now 40) }
{
    let fed = word(batch, 0);
    let parts = word(batch, 1);
    if fed < parts {
        return false;
    }
    let mut left = fed - parts;
    for k in 0..NUMBERS {
        let count = word(batch, REFUSALS + k);
        if left < count {
            return false;
        }
        left -= count;
    }
    left == 0
}

// Whether word 7 is an edition's lanes, or 0 before the first part.
#[tactic(auto, unfolding(words::specs::Edition::known))]
fn is_named(batch: &[u64]) -> bool
    ensures { result ≡ edition_right batch.now }
{
    let lanes = word(batch, 7);
    if word(batch, 0) == 0 {
        return lanes == 0;
    }
    lanes == Edition::LANES as u64 || lanes == SmallEdition::LANES as u64
}

// Whether no total is more than so many good parts can have.
fn are_totals_right(batch: &[u64]) -> bool
    requires { (batch_at batch.now 7 ≤ 256) × (batch_at batch.now 1 ≤ 100000) }
    ensures { result ≡ totals_right (batch_at batch.now 7 * batch_at batch.now 1) batch.now }
{
    let parts = word(batch, 1);
    let most = word(batch, 7) * parts;
    word(batch, 2) <= 32 * most
        && word(batch, 3) <= most
        && word(batch, 4) <= 32 * parts
        && word(batch, 5) <= 32 * most
        && word(batch, 6) <= 5205 * most
}

// Whether the parts that were fed are not too many, those that were counted, and of an edition.
fn are_parts_right(batch: &[u64]) -> bool
    ensures { result ≡ (leb (batch_at batch.now 0) most_parts && eqb (batch_at batch.now 0) (batch_at batch.now 1 + refused_below batch.now 40) && edition_right batch.now) }
{
    word(batch, 0) <= MOST_PARTS && is_counted(batch) && is_named(batch)
}

// Whether the words are a batch's.
pub fn is_batch(batch: &[u64]) -> bool
    ensures { result ≡ batch_form batch.now }
{
    are_parts_right(batch) && are_totals_right(batch)
}
