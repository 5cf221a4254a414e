// Looks for the lowest item that a test refuses, in a stage and in a part. Most slots of a plan are empty, and are passed by eight.
ghost use Rattle.std.specs.Prelude.{◌≡◌, Bool, true, ℕ, ◌+◌, ◌-◌, ◌*◌, ◌≤◌, ◌<◌};
ghost use Rattle.std.specs.declared.option.Option as code;
ghost use Rattle.words.specs.Found.{item_of};
ghost use Rattle.words.specs.Tests.{all_below, first_from};
ghost use Rattle.plan_slots.specs.Slots.{over_items};
ghost use Rattle.plan_slot_tests.specs.EmptyRuns.{empty_from, eighth_empty, EightPass};

use plan_record::bodies::{Body, Part};
use words::units::EMPTY_PIN;

// Whether eight slots from index q on are empty: each bit of the empty pin is 1.
fn eight_empty(part: &Part, s: usize, q: usize) -> bool
    requires { (s < part.now.body.stages) × (1 ≤ q) × (q + 7 < 64 * part.now.body.lanes) }
    ensures { result ≡ all_below (empty_from part.now.d.now part.now.p s q) 8 }
{
    let mut all = EMPTY_PIN;
    for k in 0..8 {
        all = all & part.slot(s, q + k).0;
    }
    all == EMPTY_PIN
}

// The same, asked of each eighth index.
pub fn eighth_empty(part: &Part, s: usize, q: usize) -> bool
    requires { (s < part.now.body.stages) × (1 ≤ q) × (q < 64 * part.now.body.lanes) }
    ensures { result ≡ eighth_empty part.now.d.now part.now.p s q }
{
    q % 8 == 0 && eight_empty(part, s, q)
}

// Item x of stage s.
pub fn item_at(body: Body, s: usize, x: usize) -> usize
    requires { (body.lanes ≤ 256) × (s ≤ 255) × (x < 8192) }
    ensures { result ≡ 32 * body.lanes * s + x }
{
    32 * body.lanes * s + x
}

// The lowest item of stage s, from item x on, that a test doesn't pass. Where `empty` answers true, it passes that item and the seven after it, which
// are not asked for.
pub fn first_wrong<E: Fn(usize) -> bool, R: Fn(usize) -> bool>(
    body: Body,
    s: usize,
    x: usize,
    empty: E,
    right: R,
) -> Option<usize>
    requires fits { (body.lanes ≤ 256) × (s ≤ 255) × (x ≤ 32 * body.lanes) }
    requires may_ask { (j : ℕ) → x ≤ j → j < 32 * body.lanes → E.pre empty j × R.pre right j }
    ensures { (f : ℕ → ℕ → Bool) (g : ℕ → Bool) → ((j : ℕ) → x ≤ j → j < 32 * body.lanes → (b : Bool) → R.post right j b → b ≡ f s j)
        → ((j : ℕ) → x ≤ j → j < 32 * body.lanes → (b : Bool) → E.post empty j b → b ≡ g j)
        → ((j : ℕ) → x ≤ j → g j ≡ true → EightPass f s j)
        → result ≡ item_of (first_from (over_items body.lanes f) (32 * body.lanes - x) (32 * body.lanes * s + x)) }
{
    let slots = 32 * body.lanes;
    let mut j = x;
    while j < slots {
        if empty(j) {
            j += 8;
        } else if right(j) {
            j += 1;
        } else {
            return Some(item_at(body, s, j));
        }
    }
    None
}

// The lowest item of a part that is refused, given the lowest of each stage.
pub fn first_of_stages<F: Fn(usize) -> Option<usize>>(stages: usize, bad: F) -> Option<usize>
    requires { (s : ℕ) → s < stages → F.pre bad s }
    ensures { (f : ℕ → Bool) (n : ℕ) → ((s : ℕ) → s < stages → (r : code.Option ℕ) → F.post bad s r → r ≡ item_of (first_from f (32 * n) (32 * n * s)))
        → result ≡ item_of (first_from f (32 * n * stages - 32 * n * 0) (32 * n * 0)) }
{
    for s in 0..stages {
        if let Some(i) = bad(s) {
            return Some(i);
        }
    }
    None
}
