// What an exported function hands out of an answer: the number that it returns, and two more through what is lent for them.
ghost use Rattle.std.specs.Prelude.{◌≡◌, [], ◌∷◌};
ghost use Rattle.words.specs.Answer.{refusal_numbers};

use crate::refusals::Refusal;

// A good answer of one number.
pub fn hand_good(number: u64, first: &mut u64, second: &mut u64) -> u32
    ensures { (result ∷ first.new ∷ second.new ∷ []) ≡ 0 ∷ number ∷ 0 ∷ [] }
{
    *first = number;
    *second = 0;
    0
}

// A refusal: its number, part and item.
pub fn hand_refusal(refusal: Refusal, first: &mut u64, second: &mut u64) -> u32
    ensures { (result ∷ first.new ∷ second.new ∷ []) ≡ refusal_numbers refusal }
{
    *first = refusal.part as u64;
    *second = refusal.item;
    refusal.number
}
