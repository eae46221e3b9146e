// An answer of the boundary in one word: the refusal number times 2^32 plus a count. RULES: Boundary

#![tactic(auto)]

ghost use Rattle.std.specs.Prelude.{◌≡◌};
ghost use Rattle.answer_word.specs.Answer.{answer_of};

// An answer is a refusal number times this, plus a count below it.
pub const UNIT: u64 = 4294967296;

// A refusal number and a count in one word.
pub fn word_of(refused: u32, count: u32) -> u64
    ensures { result ≡ answer_of refused count }
{
    (refused as u64) * UNIT + count as u64
}
