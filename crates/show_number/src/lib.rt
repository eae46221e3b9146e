// A word as a number: how the planner reads the number of boxes to consider.

#![tactic(auto)]

ghost use Rattle.std.specs.Prelude.{◌≡◌};
ghost use Rattle.show_number.specs.Number.{number_of};

// A number over this counts as this: no order has as many boxes.
const MOST: u64 = 1_000_000;

// What a word says as a number, and none where it is no number.
pub fn number_of(word: &[u8]) -> Option<u64>
    ensures { result ≡ number_of word.now }
{
    if word.is_empty() {
        return None;
    }
    let mut n = 0;
    for &letter in word {
        if !letter.is_ascii_digit() {
            return None;
        }
        n = (n * 10 + u64::from(letter - b'0')).min(MOST);
    }
    Some(n)
}
