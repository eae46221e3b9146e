// Whether what a call handed out, in part into lent words, is what a sample expects.

#![tactic(auto)]

ghost use Rattle.std.specs.Prelude.{◌≡◌, ◌*◌, ◌+◌, ◌<◌};
ghost use Rattle.replay_sample.specs.Places.{later, further};
ghost use Rattle.replay_results.specs.Results.{same_numbers, placement_at, line_at, same_line, same_lines, untouched, placed_at, words_of};
ghost use Rattle.replay_results.specs.Results.{same_lists, is_result, is_refused, is_answer};

use domain::Refusal;
use plan_sheet::Packed;
use replay_vectors::Reader;

// Words that a replay lends: those of as many lines as there can be, and two lines more.
pub const WORDS: usize = (domain::MOST_LINES + 2) * plan_sheet::WORDS;

// What stands in lent words that no call is to change.
pub const UNTOUCHED: u64 = 11936128518282651045;

// Whether the next n numbers are the first n of the list, which has 0 past its end. It reads on past a difference, so that what comes next is in its
// place.
#[tactic(auto, unfolding(replay_sample::specs::Places::further, crate::specs::Results::same_numbers))]
pub fn same_numbers(from: &mut Reader, list: &[u32], n: usize) -> bool
    ensures value { result ≡ same_numbers from.old.bytes.now from.old.at list.now n }
    ensures moved { from.new ≡ record from.old { at = further from.old.at 4 n } }
{
    let mut same = true;
    for i in 0..n {
        same &= from.word() == list.get(i).copied().unwrap_or(0);
    }
    same
}

// The next placement as the six words of a line: id, instance, orientation, and the bits of x, y and z.
fn placement(from: &mut Reader) -> [u64; plan_sheet::WORDS]
    ensures value { result ≡ placement_at from.old.bytes.now from.old.at }
    ensures moved { from.new ≡ later from.old 36 }
{
    [
        u64::from(from.word()),
        u64::from(from.word()),
        u64::from(from.word()),
        from.long(),
        from.long(),
        from.long(),
    ]
}

// Line i, of which the words are 0 past their end.
fn line(words: &[u64], i: usize) -> [u64; plan_sheet::WORDS]
    requires { i < 4294967296 }
    ensures { result ≡ line_at words.now (i * 6) }
{
    let k = i * plan_sheet::WORDS;
    let word = |j: usize| words.get(k + j).copied().unwrap_or(0);
    [word(0), word(1), word(2), word(3), word(4), word(5)]
}

// Whether the next placement is line i.
#[tactic(auto, unfolding(crate::specs::Results::same_line))]
fn same_line(from: &mut Reader, words: &[u64], i: usize) -> bool
    requires { i < 4294967296 }
    ensures value { result ≡ same_line from.old.bytes.now from.old.at words.now (i * 6) }
    ensures moved { from.new ≡ later from.old 36 }
{
    placement(from) == line(words, i)
}

// Whether the next n placements are the first n lines.
#[tactic(auto, unfolding(replay_sample::specs::Places::further, crate::specs::Results::same_lines))]
fn same_lines(from: &mut Reader, words: &[u64], n: u32) -> bool
    ensures value { result ≡ same_lines from.old.bytes.now from.old.at words.now n }
    ensures moved { from.new ≡ record from.old { at = further from.old.at 36 n } }
{
    let mut same = true;
    for i in 0..n {
        same &= same_line(from, words, i as usize);
    }
    same
}

// Whether no word from `from` on was changed.
#[tactic(auto, unfolding(crate::specs::Results::untouched))]
fn untouched(words: &[u64], from: usize) -> bool
    ensures { result ≡ untouched from words.now }
{
    words.iter().skip(from).all(|word| *word == UNTOUCHED)
}

// The words of so many lines, or 0 where they are more than there can be.
#[tactic(auto, unfolding(crate::specs::Results::words_of))]
fn words_of(placed: usize) -> usize
    ensures { result ≡ words_of placed }
{
    if placed > domain::MOST_LINES {
        return 0;
    }
    placed * plan_sheet::WORDS
}

// How many boxes the result that comes next places.
fn placed_at(mut from: Reader) -> usize
    ensures { result ≡ placed_at from.entry.bytes.now from.entry.at }
{
    from.skip(12);
    from.size()
}

// How many words the result that comes next needs.
pub fn needed_at(from: Reader) -> usize
    ensures { result ≡ words_of (placed_at from.entry.bytes.now from.entry.at) }
{
    words_of(placed_at(from))
}

// Whether the lines and the unplaced ids of the result that comes next, which ends where the case does, were handed out.
#[tactic(auto, unfolding(crate::specs::Results::same_lists))]
fn same_lists(mut from: Reader, p: &Packed, words: &[u64], placed: u32) -> bool
    requires { placed ≡ p.now.placed }
    ensures { result ≡ same_lists from.entry.bytes.now from.entry.at p.now words.now }
{
    from.skip(16);
    let lines = same_lines(&mut from, words, placed);
    let unplaced = from.size() == p.unplaced;
    let ids = same_numbers(&mut from, &p.ids, p.unplaced);
    lines && unplaced && ids && from.ends()
}

// Whether the result that comes next was handed out, and the words past it are as they were.
#[tactic(auto, unfolding(crate::specs::Results::is_result))]
fn is_result(mut from: Reader, p: &Packed, words: &[u64]) -> bool
    ensures { result ≡ is_result from.entry.bytes.now from.entry.at p.now words.now }
{
    let result = from;
    let considered = u64::from(from.word()) == p.considered;
    let utilization = from.is_float(p.utilization);
    let placed = from.word();
    if placed as usize != p.placed {
        return false;
    }
    let lists = same_lists(result, p, words, placed);
    let rest = untouched(words, words_of(p.placed));
    considered && utilization && lists && rest
}

// Whether the call was refused by this number, and no word was changed.
#[tactic(auto, unfolding(crate::specs::Results::is_refused))]
pub fn is_refused(answer: Result<Packed, Refusal>, number: u32, words: &[u64]) -> bool
    ensures { result ≡ is_refused answer number words.now }
{
    match answer {
        Ok(_) => false,
        Err(refusal) => refusal.number() == number && untouched(words, 0),
    }
}

// Whether the call with so many words lent is answered as the result that comes next asks: it is handed out, or for want of room refused with
// the number of lines.
#[tactic(auto, unfolding(crate::specs::Results::is_answer))]
pub fn is_answer(from: Reader, answer: Result<Packed, Refusal>, words: &[u64], room: usize) -> bool
    ensures { result ≡ is_answer from.entry.bytes.now from.entry.at answer words.now room }
{
    let needed = needed_at(from);
    match answer {
        Ok(packed) => needed <= room && is_result(from, &packed, words),
        Err(refusal) => {
            let told = refusal.needed() == placed_at(from);
            room < needed && told && is_refused(answer, 6, words)
        }
    }
}

// Whether a call is answered as the result that comes next asks, with as many words lent as it needs, with more, and with one less.
pub fn is_answered<F: Fn(&mut [u64]) -> Result<Packed, Refusal>>(from: Reader, call: F) -> bool
    requires { F.IsAlwaysCallable call }
{
    for room in replay_vectors::rooms(needed_at(from), WORDS) {
        let mut words = [UNTOUCHED; WORDS];
        let answer = call(&mut words[..room.min(WORDS)]);
        if !is_answer(from, answer, &words, room) {
            return false;
        }
    }
    true
}

// Whether a call is refused by this number, and changes no word.
pub fn refuses<F: Fn(&mut [u64]) -> Result<Packed, Refusal>>(number: u32, call: F) -> bool
    requires { F.IsAlwaysCallable call }
{
    let mut words = [UNTOUCHED; WORDS];
    let answer = call(&mut words);
    is_refused(answer, number, &words)
}
