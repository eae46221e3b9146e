// Replays the sample of checks: the findings on a sheet word by word, with room for all of them and for too few.

#![tactic(auto)]

ghost use Rattle.std.specs.Prelude.{◌*◌, ◌≤◌};

use domain::Refusal;
use replay_vectors::{Reader, Tag};

// Words lent: 1,700 slots of five, enough for every sheet of the sample but the crowds.
const WORDS: usize = 8500;

// More findings than a sheet can have: each line's own six and its pairs among them.
const MOST_FOUND: usize = domain::MOST_LINES * domain::MOST_LINES;

// What stands in lent words that no call is to change.
const UNTOUCHED: u64 = 11936128518282651045;

// The words of so many findings.
fn words_of(found: usize) -> usize
    ensures { result ≤ 5 * MOST_FOUND }
{
    if found > MOST_FOUND {
        return 0;
    }
    found * 5
}

// Whether no word was changed. It looks at each, so that many are looked at together.
fn untouched(words: &[u64]) -> bool {
    let mut same = true;
    for word in words {
        same &= *word == UNTOUCHED;
    }
    same
}

// A load file, how many findings are expected, and the bytes of those that the sample lists.
#[derive(Clone, Copy)]
struct Expected<'a> {
    file: &'a [u8],
    found: usize,
    listed: &'a [u8],
}

impl<'a> Expected<'a> {
    // The findings expected of the file come next.
    fn read(file: &'a [u8], from: &mut Reader<'a>) -> Expected<'a> {
        let found = from.size();
        let listed = words_of(from.size());
        Expected {
            file,
            found,
            listed: from.part(listed * 8),
        }
    }

    // Whether the first words are those listed. A word past the words counts as 0.
    fn lists(&self, words: &[u64; WORDS]) -> bool {
        let mut from = Reader::new(self.listed);
        (0..self.listed.len() / 8).all(|i| from.long() == words.get(i).copied().unwrap_or(0))
    }

    // Whether the check with so many words lent finds what is expected and leaves the words past it, or for want of room is refused with the number
    // of findings.
    fn is_answer(&self, room: usize) -> bool {
        let needed = words_of(self.found);
        let mut words = [UNTOUCHED; WORDS];
        let lent = &mut words[..room.min(WORDS)];
        let (same, held) = match check_packing::check_packing(self.file, lent) {
            Ok(found) => (
                needed <= room && found == self.found && self.lists(&words),
                needed,
            ),
            Err(refusal) => (room < needed && refusal == Refusal::Room(self.found), 0),
        };
        same && untouched(&words[held.min(WORDS)..])
    }

    // The same in each room that the check is tried in, and in none of them twice: one where all words are too few, two where none is needed.
    fn is_found(&self) -> bool {
        let [exact, most, short] = replay_vectors::rooms(words_of(self.found), WORDS);
        let enough = exact == most || self.is_answer(exact);
        let few = short == exact || short == most || self.is_answer(short);
        self.is_answer(most) && enough && few
    }
}

// Whether the fill of the load file is the one that comes next.
fn same_fill(file: &[u8], from: &mut Reader) -> bool {
    let (number, fill) = match fill_thousand::fill_of(file) {
        Ok(fill) => (0, fill),
        Err(refusal) => (refusal.number(), 0),
    };
    let refused = from.word() == number;
    let thousandth = from.long() == fill;
    refused && thousandth
}

fn same_check(mut from: Reader) -> bool {
    let file = from.counted();
    if file_read::read_sheet(file).is_err() {
        return false;
    }
    let expected = Expected::read(file, &mut from);
    same_fill(file, &mut from) && from.ends() && expected.is_found()
}

fn one(tag: Tag, body: &[u8]) -> bool {
    match tag {
        Tag::Check => same_check(Reader::new(body)),
        _ => false,
    }
}

fn main(rt: HostRuntime) {
    replay_vectors::replay(&rt, "check", one);
}
