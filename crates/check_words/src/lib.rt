// What the parts of the checker share: the findings and how they are written into lent cells, and the box of a line.

#![tactic(auto)]

ghost use Rattle.std.specs.Prelude.{◌≡◌, ◌+◌, ◌<◌, length};
ghost use Rattle.check_words.specs.Words.{words_of, only_if};
ghost use Rattle.check_words.specs.Wrote.{Wrote, Given, most_words};
ghost use Rattle.check_words.specs.Boxes.{box_of};

use check_pair::Extent;
use measures::Kind;
use sheet::Line;

// Half a square of lines: as many as there are pairs, and some more.
const PAIRS: usize = domain::MOST_LINES * domain::MOST_LINES / 2;

// Words of a finding.
pub const WORDS: usize = 5;

// No finding begins past so many cells: five words for each that there can be.
const MOST_WORDS: usize = WORDS
    * (6 * domain::MOST_LINES + PAIRS + domain::MOST_KINDS + domain::MOST_UNPLACED + 1);

// What can be found. Lines are told by their number from 0 on, kinds and boxes by their id. RULES: Findings: words
#[derive(Clone, Copy)]
pub enum Finding {
    Unknown {
        line: usize,
        id: u32,
    },
    OutOfRange {
        line: usize,
        id: u32,
        instance: u32,
        quantity: u32,
    },
    Repeated {
        line: usize,
        id: u32,
        instance: u32,
    },
    Turned {
        line: usize,
        id: u32,
        orientation: u32,
    },
    Elsewhere {
        line: usize,
        bin: u32,
    },
    Outside {
        line: usize,
        id: u32,
    },
    Overlap {
        first: usize,
        second: usize,
    },
    TooClose {
        first: usize,
        second: usize,
        distance: f64,
        asked: f64,
    },
    Overweight {
        mass: f64,
        limit: f64,
    },
    Missing {
        id: u32,
    },
    WronglyListed {
        id: u32,
    },
}

impl Finding {
    // Its number, and what it tells; a word that is not needed is 0.
    fn words(self) -> [u64; 5]
        ensures { result ≡ words_of self }
    {
        match self {
            Finding::Unknown { line, id } => [1, line as u64, u64::from(id), 0, 0],
            Finding::OutOfRange {
                line,
                id,
                instance,
                quantity,
            } => [
                2,
                line as u64,
                u64::from(id),
                u64::from(instance),
                u64::from(quantity),
            ],
            Finding::Repeated { line, id, instance } => {
                [3, line as u64, u64::from(id), u64::from(instance), 0]
            }
            Finding::Turned {
                line,
                id,
                orientation,
            } => { [4, line as u64, u64::from(id), u64::from(orientation), 0] }
            Finding::Elsewhere { line, bin } => [5, line as u64, u64::from(bin), 0, 0],
            Finding::Outside { line, id } => [6, line as u64, u64::from(id), 0, 0],
            Finding::Overlap { first, second } => [7, first as u64, second as u64, 0, 0],
            Finding::TooClose {
                first,
                second,
                distance,
                asked,
            } => [
                8,
                first as u64,
                second as u64,
                floats::bits_of(distance),
                floats::bits_of(asked),
            ],
            Finding::Overweight { mass, limit } => {
                [9, floats::bits_of(mass), floats::bits_of(limit), 0, 0]
            }
            Finding::Missing { id } => [10, u64::from(id), 0, 0, 0],
            Finding::WronglyListed { id } => [11, u64::from(id), 0, 0, 0],
        }
    }

    // Its words where the test holds.
    pub fn write_if(self, out: &mut [u64], at: usize, on: bool) -> usize
        ensures { Given out.old at (only_if on (words_of self)) result out.new }
    {
        put_if(out, at, on, self.words())
    }
}

// Five words, as far as there are cells: what is past the last is not stored, so that the same run counts and writes.
fn put(out: &mut [u64], at: usize, words: [u64; 5]) -> usize
    requires within { at < most_words }
    requires five { length words ≡ 5 }
    ensures { Wrote out.old at words result out.new }
{
    if at + WORDS <= out.len() {
        out[at..at + WORDS].copy_from_slice(&words);
    } else if at < out.len() {
        let n = out.len() - at;
        out[at..].copy_from_slice(&words[..n]);
    }
    at + WORDS
}

// Five words where the test holds; none begins past the most cells that there can be.
pub fn put_if(out: &mut [u64], at: usize, on: bool, words: [u64; 5]) -> usize
    ensures { Given out.old at (only_if on words) result out.new }
{
    if MOST_WORDS <= at {
        return at;
    }
    if on {
        return put(out, at, words);
    }
    at
}

// Where a line of this kind puts its box.
pub fn box_of(l: Line, k: Kind) -> Extent
    ensures { result ≡ box_of l k }
{
    let at = l.at;
    let size = measures::dimensions_for_orientation(k, l.orientation);
    let min = [at[0], at[1], at[2]];
    let max = [at[0] + size[0], at[1] + size[1], at[2] + size[2]];
    Extent { min, max }
}
