// The findings on a load sheet, over its bytes and columns that were filled from them once: those of the lines and their pairs, then
// those on the mass and the kinds. RULES: Findings: words

#![tactic(auto)]

ghost use Rattle.std.specs.Prelude.{◌≡◌, ◌+◌};
ghost use Rattle.check_list.specs.View.{fair};
ghost use Rattle.check_list.specs.Held.{held, rule_of, kinds_in, LinesRan, Followed};

use check_pair::Extent;
use measures::Container;
use sheet::Counts;

mod block; // block.rt: lines by blocks
mod kind;
mod line;
mod pair;

// No finding on a line or a pair begins past so many cells: five words for each that there can be.
const LINE_WORDS: usize = 5
    * (6 * domain::MOST_LINES + domain::MOST_LINES * domain::MOST_LINES / 2);

// Counts that count for nothing.
const NO_COUNTS: Counts = Counts {
    kinds: 0,
    lines: 0,
    unplaced: 0,
};

// What lines are judged by: how many kinds and lines there are, the container that they are in, and its tolerance.
#[derive(Clone, Copy)]
pub struct Rule {
    pub kinds: usize,
    pub lines: usize,
    pub case: Container,
    pub slack: f64,
}

// The counts, or none where one is over its bound.
fn fair(many: Counts) -> Counts
    ensures { result ≡ fair many }
{
    if sheet::over_count(many) {
        return NO_COUNTS;
    }
    many
}

// The counts that there are columns for.
fn held(counts: Counts, which: &[usize], again: &[bool], boxes: &[Extent]) -> Counts
    ensures { result ≡ held counts which.now again.now boxes.now }
{
    let many = fair(counts);
    let n = many.lines;
    if (which.len() < n) | ((again.len() < n) | (boxes.len() < n)) {
        return NO_COUNTS;
    }
    many
}

fn rule_of(many: Counts, c: Container) -> Rule
    ensures { result ≡ rule_of many c }
{
    Rule {
        kinds: many.kinds,
        lines: many.lines,
        case: c,
        slack: check_pair::tolerance(c.size),
    }
}

// Lists the findings of the lines and then those of their pairs, from the first cell on as far as there are cells, and says how many
// words they are. Lines start at `start` of the bytes; `which` are the places of the kinds that they name, `again` tells the repeated
// ones, `boxes` are their boxes. Counts over their bounds, or of more lines than the columns have, count for
// nothing.
pub fn line_findings(
    out: &mut [u64],
    f: &[u8],
    start: usize,
    counts: Counts,
    c: Container,
    which: &[usize],
    again: &[bool],
    boxes: &[Extent],
) -> usize
    ensures { LinesRan f.now start (held counts which.now again.now boxes.now) c
        which.now again.now boxes.now out.old result out.new }
{
    let rule = rule_of(held(counts, which, again, boxes), c);
    let p = line::put_lines(out, f, start, which, again, boxes, rule);
    pair::put_pairs(out, p, which, boxes, rule)
}

// Lists the finding on the mass, then those of the kinds that are short and not listed as unplaced, from cell `at` on, and says where
// they end.
pub fn kind_findings(
    out: &mut [u64],
    at: usize,
    counts: Counts,
    c: Container,
    mass: f64,
    ids: &[u32; domain::MOST_KINDS],
    short: &[bool; domain::MOST_KINDS],
    listed: &[bool; domain::MOST_KINDS],
) -> usize
    ensures { Followed out.old at ((fair counts).kinds + 1)
        (kinds_in (fair counts).kinds c mass ids.now short.now listed.now) result out.new }
{
    if LINE_WORDS < at {
        return at;
    }
    let many = fair(counts);
    let t = check_pair::tolerance(c.size);
    let q = kind::put_mass(out, at, mass, c.limit, t);
    kind::put_missing(out, q, ids, short, listed, many.kinds)
}
