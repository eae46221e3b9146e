// The unplaced list: the kinds of which fewer distinct instances are placed than they have, each once, in kind order.
// Both placers and the checker go by the same count.

#![tactic(auto)]

ghost use Rattle.std.specs.Prelude.{◌≡◌, true, false, ◌≤◌, ◌<◌, length, get_or, set};
ghost use Rattle.domain.specs.Bounds.{most_kinds, most_lines};
ghost use Rattle.plan_unplaced.specs.Short.{distinct_placed, is_short};
ghost use Rattle.plan_unplaced.specs.Left.{push_if};
ghost use Rattle.plan_unplaced.specs.Marks.{mark_of, fresh_of, no_marks, Marked, Others, Beside, Adds};

mod in_file; // in_file.rt: the list of an order in a load file

pub use in_file::{left_in, unplaced_list};
use sheet::Line;

// The first `count` ids.
// Stays: a count beside the ids, as they are handed out by value and no heap is used.
#[derive(Clone, Copy)]
pub struct Left {
    pub count: usize,
    pub ids: [u32; domain::MOST_KINDS],
}

// A mark for each instance that can be in range, and a spare one.
const MARKS: usize = domain::MOST_LINES + 1;

const SPARE: usize = domain::MOST_LINES;

// So many lines are looked at together before each is.
const BLOCK: usize = 32;

// Sets the mark of a line, its instance's where it places this kind in range: 1 where it was not set before. Any other
// line's is the spare one, which is set and stays so.
fn mark(seen: &mut [bool; MARKS], same: bool, instance: u32, quantity: u32) -> usize
    requires { (quantity ≤ most_lines) × (get_or seen.old most_lines false ≡ true) }
    ensures { (result ≡ fresh_of (get_or seen.old (mark_of same instance quantity) false)) × (result ≤ 1) ×
        (seen.new ≡ set seen.old (mark_of same instance quantity) true) }
{
    if same & (instance < quantity) {
        let at = instance as usize;
        let r = usize::from(!seen[at]);
        seen[at] = true;
        return r;
    }
    0
}

// No mark but the spare one.
fn no_marks() -> [bool; MARKS]
    ensures { result ≡ no_marks }
{
    let mut seen = [false; MARKS];
    seen[SPARE] = true;
    seen
}

// Whether one of the ids from `from` up to `to` is this one: no branch, and ids side by side, so that many are looked at together.
fn some_named(ids: &[u32; domain::MOST_LINES], from: usize, to: usize, id: u32) -> bool
    requires { (from ≤ to) × (to ≤ most_lines) }
    ensures { result ≡ false → Others ids.now id from to }
{
    let mut named = false;
    for j in from..to {
        named = named | (ids[j] == id);
    }
    named
}

// The end of the block that begins at j, of n in all.
fn block_end(j: usize, n: usize) -> usize
    requires { j < n }
    ensures { (j < result) × (result ≤ n) }
{
    j + BLOCK.min(n - j)
}

// Sets the marks of the lines from `from` up to `to`: how many were not set before.
fn mark_lines(
    seen: &mut [bool; MARKS],
    lines: &[Line],
    from: usize,
    to: usize,
    id: u32,
    quantity: u32,
) -> usize
    requires { (from ≤ to) × (to ≤ length lines.now) × (quantity ≤ most_lines) × Marked lines.now from id quantity seen.old }
    ensures { Adds lines.now from to id quantity result seen.new }
{
    let mut count = 0;
    for j in from..to {
        let l = lines[j];
        count += mark(seen, l.id == id, l.instance, quantity);
    }
    count
}

// How many distinct instances of a kind, in range, the first n lines place, whose ids stand beside them. Once all are placed, no line adds one;
// lines of other kinds are passed over a block at a time.
fn distinct_placed(
    lines: &[Line],
    ids: &[u32; domain::MOST_LINES],
    n: usize,
    id: u32,
    quantity: u32,
) -> usize
    requires { (n ≤ most_lines) × (n ≤ length lines.now) × (quantity ≤ most_lines) × Beside lines.now n ids.now }
    ensures { result ≡ distinct_placed lines.now n id quantity }
{
    let most = quantity as usize;
    let mut seen = no_marks();
    let mut count = 0;
    let mut j = 0;
    // Stays: a turn takes a block of lines, and the last may come before the lines end.
    // Stays: it goes on by a block at a time and stops early; a for with a step and a break is no plainer.
    while (j < n) & (count < most) {
        let to = block_end(j, n);
        if some_named(ids, j, to, id) {
            count += mark_lines(&mut seen, lines, j, to, id, quantity);
        }
        j = to;
    }
    count
}

// Whether fewer are placed than there are. More than there can be lines are never all placed.
fn is_short(
    lines: &[Line],
    ids: &[u32; domain::MOST_LINES],
    n: usize,
    id: u32,
    quantity: u32,
) -> bool
    requires { (n ≤ most_lines) × (n ≤ length lines.now) × Beside lines.now n ids.now }
    ensures { result ≡ is_short lines.now n id quantity }
{
    if quantity as usize > domain::MOST_LINES {
        return true;
    }
    distinct_placed(lines, ids, n, id, quantity) < quantity as usize
}

// The list with one id more, where the test holds.
fn push_if(left: Left, short: bool, id: u32) -> Left
    requires { left.count < most_kinds }
    ensures { result ≡ push_if short id left }
{
    if short {
        let mut l = left;
        let n = l.count;
        l.ids[n] = id;
        l.count = n + 1;
        return l;
    }
    left
}

// No id.
const NO_LEFT: Left = Left {
    count: 0,
    ids: [0; domain::MOST_KINDS],
};
