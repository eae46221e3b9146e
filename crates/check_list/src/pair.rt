// The findings on pairs of lines: 7 and 8. RULES: Findings: pairs
ghost use Rattle.std.specs.Prelude.{◌≡◌, true, cond, ℕ, ◌+◌, ◌*◌, ◌-◌, ◌/◌, ◌≤◌, ◌<◌, length};
ghost use Rattle.domain.specs.Bounds.{most_lines};
ghost use Rattle.lists.specs.Below.{all_below};
ghost use Rattle.floats.specs.Ops.{none, ◌⊘◌};
ghost use Rattle.check_pair.specs.Pair.{gaps, verdict_of};
ghost use Rattle.check_pair.specs.Close.{close_of, Fair};
ghost use Rattle.check_pair.specs.Shortcut.{some_gap, limit_of};
ghost use Rattle.check_pair.specs.Tolerance.{tolerance_of};
ghost use Rattle.check_words.specs.Boxes.{box_at};
ghost use Rattle.check_words.specs.Words.{only_if};
ghost use Rattle.check_words.specs.Wrote.{Wrote, most_words};
ghost use Rattle.check_list.specs.Finding.{verdict_words};
ghost use Rattle.check_list.specs.View.{pair_found, pairs_found};
ghost use Rattle.check_list.specs.Held.{boxes_in, Ran, Went};
ghost use Rattle.check_list.specs.Blocks.{block, Tells, Settles};

use crate::block::BLOCK;
use crate::{Rule, block};
use check_pair::{Clearance, Extent, Verdict};
use check_words::Finding;

// What settles a pair without its root: from the gap `limit` on it is far, and from `reach` on between a box and a block's span each of the
// block is; sums of squares up to `close` are too close.
#[derive(Clone, Copy)]
struct Quick {
    limit: f64,
    reach: f64,
    close: f64,
}

// A box that takes no room.
const NOWHERE: Extent = Extent {
    min: [0.0, 0.0, 0.0],
    max: [0.0, 0.0, 0.0],
};

// What pairs of lines are judged by.
fn clearance_of(rule: Rule) -> Clearance
    ensures asked { result.asked ≡ rule.case.spacing }
    ensures slack { result.slack ≡ rule.slack }
{
    Clearance {
        asked: rule.case.spacing,
        slack: rule.slack,
    }
}

// The finding that a verdict gives, where both lines are known.
fn put_verdict(
    out: &mut [u64],
    at: usize,
    known: bool,
    first: usize,
    second: usize,
    asked: f64,
    v: Verdict,
) -> usize
    requires { at < most_words }
    ensures { Wrote out.old at (only_if known (verdict_words first second asked v)) result out.new × (result ≤ at + 5) }
{
    match v {
        Verdict::Apart => at,
        Verdict::Overlap => Finding::Overlap { first, second }.write_if(out, at, known),
        Verdict::TooClose(distance) => Finding::TooClose {
            first,
            second,
            distance,
            asked,
        }
        .write_if(out, at, known),
    }
}

// The place behind one finding more, where the test holds.
fn counted(at: usize, on: bool) -> usize
    requires { at < most_words }
    ensures { result ≡ cond on (at + 5) at }
{
    if on {
        return at + 5;
    }
    at
}

// What two lines get, whose boxes are a and b, and whose hint is that of place k. Past the last cell nothing is stored, and only whether
// there is a finding counts, which takes no hint.
fn put_pair(
    out: &mut [u64],
    at: usize,
    known: bool,
    i: usize,
    j: usize,
    a: Extent,
    b: Extent,
    clearance: Clearance,
    close: f64,
    hints: Option<&[u64; BLOCK]>,
    k: usize,
) -> usize
    requires within { at < most_words }
    requires fair { Fair close clearance.asked clearance.slack }
    ensures { Wrote out.old at (only_if known (verdict_words i j clearance.asked (verdict_of a b clearance.asked clearance.slack)))
        result out.new × (result ≤ at + 5) }
{
    if out.len() <= at {
        return counted(at, known & clearance.is_found(a, b, close));
    }
    let v = clearance.judge(a, b, hints.map(|h| h[k % BLOCK]));
    put_verdict(out, at, known, i, j, clearance.asked, v)
}

// From this gap on between a box and a block's span each box of the block is far; where the spans are no good, none is told to be.
fn reach_of(spanned: bool, limit: f64) -> f64
    ensures { result ≡ cond spanned limit (none ⊘ none) }
{
    if spanned {
        return limit;
    }
    0.0 / 0.0
}

// The sums of squares that are too close without a root, for a run that has no cell for a finding and only counts; none for one that writes.
fn close_of(counts: bool, clearance: Clearance) -> f64
    ensures { result ≡ cond counts (close_of clearance.asked clearance.slack) none }
{
    if counts {
        return clearance.close();
    }
    0.0
}

// What settles pairs that are to be so far apart.
fn quick_of(clearance: Clearance, spanned: bool, counts: bool) -> Quick
    ensures { Settles clearance.asked clearance.slack spanned result }
{
    let limit = clearance.limit();
    Quick {
        limit,
        reach: reach_of(spanned, limit),
        close: close_of(counts, clearance),
    }
}

// The end of the lines from `from` up to `to`, of one block, that are to be judged one by one: `from` where each is far from the box e,
// which the block's span may tell, and `to` where the first is near. No branch in the loop, so that a few are tested at a time.
fn near_end(
    e: Extent,
    boxes: &[Extent],
    span: Extent,
    from: usize,
    to: usize,
    quick: Quick,
) -> usize
    requires some { from < to }
    requires long { to ≤ length boxes.now }
    requires tells { some_gap quick.reach (gaps e span) ≡ true
        → (j : ℕ) → from ≤ j → j < to → some_gap quick.limit (gaps e (box_at boxes.now j)) ≡ true }
    ensures after { from ≤ result }
    ensures within { result ≤ to }
    ensures far { (j : ℕ) → result ≤ j → j < to → some_gap quick.limit (gaps e (box_at boxes.now j)) ≡ true }
{
    if e.is_far(span, quick.reach) {
        return from;
    }
    if !e.is_far(boxes[from], quick.limit) {
        return to;
    }
    let mut near = false;
    for b in &boxes[from + 1..to] {
        near = near | !e.is_far(*b, quick.limit);
    }
    if near {
        return to;
    }
    from
}

// Hints for the distances of the box e from the boxes of a block's lines; none where they are not wanted, or the last of these lines is
// far, as then few of them take a root. All are made before the first is used, as a root that waits for its own hint holds up the next.
fn hints_of(wanted: bool, e: Extent, boxes: &[Extent], limit: f64) -> Option<[u64; BLOCK]>
    requires { 0 < length boxes.now }
{
    if !wanted | e.is_far(boxes[boxes.len() - 1], limit) {
        return None;
    }
    let mut hints = [0; BLOCK];
    for (k, b) in boxes.iter().enumerate() {
        hints[k % BLOCK] = e.hint(*b);
    }
    Some(hints)
}

// What line i gets with the lines from `from` up to `to`, one by one.
fn put_each(
    out: &mut [u64],
    at: usize,
    which: &[usize],
    boxes: &[Extent],
    rule: Rule,
    quick: Quick,
    i: usize,
    from: usize,
    to: usize,
) -> usize
    requires later { i < from }
    requires within { (from ≤ to) × (to ≤ rule.lines) }
    requires which_long { rule.lines ≤ length which.now }
    requires boxes_long { rule.lines ≤ length boxes.now }
    requires room { at + 5 * (to - from) < most_words }
    requires slack { rule.slack ≡ tolerance_of rule.case.size }
    requires fair { Fair quick.close rule.case.spacing rule.slack }
    ensures { Went out.old at (pair_found (boxes_in rule which.now boxes.now) i) from to result out.new }
{
    if to <= from {
        return at;
    }
    let m = rule.kinds;
    let clearance = clearance_of(rule);
    let e = boxes[i];
    let known = which[i] < m;
    let hints = hints_of(at < out.len(), e, &boxes[from..to], quick.limit);
    let mut p = at;
    for j in from..to {
        let both = known & (which[j] < m);
        p = put_pair(
            out,
            p,
            both,
            i,
            j,
            e,
            boxes[j],
            clearance,
            quick.close,
            hints.as_ref(),
            j - from,
        );
    }
    p
}

// What line i gets with the lines after it: block by block, and a block of lines that are all far is passed over.
fn put_from(
    out: &mut [u64],
    at: usize,
    which: &[usize],
    boxes: &[Extent],
    spans: &[Extent],
    rule: Rule,
    quick: Quick,
    i: usize,
) -> usize
    requires one { i < rule.lines }
    requires room { at + 5 * (rule.lines - (i + 1)) < most_words }
    requires told { Tells rule which.now boxes.now spans.now quick }
    requires slack { rule.slack ≡ tolerance_of rule.case.size }
    ensures { Ran out.old at (rule.lines - (i + 1))
        (pairs_found (boxes_in rule which.now boxes.now) i) result out.new }
{
    let n = rule.lines;
    let e = boxes[i];
    let mut p = at;
    let mut j = i + 1;
    // Stays: it goes by blocks, the first of them a part of one; a for over blocks is no plainer, as it works out both ends again.
    while j < n {
        let to = block::block_end(j, n);
        let end = near_end(e, boxes, spans[j / BLOCK], j, to, quick);
        p = put_each(out, p, which, boxes, rule, quick, i, j, end);
        j = to;
    }
    p
}

// What all lines get with the lines after them.
pub(crate) fn put_pairs(
    out: &mut [u64],
    at: usize,
    which: &[usize],
    boxes: &[Extent],
    rule: Rule,
) -> usize
    requires few { rule.lines ≤ most_lines }
    requires which_long { rule.lines ≤ length which.now }
    requires boxes_long { rule.lines ≤ length boxes.now }
    requires room { at ≤ 30 * most_lines }
    requires slack { rule.slack ≡ tolerance_of rule.case.size }
    ensures { Ran out.old at (rule.lines * rule.lines / 2)
        (all_below (pairs_found (boxes_in rule which.now boxes.now)) rule.lines) result out.new }
{
    let n = rule.lines;
    let mut spans = [NOWHERE; block::BLOCKS];
    let spanned = block::put_spans(boxes, n, &mut spans);
    let quick = quick_of(clearance_of(rule), spanned, out.len() < 5);
    let mut p = at;
    for i in 0..n {
        p = put_from(out, p, which, boxes, &spans, rule, quick, i);
    }
    p
}
