// Lines by blocks: a block has a span, a box that has the boxes of all its lines within it. Where that is far from a box, each of them is.
ghost use Rattle.std.specs.Prelude.{◌≡◌, true, ℕ, ◌+◌, ◌*◌, ◌/◌, ◌≤◌, ◌<◌, length};
ghost use Rattle.domain.specs.Bounds.{most_lines};
ghost use Rattle.check_pair.specs.Span.{spans};
ghost use Rattle.check_words.specs.Boxes.{box_at};
ghost use Rattle.check_list.specs.Blocks.{block, BlockEnd, Spanned};

use check_pair::Extent;

// So many lines stand in a block.
pub(crate) const BLOCK: usize = 16;

// There are at most so many blocks.
pub(crate) const BLOCKS: usize = domain::MOST_LINES / BLOCK;

// The end of the block that line j is in, or n.
pub(crate) fn block_end(j: usize, n: usize) -> usize
    requires { (j < n) × (n ≤ most_lines) }
    ensures { BlockEnd j n result }
{
    let to = (j / BLOCK + 1) * BLOCK;
    if n < to {
        return n;
    }
    to
}

fn smaller(a: f64, b: f64) -> f64 {
    if b < a {
        return b;
    }
    a
}

// A span with one box more.
fn widened(s: Extent, e: Extent) -> Extent {
    let min = [
        smaller(s.min[0], e.min[0]),
        smaller(s.min[1], e.min[1]),
        smaller(s.min[2], e.min[2]),
    ];
    let max = [
        floats::larger(s.max[0], e.max[0]),
        floats::larger(s.max[1], e.max[1]),
        floats::larger(s.max[2], e.max[2]),
    ];
    Extent { min, max }
}

// A span for some boxes, of which there is one at least. Whether it is one is tested, and not proved here.
fn span_of(boxes: &[Extent]) -> Extent
    requires { 0 < length boxes.now }
{
    let mut s = boxes[0];
    for e in boxes {
        s = widened(s, *e);
    }
    s
}

// Whether some boxes are all within the span. No branch in the loop, so that a few are tested at a time.
fn all_spanned(s: Extent, boxes: &[Extent]) -> bool
    ensures { result ≡ true → (j : ℕ) → j < length boxes.now → spans s (box_at boxes.now j) ≡ true }
{
    let mut all = true;
    for e in boxes {
        all = all & s.spans(*e);
    }
    all
}

// The spans of the first n lines' blocks, and whether each line is within that of its block.
// Stays: spans and test apart, as an Option of the array is no plainer: each block of each line would ask again whether there are spans.
pub(crate) fn put_spans(boxes: &[Extent], n: usize, spans: &mut [Extent; BLOCKS]) -> bool
    requires few { n ≤ most_lines }
    requires long { n ≤ length boxes.now }
    requires blocks { length spans.old ≡ most_lines / block }
    ensures blocks { length spans.new ≡ most_lines / block }
    ensures spanned { result ≡ true → Spanned boxes.now n spans.new }
{
    let mut all = true;
    for k in 0..n.div_ceil(BLOCK) {
        let from = k * BLOCK;
        let own = &boxes[from..block_end(from, n)];
        spans[k] = span_of(own);
        all = all & all_spanned(spans[k], own);
    }
    all
}
