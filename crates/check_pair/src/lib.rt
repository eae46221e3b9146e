// The verdict on one pair of boxes, and the checker's tolerance. RULES: Tolerance, Findings: pairs

#![tactic(auto)]

ghost use Rattle.std.specs.Prelude.{◌≡◌, ◌<◌};
ghost use Rattle.check_root.specs.Hint.{hint_of};
ghost use Rattle.check_pair.specs.Tolerance.{magnitude, tolerance_of};
ghost use Rattle.check_pair.specs.Pair.{gap, gaps, overlaps, squared, sum_of, distance_of, verdict_of};
ghost use Rattle.check_pair.specs.Shortcut.{plain, some_gap, far_enough, limit_of};
ghost use Rattle.check_pair.specs.Close.{close_of, found_by};
ghost use Rattle.check_pair.specs.Span.{spans_on, spans};

// A little less than 1.
const NEARLY: f64 = 0.999;

// Where a box lies: its near corner and its far corner.
#[derive(Clone, Copy)]
pub struct Extent {
    pub min: [f64; 3],
    pub max: [f64; 3],
}

// The verdict on two boxes; of boxes that are too close their distance.
#[derive(Clone, Copy)]
pub enum Verdict {
    Apart,
    Overlap,
    TooClose(f64),
}

// What pairs are judged by: how far apart boxes are to be, and the tolerance.
#[derive(Clone, Copy)]
pub struct Clearance {
    pub asked: f64,
    pub slack: f64,
}

// The number without its sign.
fn magnitude(x: f64) -> f64
    ensures { result ≡ magnitude x }
{
    if x < 0.0 {
        return -x;
    }
    x
}

// The checker's slack for a container of these lengths, for lengths and for mass.
pub fn tolerance(size: [f64; 3]) -> f64
    ensures { result ≡ tolerance_of size }
{
    let w = floats::larger(1.0, magnitude(size[0]));
    let d = floats::larger(w, magnitude(size[1]));
    let h = floats::larger(d, magnitude(size[2]));
    domain::SLACK * h + domain::SLACK
}

fn overlaps(g: [f64; 3], t: f64) -> bool
    ensures { result ≡ overlaps g t }
{
    (g[0] < -t) & ((g[1] < -t) & (g[2] < -t))
}

// The square of a gap that is one, and of no gap 0.
fn squared(g: f64) -> f64
    ensures { result ≡ squared g }
{
    let p = floats::larger(0.0, g);
    p * p
}

// The sum of the squares, from the left.
fn sum_of(g: [f64; 3]) -> f64
    ensures { result ≡ sum_of g }
{
    (squared(g[0]) + squared(g[1])) + squared(g[2])
}

// The distance, whatever number is handed over as the hint of these gaps, with which it is quicker.
fn distance(g: [f64; 3], hint: Option<u64>) -> f64
    ensures { result ≡ distance_of g }
{
    let s = sum_of(g);
    match hint {
        Some(q) => check_root::sqrt_by(s, q),
        None => check_root::sqrt(s),
    }
}

// A number whose square neither overflows nor loses digits.
fn plain(x: f64) -> bool
    ensures { result ≡ plain x }
{
    let b = floats::bits_of(x);
    (2305843009213693952 <= b) & (b < 6913025428013711360)
}

fn some_gap(least: f64, g: [f64; 3]) -> bool
    ensures { result ≡ some_gap least g }
{
    (least <= g[0]) | ((least <= g[1]) | (least <= g[2]))
}

// Whether the boxes are seen to be far enough apart without a root: nothing is asked, or one gap alone is enough.
fn far_enough(g: [f64; 3], least: f64) -> bool
    ensures { result ≡ far_enough g least }
{
    (least <= 0.0) | (plain(least) & some_gap(least, g))
}

impl Extent {
    // The gap between two boxes on an axis; below zero where they overlap on it.
    fn gap(self, other: Extent, axis: usize) -> f64
        requires { axis < 3 }
        ensures { result ≡ gap self other axis }
    {
        floats::larger(
            other.min[axis] - self.max[axis],
            self.min[axis] - other.max[axis],
        )
    }

    fn gaps(self, other: Extent) -> [f64; 3]
        ensures { result ≡ gaps self other }
    {
        [self.gap(other, 0), self.gap(other, 1), self.gap(other, 2)]
    }

    // A hint for the root that a verdict on two boxes may take, to be handed to `judge`. No branch, so that the hints of many pairs are
    // worked out side by side.
    pub fn hint(self, other: Extent) -> u64
        ensures { result ≡ hint_of (sum_of (gaps self other)) }
    {
        check_root::hint(sum_of(self.gaps(other)))
    }

    // Whether one gap is at least the limit. No branch, so that a loop over many boxes is done a few at a time.
    pub fn is_far(self, other: Extent, limit: f64) -> bool
        ensures { result ≡ some_gap limit (gaps self other) }
    {
        some_gap(limit, self.gaps(other))
    }

    // Whether on an axis a span is within what corners can be, and the box within the span.
    fn spans_on(self, e: Extent, axis: usize) -> bool
        requires { axis < 3 }
        ensures { result ≡ spans_on self e axis }
    {
        let ordinary = (-domain::MOST_LIMIT <= self.min[axis])
            & (self.max[axis] <= domain::MOST_LIMIT);
        let past = (e.min[axis] <= e.max[axis]) & (e.max[axis] <= self.max[axis]);
        ordinary & ((self.min[axis] <= e.min[axis]) & past)
    }

    // Whether a box is within a span. No branch, so that a loop over many boxes is done a few at a time.
    pub fn spans(self, e: Extent) -> bool
        ensures { result ≡ spans self e }
    {
        self.spans_on(e, 0) & (self.spans_on(e, 1) & self.spans_on(e, 2))
    }
}

impl Clearance {
    // The verdict on two boxes, whatever number is handed over as their `hint`, with which it is quicker.
    pub fn judge(self, a: Extent, b: Extent, hint: Option<u64>) -> Verdict
        ensures { result ≡ verdict_of a b self.asked self.slack }
    {
        let g = a.gaps(b);
        if overlaps(g, self.slack) {
            return Verdict::Overlap;
        }
        let least = self.asked - self.slack;
        if far_enough(g, least) {
            return Verdict::Apart;
        }
        let d = distance(g, hint);
        if d < least {
            return Verdict::TooClose(d);
        }
        Verdict::Apart
    }

    // Sums of squares up to this are too close without a root: a little less than the square of what is asked, if the root of that is
    // below it, which one root tells.
    pub fn close(self) -> f64
        ensures { result ≡ close_of self.asked self.slack }
    {
        let least = self.asked - self.slack;
        let c = NEARLY * (least * least);
        if check_root::sqrt(c) < least {
            return c;
        }
        0.0
    }

    // Whether two boxes get a finding, for whoever does not ask for the distance. Sums of squares above 0 and up to `close` count as
    // too close.
    pub fn is_found(self, a: Extent, b: Extent, close: f64) -> bool
        ensures { result ≡ found_by close (gaps a b) self.asked self.slack }
    {
        let g = a.gaps(b);
        if overlaps(g, self.slack) {
            return true;
        }
        let s = sum_of(g);
        if (0.0 < s) & (s <= close) {
            return true;
        }
        let least = self.asked - self.slack;
        if far_enough(g, least) {
            return false;
        }
        check_root::sqrt(s) < least
    }

    // From this gap on, on one axis, two boxes get no finding. Not a number, which no gap is at least, where one gap alone does not tell.
    pub fn limit(self) -> f64
        ensures { result ≡ limit_of self.asked self.slack }
    {
        let least = self.asked - self.slack;
        if least <= 0.0 {
            return -self.slack;
        }
        if plain(least) & (-self.slack <= least) {
            return least;
        }
        0.0 / 0.0
    }
}
