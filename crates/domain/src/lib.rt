// The stated domain: every bound and range of the planner, once, with the tests on them; and the refusal numbers.

#![tactic(auto)]

ghost use Rattle.std.specs.Prelude.{◌≡◌, ◌<◌};
ghost use Rattle.domain.specs.Bounds.{most_kinds, place_within};
ghost use Rattle.domain.specs.Ranges.{is_length, is_measure, is_limit, is_position};
ghost use Rattle.domain.specs.Refusals.{when};
ghost use Rattle.domain.specs.Refusal.{number_of, needed_of, answer_with};

// Counts.
pub const MOST_KINDS: usize = 64;

pub const MOST_BOXES: usize = 1024;

pub const MOST_LINES: usize = 1024;

pub const MOST_UNPLACED: usize = 256;

pub const MOST_ITEMS: usize = 1024;

pub const MOST_INSTANCES: usize = 1024;

// Most orders and sheets are small: a store for few boxes or lines, or for some, is made where it does. No answer tells which was.
pub const FEW_BOXES: usize = 64;

pub const FEW_LINES: usize = 64;

pub const SOME_BOXES: usize = 256;

pub const SOME_LINES: usize = 256;

// Ranges.
pub const LEAST_LENGTH: f64 = 0.000001;

pub const MOST: f64 = 1000000000.0;

pub const MOST_LIMIT: f64 = 1000000000000.0;

// The slack of the first placer, and the least of the checker's.
pub const SLACK: f64 = 0.000000001;

// A length of a kind or of the container.
pub fn is_length(x: f64) -> bool
    ensures { result ≡ is_length x }
{
    (LEAST_LENGTH <= x) & (x <= MOST)
}

// A margin, a spacing or a mass: no negative zero.
pub fn is_measure(x: f64) -> bool
    ensures { result ≡ is_measure x }
{
    let b = floats::bits_of(x);
    ((0.0 <= x) & (x <= MOST)) & (b != 9223372036854775808)
}

// A mass limit: all-zero bits for none, or above 0.
pub fn is_limit(x: f64) -> bool
    ensures { result ≡ is_limit x }
{
    let b = floats::bits_of(x);
    (b == 0) | ((0.0 < x) & (x <= MOST_LIMIT))
}

// One axis of a position: a negative zero may stand here.
pub fn is_position(x: f64) -> bool
    ensures { result ≡ is_position x }
{
    (-MOST <= x) & (x <= MOST)
}

// A place that a store of kinds has: the last one for a number past them.
pub fn place_within(k: usize) -> usize
    ensures { (result ≡ place_within k) × (result < most_kinds) }
{
    if k < MOST_KINDS {
        return k;
    }
    MOST_KINDS - 1
}

// Why an input is refused. RULES, Refusals, numbers them; where there is too little room, the number that needs it is told too.
#[derive(Clone, Copy, Debug, PartialEq, Eq)]
pub enum Refusal {
    Shape,
    Count,
    Measure,
    Record,
    Repeated,
    Room(usize),
    Full,
    Uneven,
    Stranger,
}

impl Refusal {
    // Its number.
    pub fn number(self) -> u32
        ensures { result ≡ number_of self }
    {
        match self {
            Refusal::Shape => 1,
            Refusal::Count => 2,
            Refusal::Measure => 3,
            Refusal::Record => 4,
            Refusal::Repeated => 5,
            Refusal::Room(_) => 6,
            Refusal::Full => 7,
            Refusal::Uneven => 8,
            Refusal::Stranger => 9,
        }
    }

    // The number that needs room, which comes with 6 alone.
    pub fn needed(self) -> usize
        ensures { result ≡ needed_of self }
    {
        match self {
            Refusal::Room(needed) => needed,
            _ => 0,
        }
    }
}

// Refuses where the test holds. Tests follow one another by `?`, so the first that holds gives the refusal.
pub fn refuse(b: bool, refusal: Refusal) -> Result<(), Refusal>
    ensures { result ≡ answer_with (when b (number_of refusal)) (needed_of refusal) tt }
{
    if b {
        return Err(refusal);
    }
    Ok(())
}
