// Replays a sample of cases, each an input and what is expected of it, and tells how many differ.
// A sample is a count and then the cases: a tag, the size of the body, and the body. Numbers are little-endian.

#![tactic(auto)]

ghost use Rattle.std.specs.Prelude.{◌≡◌, ◌-◌, ◌%◌, [], ◌∷◌, min, length, replicate};
ghost use Rattle.std.specs.Iterator.{at_most};
ghost use Rattle.domain.specs.Bounds.{most_kinds};
ghost use Rattle.sheet.specs.Sheets.{kind_at};
ghost use Rattle.file_bytes.specs.Bytes.{u32_at};
ghost use Rattle.file_read.specs.Reading.{read_of};
ghost use Rattle.replay_vectors.specs.Sample.{beyond, part_of, later, NextCase, tallied};

use domain::Refusal;
use measures::Kind;
pub use replay_sample::Reader;
use sheet::Sheet;

mod tag; // tag.rt: what a case is of

pub use tag::Tag;

// Room for a sample, all zeros. The length is said apart, as lending the array as a slice needs it so.
// Stays: an array of this length that is made where it is lent runs the check out of its stack.
fn buffer() -> [u8; 524288]
    ensures value { 524288 ≡ length result }
    ensures value_2 { result ≡ replicate 524288 0 }
{
    [0; 524288]
}

// One case.
#[derive(Clone, Copy)]
pub struct Case<'a> {
    pub tag: u32,
    pub body: &'a [u8],
}

// The cases of a sample, one after the other: where the next stands, and how many are left.
#[derive(Clone, Copy)]
pub struct Cases<'a> {
    pub from: Reader<'a>,
    pub left: u32,
}

impl<'a> Cases<'a> {
    pub fn new(sample: &'a [u8]) -> Cases<'a>
        ensures bytes { result.from.bytes.now ≡ sample.now }
        ensures at { result.from.at ≡ 4 }
        ensures left { result.left ≡ u32_at sample.now 0 }
    {
        let mut from = Reader::new(sample);
        let left = from.word();
        Cases { from, left }
    }
}

impl<'a> Iterator for Cases<'a> {
    type Item = Case<'a>;

    ghost next_gives = { NextCase };

    ghost remaining = { λ s. at_most s.left };

    #[tactic(auto, using(crate::specs::Sample::beyond_twice))]
    fn next(&mut self) -> Option<Case<'a>> {
        if self.left == 0 {
            return None;
        }
        self.left -= 1;
        let tag = self.from.word();
        let body = self.from.counted();
        Some(Case { tag, body })
    }
}

// How many cases were replayed, how many differ, and the first that does, from 1 on.
#[derive(Clone, Copy, Default)]
pub struct Tally {
    pub cases: u64,
    pub differ: u64,
    pub first: Option<u64>,
}

impl Tally {
    // One more case, which is as expected or differs.
    pub fn count(&mut self, same: bool)
        ensures { self.new ≡ tallied self.old same }
    {
        self.cases = self.cases.wrapping_add(1);
        if same {
            return;
        }
        if self.differ == 0 {
            self.first = Some(self.cases);
        }
        self.differ = self.differ.wrapping_add(1);
    }
}

// The sheet in the counted bytes that come next, or the refusal that they get.
pub fn read_sheet(from: &mut Reader) -> Result<Sheet, Refusal>
    ensures value { result ≡ read_of (part_of from.old.bytes.now (beyond from.old.at 4)
        (u32_at from.old.bytes.now from.old.at)) }
    ensures moved { from.new ≡ later (later from.old 4) (u32_at from.old.bytes.now from.old.at) }
{
    file_read::read_sheet(from.counted())
}

// Kind k of a sheet. Past the places for kinds it begins again at the first.
pub fn kind_of(s: &Sheet, k: usize) -> Kind
    ensures { result ≡ kind_at s.now (k % most_kinds) }
{
    s.kinds[k % domain::MOST_KINDS]
}

// Rooms to try a call in that needs so many of the places that there are: as many as it needs, all, and one less than it needs.
pub fn rooms(needed: usize, all: usize) -> [usize; 3]
    ensures { result ≡ min needed all ∷ all ∷ min (needed - 1) all ∷ [] }
{
    [needed.min(all), all, needed.saturating_sub(1).min(all)]
}

// Replays each case by `one`, which tells whether all is as expected.
fn count_cases<F: Fn(Tag, &[u8]) -> bool>(cases: &mut Cases, one: F) -> Tally
    requires { F.IsAlwaysCallable one }
{
    let mut tally = Tally::default();
    for case in cases {
        let same = match Tag::of(case.tag) {
            Some(tag) => one(tag, case.body),
            None => false,
        };
        tally.count(same);
    }
    tally
}

// Prints `NAME: N cases, M differ`, and then which case is the first that does. Output that fails is left at that.
fn report(rt: &impl Print, name: &str, tally: Tally, whole: bool) {
    let cases = tally.cases;
    let differ = tally.differ;
    let _ = println!(rt; "{name}: {cases} cases, {differ} differ");
    if let Some(first) = tally.first {
        let _ = println!(rt; "the first that differs is case {first}");
    }
    if !whole {
        let _ = println!(rt; "the sample has another length");
    }
}

// Replays the sample, and reports on it.
pub fn replay_sample<R: Print, F: Fn(Tag, &[u8]) -> bool>(rt: &R, name: &str, sample: &[u8], one: F)
    requires { F.IsAlwaysCallable one }
{
    let mut cases = Cases::new(sample);
    let tally = count_cases(&mut cases, one);
    report(rt, name, tally, cases.from.ends());
}

// Replays the sample in the file of this number, and reports on it. What can't be read counts as its end.
// Stays: `io::read_full`, which takes a number, is the library's loop over `read`; std's reads to the end allocate.
pub fn replay_file<R: Print, F: Fn(Tag, &[u8]) -> bool>(rt: &R, name: &str, file: i32, one: F)
    requires { F.IsAlwaysCallable one }
{
    let mut bytes = buffer();
    let n = io::read_full(file, &mut bytes);
    replay_sample(rt, name, &bytes[..n], one);
}

// Replays the sample on standard input, and reports on it.
pub fn replay<R: Print, F: Fn(Tag, &[u8]) -> bool>(rt: &R, name: &str, one: F)
    requires { F.IsAlwaysCallable one }
{
    replay_file(rt, name, 0, one);
}
