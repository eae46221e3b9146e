// A finished plan, which both placers give: the lines placed, how many boxes were considered, the utilization and the unplaced list. The lines stand in
// lent memory; here they are handed out into words that the caller lends.

#![tactic(auto)]

ghost use Rattle.std.specs.Prelude.{◌≡◌, ◌+◌, ◌≤◌, length};
ghost use Rattle.std.proofs.lemmas.List.Edits.{sets};
ghost use Rattle.plan_sheet.specs.Hand.{words_of};

mod hand; // hand.rt: a plan whose lines stand in lent memory

pub use hand::hand_lines;
use sheet::Line;

// A plan handed out, its lines in lent words: the first `unplaced` ids are those left over.
// Stays: a count beside the ids, as they are handed out by value and no heap is used.
#[derive(Clone, Copy)]
pub struct Packed {
    pub placed: usize,
    pub considered: u64,
    pub utilization: f64,
    pub unplaced: usize,
    pub ids: [u32; domain::MOST_KINDS],
}

// What is told of a plan whose lines stand in lent memory.
#[derive(Clone, Copy)]
pub struct Told {
    pub considered: u64,
    pub placed: usize,
    pub utilization: f64,
}

// Words a line takes: id, instance, orientation, and the bits of x, y and z.
pub const WORDS: usize = 6;

// One line's words, from `at` on.
fn put_line(out: &mut [u64], at: usize, l: Line)
    requires { at + 6 ≤ length out.old }
    ensures { out.new ≡ sets out.old at (words_of l) }
{
    let p = l.at;
    let x = floats::bits_of(p[0]);
    let y = floats::bits_of(p[1]);
    let z = floats::bits_of(p[2]);
    out[at] = l.id as u64;
    out[at + 1] = l.instance as u64;
    out[at + 2] = l.orientation as u64;
    out[at + 3] = x;
    out[at + 4] = y;
    out[at + 5] = z;
}
