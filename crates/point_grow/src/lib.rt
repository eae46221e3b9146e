// The stores after a box has been placed: its point goes, up to three new ones come, and the box stands (extreme_point.rs:
// `generate_new_eps`, `add_ep_if_valid`).

#![tactic(auto)]

ghost use Rattle.std.specs.Prelude.{◌≡◌, ◌+◌, ◌≤◌, ◌<◌, length};
ghost use Rattle.point_grow.specs.Grow.{free, valid, corners_of, added, grown, restock_of, put_box};
ghost use Rattle.point_grow.specs.Told.{Stocked};

use measures::Container;
use point_fit::{below_ends, buries, ends_of, past_of};
use point_state::Spot;

// Which of the three new points of a placed box are kept, and where their moved axes end.
#[derive(Clone, Copy)]
struct Corners {
    alongx: bool,
    alongy: bool,
    alongz: bool,
    past: [f64; 3],
}

// Whether the point is strictly inside none of the first n boxes.
fn free(boxes: &[Spot], n: usize, at: [f64; 3]) -> bool
    requires { n ≤ length boxes.now }
    ensures { result ≡ free boxes.now n at }
{
    for spot in &boxes[..n] {
        if buries(spot.position, spot.dimensions, at) {
            return false;
        }
    }
    true
}

// Whether a new point is kept.
fn valid(boxes: &[Spot], held: usize, ends: [f64; 3], short: bool, at: [f64; 3]) -> bool
    requires { held ≤ length boxes.now }
    ensures { result ≡ valid boxes.now held ends short at }
{
    if !(short & below_ends(ends, at)) {
        return false;
    }
    free(boxes, held, at)
}

fn new_points(c: Container, boxes: &[Spot], held: usize, at: [f64; 3], size: [f64; 3]) -> Corners
    requires { held ≤ length boxes.now }
    ensures { result ≡ corners_of c boxes.now held at size }
{
    let past = past_of(at, size, c.spacing);
    let ends = ends_of(c);
    let a = [past[0], at[1], at[2]];
    let b = [at[0], past[1], at[2]];
    let d = [at[0], at[1], past[2]];
    let alongx = valid(boxes, held, ends, past[0] < ends[0], a);
    let alongy = valid(boxes, held, ends, past[1] < ends[1], b);
    let alongz = valid(boxes, held, ends, past[2] < ends[2], d);
    Corners {
        alongx,
        alongy,
        alongz,
        past,
    }
}

// Stores one more point where it is kept, and gives the count after it.
fn add(points: &mut [[f64; 3]], live: usize, kept: bool, at: [f64; 3]) -> usize
    requires { live < length points.old }
    ensures { Stocked (added kept at (record { live = live; points = points.old })) result points.new }
{
    if kept {
        points[live] = at;
        return live + 1;
    }
    live
}

fn grow(points: &mut [[f64; 3]], live: usize, new: Corners, at: [f64; 3]) -> usize
    requires { live + 2 < length points.old }
    ensures { Stocked (grown new at (record { live = live; points = points.old })) result points.new }
{
    let p = new.past;
    let one = add(points, live, new.alongx, [p[0], at[1], at[2]]);
    let two = add(points, one, new.alongy, [at[0], p[1], at[2]]);
    add(points, two, new.alongz, [at[0], at[1], p[2]])
}

// The points after a box of these lengths has gone to point k: that one is gone, and the new ones are stored. Gives their
// count. Where there is no such point, or no room for what a box leaves, all stays.
pub fn restock(
    points: &mut [[f64; 3]],
    boxes: &[Spot],
    c: Container,
    live: usize,
    held: usize,
    k: usize,
    size: [f64; 3],
) -> usize
    ensures { Stocked (restock_of c boxes.now held live points.old k size) result points.new }
{
    if k >= live {
        return live;
    }
    if live >= points.len() {
        return live;
    }
    if live + 1 >= points.len() {
        return live;
    }
    if held >= boxes.len() {
        return live;
    }
    let last = live - 1;
    let at = points[k];
    points[k] = points[last];
    let new = new_points(c, boxes, held, at, size);
    grow(points, last, new, at)
}

// Stores a box with its position and its dimensions as box n, if the store has such a box.
pub fn put_box(boxes: &mut [Spot], n: usize, position: [f64; 3], dimensions: [f64; 3])
    ensures { boxes.new ≡ put_box boxes.old n position dimensions }
{
    if n < boxes.len() {
        boxes[n] = Spot {
            position,
            dimensions,
        };
    }
}
