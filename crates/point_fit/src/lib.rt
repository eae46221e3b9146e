// The tests of the extreme-point placer on one point and one box: floats alone, sums in the Rust's order, and no store
// (extreme_point.rs: `fits_at`, the heap's order, `add_ep_if_valid`).

#![tactic(auto)]

ghost use Rattle.std.specs.Prelude.{◌≡◌};
ghost use Rattle.point_fit.specs.Fit.{room_of, in_room, apart, far_wall, near_wall};
ghost use Rattle.point_fit.specs.Sooner.{sooner};
ghost use Rattle.point_fit.specs.Ends.{ends_of, past_of, below_ends, buries};

use domain::SLACK;
use measures::Container;

// What a box must lie between: `least` on every axis, and `most`.
#[derive(Clone, Copy)]
pub struct Room {
    pub least: f64,
    pub most: [f64; 3],
}

pub fn room_of(c: Container) -> Room
    ensures { result ≡ room_of c }
{
    let m = c.margin;
    let size = c.size;
    let most = [
        size[0] - m + SLACK,
        size[1] - m + SLACK,
        size[2] - m + SLACK,
    ];
    Room {
        least: m - SLACK,
        most,
    }
}

// Whether a box with these corners lies in the room.
pub fn in_room(room: Room, at: [f64; 3], far: [f64; 3]) -> bool
    ensures { result ≡ in_room room at far }
{
    let least = room.least;
    let most = room.most;
    !((at[0] < least) | ((at[1] < least) | (at[2] < least)))
        & !((far[0] > most[0]) | ((far[1] > most[1]) | (far[2] > most[2])))
}

// The far side of a placed box moved out by the distance asked, less the slack.
pub fn far_wall(near: [f64; 3], size: [f64; 3], asked: f64) -> [f64; 3]
    ensures { result ≡ far_wall near size asked }
{
    [
        near[0] + size[0] + asked - SLACK,
        near[1] + size[1] + asked - SLACK,
        near[2] + size[2] + asked - SLACK,
    ]
}

// The near side moved out by the distance asked, less the slack.
pub fn near_wall(near: [f64; 3], asked: f64) -> [f64; 3]
    ensures { result ≡ near_wall near asked }
{
    [
        near[0] - asked + SLACK,
        near[1] - asked + SLACK,
        near[2] - asked + SLACK,
    ]
}

// Separated on some axis: past the far wall `a`, or before the near wall `b`. Height is asked first, as cases are stacked flat,
// and once an axis separates nothing more is asked. Where a comparison has no answer it does not separate.
pub fn apart(a: [f64; 3], b: [f64; 3], at: [f64; 3], far: [f64; 3]) -> bool
    ensures { result ≡ apart a b at far }
{
    if at[2] >= a[2] {
        return true;
    }
    if far[2] <= b[2] {
        return true;
    }
    if at[1] >= a[1] {
        return true;
    }
    if far[1] <= b[1] {
        return true;
    }
    if at[0] >= a[0] {
        return true;
    }
    far[0] <= b[0]
}

// By z, then y, then x; where a comparison has no answer the two count as equal.
pub fn sooner(v: [f64; 3], w: [f64; 3]) -> bool
    ensures { result ≡ sooner v w }
{
    (v[2] < w[2]) | (!(w[2] < v[2]) & ((v[1] < w[1]) | (!(w[1] < v[1]) & (v[0] < w[0]))))
}

// Below these a new point must lie on every axis.
pub fn ends_of(c: Container) -> [f64; 3]
    ensures { result ≡ ends_of c }
{
    let m = c.margin;
    let size = c.size;
    [
        size[0] - m - SLACK,
        size[1] - m - SLACK,
        size[2] - m - SLACK,
    ]
}

// Where a neighbour of the box may begin on each axis.
pub fn past_of(at: [f64; 3], size: [f64; 3], asked: f64) -> [f64; 3]
    ensures { result ≡ past_of at size asked }
{
    [
        at[0] + size[0] + asked,
        at[1] + size[1] + asked,
        at[2] + size[2] + asked,
    ]
}

pub fn below_ends(ends: [f64; 3], at: [f64; 3]) -> bool
    ensures { result ≡ below_ends ends at }
{
    !((at[0] >= ends[0]) | ((at[1] >= ends[1]) | (at[2] >= ends[2])))
}

// Whether the point is strictly inside the box. A point on a face is not. Height is asked first here too, and the far side before the near
// one, as most boxes lie below the point; once a side says no nothing more is asked.
pub fn buries(near: [f64; 3], size: [f64; 3], at: [f64; 3]) -> bool
    ensures { result ≡ buries near size at }
{
    if !(at[2] < near[2] + size[2] - SLACK) {
        return false;
    }
    if !(at[2] > near[2] + SLACK) {
        return false;
    }
    if !(at[1] < near[1] + size[1] - SLACK) {
        return false;
    }
    if !(at[1] > near[1] + SLACK) {
        return false;
    }
    if !(at[0] < near[0] + size[0] - SLACK) {
        return false;
    }
    at[0] > near[0] + SLACK
}
