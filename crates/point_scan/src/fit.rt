// Whether a box fits at a point: in the container's room, and apart from every placed box.
ghost use Rattle.std.specs.Prelude.{◌≡◌, ◌≤◌, length};
ghost use Rattle.domain.specs.Bounds.{most_boxes};
ghost use Rattle.point_scan.specs.Passes.{apart_by, first_block, blocks, block_of, FitIs};

use crate::{Fitted, Walls};
use point_fit::{Room, apart, in_room};
use point_state::sum3;

// Whether a box with these corners is apart from the box of these walls.
fn apart_by(walls: Walls, at: [f64; 3], far: [f64; 3]) -> bool
    ensures { result ≡ apart_by at far walls }
{
    apart(walls.far, walls.near, at, far)
}

// The first box that is not apart, or n.
fn first_block(walls: &[Walls], n: usize, at: [f64; 3], far: [f64; 3]) -> usize
    requires { n ≤ length walls.now }
    ensures { result ≡ first_block walls.now n at far }
{
    for i in 0..n {
        if !apart_by(walls[i], at, far) {
            return i;
        }
    }
    n
}

// Whether the box of the hint is one of the first n, and not apart.
fn blocks(walls: &[Walls], n: usize, hint: usize, at: [f64; 3], far: [f64; 3]) -> bool
    requires { n ≤ length walls.now }
    ensures { result ≡ blocks walls.now n hint at far }
{
    if hint >= n {
        return false;
    }
    !apart_by(walls[hint], at, far)
}

// A box that is not apart, or n. The box of the hint is asked first: what blocked a point mostly blocks it again.
fn some_block(walls: &[Walls], n: usize, hint: u16, at: [f64; 3], far: [f64; 3]) -> u16
    requires { (n ≤ most_boxes) × (n ≤ length walls.now) }
    ensures { result ≡ block_of walls.now n hint at far }
{
    if blocks(walls, n, usize::from(hint), at, far) {
        return hint;
    }
    first_block(walls, n, at, far) as u16
}

// Whether a box of these lengths fits at the point.
pub(crate) fn fit(
    room: Room,
    walls: &[Walls],
    held: usize,
    hint: u16,
    at: [f64; 3],
    size: [f64; 3],
) -> Fitted
    requires { (held ≤ most_boxes) × (held ≤ length walls.now) }
    ensures { FitIs room walls.now held hint at size result }
{
    let far = sum3(at, size);
    if !in_room(room, at, far) {
        return Fitted {
            passes: false,
            block: hint,
        };
    }
    let block = some_block(walls, held, hint, at, far);
    Fitted {
        passes: usize::from(block) == held,
        block,
    }
}
