// The walls of the placed boxes, worked out once for all the points that are tested against them.
ghost use Rattle.std.specs.Prelude.{◌≡◌, ◌≤◌, length};
ghost use Rattle.domain.specs.Bounds.{most_boxes};
ghost use Rattle.point_scan.specs.Walls.{walls_by, walls_in, walls_of};

use crate::{BLANK_WALLS, Walls};
use point_state::Spot;

// The walls of a box, by the distance asked.
fn walls_by(spot: Spot, asked: f64) -> Walls
    ensures { result ≡ walls_by spot asked }
{
    let far = point_fit::far_wall(spot.position, spot.dimensions, asked);
    let near = point_fit::near_wall(spot.position, asked);
    Walls { far, near }
}

// Stores the walls of box i, if both stores have such a box.
pub fn put_walls(walls: &mut [Walls], boxes: &[Spot], i: usize, asked: f64)
    ensures { walls.new ≡ walls_in walls.old boxes.now i asked }
{
    if i >= boxes.len() {
        return;
    }
    if i >= walls.len() {
        return;
    }
    walls[i] = walls_by(boxes[i], asked);
}

// The walls of the first n boxes.
pub(crate) fn walls_of(boxes: &[Spot], n: usize, asked: f64) -> [Walls; domain::MOST_BOXES]
    requires { (n ≤ most_boxes) × (n ≤ length boxes.now) }
    ensures { result ≡ walls_of boxes.now asked n }
{
    let mut walls = [BLANK_WALLS; domain::MOST_BOXES];
    for i in 0..n {
        walls[i] = walls_by(boxes[i], asked);
    }
    walls
}
