// The layer placer's cursor, and where a box would go next (packing_utils.rs, `LayerCursor` and `spot`). There is no slack anywhere.

#![tactic(auto)]

ghost use Rattle.std.specs.Prelude.{◌≡◌};
ghost use Rattle.layer_cursor.specs.Spot.{new_row, new_layer, over, spot_of};

use measures::Container;

// The next spot in the open row, the depth of that row, and the height of the open layer.
#[derive(Clone, Copy)]
pub struct LayerCursor {
    pub x: f64,
    pub y: f64,
    pub z: f64,
    pub depth: f64,
    pub height: f64,
}

// A spot that a box can take, and the cursor after it.
#[derive(Clone, Copy)]
pub struct LayerSpot {
    pub at: [f64; 3],
    pub next: LayerCursor,
}

// The cursor on a new row, where a box of this width runs over the open one.
#[tactic(auto, unfolding(crate::specs::Spot::new_row))]
fn new_row(container: Container, max: [f64; 3], c: LayerCursor, width: f64) -> LayerCursor
    ensures { result ≡ new_row container max c width }
{
    if c.x + width > max[0] {
        return LayerCursor {
            x: container.margin,
            y: c.y + (c.depth + container.spacing),
            z: c.z,
            depth: 0.0,
            height: c.height,
        };
    }
    c
}

// The cursor on a new layer, where a box of this depth runs over the open one.
#[tactic(auto, unfolding(crate::specs::Spot::new_layer))]
fn new_layer(container: Container, max: [f64; 3], c: LayerCursor, depth: f64) -> LayerCursor
    ensures { result ≡ new_layer container max c depth }
{
    if c.y + depth > max[1] {
        let none = 0.0;
        return LayerCursor {
            x: container.margin,
            y: container.margin,
            z: c.z + (c.height + container.spacing),
            depth: none,
            height: none,
        };
    }
    c
}

// Whether a box that stands at the cursor is over the far limit on some axis.
fn over(max: [f64; 3], c: LayerCursor, size: [f64; 3]) -> bool
    ensures { result ≡ over max c size }
{
    (c.x + size[0] > max[0]) | ((c.y + size[1] > max[1]) | (c.z + size[2] > max[2]))
}

// Where a box of these lengths would go next; none where it fits nowhere, and the cursor stays as the caller has it. `max` has the far limit of each
// axis. For every float given the answer is settled, so nothing is tested: a user calls `layer_fill` or `layer_lent`, which refuse.
#[tactic(auto, unfolding(crate::specs::Spot::spot_of))]
pub fn spot(
    container: Container,
    max: [f64; 3],
    cursor: LayerCursor,
    size: [f64; 3],
) -> Option<LayerSpot>
    ensures { result ≡ spot_of container max cursor size }
{
    let row = new_row(container, max, cursor, size[0]);
    let c = new_layer(container, max, row, size[1]);
    if over(max, c, size) {
        return None;
    }
    let next = LayerCursor {
        x: c.x + size[0] + container.spacing,
        y: c.y,
        z: c.z,
        depth: floats::larger(c.depth, size[1]),
        height: floats::larger(c.height, size[2]),
    };
    Some(LayerSpot {
        at: [c.x, c.y, c.z],
        next,
    })
}
