// The choice of a point (extreme_point.rs: `fits_at`, the pops of `try_place`): of the stored points at which a box fits, the
// least.

#![tactic(auto)]

mod around; // around.rt: the walls of the placed boxes
mod choose; // choose.rt: the least stored point at which a box fits
mod fit; // fit.rt: whether a box fits at a point

pub use around::put_walls;
pub use choose::{best, scan};

// The walls of a placed box: what is past the far one or before the near one on some axis is apart from it.
#[derive(Clone, Copy)]
pub struct Walls {
    pub far: [f64; 3],
    pub near: [f64; 3],
}

// A store's walls before one is stored.
pub const BLANK_WALLS: Walls = Walls {
    far: [0.0, 0.0, 0.0],
    near: [0.0, 0.0, 0.0],
};

// The answer of the fit test: whether the box fits, and a box that is worth asking first the next time.
#[derive(Clone, Copy)]
struct Fitted {
    passes: bool,
    block: u16,
}
