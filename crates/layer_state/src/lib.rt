// The layer fill without its placements, for `layer_fill` and `layer_plan`, which hold the lines beside it. Its calls take every stand and every
// kind and test neither, as what they compute is settled for each: users call the fill, which refuses.

#![tactic(auto)]

mod best;
mod stand;

pub use best::Best;
pub use stand::{Stand, Step};
