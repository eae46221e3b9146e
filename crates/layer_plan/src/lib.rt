// The plan that the layer placer makes of the order in a load file, and of given items of it, laid in lent memory (packing_utils.rs,
// `layer_fill_in_order` and `layer_place_items`).

#![tactic(auto)]

mod items;
mod lay;
mod order;

pub use items::lay_items;
pub use order::lay_layers;
