// Replays the sample of the layer placer: whole fills, calls of `place` and `place_best` one by one, and spots at any cursor.

#![tactic(auto)]

use replay_vectors::{Reader, Tag};

mod calls; // calls.rt: a new fill and the boxes offered to it
mod cursors; // cursors.rt: cursors, and the spot at any of them

// Whole fills: the boxes of an order in listing order, as far as a number to consider goes, with as many words lent as they
// need, with more, and with one less.
fn same_fill(mut from: Reader) -> bool {
    let order = from.counted();
    let consider = u64::from(from.word());
    replay_results::is_answered(from, |words| {
        plan_run::layer_fill_in_order(order, consider, words)
    })
}

fn one(tag: Tag, body: &[u8]) -> bool {
    let from = Reader::new(body);
    match tag {
        Tag::Layers => same_fill(from),
        Tag::LayersState => calls::same_calls(from),
        Tag::Spot => cursors::same_spot(from),
        _ => false,
    }
}

fn main(rt: HostRuntime) {
    replay_vectors::replay(&rt, "layers", one);
}
