// Replays the sample of the extreme-point placer's state: calls of `try_place`, the points stored after them, and pairs of
// boxes that overlap or don't.

#![tactic(auto)]

use point_state::PlacedBox;
use replay_vectors::{Reader, Tag};

mod calls; // calls.rt: a fresh state and the boxes tried in it
mod stored; // stored.rt: the stored points as a multiset

// The box whose near corner and lengths come next.
fn read_box(from: &mut Reader) -> PlacedBox {
    let position = from.three();
    let dimensions = from.three();
    PlacedBox {
        id: 0,
        instance: 0,
        position,
        dimensions,
        mass: None,
    }
}

fn same_overlap(mut from: Reader) -> bool {
    let a = read_box(&mut from);
    let b = read_box(&mut from);
    let expected = from.word();
    point_overlap::overlaps(a, b).is_ok_and(|holds| expected == u32::from(holds)) && from.ends()
}

fn one(tag: Tag, body: &[u8]) -> bool {
    let from = Reader::new(body);
    match tag {
        Tag::PointsState => calls::same_calls(from),
        Tag::Overlaps => same_overlap(from),
        _ => false,
    }
}

fn main(rt: HostRuntime) {
    replay_vectors::replay(&rt, "points_state", one);
}
