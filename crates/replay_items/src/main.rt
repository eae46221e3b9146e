// Replays the sample of items: items placed by a given list of instances, instance lists, the orientations that lines give to
// one, fitness, and unplaced lists.

#![tactic(auto)]

use replay_vectors::{Reader, Tag};

mod records; // records.rt: instance lists, and orientations for one
mod placed; // placed.rt: items placed in the given order and orientations
mod words; // words.rt: lists of numbers in the sample

fn same_fitness(mut from: Reader) -> bool {
    let placed = from.size();
    let total = from.size();
    let (refused, value) = match layer_fitness::packing_fitness(placed, total, from.float()) {
        Ok(value) => (0, value),
        Err(refusal) => (refusal.number(), 0.0),
    };
    from.word() == refused && from.is_float(value) && from.ends()
}

fn same_unplaced(mut from: Reader) -> bool {
    let Ok(left) = plan_unplaced::unplaced_list(from.counted()) else {
        return false;
    };
    let count = from.size() == left.count;
    let ids = replay_results::same_numbers(&mut from, &left.ids, left.count);
    count && ids && from.ends()
}

fn one(tag: Tag, body: &[u8]) -> bool {
    let from = Reader::new(body);
    match tag {
        Tag::Items => placed::same_items(from),
        Tag::Instances => records::same_instances(from),
        Tag::Seeds => records::same_seeds(from),
        Tag::Fitness => same_fitness(from),
        Tag::Unplaced => same_unplaced(from),
        _ => false,
    }
}

fn main(rt: HostRuntime) {
    replay_vectors::replay(&rt, "items", one);
}
