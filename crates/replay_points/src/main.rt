// Replays the sample of the extreme-point placer's runs: placements, counts and utilization, with as many words lent as they
// need, with more, and with one less.

#![tactic(auto)]

use replay_vectors::{Reader, Tag};

fn same_run(mut from: Reader) -> bool {
    let order = from.counted();
    let consider = u64::from(from.word());
    replay_results::is_answered(from, |words| {
        plan_run::run_ep_packing(order, consider, words)
    })
}

fn one(tag: Tag, body: &[u8]) -> bool {
    match tag {
        Tag::Points => same_run(Reader::new(body)),
        _ => false,
    }
}

fn main(rt: HostRuntime) {
    replay_vectors::replay(&rt, "points", one);
}
