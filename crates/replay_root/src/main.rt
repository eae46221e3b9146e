// Replays the sample of square roots, bit by bit.

#![tactic(auto)]

use replay_vectors::{Reader, Tag};

// Whether the root of each float is the one beside it.
fn same_roots(mut from: Reader) -> bool {
    let n = from.word();
    let same = (0..n).all(|_| {
        let x = from.float();
        from.is_float(check_root::sqrt(x))
    });
    same && from.ends()
}

fn one(tag: Tag, body: &[u8]) -> bool {
    match tag {
        Tag::Root => same_roots(Reader::new(body)),
        _ => false,
    }
}

fn main(rt: HostRuntime) {
    replay_vectors::replay(&rt, "root", one);
}
