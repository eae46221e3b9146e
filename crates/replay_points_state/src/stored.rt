// The stored points held against a list of points, as multisets: each listed point is stored as often as it is listed.
use replay_vectors::Reader;

// Whether this point comes next.
fn is_point(mut from: Reader, point: [f64; 3]) -> bool {
    from.is_three(point)
}

// How often the point that comes next is among the first `live` that are stored.
fn times_stored(from: Reader, points: &[[f64; 3]], live: usize) -> usize {
    points
        .iter()
        .take(live)
        .filter(|point| is_point(from, **point))
        .count()
}

// How often this point is among the next n.
fn times_listed(mut list: Reader, n: u32, point: [f64; 3]) -> usize {
    (0..n).filter(|_| list.is_three(point)).count()
}

// Whether the `live` stored points are the next n.
pub(crate) fn same_points(list: Reader, n: u32, points: &[[f64; 3]], live: usize) -> bool {
    let mut from = list;
    n as usize == live
        && (0..n).all(|_| {
            let stored = times_stored(from, points, live);
            times_listed(list, n, from.three()) == stored
        })
}
