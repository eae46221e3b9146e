// Instance lists of orders, and the orientations that a sheet's lines give to a list, with as many numbers lent as they need,
// with more, and with one less.
ghost use Rattle.std.specs.Prelude.{◌≤◌};

use crate::words;
use domain::Refusal;
use replay_vectors::Reader;

// What stands in lent numbers that no call is to change.
const UNTOUCHED: u32 = 2779096485;

fn untouched(list: &[u32], from: usize) -> bool {
    list.iter().skip(from).all(|number| *number == UNTOUCHED)
}

// Whether a call is answered as the list that comes next asks, which ends where the case does: it is handed out, or for want of room refused with
// the count. So many numbers stand for each that is counted.
fn is_answered<F: Fn(&mut [u32]) -> Result<usize, Refusal>>(
    mut from: Reader,
    each: usize,
    call: F,
) -> bool
    requires callable { F.IsAlwaysCallable call }
    requires few { each ≤ 3 }
{
    let count = from.size();
    let needed = words::numbers_of(count, each);
    let expected = from;
    from.skip(4 * needed);
    for room in replay_vectors::rooms(needed, words::MOST) {
        let mut list = [UNTOUCHED; words::MOST];
        let same = match call(&mut list[..room.min(words::MOST)]) {
            Ok(told) => {
                let handed = begins_with(expected, &list, needed) && untouched(&list, needed);
                needed <= room && told == count && handed
            }
            Err(refusal) => {
                room < needed && refusal == Refusal::Room(count) && untouched(&list, 0)
            }
        };
        if !same {
            return false;
        }
    }
    from.ends()
}

// Whether the next n numbers are the first n of the list.
fn begins_with(mut from: Reader, list: &[u32], n: usize) -> bool {
    replay_results::same_numbers(&mut from, list, n)
}

// Whether a call is refused by this number, and changes nothing.
fn refuses<F: Fn(&mut [u32]) -> Result<usize, Refusal>>(number: u32, call: F) -> bool
    requires { F.IsAlwaysCallable call }
{
    let mut list = [UNTOUCHED; words::MOST];
    call(&mut list).is_err_and(|refusal| refusal.number() == number) && untouched(&list, 0)
}

pub(crate) fn same_instances(mut from: Reader) -> bool {
    let order = from.counted();
    is_answered(from, layer_instances::RECORD, |list| {
        layer_instances::build_instances(order, list)
    })
}

pub(crate) fn same_seeds(mut from: Reader) -> bool {
    let file = from.counted();
    let mut room = [0; words::MOST];
    let records = words::read_list(&mut from, layer_instances::RECORD, &mut room);
    let call = |list: &mut [u32]| layer_seeds::seed_orientations(file, records, list);
    match from.word() {
        0 => is_answered(from, 1, call),
        number => refuses(number, call) && from.ends(),
    }
}
