// Items placed in the given order and orientations, each an instance of a given list, with as many words lent as the result
// needs, with more, and with one less.
use crate::words;
use replay_vectors::Reader;

pub(crate) fn same_items(mut from: Reader) -> bool {
    let order = from.counted();
    let mut first = [0; words::MOST];
    let records = words::read_list(&mut from, layer_instances::RECORD, &mut first);
    let mut second = [0; words::MOST];
    let items = words::read_list(&mut from, words::ITEM, &mut second);
    let consider = u64::from(from.word());
    let call = |out: &mut [u64]| plan_run::layer_place_items(order, records, items, consider, out);
    match from.word() {
        0 => replay_results::is_answered(from, call),
        number => replay_results::refuses(number, call) && from.ends(),
    }
}
