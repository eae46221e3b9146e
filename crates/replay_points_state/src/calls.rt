// A fresh state of an order's container, the boxes tried in it one by one, and what is stored at the end.
use crate::stored;
use domain::Refusal;
use point_place::Tried;
use point_state::{ExtremePointSet, PlacedBox};
use replay_vectors::Reader;
use sheet::Sheet;

// What is expected of a call on a full placer: this refusal, and nothing moved.
const FULL: u32 = 7;

// The box placed last.
fn last_box(set: &ExtremePointSet) -> Option<PlacedBox> {
    let placed = point_reads::placed_count(*set).ok()?;
    point_reads::placed_box(*set, placed.checked_sub(1)?).ok()?
}

// Whether the box placed last is this one, at the point that comes next.
fn is_last(mut from: Reader, set: &ExtremePointSet, id: u32, instance: u32) -> bool {
    last_box(set).is_some_and(|last| {
        last.id == id && last.instance == instance && from.is_three(last.position)
    })
}

// Whether the answer is what is expected.
fn same_answer(from: &mut Reader, tried: &Tried, id: u32, instance: u32) -> bool {
    let took = from.word();
    let place = *from;
    let (same, at) = match tried.answer {
        Ok(Some(at)) => (took == 1 && is_last(place, &tried.next, id, instance), at),
        Ok(None) => (took == 0, [0.0; 3]),
        Err(refusal) => (took == FULL && refusal == Refusal::Full, [0.0; 3]),
    };
    let there = from.is_three(at);
    let live = from.size();
    same && there && point_reads::len(tried.next) == Ok(live)
}

// One call: a kind's place, an instance and an orientation, then what is expected. Whether that comes; the state is moved on to the one after it.
fn call(from: &mut Reader, sheet: &Sheet, set: &mut ExtremePointSet) -> bool {
    let kind = replay_vectors::kind_of(sheet, from.size());
    let instance = from.word();
    let orientation = from.word();
    let tried = point_place::try_place(*set, kind, instance, orientation);
    *set = tried.next;
    same_answer(from, &tried, kind.id, instance)
}

// All the calls on this state. Whether each is as expected.
fn run(from: &mut Reader, sheet: &Sheet, set: &mut ExtremePointSet) -> bool {
    for _ in 0..from.word() {
        if !call(from, sheet, set) {
            return false;
        }
    }
    true
}

// Whether what is expected after all calls comes next, or the refusal of a state over its bounds.
fn same_end(from: &mut Reader, set: &ExtremePointSet) -> Result<bool, Refusal> {
    let placed = from.size() == point_reads::placed_count(*set)?;
    let filled = from.is_float(point_totals::total_volume(*set)?);
    let heavy = from.is_float(point_totals::total_mass(*set)?);
    let n = from.word();
    let empty = point_reads::is_empty(*set)? == (n == 0);
    let held = stored::same_points(*from, n, &set.points, point_reads::len(*set)?);
    from.skip(24 * n as usize);
    Ok(placed && filled && heavy && held && empty)
}

pub(crate) fn same_calls(mut from: Reader) -> bool {
    let Ok(sheet) = replay_vectors::read_sheet(&mut from) else {
        return false;
    };
    let Ok(mut set) = point_state::new(sheet.container) else {
        return false;
    };
    run(&mut from, &sheet, &mut set) && same_end(&mut from, &set) == Ok(true) && from.ends()
}
