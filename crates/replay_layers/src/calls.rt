// A new fill of an order's container, the boxes offered to it one by one, and where the cursor is after each.
use crate::cursors::is_cursor;
use domain::Refusal;
use layer_fill::LayerFill;
use measures::Kind;
use replay_vectors::Reader;
use sheet::{Line, Sheet};

// The orientation that stands for `place_best`.
const BEST: u32 = u32::MAX;

// What is expected of a call on a full fill: this refusal, and nothing moved.
const FULL: u32 = 7;

fn offered(
    fill: LayerFill,
    kind: Kind,
    instance: u32,
    orientation: u32,
) -> Result<Option<LayerFill>, Refusal> {
    if orientation == BEST {
        return fill.place_best(kind, instance);
    }
    fill.place(kind, instance, orientation)
}

// The line placed last, or the first place for one where there is none.
fn last_line(fill: &LayerFill) -> Line {
    let last = fill.count.saturating_sub(1);
    fill.lines.get(last).copied().unwrap_or(fill.lines[0])
}

// Whether the line placed last is this box, in the orientation and at the point that come next.
fn is_last(mut from: Reader, fill: &LayerFill, id: u32, instance: u32) -> bool {
    let last = last_line(fill);
    let who = last.id == id && last.instance == instance && last.bin == 0;
    who && from.word() == last.orientation && from.is_three(last.at)
}

// One call: a kind's place, an instance and an orientation, then what is expected. Whether that comes; the fill is moved on to the one after it.
fn call(from: &mut Reader, sheet: &Sheet, fill: &mut LayerFill) -> bool {
    let kind = replay_vectors::kind_of(sheet, from.size());
    let instance = from.word();
    let orientation = from.word();
    let took = from.word();
    let place = *from;
    from.skip(28);
    let same = match offered(*fill, kind, instance, orientation) {
        Ok(Some(next)) => {
            *fill = next;
            took == 1 && is_last(place, fill, kind.id, instance)
        }
        Ok(None) => took == 0,
        Err(refusal) => took == FULL && refusal == Refusal::Full,
    };
    let moved = is_cursor(from, fill.stand.cursor);
    same && moved
}

// All the calls on this fill. Whether each is as expected. It stands by itself, so that the fills that it hands on take no stack while the sheet is read.
#[inline(never)]
fn run(from: &mut Reader, sheet: &Sheet, fill: &mut LayerFill) -> bool {
    for _ in 0..from.word() {
        if !call(from, sheet, fill) {
            return false;
        }
    }
    true
}

// Whether what is expected after all calls comes next, or the refusal of a fill over its bound.
fn same_end(from: &mut Reader, fill: &LayerFill) -> Result<bool, Refusal> {
    let placed = from.size() == fill.placed()?;
    let full = from.is_float(fill.utilization()?);
    let volume = from.is_float(fill.stand.volume);
    let mass = from.is_float(fill.stand.mass);
    Ok(placed && full && volume && mass)
}

pub(crate) fn same_calls(mut from: Reader) -> bool {
    let Ok(sheet) = replay_vectors::read_sheet(&mut from) else {
        return false;
    };
    let Ok(mut fill) = LayerFill::new(sheet.container) else {
        return false;
    };
    run(&mut from, &sheet, &mut fill) && same_end(&mut from, &fill) == Ok(true) && from.ends()
}
