// Given items of a load file's order, in the given order and orientations, each an instance of a given list.
ghost use Rattle.std.specs.Prelude.{◌<◌, ◌≤◌, length};
ghost use Rattle.file_read.specs.Reading.{sheet_of};
ghost use Rattle.layer_plan.specs.Offers.{item_offer};
ghost use Rattle.plan_sheet.specs.Laid.{Lays};
ghost use Rattle.plan_sheet.specs.Room.{fitting};
ghost use Rattle.layer_plan.specs.Laid.{Shows};
ghost use Rattle.layer_plan.specs.Items.{Fit, Tries, fill_over, items_in};

use crate::lay::{after, put_line};
use domain::{Refusal, refuse};
use file_read::records;
use layer_instances::RECORD;
use layer_state::{Stand, Step};
use plan_sheet::Told;
use sheet::Line;

// Words of an item: place in the records, orientation.
const ITEM: usize = 2;

// What an item comes to: its step, if it is placed, and the id and instance of its line.
#[derive(Clone, Copy)]
struct Tried {
    step: Option<Step>,
    id: u32,
    instance: u32,
}

// Offers item j: the instance that its place names, turned by its orientation modulo the record's own count. An item past the records is skipped.
fn try_item(f: &[u8], stand: Stand, records: &[u32], items: &[u32], n: usize, j: usize) -> Tried
    requires { Fit f.now records.now items.now n × (j < n) }
    ensures { Tries stand (sheet_of f.now).kinds (item_offer records.now items.now j) result.step result.id result.instance }
{
    let i = j * ITEM;
    let p = items[i] as usize;
    let o = items[i + 1];
    if p < records.len() / RECORD {
        let at = p * RECORD;
        let k = records[at] as usize;
        let instance = records[at + 1];
        let count = records[at + 2].max(1);
        let kind = records::kind_in(f, k);
        let step = stand.place(kind, o % count);
        return Tried {
            step,
            id: kind.id,
            instance,
        };
    }
    Tried {
        step: None,
        id: 0,
        instance: 0,
    }
}

// The first n items into lent memory.
fn lay_each(f: &[u8], records: &[u32], items: &[u32], n: usize, lines: &mut [Line]) -> Told
    requires { Fit f.now records.now items.now n × (n ≤ length lines.old) }
    ensures { Shows (fill_over (sheet_of f.now) records.now items.now n) n result lines.old lines.new }
{
    let container = records::container_in(f);
    let mut stand = Stand::new(container);
    let mut held = 0;
    for j in 0..n {
        let t = try_item(f, stand, records, items, n, j);
        let s = t.step;
        held = put_line(s, t.id, t.instance, held, lines);
        stand = after(stand, s);
    }
    Told {
        considered: n as u64,
        placed: held,
        utilization: stand.utilization(),
    }
}

// Items into lent memory, as far as `consider` goes: the lines behind them as they were. Refused by 1 for the shape, 2 for too many items
// or records, what else the file gets, 9 for a record of no kind of it, 6 where there are fewer lines than items considered.
pub fn lay_items(
    order: &[u8],
    records: &[u32],
    items: &[u32],
    consider: u64,
    lines: &mut [Line],
) -> Result<Told, Refusal>
    ensures { Lays (fitting lines.old (items_in order.now records.now items.now consider)) result lines.old lines.new }
{
    let many = items.len() / ITEM;
    if (many > domain::MOST_ITEMS) | (records.len() / RECORD > domain::MOST_INSTANCES) {
        return Err(layer_instances::too_many(order));
    }
    let a = file_accept::accept(order)?;
    let stranger = layer_instances::has_stranger(records, a.kinds);
    refuse(stranger, Refusal::Stranger)?;
    let n = consider.min(many as u64) as usize;
    refuse(lines.len() < n, Refusal::Room(n))?;
    Ok(lay_each(order, records, items, n, lines))
}
