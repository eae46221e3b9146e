// Every box of the order in a load file, one after the other, each in its best orientation.
ghost use Rattle.std.specs.Prelude.{◌≤◌, length};
ghost use Rattle.file_read.specs.Reading.{sheet_of};
ghost use Rattle.plan_boxes.specs.Files.{InFile};
ghost use Rattle.plan_sheet.specs.Laid.{plan_in, Lays};
ghost use Rattle.plan_sheet.specs.Room.{fitting};
ghost use Rattle.layer_plan.specs.Laid.{fill_by, Shows};
ghost use Rattle.layer_plan.specs.Fills.{layer_fill_of};

use crate::lay::{after, put_line};
use domain::{Refusal, refuse};
use file_read::records;
use layer_state::Stand;
use plan_boxes::Instance;
use plan_sheet::Told;
use sheet::Line;

// The first n boxes into lent memory.
fn lay_boxes(f: &[u8], n: usize, lines: &mut [Line]) -> Told
    requires { InFile f.now n × (n ≤ length lines.old) }
    ensures { Shows (fill_by (sheet_of f.now) n) n result lines.old lines.new }
{
    let container = records::container_in(f);
    let mut stand = Stand::new(container);
    let mut u = Instance {
        kind: 0,
        instance: 0,
    };
    let mut held = 0;
    for t in 0..n {
        let k = records::kind_in(f, u.kind);
        let s = stand.place_best(k);
        held = put_line(s, k.id, u.instance, held, lines);
        stand = after(stand, s);
        u = plan_boxes::next_box(u, k.quantity);
    }
    Told {
        considered: n as u64,
        placed: held,
        utilization: stand.utilization(),
    }
}

// The fill by layers of the order in a load file, as far as `consider` goes, into lent memory: the lines behind them as they were.
// Fewer lines than boxes considered are refused by 6.
pub fn lay_layers(order: &[u8], consider: u64, lines: &mut [Line]) -> Result<Told, Refusal>
    ensures { Lays (fitting lines.old (plan_in layer_fill_of order.now consider)) result lines.old lines.new }
{
    let a = file_accept::accept(order)?;
    let n = consider.min(plan_boxes::boxes_of(order, a.kinds)) as usize;
    refuse(lines.len() < n, Refusal::Room(n))?;
    Ok(lay_boxes(order, n, lines))
}
