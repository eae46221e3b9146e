// The run of the extreme-point placer over a load file's order (extreme_point.rs, `run_ep_packing`): the file is tested once, the stores are lent to the
// placer in one of two sizes, and each placed box is one of the lent lines.

#![tactic(auto)]

ghost use Rattle.std.specs.Prelude.{◌≡◌, ◌≤◌, length};
ghost use Rattle.domain.specs.Bounds.{most_boxes};
ghost use Rattle.file_read.specs.Reading.{sheet_of};
ghost use Rattle.plan_boxes.specs.Files.{InFile};
ghost use Rattle.plan_sheet.specs.Laid.{plan_in, Lays};
ghost use Rattle.plan_sheet.specs.Room.{fitting};
ghost use Rattle.point_run.specs.Boxes.{Lists, Ready, Asked, boxes_by};
ghost use Rattle.point_run.specs.Lay.{StoresFor, EachIs};
ghost use Rattle.point_run.specs.Runs.{ep_packing_of};
ghost use Rattle.point_run.specs.LayPlan.{stand_told};

use domain::{Refusal, refuse};
use file_read::records;
use measures::Container;
use plan_boxes::Instance;
use plan_sheet::Told;
use point_scan::BLANK_WALLS;
use point_state::{BLANK_SPOT, POINTS};
use sheet::Line;

// The stores of a small order.
const FEW_POINTS: usize = 1 + 2 * domain::FEW_BOXES;

// The first box of every listing.
const FIRST: Instance = Instance {
    kind: 0,
    instance: 0,
};

// How many boxes stand, and their volume.
#[derive(Clone, Copy)]
struct Stand {
    held: usize,
    volume: f64,
}

// The first n boxes of the order, in listing order, and the volume of each.
fn list_boxes(f: &[u8], n: usize, items: &mut [Instance], volumes: &mut [f64])
    requires { InFile f.now n × (n ≤ length items.old) × (n ≤ length volumes.old) }
    ensures { Lists (sheet_of f.now).kinds n items.old volumes.old items.new volumes.new }
{
    let mut u = FIRST;
    for t in 0..n {
        let kind = records::kind_in(f, u.kind);
        items[t] = u;
        let size = kind.size;
        volumes[t] = measures::measure(size);
        u = plan_boxes::next_box(u, kind.quantity);
    }
}

// All boxes of the order listed, and their places by falling volume, of which the first n are asked for. It stands by itself, so that the volumes are off
// the stack when the boxes are laid.
#[inline(never)]
fn sort_boxes<const BOXES: usize>(
    f: &[u8],
    all: usize,
    n: usize,
    items: &mut [Instance],
    places: &mut [usize],
)
    requires { Asked f.now all n × (all ≤ BOXES) × (BOXES ≤ most_boxes) × (all ≤ length items.old) × (all ≤ length places.old) }
    ensures { Ready f.now items.new places.new n }
{
    let mut volumes = [0.0; BOXES];
    list_boxes(f, all, items, &mut volumes);
    point_order::falling(&volumes, all, places);
}

// The first n boxes by falling volume, one after the other, in an empty container with stores of these sizes: each that stands gets a line.
// One like the box before it, which found no place, finds none either: nothing has changed for it.
#[inline(never)]
fn lay_each<const BOXES: usize, const POINTS: usize>(
    f: &[u8],
    c: Container,
    items: &[Instance],
    places: &[usize],
    n: usize,
    lines: &mut [Line],
) -> Stand
    requires { Ready f.now items.now places.now n × StoresFor n BOXES POINTS × (n ≤ length lines.old) }
    ensures { EachIs c (sheet_of f.now).kinds (boxes_by (sheet_of f.now)) n lines.old result lines.new }
{
    let points = &mut [[0.0, 0.0, 0.0]; POINTS];
    let boxes = &mut [BLANK_SPOT; BOXES];
    let walls = &mut [BLANK_WALLS; BOXES];
    let hints = &mut [0u16; POINTS];
    let m = c.margin;
    points[0] = [m, m, m];
    let mut live = 1;
    let mut held = 0;
    let mut last = domain::MOST_KINDS;
    let mut mass = 0.0;
    let mut volume = 0.0;
    for p in &places[..n] {
        let u = items[*p];
        if u.kind == last {
            continue;
        }
        let kind = records::kind_in(f, u.kind);
        let Some(s) = point_step::step(points, boxes, walls, hints, c, live, held, mass, kind)
        else {
            last = u.kind;
            continue;
        };
        last = domain::MOST_KINDS;
        live = s.live;
        let spot = boxes[held];
        let at = spot.position;
        let size = spot.dimensions;
        lines[held] = Line {
            id: kind.id,
            instance: u.instance,
            orientation: s.orientation,
            bin: 0,
            at,
        };
        mass = point_state::mass_with(mass, point_state::mass_of(kind));
        volume = volume + measures::measure(size);
        held += 1;
    }
    Stand { held, volume }
}

// The same of an order of so many boxes, which are listed and sorted first, in tables and stores of these sizes. It stands by itself, so that an order
// touches the stack of its own size alone.
#[inline(never)]
fn lay_in<const BOXES: usize, const POINTS: usize>(
    f: &[u8],
    c: Container,
    all: usize,
    n: usize,
    lines: &mut [Line],
) -> Stand
    requires { Asked f.now all n × (all ≤ BOXES) × (BOXES ≤ most_boxes) × StoresFor n BOXES POINTS × (n ≤ length lines.old) }
    ensures { EachIs c (sheet_of f.now).kinds (boxes_by (sheet_of f.now)) n lines.old result lines.new }
{
    let mut items = [FIRST; BOXES];
    let mut places = [0usize; BOXES];
    sort_boxes::<BOXES>(f, all, n, &mut items, &mut places);
    lay_each::<BOXES, POINTS>(f, c, &items, &places, n, lines)
}

// What is told of the boxes that stand, of so many considered.
fn told_of(stand: Stand, n: usize, c: Container) -> Told
    ensures { result ≡ stand_told stand n c }
{
    let size = c.size;
    Told {
        considered: n as u64,
        placed: stand.held,
        utilization: stand.volume / measures::measure(size),
    }
}

// All boxes of the order in a file, largest first, as far as `consider` goes: the plan's lines, and what is told
// of it. Fewer lines than boxes considered are refused by 6. Where the call is refused no line changes.
pub fn lay_points(order: &[u8], consider: u64, lines: &mut [Line]) -> Result<Told, Refusal>
    ensures { Lays (fitting lines.old (plan_in ep_packing_of order.now consider)) result lines.old lines.new }
{
    let a = file_accept::accept(order)?;
    let all = plan_boxes::boxes_of(order, a.kinds);
    let n = consider.min(all) as usize;
    refuse(lines.len() < n, Refusal::Room(n))?;
    let c = records::container_in(order);
    let all = all as usize;
    if domain::FEW_BOXES < all {
        let stand = lay_in::<{ domain::MOST_BOXES }, POINTS>(order, c, all, n, lines);
        return Ok(told_of(stand, n, c));
    }
    let stand = lay_in::<{ domain::FEW_BOXES }, FEW_POINTS>(order, c, all, n, lines);
    Ok(told_of(stand, n, c))
}
