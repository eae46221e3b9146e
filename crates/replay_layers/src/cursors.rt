// Cursors in the sample, and the spot that a box gets at any of them.
use layer_cursor::LayerCursor;
use layer_state::Stand;
use replay_vectors::Reader;

// The cursor that comes next: x, y, z, row depth and layer height.
fn read_cursor(from: &mut Reader) -> LayerCursor {
    let [x, y, z] = from.three();
    let depth = from.float();
    let height = from.float();
    LayerCursor {
        x,
        y,
        z,
        depth,
        height,
    }
}

// Whether the cursor that comes next is c.
pub(crate) fn is_cursor(from: &mut Reader, c: LayerCursor) -> bool {
    let place = from.is_three([c.x, c.y, c.z]);
    let depth = from.is_float(c.depth);
    let height = from.is_float(c.height);
    place && depth && height
}

// A cursor and a box's lengths, and the spot that is expected for it.
pub(crate) fn same_spot(mut from: Reader) -> bool {
    let Ok(sheet) = replay_vectors::read_sheet(&mut from) else {
        return false;
    };
    let container = sheet.container;
    let cursor = read_cursor(&mut from);
    let size = from.three();
    let spot = layer_cursor::spot(container, Stand::new(container).max, cursor, size);
    let (fits, at, next) = match spot {
        Some(spot) => {
            let at = spot.at;
            (1, at, spot.next)
        }
        None => (0, [0.0; 3], cursor),
    };
    let expected = from.word() == fits;
    let there = from.is_three(at);
    let after = is_cursor(&mut from, next);
    expected && there && after && from.ends()
}
