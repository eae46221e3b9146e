// A sheet's records as bytes, section by section.
ghost use Rattle.std.specs.Prelude.{◌≡◌, ℕ, List, ◌+◌, ◌*◌, ◌≤◌, length, get_or};
ghost use Rattle.sheet.specs.Accepted.{Few};
ghost use Rattle.lists.specs.Below.{all_below};
ghost use Rattle.file_bytes.specs.Bytes.{u32_out};
ghost use Rattle.file_bytes.specs.Stores.{Put};
ghost use Rattle.file_read.specs.Form.{block_bytes, kind_bytes, line_bytes, id_bytes};
ghost use Rattle.file_write.specs.Stores.{kind_length, line_length, id_length};
ghost use Rattle.file_write.specs.Writing.{container_out, kind_out, line_out, trailer_out, file_length, trailer_from, file_of};

use file_read::layout;
use measures::{Container, Kind};
use sheet::{Counts, Line, Sheet};

fn put_container(out: &mut [u8], c: Container)
    requires { block_bytes ≤ length out.old }
    ensures { Put out.old 0 (container_out c) out.new }
{
    file_bytes::put_f64(out, layout::BLOCK_WIDTH, c.size[0]);
    file_bytes::put_f64(out, layout::BLOCK_DEPTH, c.size[1]);
    file_bytes::put_f64(out, layout::BLOCK_HEIGHT, c.size[2]);
    file_bytes::put_f64(out, layout::BLOCK_MARGIN, c.margin);
    file_bytes::put_f64(out, layout::BLOCK_SPACING, c.spacing);
    file_bytes::put_f64(out, layout::BLOCK_LIMIT, c.limit);
}

// A record of a load file: it has so many bytes, and is stored where there is room for them.
pub(crate) trait Record: Copy {
    ghost WIDTH: { ℕ };

    ghost bytes: { Self → List ℕ };

    const WIDTH: usize;

    fn put(self, out: &mut [u8], at: usize)
        requires { at + WIDTH ≤ length out.old }
        ensures { Put out.old at (bytes self) out.new };

    ghost long: { (r : Self) → length (bytes r) ≡ WIDTH };
}

impl Record for Kind {
    ghost WIDTH = { kind_bytes };

    ghost bytes = { kind_out };

    const WIDTH: usize = layout::KIND;

    fn put(self, out: &mut [u8], at: usize) {
        file_bytes::put_u32(out, at + layout::KIND_ID, self.id);
        file_bytes::put_u32(out, at + layout::KIND_QUANTITY, self.quantity);
        file_bytes::put_f64(out, at + layout::KIND_WIDTH, self.size[0]);
        file_bytes::put_f64(out, at + layout::KIND_DEPTH, self.size[1]);
        file_bytes::put_f64(out, at + layout::KIND_HEIGHT, self.size[2]);
        file_bytes::put_f64(out, at + layout::KIND_MASS, self.mass);
        file_bytes::put_byte(out, at + layout::KIND_RULE, self.rule);
        file_bytes::put_byte(out, at + layout::KIND_MASSED, self.massed);
        file_bytes::put_u16(out, at + layout::KIND_FILLER, self.filler);
    }

    ghost long = { kind_length };
}

impl Record for Line {
    ghost WIDTH = { line_bytes };

    ghost bytes = { line_out };

    const WIDTH: usize = layout::LINE;

    fn put(self, out: &mut [u8], at: usize) {
        file_bytes::put_u32(out, at + layout::LINE_ID, self.id);
        file_bytes::put_u32(out, at + layout::LINE_INSTANCE, self.instance);
        file_bytes::put_u32(out, at + layout::LINE_ORIENTATION, self.orientation);
        file_bytes::put_u32(out, at + layout::LINE_BIN, self.bin);
        file_bytes::put_f64(out, at + layout::LINE_X, self.at[0]);
        file_bytes::put_f64(out, at + layout::LINE_Y, self.at[1]);
        file_bytes::put_f64(out, at + layout::LINE_Z, self.at[2]);
    }

    ghost long = { line_length };
}

// An unplaced id.
impl Record for u32 {
    ghost WIDTH = { id_bytes };

    ghost bytes = { u32_out };

    const WIDTH: usize = layout::ID;

    fn put(self, out: &mut [u8], at: usize) {
        file_bytes::put_u32(out, at, self);
    }

    ghost long = { id_length };
}

// The records of a section one after the other.
pub(crate) fn put_all<T: Record>(out: &mut [u8], at: usize, records: &[T])
    requires { at + length records.now * T.WIDTH ≤ length out.old }
    ensures { (d : T) → Put out.old at
        (all_below (λ k. T.bytes (get_or records.now k d)) (length records.now)) out.new }
{
    for (i, record) in records.iter().enumerate() {
        record.put(out, at + i * T::WIDTH);
    }
}

// A line at its place.
pub(crate) fn put_line(out: &mut [u8], at: usize, line: Line)
    requires { at + line_bytes ≤ length out.old }
    ensures { Put out.old at (line_out line) out.new }
{
    line.put(out, at);
}

// The trailer of a sheet with these counts, at its place.
pub(crate) fn put_trailer(out: &mut [u8], many: Counts)
    requires { Few many × (file_length many ≤ length out.old) }
    ensures { Put out.old (trailer_from many) (trailer_out many) out.new }
{
    let l = layout::BLOCK + many.kinds * layout::KIND;
    let u = l + many.lines * layout::LINE;
    let t = u + many.unplaced * layout::ID;
    file_bytes::put_u32(out, t + layout::TRAILER_KINDS, layout::BLOCK as u32);
    file_bytes::put_u32(out, t + layout::TRAILER_LINES, l as u32);
    file_bytes::put_u32(out, t + layout::TRAILER_UNPLACED, u as u32);
    file_bytes::put_u32(out, t + layout::TRAILER_START, t as u32);
    file_bytes::put_u16(out, t + layout::TRAILER_FORM, layout::FORM);
    file_bytes::put_byte(out, t + layout::TRAILER_L, layout::LETTER_L);
    file_bytes::put_byte(out, t + layout::TRAILER_S, layout::LETTER_S);
}

// The length of the file of a sheet with these counts.
pub(crate) fn file_length(many: Counts) -> usize
    requires { Few many }
    ensures { result ≡ file_length many }
{
    layout::BLOCK
        + many.kinds * layout::KIND
        + many.lines * layout::LINE
        + many.unplaced * layout::ID
        + layout::TRAILER
}

// The whole file of a sheet that is not refused, where there is room for it.
pub(crate) fn put_sheet(out: &mut [u8], s: Sheet)
    requires { Few s.many × (file_length s.many ≤ length out.old) }
    ensures { Put out.old 0 (file_of s) out.new }
{
    let many = s.many;
    let l = layout::BLOCK + many.kinds * layout::KIND;
    let u = l + many.lines * layout::LINE;
    put_container(out, s.container);
    put_all(out, layout::BLOCK, &s.kinds[..many.kinds]);
    put_all(out, l, &s.lines[..many.lines]);
    put_all(out, u, &s.unplaced[..many.unplaced]);
    put_trailer(out, many);
}
