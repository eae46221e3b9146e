// The parts of a planned sheet that come from the order's bytes and from the plan.
ghost use Rattle.std.specs.Prelude.{◌≡◌, ◌+◌, ◌*◌, ◌≤◌, length};
ghost use Rattle.domain.specs.Bounds.{most_kinds, most_lines};
ghost use Rattle.file_bytes.specs.Bytes.{part};
ghost use Rattle.file_bytes.specs.Stores.{Put};
ghost use Rattle.file_read.specs.Form.{line_bytes, id_bytes};
ghost use Rattle.file_write.specs.Writing.{ids_out, lines_out};

use crate::write;
use file_read::layout;
use sheet::Line;

// The order's bytes up to the end of its kinds, as they are. A byte at a time, as the library's copy of slices asks for a function that a C program
// without a library may lack (memmove).
pub(crate) fn put_head(out: &mut [u8], order: &[u8], end: usize)
    requires { (end ≤ length order.now) × (end ≤ length out.old) }
    ensures { Put out.old 0 (part order.now 0 end) out.new }
{
    for i in 0..end {
        out[i] = order[i];
    }
}

// The first n lines.
pub(crate) fn put_lines(out: &mut [u8], start: usize, lines: &[Line], n: usize)
    requires { (n ≤ most_lines) × (n ≤ length lines.now)
        × (start + n * line_bytes ≤ length out.old) }
    ensures { Put out.old start
        (lines_out lines.now n) out.new }
{
    for i in 0..n {
        write::put_line(out, start + i * layout::LINE, lines[i]);
    }
}

// The ids of what was left.
pub(crate) fn put_left(out: &mut [u8], start: usize, left: &[u32; domain::MOST_KINDS], n: usize)
    requires { (n ≤ most_kinds) × (start + n * id_bytes ≤ length out.old) }
    ensures { Put out.old start (ids_out left.now n) out.new }
{
    for i in 0..n {
        file_bytes::put_u32(out, start + i * layout::ID, left[i]);
    }
}
