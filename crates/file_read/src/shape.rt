// The shape of a load file: its length, the starts that its trailer points back to, its form and last bytes. The trailer is read once.
ghost use Rattle.std.specs.Prelude.{◌≡◌, ◌≤◌};
ghost use Rattle.file_read.specs.Form.{trailer_bytes, block_bytes, placed, whole};

use crate::layout::{BLOCK, FORM, ID, KIND, LETTER_L, LETTER_S, LINE, MOST_BYTES, TRAILER};

pub(crate) fn is_placed(
    n: usize,
    k: usize,
    l: usize,
    u: usize,
    t: usize,
    form: u16,
    a: u8,
    b: u8,
) -> bool
    requires { trailer_bytes ≤ n }
    ensures { result ≡ placed n k l u t form a b }
{
    (n <= MOST_BYTES)
        & (k == BLOCK)
        & (k <= l)
        & (l <= u)
        & (u <= t)
        & (t == n - TRAILER)
        & (form == FORM)
        & (a == LETTER_L)
        & (b == LETTER_S)
}

pub(crate) fn is_whole(l: usize, u: usize, t: usize) -> bool
    requires { (block_bytes ≤ l) × ((l ≤ u) × (u ≤ t)) }
    ensures { result ≡ whole l u t }
{
    ((l - BLOCK) % KIND == 0) & ((u - l) % LINE == 0) & ((t - u) % ID == 0)
}
