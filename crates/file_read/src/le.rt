// Numbers in a record that lies within the bytes: one test for the whole record, none for its fields.
ghost use Rattle.std.specs.Prelude.{◌≡◌, ◌+◌, ◌≤◌, length};
ghost use Rattle.file_bytes.specs.Bytes.{u32_at, f64_at};

pub(crate) fn word(s: &[u8], at: usize) -> u32
    requires { at + 4 ≤ length s.now }
    ensures { result ≡ u32_at s.now at }
{
    file_bytes::u32_of([s[at], s[at + 1], s[at + 2], s[at + 3]])
}

pub(crate) fn float(s: &[u8], at: usize) -> f64
    requires { at + 8 ≤ length s.now }
    ensures { result ≡ f64_at s.now at }
{
    let low = word(s, at);
    let high = word(s, at + file_bytes::WORD);
    file_bytes::f64_of(low, high)
}
