// Little-endian numbers in bytes: read at a place, and stored there. Every call takes every input: a byte past the end reads as 0, and a
// number that has no room is not stored.

#![tactic(auto)]

ghost use Rattle.std.specs.Prelude.{◌≡◌, ◌+◌, ◌*◌};
ghost use Rattle.std.specs.Float.{binary64};
ghost use Rattle.std.specs.Float.Ieee.{of_bits};
ghost use Rattle.file_bytes.specs.Bytes.{number_at, byte_at, u16_at, u32_at, u64_at, f64_at, u16_out, u32_out, u64_out, f64_out, byte_out};
ghost use Rattle.file_bytes.specs.Stores.{stored};

// Bytes of a field: one byte, a u16, a u32, an f64.
pub const BYTE: usize = 1;

pub const HALF: usize = 2;

pub const WORD: usize = 4;

pub const FLOAT: usize = 8;

// N bytes that make the number in the N bytes from `at`: those bytes, and 0 past the end.
fn bytes_at<const N: usize>(s: &[u8], at: usize) -> [u8; N]
    ensures { number_at N result 0 ≡ number_at N s.now at }
{
    let Some(rest) = s.get(at..) else {
        return [0; N];
    };
    if let Some(all) = rest.first_chunk() {
        return *all;
    }
    let mut bytes = [0; N];
    bytes[..rest.len()].copy_from_slice(rest);
    bytes
}

// The byte there.
pub fn byte_at(s: &[u8], at: usize) -> u8
    ensures { result ≡ byte_at s.now at }
{
    s.get(at).copied().unwrap_or(0)
}

// The number in the two bytes from `at`.
pub fn u16_at(s: &[u8], at: usize) -> u16
    ensures { result ≡ u16_at s.now at }
{
    u16::from_le_bytes(bytes_at(s, at))
}

// The number in four bytes. Straight-line code, for whoever knows that they are there.
pub fn u32_of(b: [u8; 4]) -> u32
    ensures { result ≡ u32_at b 0 }
{
    u32::from_le_bytes(b)
}

// The float whose bits have these halves.
pub fn f64_of(low: u32, high: u32) -> f64
    ensures { result ≡ of_bits binary64 (low + high * 4294967296) }
{
    floats::of_bits(u64::from(low) + (u64::from(high) << 32))
}

// The number in the four bytes from `at`.
pub fn u32_at(s: &[u8], at: usize) -> u32
    ensures { result ≡ u32_at s.now at }
{
    u32::from_le_bytes(bytes_at(s, at))
}

// The number in the eight bytes from `at`.
pub fn u64_at(s: &[u8], at: usize) -> u64
    ensures { result ≡ u64_at s.now at }
{
    u64::from_le_bytes(bytes_at(s, at))
}

// The float that has the eight bytes from `at` as its bits.
pub fn f64_at(s: &[u8], at: usize) -> f64
    ensures { result ≡ f64_at s.now at }
{
    floats::of_bits(u64_at(s, at))
}

// Stores bytes.
fn put<const N: usize>(out: &mut [u8], at: usize, bytes: [u8; N])
    ensures { out.new ≡ stored out.old at bytes.entry }
{
    if N <= out.len() && at <= out.len() - N {
        out[at..at + N].copy_from_slice(&bytes);
    }
}

// Stores a byte.
pub fn put_byte(out: &mut [u8], at: usize, x: u8)
    ensures { out.new ≡ stored out.old at (byte_out x) }
{
    put(out, at, [x]);
}

// Stores a number as two bytes.
pub fn put_u16(out: &mut [u8], at: usize, x: u16)
    ensures { out.new ≡ stored out.old at (u16_out x) }
{
    put(out, at, x.to_le_bytes());
}

// Stores a number as four bytes.
pub fn put_u32(out: &mut [u8], at: usize, x: u32)
    ensures { out.new ≡ stored out.old at (u32_out x) }
{
    put(out, at, x.to_le_bytes());
}

// Stores a number as eight bytes.
pub fn put_u64(out: &mut [u8], at: usize, x: u64)
    ensures { out.new ≡ stored out.old at (u64_out x) }
{
    put(out, at, x.to_le_bytes());
}

// Stores a float's bits.
pub fn put_f64(out: &mut [u8], at: usize, x: f64)
    ensures { out.new ≡ stored out.old at (f64_out x) }
{
    put_u64(out, at, floats::bits_of(x));
}
