// A sample's bytes, read field by field from a place on. Numbers are those of `file_bytes`. What lies past the end reads as 0, or as a part that
// is shorter.

#![tactic(auto)]

ghost use Rattle.std.specs.Prelude.{◌≡◌, ◌==◌, length};
ghost use Rattle.file_bytes.specs.Bytes.{u32_at, u64_at, f64_at};
ghost use Rattle.replay_sample.specs.Sample.{beyond, part_of, three_at, same_float, same_three};
ghost use Rattle.replay_sample.specs.Places.{later};

// The n bytes from `at`, or those of them that are there.
fn part(s: &[u8], at: usize, n: usize) -> &[u8]
    ensures { result.now ≡ part_of s.now at n }
{
    let rest = &s[at.min(s.len())..];
    &rest[..n.min(rest.len())]
}

// A place in a sample's bytes. Each read moves it past what was read.
#[derive(Clone, Copy)]
pub struct Reader<'a> {
    pub bytes: &'a [u8],
    pub at: usize,
}

impl<'a> Reader<'a> {
    // At the first byte.
    pub fn new(bytes: &'a [u8]) -> Reader<'a>
        ensures bytes { result.bytes.now ≡ bytes.now }
        ensures at { result.at ≡ 0 }
    {
        Reader { bytes, at: 0 }
    }

    // Moves n bytes further on.
    pub fn skip(&mut self, n: usize)
        ensures { self.new ≡ later self.old n }
    {
        self.at = self.at.wrapping_add(n);
    }

    // A number of 32 bits.
    pub fn word(&mut self) -> u32
        ensures value { result ≡ u32_at self.old.bytes.now self.old.at }
        ensures moved { self.new ≡ later self.old 4 }
    {
        let x = file_bytes::u32_at(self.bytes, self.at);
        self.skip(file_bytes::WORD);
        x
    }

    // A number of 64 bits.
    pub fn long(&mut self) -> u64
        ensures value { result ≡ u64_at self.old.bytes.now self.old.at }
        ensures moved { self.new ≡ later self.old 8 }
    {
        let x = file_bytes::u64_at(self.bytes, self.at);
        self.skip(file_bytes::FLOAT);
        x
    }

    // A number of 32 bits that counts something.
    pub fn size(&mut self) -> usize
        ensures value { result ≡ u32_at self.old.bytes.now self.old.at }
        ensures moved { self.new ≡ later self.old 4 }
    {
        self.word() as usize
    }

    // The float that has the next eight bytes as its bits.
    pub fn float(&mut self) -> f64
        ensures value { result ≡ f64_at self.old.bytes.now self.old.at }
        ensures moved { self.new ≡ later self.old 8 }
    {
        let x = file_bytes::f64_at(self.bytes, self.at);
        self.skip(file_bytes::FLOAT);
        x
    }

    // Three floats.
    pub fn three(&mut self) -> [f64; 3]
        ensures value { result ≡ three_at self.old.bytes.now self.old.at }
        ensures moved { self.new ≡ later self.old 24 }
    {
        [self.float(), self.float(), self.float()]
    }

    // The next n bytes, or those of them that are there.
    pub fn part(&mut self, n: usize) -> &'a [u8]
        ensures value { result.now ≡ part_of self.old.bytes.now self.old.at n }
        ensures moved { self.new ≡ later self.old n }
    {
        let found = part(self.bytes, self.at, n);
        self.skip(n);
        found
    }

    // A number of bytes, and then these bytes.
    pub fn counted(&mut self) -> &'a [u8]
        ensures value { result.now ≡ part_of self.old.bytes.now (beyond self.old.at 4)
            (u32_at self.old.bytes.now self.old.at) }
        ensures moved { self.new ≡ later (later self.old 4) (u32_at self.old.bytes.now self.old.at) }
    {
        let n = self.size();
        self.part(n)
    }

    // Whether the next float is x. Every NaN is the same.
    #[tactic(auto, unfolding(crate::specs::Sample::same_float))]
    pub fn is_float(&mut self, x: f64) -> bool
        ensures value { result ≡ same_float self.old.bytes.now self.old.at x }
        ensures moved { self.new ≡ later self.old 8 }
    {
        floats::bits_of(self.float()) == floats::bits_of(x)
    }

    // Whether the next three floats are those of v.
    pub fn is_three(&mut self, v: [f64; 3]) -> bool
        ensures value { result ≡ same_three self.old.bytes.now self.old.at v }
        ensures moved { self.new ≡ later self.old 24 }
    {
        let x = self.is_float(v[0]);
        let y = self.is_float(v[1]);
        let z = self.is_float(v[2]);
        x && y && z
    }

    // Whether all bytes were read, and none past them.
    pub fn ends(&self) -> bool
        ensures { result ≡ (self.now.at == length self.now.bytes.now) }
    {
        self.at == self.bytes.len()
    }
}
