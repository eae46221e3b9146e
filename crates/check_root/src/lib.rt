// The correctly rounded square root of an `f64`, worked out in whole numbers: check.rs takes it of a sum of squares.

#![tactic(auto)]

ghost use Rattle.std.specs.Prelude.{◌≡◌, ◌+◌, ◌*◌, ◌^◌, ◌<◌, ◌≤◌, IfSome};
ghost use Rattle.std.specs.Float.{binary64};
ghost use Rattle.check_root.specs.Root.{near_root};
ghost use Rattle.check_root.specs.Sqrt.{rounded, sqrt_of, mag};
ghost use Rattle.check_root.specs.Hint.{hint_of};

// m * 4 ^ g, in units of 4 ^ -1074
#[derive(Clone, Copy)]
struct Scaled {
    m: u64,
    g: u64,
    ghost some: { 0 < m },
    ghost digits: { m < 2 ^ 54 },
    ghost low: { 510 ≤ g },
    ghost high: { g < 1560 },
}

// A root q of q * q + r, and what is left, r.
#[derive(Clone, Copy)]
struct Part {
    q: u64,
    r: u64,
    ghost left: { r ≤ 2 * q },
}

// q * 2 ^ (e + 1073), as m * 4 ^ g.
fn paired(q: u64, e: u64) -> Scaled
    requires some { 0 < q }
    requires digits { q < 2 ^ 53 }
    requires low { 0 < e }
    requires high { e < 2047 }
    ensures value { result.m * 4 ^ result.g ≡ q * 2 ^ (e + 1073) }
    ensures deep { 537 ≤ result.g }
{
    if e % 2 == 0 {
        Scaled {
            m: 2 * q,
            g: (e + 1072) / 2,
        }
    } else {
        Scaled {
            m: q,
            g: (e + 1073) / 2,
        }
    }
}

// The positive finite number with the bit pattern b. An exponent's field of 0 has no leading digit.
fn units(b: u64) -> Scaled
    requires some { 0 < b }
    requires finite { b < 2047 * 2 ^ 52 }
    ensures value { result.m * 4 ^ result.g ≡ mag b * 2 ^ 1074 }
    ensures deep { 537 ≤ result.g }
{
    let f = b / 4503599627370496;
    let t = b % 4503599627370496;
    if f == 0 {
        paired(t, 1)
    } else {
        paired(t + 4503599627370496, f)
    }
}

impl Scaled {
    // The same number, with m from 2^52 up.
    fn normal(self) -> Scaled
        requires deep { 537 ≤ self.g }
        ensures value { result.m * 4 ^ result.g ≡ self.m * 4 ^ self.g }
        ensures normal { 2 ^ 52 ≤ result.m }
    {
        let mut m = self.m;
        let mut g = self.g;
        // Stays: it counts nothing, and goes on until the number is long enough.
        while m < 4503599627370496 {
            m *= 4;
            g -= 1;
        }
        Scaled { m, g }
    }
}

impl Part {
    // One more binary digit of the root, for two more digits d of the number.
    fn step(self, d: u64) -> Part
        requires small { self.q < 2 ^ 60 }
        requires digits { d < 4 }
        ensures value { result.q * result.q + result.r ≡ 4 * (self.q * self.q + self.r) + d }
        ensures grows { result.q ≤ 2 * self.q + 1 }
    {
        let r = 4 * self.r + d;
        let t = 4 * self.q + 1;
        if r < t {
            Part { q: 2 * self.q, r }
        } else {
            Part {
                q: 2 * self.q + 1,
                r: r - t,
            }
        }
    }

    // 26 digits more: those of the root of the number times 4 ^ 26.
    fn extended(self) -> Part
        requires small { self.q < 2 ^ 27 }
        ensures value { result.q * result.q + result.r ≡ (self.q * self.q + self.r) * 4 ^ 26 }
        ensures digits { result.q < 2 ^ 53 }
    {
        let mut p = self;
        for _i in 0..26u64 {
            p = p.step(0);
        }
        p
    }
}

// The whole root of m, of up to 54 digits.
fn whole_root(m: u64) -> Part
    requires { m < 2 ^ 54 }
    ensures { result.q * result.q + result.r ≡ m }
{
    let mut p = Part { q: 0, r: 0 };
    for i in 0..27u64 {
        p = p.step((m >> (52 - 2 * i)) % 4);
    }
    p
}

// The whole number nearest to the root of m * 2^52. With 53 digits and what is left there is no tie:
// q * q + r is above (q + 1/2)² exactly where r is above q.
fn near_root(m: u64) -> u64
    requires { m < 2 ^ 54 }
    ensures value { result ≡ near_root (m * 4 ^ 26) }
    ensures small { result ≤ 2 ^ 53 }
{
    let p = whole_root(m).extended();
    if p.q < p.r { p.q + 1 } else { p.q }
}

// h * 2^52 + t
#[derive(Clone, Copy)]
struct Square {
    h: u64,
    t: u64,
}

// The square of k, by its two digits of 26 bits.
fn squared(k: u64) -> Square
    requires { k ≤ 2 ^ 53 }
    ensures value { result.h * 2 ^ 52 + result.t ≡ k * k }
    ensures high { result.h ≤ 2 ^ 55 }
    ensures low { result.t < 2 ^ 53 }
{
    let a = k / 67108864;
    let c = k % 67108864;
    let w = 2 * (a * c);
    Square {
        h: a * a + w / 67108864,
        t: w % 67108864 * 67108864 + c * c,
    }
}

// The whole number nearest to the root of m * 2^52, where k is it or next to it: k itself where k(k - 1) < m * 2^52 and
// m * 2^52 <= k(k + 1). None where k is further off. No branch tells the three apart.
fn next_to(m: u64, k: u64) -> Option<u64>
    requires digits { m < 2 ^ 54 }
    requires some { 1 < k }
    requires below { k < 2 ^ 53 }
    ensures value { IfSome result (λ q. q ≡ near_root (m * 4 ^ 26)) }
    ensures small { IfSome result (λ q. q ≤ 2 ^ 53) }
{
    let s = squared(k);
    if m + 2 < s.h {
        return None;
    }
    if s.h + 4 < m {
        return None;
    }
    let e = (m + 2 - s.h) * 4503599627370496;
    let t = s.t + 9007199254740992;
    if e + 3 * k <= t + 2 {
        return None;
    }
    if t + 3 * k + 2 < e {
        return None;
    }
    Some(k + u64::from(t + k < e) - u64::from(e + k <= t))
}

// That number, whatever k is.
fn near_by(m: u64, k: u64) -> u64
    requires digits { m < 2 ^ 54 }
    requires some { 1 < k }
    requires below { k < 2 ^ 53 }
    ensures value { result ≡ near_root (m * 4 ^ 26) }
    ensures small { result ≤ 2 ^ 53 }
{
    next_to(m, k).unwrap_or_else(|| near_root(m))
}

// The root of the number with this bit pattern, by a number q whose last 52 digits its own are tried with. A carry to 2^53 moves the
// exponent on by itself.
fn of_pattern(b: u64, q: u64) -> f64
    requires some { 0 < b }
    requires finite { b < 2047 * 2 ^ 52 }
    ensures { result ≡ rounded binary64 (mag b * 2 ^ 1074) }
{
    let s = units(b).normal();
    let k = q % 4503599627370496 + 4503599627370496;
    floats::of_bits(near_by(s.m, k) + (s.g - 26) * 4503599627370496)
}

// A pattern near that of the root of x, to be handed to `sqrt_by`: for a number above zero it nearly always is that or next to it. g and
// h come near the root and near half of 1 / root, both by the same factor at each of three steps; then what is left of x is divided
// out. No branch, so that the hints of many numbers are worked out side by side.
pub fn hint(x: f64) -> u64
    ensures { result ≡ hint_of x }
{
    let b = floats::bits_of(x) % 9223372036854775808;
    let y = floats::of_bits(6910469410427058089 - b / 2);
    let g0 = x * y;
    let h0 = 0.5 * y;
    let f0 = 1.5 - g0 * h0;
    let g1 = g0 * f0;
    let h1 = h0 * f0;
    let f1 = 1.5 - g1 * h1;
    let g2 = g1 * f1;
    let h2 = h1 * f1;
    let f2 = 1.5 - g2 * h2;
    let g = g2 * f2;
    let h = h2 * f2;
    floats::bits_of(g + h * (x - g * g))
}

// The square root of every float, whatever q is: a zero's and infinity's are themselves, and below zero there is none. With `hint(x)` for
// q it is quick, as then a test by squares is nearly always enough.
pub fn sqrt_by(x: f64, q: u64) -> f64
    ensures { result ≡ sqrt_of binary64 x }
{
    if x != x {
        return x;
    }
    if x == 0.0 {
        return x;
    }
    if x < 0.0 {
        return 0.0 / 0.0;
    }
    let b = floats::bits_of(x);
    if b < 0x7ff0_0000_0000_0000 {
        of_pattern(b, q)
    } else {
        x
    }
}

// The square root of every float.
pub fn sqrt(x: f64) -> f64
    ensures { result ≡ sqrt_of binary64 x }
{
    sqrt_by(x, hint(x))
}
