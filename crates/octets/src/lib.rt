// Bytes of a slice: big-endian numbers read and written, zeros, copies.
#![tactic(auto)]

ghost use Rattle.std.specs.Prelude.{◌≡◌, ◌&&◌, ◌+◌, ◌≤◌, length, replicate};
ghost use Rattle.model.specs.Lists.{same};
ghost use Rattle.model.specs.Numbers.{big_endian, bytes_of, part, splice};

// Numbers: the library's conversions, which compile to one load or store and a swap. A function for each width: with a trait over the width each call
// would name the type instead, and its proof the trait's law.

pub fn get16(s: &[u8], at: usize) -> u16
    requires { at + 2 ≤ length s.now }
    ensures { result ≡ big_endian s.now at 2 }
{
    u16::from_be_bytes([s[at], s[at + 1]])
}

pub fn get32(s: &[u8], at: usize) -> u32
    requires { at + 4 ≤ length s.now }
    ensures { result ≡ big_endian s.now at 4 }
{
    u32::from_be_bytes([s[at], s[at + 1], s[at + 2], s[at + 3]])
}

pub fn get64(s: &[u8], at: usize) -> u64
    requires { at + 8 ≤ length s.now }
    ensures { result ≡ big_endian s.now at 8 }
{
    u64::from_be_bytes([
        s[at],
        s[at + 1],
        s[at + 2],
        s[at + 3],
        s[at + 4],
        s[at + 5],
        s[at + 6],
        s[at + 7],
    ])
}

// The last bytes of x, the most significant first.

pub fn put8(s: &mut [u8], at: usize, x: u8)
    requires { at + 1 ≤ length s.old }
    ensures { s.new ≡ splice at 1 (bytes_of 1 x) s.old }
{
    s[at] = x;
}

pub fn put16(s: &mut [u8], at: usize, x: u16)
    requires { at + 2 ≤ length s.old }
    ensures { s.new ≡ splice at 2 (bytes_of 2 x) s.old }
{
    s[at..at + 2].copy_from_slice(&x.to_be_bytes());
}

pub fn put32(s: &mut [u8], at: usize, x: u32)
    requires { at + 4 ≤ length s.old }
    ensures { s.new ≡ splice at 4 (bytes_of 4 x) s.old }
{
    s[at..at + 4].copy_from_slice(&x.to_be_bytes());
}

pub fn put64(s: &mut [u8], at: usize, x: u64)
    requires { at + 8 ≤ length s.old }
    ensures { s.new ≡ splice at 8 (bytes_of 8 x) s.old }
{
    s[at..at + 8].copy_from_slice(&x.to_be_bytes());
}

// The n bytes from index at are zeros, looked at one by one: for fewer than a block. A loop and no `all`, by which a tick took 9 % longer.
fn zero_bytes(s: &[u8], at: usize, n: usize) -> bool
    requires { at + n ≤ length s.now }
    ensures { result ≡ same (replicate n 0) (part at n s.now) }
{
    for i in 0..n {
        if s[at + i] != 0 {
            return false;
        }
    }
    true
}

// The n bytes from index a are zeros and the n from index b: their `or`s are. The loop has one way out, so that it compiles to vectors, twice as many a turn for the two.
fn zero_both(s: &[u8], a: usize, b: usize, n: usize) -> bool
    requires { (a + n ≤ length s.now) × (b + n ≤ length s.now) }
    ensures { result ≡ (same (replicate n 0) (part a n s.now) && same (replicate n 0) (part b n s.now)) }
{
    let mut x: u8 = 0;
    let mut y: u8 = 0;
    for i in 0..n {
        x |= s[a + i];
        y |= s[b + i];
    }
    (x | y) == 0
}

// Zeros: the first h bytes and the last h, which may lie over each other. h is half of n, rounded up to blocks of 32.
pub fn zeros(s: &[u8], at: usize, n: usize) -> bool
    requires { at + n ≤ length s.now }
    ensures { result ≡ same (replicate n 0) (part at n s.now) }
{
    if n < 32 {
        return zero_bytes(s, at, n);
    }
    let h = 32 * ((n + 63) / 64);
    zero_both(s, at, at + (n - h), h)
}

// The n bytes of s from index from, copied to d at index at. A loop, which compiles to memcpy: `copy_from_slice` would have C's archive call memmove too.
pub fn copy(d: &mut [u8], at: usize, s: &[u8], from: usize, n: usize)
    requires { (at + n ≤ length d.old) × (from + n ≤ length s.now) }
    ensures { d.new ≡ splice at n (part from n s.now) d.old }
{
    for i in 0..n {
        d[at + i] = s[from + i];
    }
}

// The n bytes from index at become zeros.
pub fn clear(s: &mut [u8], at: usize, n: usize)
    requires { at + n ≤ length s.old }
    ensures { s.new ≡ splice at n (replicate n 0) s.old }
{
    s[at..at + n].fill(0);
}
