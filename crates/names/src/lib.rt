// Domain names: compared with A to Z folded to a to z, other bytes as they are; stored folded; a stored one's labels and case.
#![tactic(auto)]

ghost use Rattle.std.specs.Prelude.{◌≡◌, ℕ, map, ◌+◌, ◌≤◌, ◌<◌, length};
ghost use Rattle.model.specs.Lists.{same};
ghost use Rattle.model.specs.Numbers.{part, splice};
ghost use Rattle.model.specs.Names.{fold, compared, lower_name};
ghost use Rattle.names.specs.Comparison.{compared_of};
ghost use Rattle.names.specs.Labels.{labelled, lower_case};

use fold_table::{FOLD, folded};

pub mod fold_table;

// What a comparison of two names returns: whether they are the same, and how many byte pairs it looked at, the differing one included. Lengths
// are no pair: where they differ no byte of either name is read, and the count is 0. Both fields always mean something, so it is no `Result`.
#[derive(Clone, Copy)]
pub struct Compared {
    pub same: bool,
    pub pairs: usize,
}

// The stored name of m bytes at a and the sent one of n bytes at b, this one folded.
#[tactic(auto, unfolding(crate::specs::FoldTable::fold_table))]
pub fn compare(t: &[u8], a: usize, m: usize, d: &[u8], b: usize, n: usize) -> Compared
    requires { (a + m ≤ length t.now) × (b + n ≤ length d.now) }
    ensures { compared_of result ≡ compared (part a m t.now) (map fold (part b n d.now)) }
{
    if m != n {
        return Compared {
            same: false,
            pairs: 0,
        };
    }
    let table = FOLD;
    compare_bytes(t, a, d, b, n, |c| folded(&table, c))
}

// The n bytes of t from index a and the n of d from index b, these as `read` makes them: byte by byte from the front to the first pair that differs.
// The count is the number of pairs that the loop looked at.
fn compare_bytes<F: Fn(u8) -> u8>(
    t: &[u8],
    a: usize,
    d: &[u8],
    b: usize,
    n: usize,
    read: F,
) -> Compared
    ghost made: { ℕ → ℕ }
    requires within { (a + n ≤ length t.now) × (b + n ≤ length d.now) }
    requires callable { F.IsAlwaysCallable read }
    requires makes { (x y : ℕ) → F.post read x y → y ≡ made x }
    ensures { compared_of result ≡ compared (part a n t.now) (map made (part b n d.now)) }
{
    for i in 0..n {
        if t[a + i] != read(d[b + i]) {
            return Compared {
                same: false,
                pairs: i + 1,
            };
        }
    }
    Compared {
        same: true,
        pairs: n,
    }
}

// The n bytes at a and the n at c, as they lie. Eight pairs that all agree are passed by one test of a word, and all eight count; in the first word
// that differs, and behind the last whole word, pairs are looked at one by one. In a word that differs the answer does not wait for the count, so
// that where the count is not read the compiler leaves it out.
fn compare_words(t: &[u8], a: usize, c: usize, n: usize) -> Compared
    requires { (a + n ≤ length t.now) × (c + n ≤ length t.now) }
    ensures { compared_of result ≡ compared (part a n t.now) (part c n t.now) }
{
    let words = n / 8;
    for i in 0..words {
        if octets::get64(t, a + 8 * i) != octets::get64(t, c + 8 * i) {
            let word = compare_bytes(t, a + 8 * i, t, c + 8 * i, 8, |b| b);
            return Compared {
                same: false,
                pairs: 8 * i + word.pairs,
            };
        }
    }
    let rest = compare_bytes(t, a + 8 * words, t, c + 8 * words, n % 8, |b| b);
    Compared {
        same: rest.same,
        pairs: 8 * words + rest.pairs,
    }
}

// The two words at a and the two at c are the same.
fn two_words(t: &[u8], a: usize, c: usize) -> bool
    requires { (a + 16 ≤ length t.now) × (c + 16 ≤ length t.now) }
    ensures { result ≡ same (part a 16 t.now) (part c 16 t.now) }
{
    octets::get64(t, a) == octets::get64(t, c) && octets::get64(t, a + 8) == octets::get64(t, c + 8)
}

// The stored name of m bytes at a and the stored one of n bytes at c, as they lie: both were folded when they were stored. Two words that agree are
// passed in one turn; where they do not, and behind the last two, words are looked at one by one. A loop beside that of `compare_words`, since one for
// both would take what tests a block and what looks inside it as closures, each with its clauses. `==` of the slices took a tick a fifth longer.
pub fn compare_stored(t: &[u8], a: usize, m: usize, c: usize, n: usize) -> Compared
    requires { (a + m ≤ length t.now) × (c + n ≤ length t.now) }
    ensures { compared_of result ≡ compared (part a m t.now) (part c n t.now) }
{
    if m != n {
        return Compared {
            same: false,
            pairs: 0,
        };
    }
    let twos = n / 16;
    for i in 0..twos {
        if !two_words(t, a + 16 * i, c + 16 * i) {
            let found = compare_words(t, a + 16 * i, c + 16 * i, 16);
            return Compared {
                same: false,
                pairs: 16 * i + found.pairs,
            };
        }
    }
    let rest = compare_words(t, a + 16 * twos, c + 16 * twos, n % 16);
    Compared {
        same: rest.same,
        pairs: 16 * twos + rest.pairs,
    }
}

// The n bytes of d from index from, folded, copied to s at index at.
#[tactic(auto, unfolding(crate::specs::FoldTable::fold_table))]
pub fn copy_folded(s: &mut [u8], at: usize, d: &[u8], from: usize, n: usize)
    requires { (at + n ≤ length s.old) × (from + n ≤ length d.now) }
    ensures { s.new ≡ splice at n (map fold (part from n d.now)) s.old }
{
    let table = FOLD;
    for i in 0..n {
        s[at + i] = folded(&table, d[from + i]);
    }
}

// None of the n bytes from index at is a letter A to Z, which the fold does not leave alone. Case is tested on every stored name on every call: by
// comparisons and with one way out the loop compiles to vectors, which a look-up or an `all` does not (docs/DECISIONS.md, "Speed").
fn lower_bytes(t: &[u8], at: usize, n: usize) -> bool
    requires { at + n ≤ length t.now }
    ensures { result ≡ lower_case (part at n t.now) }
{
    let mut capitals: u8 = 0;
    for i in 0..n {
        capitals |= u8::from(t[at + i].is_ascii_uppercase());
    }
    capitals == 0
}

// The same of fewer than 32 bytes: from 16 on the first 16 and the last 16.
fn lower_short(t: &[u8], at: usize, n: usize) -> bool
    requires { (n < 32) × (at + n ≤ length t.now) }
    ensures { result ≡ lower_case (part at n t.now) }
{
    if n < 16 {
        return lower_bytes(t, at, n);
    }
    lower_bytes(t, at, 16) && lower_bytes(t, at + (n - 16), 16)
}

// The same in blocks of 32 and then the last 32. Blocks of 16 and 32 compile to vectors with no loop over single bytes behind them.
fn lower_case(t: &[u8], at: usize, n: usize) -> bool
    requires { at + n ≤ length t.now }
    ensures { result ≡ lower_case (part at n t.now) }
{
    if n < 32 {
        return lower_short(t, at, n);
    }
    lower_bytes(t, at, 32 * (n / 32)) && lower_bytes(t, at + (n - 32), 32)
}

// Labels, each a length byte of 1 to 63 and as many bytes, and then a zero byte, which is the last of len: a label a turn, not a byte.
fn labels(t: &[u8], at: usize, len: usize) -> bool
    requires { (at + len ≤ length t.now) × (len ≤ 255) }
    ensures { result ≡ labelled 0 (part at len t.now) }
{
    let mut i: usize = 0;
    while i < len {
        let b = usize::from(t[at + i]);
        if b == 0 {
            return i + 1 == len;
        }
        if b >= 64 {
            return false;
        }
        i += b + 1;
    }
    false
}

// A stored name: a wire name in lower case that fills its length. A length byte is no letter, so case is looked at apart from labels.
pub fn lower_name(t: &[u8], at: usize, len: usize) -> bool
    requires { (at + len ≤ length t.now) × (len ≤ 255) }
    ensures { result ≡ lower_name 0 (part at len t.now) }
{
    labels(t, at, len) && lower_case(t, at, len)
}
