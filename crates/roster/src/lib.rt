// Roster lines, one after the other: the rules of a roster, and what the lines say of an address. They start with the first of them: in a table's part, or in a roster by itself.
#![tactic(auto)]

ghost use Rattle.std.specs.Prelude.{◌≡◌, not, ◌&&◌, ◌*◌, ◌≤◌, ◌<◌, length, get_or, eqb};
ghost use Rattle.model.specs.Lists.{every, no_two};
ghost use Rattle.model.specs.Table.{read_line, listed};
ghost use Rattle.model.specs.Rules.{limit_of, share_of, shares};
ghost use Rattle.model.specs.Sound.{valid_line, same_address, sound_roster};
ghost use Rattle.layout.specs.Shape.{listed_kind, all, unused_from, lines_to};
ghost use Rattle.record.specs.Address.{address_of};

use record::{Address, Line};

// An address that is not listed has share 0 and this limit.
pub const UNLISTED_LIMIT: u8 = 4;

// Of 16 lines those from m on are unused.
pub fn unused_from(bytes: &[u8], m: usize) -> bool
    requires { (m ≤ 16) × (304 ≤ length bytes.now) }
    ensures { result ≡ unused_from bytes.now m }
{
    let lines = Lines {
        bytes,
        count: layout::LINES,
    };
    (m..layout::LINES).all(|i| lines.line(i).unused())
}

// How many of 16 lines are listed: those of kind 0x03 that stand first.
fn listed_count(bytes: &[u8]) -> usize
    requires { 304 ≤ length bytes.now }
    ensures { (result ≡ listed bytes.now 16) × (result ≤ 16) }
{
    let lines = Lines {
        bytes,
        count: layout::LINES,
    };
    (0..layout::LINES)
        .find(|&i| !lines.line(i).listed())
        .unwrap_or(layout::LINES)
}

// A roster's lines: the bytes that start with the first, and how many of them are looked at.
#[derive(Clone, Copy)]
pub struct Lines<'a> {
    pub bytes: &'a [u8],
    pub count: usize,
    ghost fits: { 19 * count ≤ length bytes.now },
}

impl<'a> Lines<'a> {
    ghost use Rattle.roster.specs.Lines.{lines_of, FindsLine};

    // Of 16 lines the listed ones.
    pub fn listed(bytes: &'a [u8]) -> Lines<'a>
        requires { 304 ≤ length bytes.now }
        ensures { (result.bytes.now ≡ bytes.now) × (result.count ≡ listed bytes.now 16) × (result.count ≤ 16) }
    {
        Lines {
            bytes,
            count: listed_count(bytes),
        }
    }

    // Line i.
    pub fn line(self, i: usize) -> Line<'a>
        requires { i < self.count }
        ensures { (result.bytes.now ≡ self.entry.bytes.now) × (result.at ≡ 19 * i) }
    {
        Line {
            bytes: self.bytes,
            at: layout::LINE * i,
        }
    }

    // Each is of kind 0x03.
    pub fn all_listed(self) -> bool
        ensures { result ≡ all (λ i. eqb (get_or self.entry.bytes.now (19 * i) 0) listed_kind) self.entry.count }
    {
        (0..self.count).all(|i| self.line(i).listed())
    }

    // Each line meets a line's rules.
    fn each_valid(self) -> bool
        ensures { result ≡ every valid_line (lines_of self.entry) }
    {
        (0..self.count).all(|i| self.line(i).valid())
    }

    // No line before line i has its address.
    fn apart(self, i: usize) -> bool
        requires { i < self.count }
        ensures { result ≡ every (λ l. not (same_address l (read_line self.entry.bytes.now (19 * i)))) (lines_to self.entry.bytes.now i) }
    {
        let address = self.line(i).address();
        (0..i).all(|j| !self.line(j).has_address(address))
    }

    // Listed addresses differ.
    fn all_apart(self) -> bool
        ensures { result ≡ no_two same_address (lines_of self.entry) }
    {
        (0..self.count).all(|i| self.apart(i))
    }

    // The sum of the shares.
    pub fn share_sum(self) -> usize
        requires { self.count ≤ 16 }
        ensures { result ≡ shares (lines_of self.entry) }
    {
        let mut sum = 0;
        for i in 0..self.count {
            sum += usize::from(self.line(i).share());
        }
        sum
    }

    // Each line meets a line's rules, and listed addresses differ.
    pub fn good(self) -> bool
        ensures { result ≡ (every valid_line (lines_of self.entry) && no_two same_address (lines_of self.entry)) }
    {
        self.each_valid() && self.all_apart()
    }

    // The roster rules of n slots.
    pub fn sound(self, n: usize) -> bool
        requires { self.count ≤ 16 }
        ensures { result ≡ sound_roster n (lines_of self.entry) }
    {
        self.good() && self.share_sum() <= n
    }

    // The first line of the address.
    pub fn find(self, address: Address) -> Option<usize>
        ensures { FindsLine self.entry (address_of address) result }
    {
        (0..self.count).find(|&i| self.line(i).has_address(address))
    }

    // The address's limit.
    pub fn limit_of(self, address: Address) -> usize
        ensures { result ≡ limit_of (lines_of self.entry) (address_of address) }
    {
        match self.find(address) {
            Some(i) => usize::from(self.line(i).limit()),
            None => usize::from(UNLISTED_LIMIT),
        }
    }

    // The address's share.
    pub fn share_of(self, address: Address) -> usize
        ensures { result ≡ share_of (lines_of self.entry) (address_of address) }
    {
        match self.find(address) {
            Some(i) => usize::from(self.line(i).share()),
            None => 0,
        }
    }
}
