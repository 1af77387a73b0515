// What a table's entries come to: how many an address holds, how many there are, and what is reserved to the listed addresses.
#![tactic(auto)]

ghost use Rattle.std.specs.Prelude.{◌≡◌, ℕ, Bool, ◌-◌, ◌*◌, ◌≤◌, ◌<◌, length};
ghost use Rattle.model.specs.Lists.{any};
ghost use Rattle.model.specs.Table.{read_line};
ghost use Rattle.model.specs.Rules.{Holding, held_by, reserve};
ghost use Rattle.record.specs.Address.{address_of};

use record::{Address, Slot};
use roster::Lines;

// A table's slots: the bytes that start with the first, and how many there are.
#[derive(Clone, Copy)]
pub struct Slots<'a> {
    pub bytes: &'a [u8],
    pub n: usize,
    ghost fits: { 320 * n ≤ length bytes.now },
}

impl<'a> Slots<'a> {
    ghost use Rattle.roster.specs.Lines.{lines_of};
    ghost use Rattle.holdings.specs.Slots.{held_at, held_in};

    // Slot i.
    pub fn slot(self, i: usize) -> Slot<'a>
        requires { i < self.n }
        ensures { (result.bytes.now ≡ self.entry.bytes.now) × (result.at ≡ 320 * i) }
    {
        Slot {
            bytes: self.bytes,
            at: layout::SLOT * i,
        }
    }

    // How many slots pass a test of an entry. By a loop: `filter` and `count` took up to half as long again.
    fn count<F: Fn(usize) -> bool>(self, passes: F) -> usize
        requires { (i : ℕ) → i < self.n → F.pre passes i }
        ensures bound { result ≤ self.entry.n }
        ensures counted { (p : Holding → Bool) → ((i : ℕ) (b : Bool) → i < self.entry.n → F.post passes i b → b ≡ held_at self.entry p i) → result ≡ held_in self.entry p }
    {
        let mut count = 0;
        for i in 0..self.n {
            if passes(i) {
                count += 1;
            }
        }
        count
    }

    // How many entries the address holds, over all ports, pending ones included.
    pub fn held_by(self, address: Address) -> usize
        ensures { (result ≤ self.entry.n) × (result ≡ held_in self.entry (held_by (address_of address))) }
    {
        self.count(|i| self.slot(i).has_holder(address))
    }

    // How many entries there are.
    pub fn held(self) -> usize
        ensures { (result ≤ self.entry.n) × (result ≡ held_in self.entry any) }
    {
        self.count(|i| self.slot(i).in_use())
    }

    // What is left of a share once the entries of its address are taken from it. It ends where nothing is left, before all are counted.
    fn share_less_held(self, address: Address, share: usize) -> usize
        requires { 1 ≤ share }
        ensures { result ≡ share - held_in self.entry (held_by (address_of address)) }
    {
        let mut left = share;
        for i in 0..self.n {
            if self.slot(i).has_holder(address) {
                left -= 1;
                if left == 0 {
                    return 0;
                }
            }
        }
        left
    }

    // What line i reserves: its share less what its address holds, where that is positive.
    fn line_reserve(self, lines: Lines, i: usize) -> usize
        requires { i < lines.count }
        ensures { (result < 256) × (result ≡ (read_line lines.entry.bytes.now (19 * i)).share - held_in self.entry (held_by (read_line lines.entry.bytes.now (19 * i)).address)) }
    {
        let line = lines.line(i);
        let share = usize::from(line.share());
        if share == 0 {
            return 0;
        }
        self.share_less_held(line.address(), share)
    }

    // The reserve, by a roster's lines.
    pub fn reserve(self, lines: Lines) -> usize
        requires { lines.count ≤ 16 }
        ensures { (result ≤ 4096) × (result ≡ reserve (lines_of lines.entry) (held_in self.entry)) }
    {
        let mut kept = 0;
        for i in 0..lines.count {
            kept += self.line_reserve(lines, i);
        }
        kept
    }
}
