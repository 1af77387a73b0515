// Whether a table's bytes are sound, and a roster's good: document 01, "A table is sound if ..".
#![tactic(auto)]

ghost use Rattle.std.specs.Prelude.{ℕ, ◌≡◌, true, false, ◌&&◌, ◌+◌, ◌*◌, ◌≤◌, ◌<◌, length, leb};
ghost use Rattle.model.specs.Lists.{any, every, no_two};
ghost use Rattle.model.specs.Numbers.{Bytes};
ghost use Rattle.model.specs.Rules.{limit_of, share_of, reserve};
ghost use Rattle.model.specs.Rules.{shares as shares_of};
ghost use Rattle.model.specs.Sound.{valid_line, valid_entry, same_number, same_address, sound_roster, sound_bytes};
ghost use Rattle.model.specs.Calls.{good_roster};
ghost use Rattle.model.specs.Table.{listed};
ghost use Rattle.layout.specs.Shape.{all, slot_shape, parts_shape};
ghost use Rattle.layout.specs.Held.{held_to, ok_at, rules_of};
ghost use Rattle.layout.specs.Places.{LayoutFor};
ghost use Rattle.record.specs.Address.{address_of};
ghost use Rattle.roster.specs.Lines.{lines_of};
ghost use Rattle.holdings.specs.Slots.{held_in};
ghost use Rattle.sound.specs.Entries.{HasEntry, LooksFrom, entry_of, number_apart, address_apart, holder_sound, holders_sound, entries_sound};
ghost use Rattle.sound.specs.Holders.{beyond_share, entry_beyond_share};

use holdings::Slots;
use layout::Layout;
use record::{Address, Slot};
use roster::Lines;

// As many slots are few: all pairs of their entries are compared.
const FEW: usize = 8;

// Slot i is free, or its entry meets an entry's rules.
fn slot_valid(slots: Slots, i: usize, running: u32) -> bool
    requires { i < slots.n }
    ensures { result ≡ ok_at running slots.entry.bytes.now valid_entry i }
{
    let slot = slots.slot(i);
    !slot.in_use() || slot.valid(running)
}

// Each slot has its kind's zeros, and each entry meets an entry's rules. One walk for both: the loads of the one go on while the other waits for a name's next label.
fn slots_good(slots: Slots, running: u32) -> bool
    ensures { result ≡ (all (λ i. slot_shape slots.entry.bytes.now (320 * i)) slots.entry.n && every valid_entry (held_to running slots.entry.bytes.now slots.entry.n)) }
{
    (0..slots.n).all(|i| slots.slot(i).shape() && slot_valid(slots, i, running))
}

// Kinds, order and zeros of lines and slots are as the layout has them, and each entry meets an entry's rules; the lines are the listed ones of 16.
fn records_good(lines: Lines, slots: Slots, running: u32) -> bool
    requires { (304 ≤ length lines.bytes.now) × (lines.count ≤ 16) × (lines.count ≡ listed lines.bytes.now 16) }
    ensures { result ≡ (parts_shape lines.entry.bytes.now slots.entry.bytes.now slots.entry.n && every valid_entry (held_to running slots.entry.bytes.now slots.entry.n)) }
{
    roster::unused_from(lines.bytes, lines.count) && slots_good(slots, running)
}

// Each entry passes a test against the entries below it, of which those that end in another byte need not be looked at: the test is given the slot to look from, and the entry's own. `last` is where the byte lies in a slot.
fn each_passes<F: Fn(usize, usize) -> bool>(slots: Slots, last: usize, passes: F) -> bool
    requires places { (slots.n ≤ 64) × (last < 320) }
    requires octets { Bytes slots.bytes.now }
    requires callable { (from i : ℕ) → LooksFrom slots last from i → F.pre passes from i }
    ensures passed { result ≡ true → (i : ℕ) → HasEntry slots.entry i → (from : ℕ) × F.post passes from i true }
    ensures failed { result ≡ false → (i from : ℕ) × HasEntry slots.entry i × F.post passes from i false }
{
    // A slot behind the last where none is known: below it too none ends in the byte, so that no Option is needed.
    let mut first = [layout::SLOTS_MOST as u8; 256];
    for i in 0..slots.n {
        let slot = slots.slot(i);
        if slot.in_use() {
            let end = usize::from(slot.bytes[slot.at + last]);
            let from = usize::from(first[end]).min(i);
            first[end] = from as u8;
            if !passes(from, i) {
                return false;
            }
        }
    }
    true
}

// Whether one entry more takes a slot beyond its share, for an address that holds k: not below the share, and one from there on; at its limit the address takes none.
fn beyond_share(share: u8, limit: u8, k: usize) -> Option<bool>
    ensures { result ≡ beyond_share share limit k }
{
    if k < usize::from(share) {
        return Some(false);
    }
    if k < usize::from(limit) {
        return Some(true);
    }
    None
}

// A table's lines and slots, where each line meets a line's rules and their addresses differ: what the rules of several entries are judged by. That a byte
// is below 256 is said here and not in `Slots`, which asks no more than the room: a proof knows it of an argument's bytes, and not of those behind a field.
#[derive(Clone, Copy)]
struct Table<'a> {
    lines: Lines<'a>,
    slots: Slots<'a>,
    ghost most: { (lines.count ≤ 16) × (slots.n ≤ 64) },
    ghost octets: { Bytes slots.bytes.now },
    ghost valid: { every valid_line (lines_of lines) ≡ true },
    ghost apart: { no_two same_address (lines_of lines) ≡ true },
}

impl<'a> Table<'a> {
    // The address may hold one entry more than k.
    fn may_add(self, k: usize, address: Address) -> bool
        ensures { result ≡ leb (k + 1) (limit_of (lines_of self.entry.lines) (address_of address)) }
    {
        k == 0 || k < self.lines.limit_of(address)
    }

    // No entry below slot i has the number of its entry. Those from slot `from` on are looked at: of those below none has it.
    fn number_apart(self, from: usize, i: usize) -> bool
        requires { (from ≤ i) × (i < self.slots.n) × (number_apart self.slots i from ≡ true) }
        ensures { result ≡ number_apart self.entry.slots i i }
    {
        let number = self.slots.slot(i).number();
        (from..i).all(|j| !self.slots.slot(j).has_number(number))
    }

    // The entry of slot i, with those below it: none has its address and asks the same, and its address is within its limit. Those from slot `from` on are looked at: of those below none has its address.
    fn holder_sound(self, from: usize, i: usize) -> bool
        requires { (from ≤ i) × (i < self.slots.n) × (address_apart self.slots i from ≡ true) }
        ensures { result ≡ holder_sound self.entry.slots self.entry.lines i }
    {
        let own = self.slots.slot(i);
        let address = own.address();
        let mut k = 0;
        for j in from..i {
            let slot = self.slots.slot(j);
            if slot.has_holder(address) {
                if slot.same_asked(own) {
                    return false;
                }
                k += 1;
            }
        }
        self.may_add(k, address)
    }

    // No two entries have one number. Entries of one number end in the same byte, so those below the first slot that ends in it need not be looked at.
    fn numbers_apart(self) -> bool
        ensures { result ≡ no_two same_number (held_to 0 self.entry.slots.bytes.now self.entry.slots.n) }
    {
        each_passes(
            self.slots,
            layout::NUMBER_LAST,
            |from, i| self.number_apart(from, i),
        )
    }

    // No two entries have one address and question, and no address holds more than its limit. Likewise from the first slot whose address ends in the same byte.
    fn holders_sound(self) -> bool
        ensures { result ≡ holders_sound self.entry.slots self.entry.lines }
    {
        each_passes(
            self.slots,
            layout::ADDRESS_LAST,
            |from, i| self.holder_sound(from, i),
        )
    }

    // Whether one entry more takes a slot beyond its share, for this address, which holds k.
    fn address_beyond_share(self, k: usize, address: Address) -> Option<bool>
        ensures { result ≡ beyond_share (share_of (lines_of self.entry.lines) (address_of address)) (limit_of (lines_of self.entry.lines) (address_of address)) k }
    {
        match self.lines.find(address) {
            Some(i) => {
                let line = self.lines.line(i);
                beyond_share(line.share(), line.limit(), k)
            }
            None => beyond_share(0, roster::UNLISTED_LIMIT, k),
        }
    }

    // The same of the entry of slot i, with those below it; none also where one of them has its number, or its address and question: number and holder are looked at in one walk.
    fn entry_beyond_share(self, i: usize) -> Option<bool>
        requires { i < self.slots.n }
        ensures { result ≡ entry_beyond_share self.entry.slots.bytes.now (lines_of self.entry.lines) i (entry_of self.entry.slots i) }
    {
        let own = self.slots.slot(i);
        let number = own.number();
        let address = own.address();
        let mut k = 0;
        // By the slot's place: where names are long, a `for` over the slots' numbers takes a quarter longer, since the number is kept beside the place.
        let mut at = 0;
        while at < own.at {
            let slot = Slot {
                bytes: own.bytes,
                at,
            };
            if slot.has_number(number) {
                return None;
            }
            if slot.has_holder(address) {
                if slot.same_asked(own) {
                    return None;
                }
                k += 1;
            }
            at += layout::SLOT;
        }
        self.address_beyond_share(k, address)
    }

    // The slots have room for what is reserved beside the entries. Where nothing is reserved they need not be counted.
    fn has_room(self) -> bool
        ensures { result ≡ leb (reserve (lines_of self.entry.lines) (held_in self.entry.slots) + held_in self.entry.slots any) self.entry.slots.n }
    {
        let kept = self.slots.reserve(self.lines);
        kept == 0 || kept + self.slots.held() <= self.slots.n
    }

    // A table of few slots: each entry is compared with all before it. Before the first entry the reserve is the sum of the shares; an entry takes from what its share reserves, or one slot beyond it.
    fn few_sound(self, shares: usize) -> bool
        requires { (shares ≤ 64) × (shares ≡ shares_of (lines_of self.lines)) }
        ensures { result ≡ entries_sound self.entry.slots self.entry.lines }
    {
        let mut k = shares;
        for i in 0..self.slots.n {
            if self.slots.slot(i).in_use() {
                let Some(beyond) = self.entry_beyond_share(i) else {
                    return false;
                };
                k += usize::from(beyond);
            }
        }
        k <= self.slots.n
    }

    // A table of many slots: pass by pass, with the tables of first slots.
    fn many_sound(self) -> bool
        ensures { result ≡ entries_sound self.entry.slots self.entry.lines }
    {
        self.numbers_apart() && self.holders_sound() && self.has_room()
    }

    // The rules of several entries. Up to FEW slots, comparing all pairs takes less time than setting the tables of first slots up.
    fn entries_sound(self, shares: usize) -> bool
        requires { (shares ≤ 64) × (shares ≡ shares_of (lines_of self.lines)) }
        ensures { result ≡ entries_sound self.entry.slots self.entry.lines }
    {
        if self.slots.n <= FEW {
            return self.few_sound(shares);
        }
        self.many_sound()
    }
}

// The rules of a roster, and those of several entries.
fn rules_sound(lines: Lines, slots: Slots) -> bool
    requires { (lines.count ≤ 16) × (slots.n ≤ 64) × Bytes slots.bytes.now }
    ensures { result ≡ (sound_roster slots.entry.n (lines_of lines.entry) && entries_sound slots.entry lines.entry) }
{
    if !lines.good() {
        return false;
    }
    let shares = lines.share_sum();
    if shares > slots.n {
        return false;
    }
    Table { lines, slots }.entries_sound(shares)
}

// The rules of a table's lines and slots, each record by itself first. `bytes` start with the lines.
fn parts_sound(bytes: &[u8], slots: Slots, running: u32) -> bool
    requires { (304 ≤ length bytes.now) × (slots.n ≤ 64) × Bytes slots.bytes.now }
    ensures { result ≡ (parts_shape bytes.now slots.entry.bytes.now slots.entry.n && rules_of running bytes.now slots.entry.bytes.now slots.entry.n) }
{
    let lines = Lines::listed(bytes);
    records_good(lines, slots, running) && rules_sound(lines, slots)
}

// The bytes are those of a sound table. The clock record is looked at here, lines and slots each in the part that starts with them.
pub fn sound(t: &[u8], l: Layout) -> bool
    requires { LayoutFor l (length t.now) }
    ensures { result ≡ sound_bytes t.now }
{
    if !layout::table_length(t.len(), l) {
        return false;
    }
    if t[0] != layout::clock_kind(l.weeks) {
        return false;
    }
    let c = record::clock_at(t, l);
    if c.place >= clock::cycle(l.weeks) {
        return false;
    }
    let lines = &t[usize::from(l.lines_at)..];
    let slots = Slots {
        bytes: &lines[layout::ROSTER..],
        n: l.n,
    };
    parts_sound(lines, slots, c.running)
}

// The bytes are 0 to 16 records of kind 0x03 that meet the roster rules of n slots.
pub fn roster_sound(r: &[u8], n: usize) -> bool
    ensures { result ≡ good_roster n r.now }
{
    if r.len() > layout::ROSTER || r.len() % layout::LINE != 0 {
        return false;
    }
    let lines = Lines {
        bytes: r,
        count: r.len() / layout::LINE,
    };
    lines.all_listed() && lines.sound(n)
}
