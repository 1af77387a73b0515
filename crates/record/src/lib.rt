// One record's bytes: of a slot or a roster line, wherever they lie, its kind and zeros and the rules that it meets by itself; of a table's clock, its two numbers
// read and written. Here alone a place is read and written as 4 bytes or 8.
#![tactic(auto)]

ghost use Rattle.std.specs.Prelude.{◌≡◌, ◌&&◌, ◌∷◌, [], map, ◌+◌, ◌*◌, ◌^◌, ◌≤◌, ◌<◌, length, get_or, eqb};
ghost use Rattle.model.specs.Lists.{same};
ghost use Rattle.model.specs.Numbers.{big_endian, bytes_of, part, splice, encode};
ghost use Rattle.model.specs.Names.{fold};
ghost use Rattle.model.specs.Clock.{cycle_of};
ghost use Rattle.model.specs.Table.{read_line, place_width, place_bytes, running_at, layout_of, read_table};
ghost use Rattle.model.specs.Rules.{numbered, held_by};
ghost use Rattle.model.specs.Sound.{valid_line, valid_entry};
ghost use Rattle.layout.specs.Shape.{in_use, slot_shape, unused_shape, listed_kind};
ghost use Rattle.layout.specs.Held.{holding_at};
ghost use Rattle.layout.specs.Weeks.{weeks_of};
ghost use Rattle.layout.specs.Places.{layout_in, LayoutFor};
ghost use Rattle.clock.specs.Clock.{clock_of};
ghost use Rattle.record.specs.Address.{address_of};
ghost use Rattle.record.specs.Asked.{same_asked};
ghost use Rattle.record.specs.State.{state_of, kind_byte};

use clock::Clock;
use layout::{Kind, Layout, Weeks};
use wire::LlqNumber;

// The last place: 4 bytes with weeks of ten bits, 8 with weeks of thirteen.
fn place_at(t: &[u8], weeks: Weeks) -> u64
    requires { 1 + place_width (weeks_of weeks) ≤ length t.now }
    ensures { result ≡ big_endian t.now 1 (place_width (weeks_of weeks)) }
{
    match weeks {
        Weeks::Ten => octets::get32(t, layout::PLACE_AT) as u64,
        Weeks::Thirteen => octets::get64(t, layout::PLACE_AT),
    }
}

// The running count, before the lines. A table's bytes and its layout stay two parameters: of bytes lent to be written, a struct's clauses would have to
// say what was handed back, and its facts would have to hold at each write.
pub fn running_count(t: &[u8], l: Layout) -> u32
    requires { LayoutFor l (length t.now) × (l.slots_at ≤ length t.now) }
    ensures { result ≡ big_endian t.now (running_at (layout_of (length t.now))) 4 }
{
    octets::get32(t, l.lines_at as usize - layout::RUNNING)
}

// The clock's record.
pub fn clock_at(t: &[u8], l: Layout) -> Clock
    requires { LayoutFor l (length t.now) × (l.slots_at ≤ length t.now) }
    ensures { clock_of result ≡ (read_table t.now).clock }
{
    let weeks = l.weeks;
    Clock {
        place: place_at(t, weeks),
        running: running_count(t, l),
    }
}

// The last place is written.
fn put_place(t: &mut [u8], weeks: Weeks, place: u64)
    requires { (1 + place_width (weeks_of weeks) ≤ length t.old) × (place < cycle_of (weeks_of weeks)) }
    ensures { t.new ≡ splice 1 (place_width (weeks_of weeks)) (bytes_of (place_width (weeks_of weeks)) place) t.old }
{
    match weeks {
        Weeks::Ten => octets::put32(t, layout::PLACE_AT, place as u32),
        Weeks::Thirteen => octets::put64(t, layout::PLACE_AT, place),
    }
}

// The clock's two numbers are written.
pub fn put_clock(t: &mut [u8], l: Layout, c: Clock)
    requires { LayoutFor l (length t.old) × (l.slots_at ≤ length t.old) × (c.place < cycle_of (weeks_of l.weeks)) }
    ensures { t.new ≡ splice 1 (place_bytes (layout_in l) + 4) (encode ((place_bytes (layout_in l), c.place) ∷ (4, c.running) ∷ [])) t.old }
{
    let weeks = l.weeks;
    put_place(t, weeks, c.place);
    octets::put32(t, l.lines_at as usize - layout::RUNNING, c.running);
}

// "Each slot is free, pending or established."
#[derive(Clone, Copy)]
pub enum State {
    Free,
    Pending,
    Established,
}

// What a slot of this kind is.
impl From<u8> for State {
    ghost from_gives = { λ kind state. state ≡ state_of kind };

    fn from(kind: u8) -> State {
        if kind == Kind::Pending as u8 {
            return State::Pending;
        }
        if kind == Kind::Established as u8 {
            return State::Established;
        }
        State::Free
    }
}

// The kind of a slot in this state.
impl From<State> for u8 {
    ghost from_gives = { λ state kind. kind ≡ kind_byte state };

    fn from(state: State) -> u8 {
        match state {
            State::Free => Kind::Free as u8,
            State::Pending => Kind::Pending as u8,
            State::Established => Kind::Established as u8,
        }
    }
}

// The kind is an entry's, pending or established.
pub fn in_use(kind: u8) -> bool
    ensures { result ≡ in_use kind }
{
    match State::from(kind) {
        State::Free => false,
        State::Pending | State::Established => true,
    }
}

// An address: 16 bytes, in two halves.
#[derive(Clone, Copy, PartialEq, Eq)]
pub struct Address {
    pub high: u64,
    pub low: u64,
}

// The address whose 16 bytes start at a. That the low half is below 2^64 its type says; a caller's proof does not see it behind the struct.
pub fn address_at(t: &[u8], a: usize) -> Address
    requires { a + 16 ≤ length t.now }
    ensures number { address_of result ≡ big_endian t.now a 16 }
    ensures halves { (result.high ≡ big_endian t.now a 8) × (result.low ≡ big_endian t.now (a + 8) 8) × (result.low < 2 ^ 64) }
{
    Address {
        high: octets::get64(t, a),
        low: octets::get64(t, a + 8),
    }
}

// The 16 bytes at a are the address. The low half first: most addresses differ there, and then the high one is not read.
pub fn has_address(t: &[u8], a: usize, address: Address) -> bool
    requires { a + 16 ≤ length t.now }
    ensures { result ≡ eqb (big_endian t.now a 16) (address_of address) }
{
    if octets::get64(t, a + 8) == address.low {
        return octets::get64(t, a) == address.high;
    }
    false
}

// 2 * 2^56: the kind 2 and seven zeros.
const UNUSED_HEAD: u64 = Kind::Unused as u64 * 72057594037927936;

// An unused line: its 19 bytes as three numbers of 8 that lie over each other. A function of the slice, as `same_asked` below: that a byte is below 256
// a proof knows of an argument's bytes, and not of those behind a struct's field.
fn unused_shape(t: &[u8], a: usize) -> bool
    requires { a + 19 ≤ length t.now }
    ensures { result ≡ unused_shape t.now a }
{
    if octets::get64(t, a) != UNUSED_HEAD {
        return false;
    }
    if octets::get64(t, a + 8) != 0 {
        return false;
    }
    octets::get64(t, a + 11) == 0
}

// A roster line, where it lies.
#[derive(Clone, Copy)]
pub struct Line<'a> {
    pub bytes: &'a [u8],
    pub at: usize,
    ghost fits: { at + 19 ≤ length bytes.now },
}

impl<'a> Line<'a> {
    // It is unused: its kind, and zeros.
    pub fn unused(self) -> bool
        ensures { result ≡ unused_shape self.entry.bytes.now self.entry.at }
    {
        unused_shape(self.bytes, self.at)
    }

    // It is of kind 0x03.
    pub fn listed(self) -> bool
        ensures { result ≡ eqb (get_or self.entry.bytes.now self.entry.at 0) listed_kind }
    {
        self.bytes[self.at] == Kind::Listed as u8
    }

    pub fn address(self) -> Address
        ensures { address_of result ≡ (read_line self.entry.bytes.now self.entry.at).address }
    {
        address_at(self.bytes, self.at + layout::ADDRESS_AT)
    }

    pub fn has_address(self, address: Address) -> bool
        ensures { result ≡ eqb (read_line self.entry.bytes.now self.entry.at).address (address_of address) }
    {
        has_address(self.bytes, self.at + layout::ADDRESS_AT, address)
    }

    pub fn share(self) -> u8
        ensures { result ≡ (read_line self.entry.bytes.now self.entry.at).share }
    {
        self.bytes[self.at + layout::SHARE_AT]
    }

    pub fn limit(self) -> u8
        ensures { result ≡ (read_line self.entry.bytes.now self.entry.at).limit }
    {
        self.bytes[self.at + layout::LIMIT_AT]
    }

    // A line's rules: share ≤ limit, limit is 1 to 64.
    pub fn valid(self) -> bool
        ensures { result ≡ valid_line (read_line self.entry.bytes.now self.entry.at) }
    {
        let share = self.share();
        let limit = self.limit();
        if share > limit {
            return false;
        }
        if limit < 1 {
            return false;
        }
        limit <= 64
    }
}

// The entries of the slots at a and at c agree in port, type, class and name. Type and class are compared as one number.
fn same_asked(t: &[u8], a: usize, c: usize) -> bool
    requires { (a + 320 ≤ length t.now) × (c + 320 ≤ length t.now) }
    ensures { result ≡ same_asked (holding_at 0 t.now a) (holding_at 0 t.now c) }
{
    if octets::get16(t, a + layout::PORT_AT) != octets::get16(t, c + layout::PORT_AT) {
        return false;
    }
    if octets::get32(t, a + layout::TYPE_AT) != octets::get32(t, c + layout::TYPE_AT) {
        return false;
    }
    let compared = names::compare_stored(
        t,
        a + layout::NAME_AT,
        usize::from(t[a + layout::NAME_LENGTH_AT]),
        c + layout::NAME_AT,
        usize::from(t[c + layout::NAME_LENGTH_AT]),
    );
    compared.same
}

// A slot, where it lies.
#[derive(Clone, Copy)]
pub struct Slot<'a> {
    pub bytes: &'a [u8],
    pub at: usize,
    ghost fits: { at + 320 ≤ length bytes.now },
}

impl<'a> Slot<'a> {
    pub fn kind(self) -> u8
        ensures { result ≡ get_or self.entry.bytes.now self.entry.at 0 }
    {
        self.bytes[self.at]
    }

    // It has an entry, pending or established.
    pub fn in_use(self) -> bool
        ensures { result ≡ in_use (get_or self.entry.bytes.now self.entry.at 0) }
    {
        in_use(self.kind())
    }

    // Its zeros are as its kind has them: behind the name of an entry, all of a free slot. One call, so that it is compiled in place.
    pub fn shape(self) -> bool
        ensures { result ≡ slot_shape self.entry.bytes.now self.entry.at }
    {
        let kind = self.kind();
        let from = if in_use(kind) {
            layout::NAME_AT + usize::from(self.name_length())
        } else if kind == u8::from(State::Free) {
            1
        } else {
            return false;
        };
        octets::zeros(self.bytes, self.at + from, layout::SLOT - from)
    }

    // The length of its entry's name.
    pub fn name_length(self) -> u8
        ensures { result ≡ get_or self.entry.bytes.now (self.entry.at + 39) 0 }
    {
        self.bytes[self.at + layout::NAME_LENGTH_AT]
    }

    // The LLQ number of its entry.
    pub fn number(self) -> LlqNumber
        ensures { result.0 ≡ big_endian self.entry.bytes.now (self.entry.at + 19) 8 }
    {
        LlqNumber(octets::get64(self.bytes, self.at + layout::NUMBER_AT))
    }

    // The address of its entry.
    pub fn address(self) -> Address
        ensures number { address_of result ≡ big_endian self.entry.bytes.now (self.entry.at + 1) 16 }
        ensures halves { (result.high ≡ big_endian self.entry.bytes.now (self.entry.at + 1) 8) × (result.low ≡ big_endian self.entry.bytes.now (self.entry.at + 9) 8) × (result.low < 2 ^ 64) }
    {
        address_at(self.bytes, self.at + layout::ADDRESS_AT)
    }

    // The port of its entry.
    pub fn port(self) -> u16
        ensures { result ≡ big_endian self.entry.bytes.now (self.entry.at + 17) 2 }
    {
        octets::get16(self.bytes, self.at + layout::PORT_AT)
    }

    // The granted lease of its entry.
    pub fn lease(self) -> u32
        ensures { result ≡ big_endian self.entry.bytes.now (self.entry.at + 27) 4 }
    {
        octets::get32(self.bytes, self.at + layout::LEASE_AT)
    }

    // The stamp of its entry: the running count when the lease began.
    pub fn stamp(self) -> u32
        ensures { result ≡ big_endian self.entry.bytes.now (self.entry.at + 31) 4 }
    {
        octets::get32(self.bytes, self.at + layout::STAMP_AT)
    }

    // The type that its entry asks.
    pub fn qtype(self) -> u16
        ensures { result ≡ big_endian self.entry.bytes.now (self.entry.at + 35) 2 }
    {
        octets::get16(self.bytes, self.at + layout::TYPE_AT)
    }

    // The class that its entry asks.
    pub fn qclass(self) -> u16
        ensures { result ≡ big_endian self.entry.bytes.now (self.entry.at + 37) 2 }
    {
        octets::get16(self.bytes, self.at + layout::CLASS_AT)
    }

    // Its entry's name is the one of len bytes that d has at a place, folded.
    pub fn has_name(self, d: &[u8], at: usize, len: usize) -> bool
        requires { at + len ≤ length d.now }
        ensures { result ≡ same (part (self.entry.at + 40) (get_or self.entry.bytes.now (self.entry.at + 39) 0) self.entry.bytes.now) (map fold (part at len d.now)) }
    {
        let compared = names::compare(
            self.bytes,
            self.at + layout::NAME_AT,
            usize::from(self.name_length()),
            d,
            at,
            len,
        );
        compared.same
    }

    // It has an entry of the number. The kind, which most slots share, last.
    pub fn has_number(self, number: LlqNumber) -> bool
        ensures { result ≡ (in_use (get_or self.entry.bytes.now self.entry.at 0) && numbered number.0 (holding_at 0 self.entry.bytes.now self.entry.at)) }
    {
        let own = self.number();
        if own.0 == number.0 {
            return self.in_use();
        }
        false
    }

    // It has an entry of the address.
    pub fn has_holder(self, address: Address) -> bool
        ensures { result ≡ (in_use (get_or self.entry.bytes.now self.entry.at 0) && held_by (address_of address) (holding_at 0 self.entry.bytes.now self.entry.at)) }
    {
        if has_address(self.bytes, self.at + layout::ADDRESS_AT, address) {
            return self.in_use();
        }
        false
    }

    // An entry's rules: its number is not zero, its lease is 60 to 7,200, its age is under its lease, its name is valid.
    pub fn valid(self, running: u32) -> bool
        ensures { result ≡ valid_entry (holding_at running self.entry.bytes.now self.entry.at) }
    {
        let number = self.number();
        if number.0 == 0 {
            return false;
        }
        let lease = self.lease();
        if lease < 60 {
            return false;
        }
        if lease > 7200 {
            return false;
        }
        let stamp = self.stamp();
        if clock::age(running, stamp) >= lease {
            return false;
        }
        names::lower_name(
            self.bytes,
            self.at + layout::NAME_AT,
            usize::from(self.name_length()),
        )
    }

    // The entries of two slots of one table agree in port, type, class and name.
    pub fn same_asked(self, other: Slot) -> bool
        requires { other.bytes.now ≡ self.bytes.now }
        ensures { result ≡ same_asked (holding_at 0 self.entry.bytes.now self.entry.at) (holding_at 0 self.entry.bytes.now other.entry.at) }
    {
        same_asked(self.bytes, self.at, other.at)
    }
}
