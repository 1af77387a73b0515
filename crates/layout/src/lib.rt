// Where a table's records lie in its bytes: document 01, "The table". Each of these numbers stands here alone.
#![tactic(auto)]

ghost use Rattle.std.specs.Prelude.{◌≡◌, ◌-◌, ◌/◌, ◌<◌};
ghost use Rattle.model.specs.Table.{kind_with, lines_at, layout_of};
ghost use Rattle.model.specs.Calls.{table_length};
ghost use Rattle.layout.specs.Weeks.{weeks_of};
ghost use Rattle.layout.specs.Places.{LayoutFor};

// Kinds of record, by the byte that each starts with: of the clock, with weeks of ten bits and of thirteen, of lines and of slots.
#[derive(Clone, Copy)]
pub enum Kind {
    TenClock = 1,
    Unused = 2,
    Listed = 3,
    Free = 4,
    Pending = 5,
    Established = 6,
    ThirteenClock = 9,
}

// The clock's place, behind its kind, and the bytes of the running count, behind the place and before the lines.
pub const PLACE_AT: usize = 1;

pub const RUNNING: usize = 4;

// The roster's lines: where they start, how many there are, the bytes of one and of all.
const TEN_LINES_AT: usize = PLACE_AT + 4 + RUNNING;

const THIRTEEN_LINES_AT: usize = PLACE_AT + 8 + RUNNING;

pub const LINES: usize = 16;

pub const LINE: usize = 19;

pub const ROSTER: usize = LINE * LINES;

// The slots, behind the lines: the bytes of one, and how many there are at most.
pub const SLOT: usize = 320;

pub const SLOTS_MOST: usize = 64;

// A listed line or an entry, from its kind on: the address, its low half and its last byte.
pub const ADDRESS_AT: usize = 1;

pub const LOW_AT: usize = 9;

pub const ADDRESS_LAST: usize = 16;

// A listed line's share and limit.
pub const SHARE_AT: usize = 17;

pub const LIMIT_AT: usize = 18;

// An entry's other fields: the port, the LLQ number and its last byte, the granted lease, the stamp, the type, the class, the name's length and the name.
pub const PORT_AT: usize = 17;

pub const NUMBER_AT: usize = 19;

pub const NUMBER_LAST: usize = 26;

pub const LEASE_AT: usize = 27;

pub const STAMP_AT: usize = 31;

pub const TYPE_AT: usize = 35;

pub const CLASS_AT: usize = 37;

pub const NAME_LENGTH_AT: usize = 39;

pub const NAME_AT: usize = 40;

// The name with the zeros behind it.
pub const NAME_ROOM: usize = SLOT - NAME_AT;

// A line and a slot without the kind.
pub const LINE_BODY: usize = LINE - 1;

pub const SLOT_BODY: usize = SLOT - 1;

// The length of the largest table.
pub const TABLE_MOST: usize = THIRTEEN_LINES_AT + ROSTER + SLOT * SLOTS_MOST;

// The weeks that a table's clock counts: of ten bits, or of thirteen.
#[derive(Clone, Copy)]
pub enum Weeks {
    Ten,
    Thirteen,
}

// The kind of a clock record.
pub fn clock_kind(weeks: Weeks) -> u8
    ensures { result ≡ kind_with (weeks_of weeks) }
{
    match weeks {
        Weeks::Ten => Kind::TenClock as u8,
        Weeks::Thirteen => Kind::ThirteenClock as u8,
    }
}

// How a table is laid out: the weeks that its clock counts, where its lines and slots start, and how many slots there are. It is worked out once a
// call from the table's length. Both places are below 320, and kept in 16 bits: what is handed on is two words.
#[derive(Clone, Copy)]
pub struct Layout {
    pub weeks: Weeks,
    pub lines_at: u16,
    pub slots_at: u16,
    pub n: usize,
}

// The two lengths differ in their rest: 313 and 317 modulo 320.
fn weeks_of(size: usize) -> Weeks
    ensures { weeks_of result ≡ (layout_of size).weeks }
{
    if size % SLOT == THIRTEEN_LINES_AT + ROSTER {
        return Weeks::Thirteen;
    }
    Weeks::Ten
}

fn lines_at(weeks: Weeks) -> usize
    ensures { result ≡ lines_at (record { weeks = weeks_of weeks }) }
{
    match weeks {
        Weeks::Ten => TEN_LINES_AT,
        Weeks::Thirteen => THIRTEEN_LINES_AT,
    }
}

// How many slots fit behind a place. By the quotient and the rest that tell the weeks too, so that the length is divided once.
fn slots_behind(size: usize, at: usize) -> usize
    requires { at < 320 }
    ensures { result ≡ (size - at) / 320 }
{
    let n = size / SLOT;
    if size % SLOT >= at {
        return n;
    }
    if n == 0 {
        return 0;
    }
    n - 1
}

// The layout of a table of this length.
pub fn of(size: usize) -> Layout
    ensures { LayoutFor result size }
{
    let weeks = weeks_of(size);
    let lines_at = lines_at(weeks);
    let slots_at = lines_at + ROSTER;
    let n = slots_behind(size, slots_at);
    Layout {
        weeks,
        lines_at: lines_at as u16,
        slots_at: slots_at as u16,
        n,
    }
}

// The length is that of a table of 1 to 64 slots.
pub fn table_length(size: usize, l: Layout) -> bool
    requires { LayoutFor l size }
    ensures { result ≡ table_length size }
{
    if l.n < 1 {
        return false;
    }
    if l.n > SLOTS_MOST {
        return false;
    }
    size == l.slots_at as usize + SLOT * l.n
}
