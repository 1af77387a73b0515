// Changes of a table in place: a slot written, the clock moved and run-out entries freed, a table made. `slots` and `lines` are the parts that start with the first of them: they are lent to be written, and so are no `Slots` and no `Lines`, which are read.
#![tactic(auto)]

ghost use Rattle.std.specs.Prelude.{◌≡◌, true, ◌∷◌, [], map, ◌+◌, ◌-◌, ◌*◌, ◌<◌, ◌≤◌, length};
ghost use Rattle.model.specs.Lists.{count, flat};
ghost use Rattle.model.specs.Numbers.{Bytes, bytes_of, part, splice, encode};
ghost use Rattle.model.specs.Names.{fold};
ghost use Rattle.model.specs.Clock.{cycle_of};
ghost use Rattle.model.specs.Table.{kind_of, size_of, read_table, table_bytes, slot_bytes, unused_line};
ghost use Rattle.model.specs.Serve.{ended, slot_run_out, free_if_run_out, moved_on};
ghost use Rattle.model.specs.Calls.{freed_by, good_roster};
ghost use Rattle.layout.specs.Shape.{slots_to};
ghost use Rattle.layout.specs.Weeks.{weeks_of};
ghost use Rattle.layout.specs.Places.{layout_in, LayoutFor};
ghost use Rattle.table.specs.Written.{WellFormed, FormedSlots, Written};
ghost use Rattle.table.specs.Stored.{holder_fields, lease_fields, name_bytes, entry_bytes};
ghost use Rattle.table.specs.Fresh.{unused_lines, free_slots, fresh};

use clock::Clock;
use entries::Entry;
use layout::{Kind, Layout};
use record::{Slot, State};

// WRITERS OF A SLOT

// An entry ends: slot i becomes free. Every slot that is freed is freed here, a made table's too.
pub fn end_entry(slots: &mut [u8], i: usize)
    requires { 320 * (i + 1) ≤ length slots.old }
    ensures { slots.new ≡ splice (320 * i) 320 (slot_bytes ended) slots.old }
{
    let a = layout::SLOT * i;
    octets::put8(slots, a, u8::from(State::Free));
    octets::clear(slots, a + 1, layout::SLOT_BODY);
}

// Kind, address, port and number. That s is one slot's bytes is a clause here and in the three below: a part of a lent slice is a slice, not an array.
fn put_holder_fields(s: &mut [u8], e: Entry)
    requires { length s.old ≡ 320 }
    ensures { s.new ≡ splice 0 27 (encode (holder_fields e)) s.old }
{
    let address = e.sender.address;
    octets::put8(s, 0, u8::from(e.state));
    octets::put64(s, layout::ADDRESS_AT, address.high);
    octets::put64(s, layout::LOW_AT, address.low);
    octets::put16(s, layout::PORT_AT, e.sender.port);
    octets::put64(s, layout::NUMBER_AT, e.number.0);
}

// Lease, stamp, type, class.
fn put_lease_fields(s: &mut [u8], e: Entry)
    requires { length s.old ≡ 320 }
    ensures { s.new ≡ splice 27 12 (encode (lease_fields e)) s.old }
{
    octets::put32(s, layout::LEASE_AT, e.lease);
    octets::put32(s, layout::STAMP_AT, e.stamp);
    octets::put16(s, layout::TYPE_AT, e.qtype);
    octets::put16(s, layout::CLASS_AT, e.qclass);
}

// The name's length, the name that d has at a place, folded, and zeros.
fn put_name(s: &mut [u8], len: u8, d: &[u8], at: usize)
    requires { (length s.old ≡ 320) × (at + len ≤ length d.now) }
    ensures { s.new ≡ splice 39 281 (name_bytes (map fold (part at len d.now))) s.old }
{
    let n = usize::from(len);
    octets::put8(s, layout::NAME_LENGTH_AT, len);
    names::copy_folded(s, layout::NAME_AT, d, at, n);
    octets::clear(s, layout::NAME_AT + n, layout::NAME_ROOM - n);
}

// A slot's bytes.
fn put_slot(s: &mut [u8], e: Entry, d: &[u8], at: usize)
    requires { (length s.old ≡ 320) × (at + e.len ≤ length d.now) }
    ensures { s.new ≡ entry_bytes e (map fold (part at e.len d.now)) }
{
    put_holder_fields(s, e);
    put_lease_fields(s, e);
    put_name(s, e.len, d, at);
}

// An entry is stored in slot i, with the name that d has at a place, folded.
pub fn put_entry(slots: &mut [u8], i: usize, e: Entry, d: &[u8], at: usize)
    requires { (320 * (i + 1) ≤ length slots.old) × (at + e.len ≤ length d.now) }
    ensures stored { slots.new ≡ splice (320 * i) 320 (entry_bytes e (map fold (part at e.len d.now))) slots.old }
    ensures name_in_bytes { Bytes (map fold (part at e.len d.now)) }
{
    let a = layout::SLOT * i;
    put_slot(&mut slots[a..a + layout::SLOT], e, d, at)
}

// The entry of slot i is established: its state alone.
pub fn establish_at(slots: &mut [u8], i: usize)
    requires { 320 * (i + 1) ≤ length slots.old }
    ensures { slots.new ≡ splice (320 * i) 1 (bytes_of 1 (kind_of true)) slots.old }
{
    let a = layout::SLOT * i;
    octets::put8(slots, a, u8::from(State::Established))
}

// The entry of slot i gets a lease and a stamp.
pub fn renew_at(slots: &mut [u8], i: usize, lease: u32, stamp: u32)
    requires { 320 * (i + 1) ≤ length slots.old }
    ensures { slots.new ≡ splice (320 * i + 27) 8 (encode ((4, lease) ∷ (4, stamp) ∷ [])) slots.old }
{
    let a = layout::SLOT * i;
    octets::put32(slots, a + layout::LEASE_AT, lease);
    octets::put32(slots, a + layout::STAMP_AT, stamp);
}

// THE CLOCK, AND WHAT HAS RUN OUT

// Entries that have run out end. Returns how many there were.
fn free_run_out(slots: &mut [u8], n: usize, running: u32) -> usize
    requires { (320 * n ≤ length slots.old) × FormedSlots slots.old n }
    ensures { (slots.new ≡ flat slot_bytes (map (free_if_run_out running) (slots_to slots.old n))) × (result ≡ count (slots_to slots.old n) (slot_run_out running)) }
{
    let mut freed = 0;
    for i in 0..n {
        let slot = Slot {
            bytes: slots,
            at: layout::SLOT * i,
        };
        if entries::run_out(slot, running) {
            end_entry(slots, i);
            freed += 1;
        }
    }
    freed
}

// The clock is moved on to a place, then run-out entries end. Returns how many there were. No entry had run out before: while the count stays, none does.
pub fn move_on(t: &mut [u8], l: Layout, place: u64) -> usize
    requires { WellFormed t.old × LayoutFor l (length t.old) × ((read_table t.old).clock.place < cycle_of (weeks_of l.weeks)) × (place < cycle_of (weeks_of l.weeks)) × (count (read_table t.old).slots (slot_run_out (read_table t.old).clock.running) ≡ 0) }
    ensures { Written t.new (moved_on (read_table t.old) place) × (result ≡ freed_by (read_table t.old) place) }
{
    let c = record::clock_at(t, l);
    let d = clock::advanced(c, l.weeks, place);
    record::put_clock(t, l, d);
    if d.running == c.running {
        return 0;
    }
    free_run_out(&mut t[l.slots_at as usize..], l.n, d.running)
}

// MAKING

// Line i becomes unused.
fn clear_line(lines: &mut [u8], i: usize)
    requires { 19 * (i + 1) ≤ length lines.old }
    ensures { lines.new ≡ splice (19 * i) 19 unused_line lines.old }
{
    let a = layout::LINE * i;
    octets::put8(lines, a, Kind::Unused as u8);
    octets::clear(lines, a + 1, layout::LINE_BODY);
}

// The lines from m on become unused.
fn clear_lines(lines: &mut [u8], m: usize)
    requires { (m ≤ 16) × (304 ≤ length lines.old) }
    ensures { lines.new ≡ splice (19 * m) (19 * (16 - m)) (unused_lines (16 - m)) lines.old }
{
    for i in m..layout::LINES {
        clear_line(lines, i);
    }
}

// Slots below n become free.
fn clear_slots(slots: &mut [u8], n: usize)
    requires { 320 * n ≤ length slots.old }
    ensures { slots.new ≡ splice 0 (320 * n) (free_slots n) slots.old }
{
    for i in 0..n {
        end_entry(slots, i);
    }
}

// A table made: the layout's clock record, the place, running count 0, the roster in the order given, and free slots.
pub fn make_fresh(t: &mut [u8], l: Layout, place: u64, roster: &[u8])
    requires { LayoutFor l (length t.old) × (length t.old ≡ size_of (layout_in l) l.n) × (good_roster l.n roster.now ≡ true) × (place < cycle_of (weeks_of l.weeks)) }
    ensures { t.new ≡ table_bytes (fresh (layout_in l) place roster.now l.n) }
{
    let k = roster.len();
    let a = l.lines_at as usize;
    octets::put8(t, 0, layout::clock_kind(l.weeks));
    record::put_clock(t, l, Clock { place, running: 0 });
    octets::copy(t, a, roster, 0, k);
    clear_lines(&mut t[a..], k / layout::LINE);
    clear_slots(&mut t[l.slots_at as usize..], l.n);
}
