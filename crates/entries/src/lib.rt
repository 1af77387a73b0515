// What is read of a table's slots, where they lie. A slot is found by its first index, as the model finds it.
#![tactic(auto)]

ghost use Rattle.std.specs.Prelude.{ℕ, true, false, not, MatchOption, ◌≡◌, ◌<◌, ◌+◌, ◌*◌, ◌^◌, ◌≤◌, ◌||◌, length, ◌==◌, nat_le};
ghost use Rattle.model.specs.Table.{read_slot, listed};
ghost use Rattle.model.specs.Rules.{numbered, full, fresh_number};
ghost use Rattle.model.specs.Serve.{is_free, has, slot_run_out, in_span, answers, refreshes};
ghost use Rattle.layout.specs.Shape.{lines_to};
ghost use Rattle.layout.specs.Held.{holding_at};
ghost use Rattle.record.specs.Address.{address_of};
ghost use Rattle.holdings.specs.Slots.{held_in};
ghost use Rattle.entries.specs.Asked.{question_asked, asked_by};
ghost use Rattle.entries.specs.Reads.{sender_of, entry_at, slot_has, found_in, first_in, sent};

mod asked;

pub use asked::Asked;
use holdings::Slots;
use record::{Address, Slot, State};
use roster::Lines;
use wire::LlqNumber;

// Who sent the datagram: an address and a port.
#[derive(Clone, Copy, PartialEq, Eq)]
pub struct Sender {
    pub address: Address,
    pub port: u16,
}

// What a slot says beside its name.
#[derive(Clone, Copy)]
pub struct Entry {
    pub state: State,
    pub sender: Sender,
    pub number: LlqNumber,
    pub lease: u32,
    pub stamp: u32,
    pub qtype: u16,
    pub qclass: u16,
    pub len: u8,
}

// A slot that was found, and its entry.
#[derive(Clone, Copy)]
pub struct Found {
    pub slot: usize,
    pub entry: Entry,
}

// Who holds a slot's entry. Of `low` see `record::address_at`.
fn sender_at(slot: Slot) -> Sender
    ensures sender { result ≡ (entry_at slot.entry.bytes.now slot.entry.at).sender }
    ensures low { result.address.low < 2 ^ 64 }
{
    Sender {
        address: slot.address(),
        port: slot.port(),
    }
}

// A slot as it is stored. A finder reads it once, in the slot that it finds.
fn entry_at(slot: Slot) -> Entry
    ensures { result ≡ entry_at slot.entry.bytes.now slot.entry.at }
{
    Entry {
        state: State::from(slot.kind()),
        sender: sender_at(slot),
        number: slot.number(),
        lease: slot.lease(),
        stamp: slot.stamp(),
        qtype: slot.qtype(),
        qclass: slot.qclass(),
        len: slot.name_length(),
    }
}

// The slot's entry is of this sender and asks this question. Its name is compared where it is stored.
fn entry_asks(slot: Slot, asked: Asked) -> bool
    ensures { result ≡ asked_by asked.entry (holding_at 0 slot.entry.bytes.now slot.entry.at) }
{
    let sender = sender_at(slot);
    let q = asked.question;
    if (sender, slot.qtype(), slot.qclass()) != (asked.sender, q.qtype, q.qclass) {
        return false;
    }
    slot.has_name(asked.datagram, usize::from(q.start), usize::from(q.len))
}

// The slot has an entry of this sender and question: a setup finds it, pending or established. The address, or the number, is looked at first, in any slot: more is read only where it agrees. So for the two below.
fn slot_asks(slot: Slot, asked: Asked) -> bool
    ensures { result ≡ slot_has 0 (asked_by asked.entry) slot.entry }
{
    slot.has_holder(asked.sender.address) && entry_asks(slot, asked)
}

// A response's lease is in the span: no less than what remains of the granted lease at this age, and no more than it.
fn in_span(granted: u32, age: u32, sent: u32) -> bool
    ensures { result ≡ in_span granted age sent }
{
    sent <= granted && granted - sent <= age
}

// The slot has an entry of this number, sender and question in whose span the lease sent is: a response finds it, pending or established.
fn slot_answers(slot: Slot, asked: Asked, running: u32, number: LlqNumber, lease: u32) -> bool
    ensures { result ≡ slot_has running (answers (sender_of asked.entry.sender) (question_asked asked.entry) (sent number.0 lease)) slot.entry }
{
    if !slot.has_number(number) {
        return false;
    }
    let age = clock::age(running, slot.stamp());
    in_span(slot.lease(), age, lease) && entry_asks(slot, asked)
}

// The slot has an established entry of this number, sender and question: a refresh finds it.
fn slot_refreshes(slot: Slot, asked: Asked, number: LlqNumber) -> bool
    ensures { result ≡ slot_has 0 (refreshes (sender_of asked.entry.sender) (question_asked asked.entry) (sent number.0 0)) slot.entry }
{
    if !slot.has_number(number) {
        return false;
    }
    match State::from(slot.kind()) {
        State::Free | State::Pending => false,
        State::Established => entry_asks(slot, asked),
    }
}

// The first of the slots that passes, with its entry.
fn first_that<F: Fn(usize) -> bool>(slots: Slots, passes: F) -> Option<Found>
    requires { (i : ℕ) → i < slots.n → F.pre passes i }
    ensures { MatchOption result ((i : ℕ) → i < slots.entry.n → F.post passes i false) (λ found. (found.slot < slots.entry.n) × (found.entry ≡ entry_at slots.entry.bytes.now (320 * found.slot)) × F.post passes found.slot true × ((i : ℕ) → i < found.slot → F.post passes i false)) }
{
    for slot in 0..slots.n {
        if passes(slot) {
            let entry = entry_at(slots.slot(slot));
            return Some(Found { slot, entry });
        }
    }
    None
}

// The first slot that a setup finds, and its entry. So for the two below.
pub fn find_asked(slots: Slots, asked: Asked) -> Option<Found>
    ensures { result ≡ found_in slots.entry (has 0 (asked_by asked.entry)) }
{
    first_that(slots, |i| slot_asks(slots.slot(i), asked))
}

pub fn find_answered(
    slots: Slots,
    asked: Asked,
    running: u32,
    number: LlqNumber,
    lease: u32,
) -> Option<Found>
    ensures { result ≡ found_in slots.entry (has running (answers (sender_of asked.entry.sender) (question_asked asked.entry) (sent number.0 lease))) }
{
    first_that(
        slots,
        |i| slot_answers(slots.slot(i), asked, running, number, lease),
    )
}

pub fn find_refreshed(slots: Slots, asked: Asked, number: LlqNumber) -> Option<Found>
    ensures { result ≡ found_in slots.entry (has 0 (refreshes (sender_of asked.entry.sender) (question_asked asked.entry) (sent number.0 0))) }
{
    first_that(slots, |i| slot_refreshes(slots.slot(i), asked, number))
}

// The lowest free slot.
pub fn find_free(slots: Slots) -> Option<usize>
    ensures { result ≡ first_in slots.entry is_free }
{
    (0..slots.n).find(|&i| !slots.slot(i).in_use())
}

// The slot has an entry that has run out: pending entries wait out their lease too.
pub fn run_out(slot: Slot, running: u32) -> bool
    ensures { result ≡ slot_run_out running (read_slot slot.entry.bytes.now slot.entry.at) }
{
    slot.in_use() && clock::run_out(running, slot.stamp(), slot.lease())
}

// SERV-FULL: the address is at its limit, or has reached its share and the free slots are no more than the reserve.
pub fn is_full(lines: &[u8], slots: Slots, address: Address) -> bool
    requires { 304 ≤ length lines.now }
    ensures { result ≡ full slots.entry.n (lines_to lines.now (listed lines.now 16)) (held_in slots.entry) (address_of address) }
{
    let listed = Lines::listed(lines);
    let held = slots.held_by(address);
    if listed.limit_of(address) <= held {
        return true;
    }
    if held < listed.share_of(address) {
        return false;
    }
    slots.n - slots.held() <= slots.reserve(listed)
}

// A number that can be granted: not 0, and not that of an entry.
fn is_fresh(slots: Slots, x: LlqNumber) -> bool
    ensures { result ≡ not (x.0 == 0 || nat_le 1 (held_in slots.entry (numbered x.0))) }
{
    x.0 != 0 && !(0..slots.n).any(|i| slots.slot(i).has_number(x))
}

// The granted number: the first of r, r + 1, r + 2 and so on, modulo 2^64, that can be.
pub fn fresh_number(slots: Slots, r: u64) -> LlqNumber
    ensures { result.0 ≡ fresh_number (slots.entry.n + 2) (held_in slots.entry) r }
{
    let mut x = r;
    for _ in 0..slots.n + 2 {
        if is_fresh(slots, LlqNumber(x)) {
            return LlqNumber(x);
        }
        x = x.wrapping_add(1);
    }
    LlqNumber(0)
}
