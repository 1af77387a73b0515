// One option served on the table as it stands: setup, response, refresh.
#![tactic(auto)]

ghost use Rattle.std.specs.Prelude.{◌≡◌, ◌≤◌, length, drop};
ghost use Rattle.model.specs.Lists.{count};
ghost use Rattle.model.specs.Clock.{age_at};
ghost use Rattle.model.specs.Table.{base, layout_of, read_table};
ghost use Rattle.model.specs.Rules.{holdings, full, granted_lease};
ghost use Rattle.model.specs.Serve.{kind_of_option, life_left, granted, serve_setup, serve_response, serve_refresh, serve_option};
ghost use Rattle.record.specs.Address.{address_of};
ghost use Rattle.wire.specs.Records.{option_of};
ghost use Rattle.entries.specs.Asked.{question_asked};
ghost use Rattle.entries.specs.Reads.{sender_of};
ghost use Rattle.layout.specs.Places.{LayoutFor};
ghost use Rattle.table.specs.Written.{WellFormed};
ghost use Rattle.options.specs.Outcomes.{kind_in, outcome_error, outcome_lease, served_outcome, served_with, ServedAs};

use entries::{Asked, Entry};
use holdings::Slots;
use layout::Layout;
use record::{Address, State};
use wire::{LlqNumber, LlqOption};

// RFC 8764's opcodes.
pub const LLQ_SETUP: u16 = 1;

pub const LLQ_REFRESH: u16 = 2;

// A granted lease is no less and no more.
const LEASE_LEAST: u32 = 60;

const LEASE_MOST: u32 = 7200;

// The lease of a reply that tells that the table is full: when to ask again.
const RETRY_AFTER: u32 = 60;

// RFC 8764's error numbers.
#[derive(Clone, Copy)]
pub enum ErrorCode {
    NoError = 0,
    ServFull = 1,
    Static = 2,
    FormatErr = 3,
    NoSuchLlq = 4,
    BadVers = 5,
    UnknownErr = 6,
}

// What an option came to.
#[derive(Clone, Copy)]
pub enum Outcome {
    // an entry, found or new, pending or not, and what is left of its lease
    Challenge(LlqNumber, u32),
    Full,
    // an established entry and what is left of its lease
    Established(LlqNumber, u32),
    Renewed(LlqNumber, u32),
    Ended(LlqNumber),
    // the number that the reply carries
    NoSuchLlq(LlqNumber),
    BadFormat,
    BadVersion,
}

// What the reply says of it: document 01's error and lease.
impl Outcome {
    pub fn error(self) -> u16
        ensures { result ≡ outcome_error self }
    {
        let code = match self {
            Outcome::Challenge(_, _)
            | Outcome::Established(_, _)
            | Outcome::Renewed(_, _)
            | Outcome::Ended(_) => ErrorCode::NoError,
            Outcome::Full => ErrorCode::ServFull,
            Outcome::NoSuchLlq(_) => ErrorCode::NoSuchLlq,
            Outcome::BadFormat => ErrorCode::FormatErr,
            Outcome::BadVersion => ErrorCode::BadVers,
        };
        code as u16
    }

    pub fn lease(self) -> u32
        ensures { result ≡ outcome_lease self }
    {
        match self {
            Outcome::Challenge(_, lease)
            | Outcome::Established(_, lease)
            | Outcome::Renewed(_, lease) => lease,
            Outcome::Full => RETRY_AFTER,
            Outcome::Ended(_) | Outcome::NoSuchLlq(_) | Outcome::BadFormat | Outcome::BadVersion =>
                0,
        }
    }
}

// An option served: the opcode and the number sent, and what it came to.
#[derive(Clone, Copy)]
pub struct ServedOption {
    pub opcode: u16,
    pub number: LlqNumber,
    pub outcome: Outcome,
}

impl ServedOption {
    // The number that the reply carries: of a malformed option with opcode 2 the one sent.
    pub fn reply_number(self) -> LlqNumber
        ensures { result.0 ≡ (served_outcome self).number }
    {
        match self.outcome {
            Outcome::Challenge(number, _)
            | Outcome::Established(number, _)
            | Outcome::Renewed(number, _)
            | Outcome::Ended(number)
            | Outcome::NoSuchLlq(number) => number,
            Outcome::BadFormat | Outcome::BadVersion if self.opcode == LLQ_REFRESH => self.number,
            Outcome::BadFormat | Outcome::BadVersion | Outcome::Full => LlqNumber(0),
        }
    }
}

// What an option asks for.
#[derive(Clone, Copy)]
pub enum Kind {
    BadVersion,
    BadFormat,
    Setup,
    Response,
    Refresh,
}

// Version not 1; else opcode not 1 or 2, or error not 0; else opcode 2; else by the number: 0 or not.
impl From<LlqOption> for Kind {
    ghost from_gives = { λ o kind. kind_in kind ≡ kind_of_option (option_of o) };

    #[tactic(auto, unfolding(model::specs::Serve::kind_of_option))]
    fn from(o: LlqOption) -> Kind {
        if o.version != 1 {
            return Kind::BadVersion;
        }
        if o.error != 0 {
            return Kind::BadFormat;
        }
        match (o.opcode, o.number.0) {
            (LLQ_SETUP, 0) => Kind::Setup,
            (LLQ_SETUP, _) => Kind::Response,
            (LLQ_REFRESH, _) => Kind::Refresh,
            _ => Kind::BadFormat,
        }
    }
}

// The granted lease: the asked one, raised to 60 or lowered to 7,200.
fn granted_lease(asked: u32) -> u32
    ensures { result ≡ granted_lease asked }
{
    asked.clamp(LEASE_LEAST, LEASE_MOST)
}

// The life that remains of an entry's lease at this running count: the lease less the age, 0 where the age is more.
fn life_left(e: Entry, running: u32) -> u32
    ensures { result ≡ life_left e.lease (age_at running e.stamp) }
{
    e.lease.saturating_sub(clock::age(running, e.stamp))
}

// An option and what it came to.
fn served(o: LlqOption, outcome: Outcome) -> ServedOption
    ensures { result ≡ served_with o outcome }
{
    ServedOption {
        opcode: o.opcode,
        number: o.number,
        outcome,
    }
}

// The table's slots.
fn slots_of(t: &[u8], l: Layout) -> Slots<'_>
    requires { WellFormed t.now × LayoutFor l (length t.now) }
    ensures { (result.bytes.now ≡ drop (base (layout_of (length t.now))) t.now) × (result.n ≡ l.n) }
{
    Slots {
        bytes: &t[l.slots_at as usize..],
        n: l.n,
    }
}

// SERV-FULL, of the table as it stands.
fn is_full(t: &[u8], l: Layout, address: Address) -> bool
    requires { WellFormed t.now × LayoutFor l (length t.now) }
    ensures { result ≡ full (length (read_table t.now).slots) (read_table t.now).roster (count (holdings (read_table t.now))) (address_of address) }
{
    entries::is_full(&t[l.lines_at as usize..], slots_of(t, l), address)
}

// The lent table and its layout stay two parameters here and below: a struct that holds the table would have to keep its facts at each write.

// A new question that is not full: the lowest free slot becomes pending.
fn grant(t: &mut [u8], l: Layout, asked: Asked, r: u64, o: LlqOption) -> ServedOption
    requires { WellFormed t.old × LayoutFor l (length t.old) × (asked.question.len ≤ 255) }
    ensures { ServedAs (granted (sender_of asked.entry.sender) r (question_asked asked.entry) (option_of o) (read_table t.old)) t.new result }
{
    let slots = slots_of(t, l);
    let number = entries::fresh_number(slots, r);
    let lease = granted_lease(o.lease);
    let challenge = served(o, Outcome::Challenge(number, lease));
    let Some(slot) = entries::find_free(slots) else {
        return challenge;
    };
    let q = asked.question;
    let e = Entry {
        state: State::Pending,
        sender: asked.sender,
        number,
        lease,
        stamp: record::running_count(t, l),
        qtype: q.qtype,
        qclass: q.qclass,
        len: q.len as u8,
    };
    let a = l.slots_at as usize;
    table::put_entry(&mut t[a..], slot, e, asked.datagram, q.start as usize);
    challenge
}

fn serve_setup(t: &mut [u8], l: Layout, asked: Asked, r: u64, o: LlqOption) -> ServedOption
    requires { WellFormed t.old × LayoutFor l (length t.old) × (asked.question.len ≤ 255) }
    ensures { ServedAs (serve_setup (sender_of asked.entry.sender) r (question_asked asked.entry) (option_of o) (read_table t.old)) t.new result }
{
    if let Some(found) = entries::find_asked(slots_of(t, l), asked) {
        let left = life_left(found.entry, record::running_count(t, l));
        return served(o, Outcome::Challenge(found.entry.number, left));
    }
    if is_full(t, l, asked.sender.address) {
        return served(o, Outcome::Full);
    }
    grant(t, l, asked, r, o)
}

fn serve_response(t: &mut [u8], l: Layout, asked: Asked, o: LlqOption) -> ServedOption
    requires { WellFormed t.old × LayoutFor l (length t.old) }
    ensures { ServedAs (serve_response (sender_of asked.entry.sender) (question_asked asked.entry) (option_of o) (read_table t.old)) t.new result }
{
    let running = record::running_count(t, l);
    let slots = slots_of(t, l);
    let Some(found) = entries::find_answered(slots, asked, running, o.number, o.lease) else {
        return served(o, Outcome::NoSuchLlq(LlqNumber(0)));
    };
    let left = life_left(found.entry, running);
    let a = l.slots_at as usize;
    table::establish_at(&mut t[a..], found.slot);
    served(o, Outcome::Established(found.entry.number, left))
}

fn serve_refresh(t: &mut [u8], l: Layout, asked: Asked, o: LlqOption) -> ServedOption
    requires { WellFormed t.old × LayoutFor l (length t.old) }
    ensures { ServedAs (serve_refresh (sender_of asked.entry.sender) (question_asked asked.entry) (option_of o) (read_table t.old)) t.new result }
{
    let Some(found) = entries::find_refreshed(slots_of(t, l), asked, o.number) else {
        return served(o, Outcome::NoSuchLlq(o.number));
    };
    let number = found.entry.number;
    let a = l.slots_at as usize;
    if o.lease == 0 {
        table::end_entry(&mut t[a..], found.slot);
        return served(o, Outcome::Ended(number));
    }
    let lease = granted_lease(o.lease);
    let stamp = record::running_count(t, l);
    table::renew_at(&mut t[a..], found.slot, lease, stamp);
    served(o, Outcome::Renewed(number, lease))
}

// One option, by its kind, on the question that it asks, on the table as it stands. A match: the kinds are all there are, and each has a contract of its own.
pub fn serve_option(t: &mut [u8], l: Layout, asked: Asked, r: u64, o: LlqOption) -> ServedOption
    requires { WellFormed t.old × LayoutFor l (length t.old) × (asked.question.len ≤ 255) }
    ensures { ServedAs (serve_option (sender_of asked.entry.sender) r (question_asked asked.entry) (option_of o) (read_table t.old)) t.new result }
{
    match Kind::from(o) {
        Kind::BadVersion => served(o, Outcome::BadVersion),
        Kind::BadFormat => served(o, Outcome::BadFormat),
        Kind::Setup => serve_setup(t, l, asked, r, o),
        Kind::Response => serve_response(t, l, asked, o),
        Kind::Refresh => serve_refresh(t, l, asked, o),
    }
}
