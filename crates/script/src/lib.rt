// Carries out a script, a list of makings, ticks and datagrams in bytes, on one lent table, and writes the answers into a lent buffer.
// The contract of `run` is demand 3 of running code: specs/Ran.
#![tactic(auto)]

ghost use Rattle.std.specs.Prelude.{◌≡◌, ◌∷◌, [], ◌+◌, ◌*◌, ◌%◌, ◌<◌, ◌≤◌, ◌↔◌, length, replicate, leb, IsSome, IfSome};
ghost use Rattle.model.specs.Numbers.{encode, splice};
ghost use Rattle.model.specs.Meets.{MakeMeets, TickMeets, ServeMeets};
ghost use Rattle.script.specs.Spelled.{kind_at, week_at, second_at, room_at, body_at, next_at, making_at, ticking_at, serving_at, call_at, calls_in};
ghost use Rattle.script.specs.Calls.{spelled_as};
ghost use Rattle.script.specs.Answers.{sum_of, answers_length};
ghost use Rattle.llq.specs.Refused.{number_in, count_in};
ghost use Rattle.script.specs.Ran.{Carried, Runs};

use llq::Refusal;

// A record's head, with the places of its fields; its body follows.
pub const HEAD: usize = 39;

const WEEK_AT: usize = 1;

const SECOND_AT: usize = 5;

const HIGH_AT: usize = 9;

const LOW_AT: usize = 17;

const PORT_AT: usize = 25;

const RANDOM_AT: usize = 27;

const ROOM_AT: usize = 35;

const SIZE_AT: usize = 37;

// The three numbers of an answer, before the reply buffer.
pub const NUMBERS: usize = 12;

// RECORDS

// The call that a record spells.
#[derive(Clone, Copy, PartialEq, Eq)]
pub enum Call {
    Make,
    Tick,
    Serve,
}

// A whole record: the list that it lies in, and where it starts there.
#[derive(Clone, Copy)]
pub struct Record<'a> {
    pub list: &'a [u8],
    pub at: usize,
    ghost whole: { next_at list.now at ≤ length list.now },
}

impl<'a> Record<'a> {
    // The record at index at, if it is whole.
    pub fn at(list: &'a [u8], at: usize) -> Option<Record<'a>>
        requires { at ≤ length list.now }
        ensures whole { IsSome result ↔ (next_at list.now at ≤ length list.now) }
        ensures placed { IfSome result (λ r. (r.list.now ≡ list.now) × (r.at ≡ at)) }
    {
        let left = list.len() - at;
        if left < HEAD {
            return None;
        }
        if usize::from(octets::get16(list, at + SIZE_AT)) > left - HEAD {
            return None;
        }
        Some(Record { list, at })
    }

    // What the record is, as its first byte says.
    pub fn kind(self) -> u8
        ensures { result ≡ kind_at self.entry.list.now self.entry.at }
    {
        self.list[self.at]
    }

    // Its call, if it is one.
    #[tactic(auto, unfolding(crate::specs::Spelled::call_at))]
    pub fn call(self) -> Option<Call>
        ensures { call_at self.entry.list.now self.entry.at ≡ spelled_as result self.entry.list.now self.entry.at }
    {
        match self.kind() {
            b'M' => Some(Call::Make),
            b'T' => Some(Call::Tick),
            b'S' => Some(Call::Serve),
            _ => None,
        }
    }

    pub fn week(self) -> u32
        ensures { result ≡ week_at self.entry.list.now self.entry.at }
    {
        octets::get32(self.list, self.at + WEEK_AT)
    }

    pub fn second(self) -> u32
        ensures { result ≡ second_at self.entry.list.now self.entry.at }
    {
        octets::get32(self.list, self.at + SECOND_AT)
    }

    // A making's length of the table, a datagram's of the reply buffer, or a number that another kind has there.
    pub fn room(self) -> u16
        ensures { result ≡ room_at self.entry.list.now self.entry.at }
    {
        octets::get16(self.list, self.at + ROOM_AT)
    }

    // A making's roster, or a datagram.
    pub fn body(self) -> &'a [u8]
        ensures { result.now ≡ body_at self.entry.list.now self.entry.at }
    {
        &self.list[self.at + HEAD..self.next()]
    }

    // Where it ends.
    pub fn next(self) -> usize
        ensures { result ≡ next_at self.entry.list.now self.entry.at }
    {
        self.at + HEAD + usize::from(octets::get16(self.list, self.at + SIZE_AT))
    }

    // How many bytes its answer takes: none if it is no call.
    #[tactic(auto, unfolding(crate::specs::Answers::answers_length))]
    pub fn answer_length(self) -> usize
        ensures { result ≡ answers_length (call_at self.entry.list.now self.entry.at) }
    {
        match self.call() {
            Some(Call::Make) => NUMBERS,
            Some(Call::Tick) => NUMBERS,
            Some(Call::Serve) => NUMBERS + usize::from(self.room()),
            None => 0,
        }
    }
}

// The answers of the whole script fit in a buffer of so many bytes.
fn fits(s: &[u8], size: usize) -> bool
    ensures { result ≡ leb (answers_length (calls_in s.now)) size }
{
    let mut left = size;
    let mut at: usize = 0;
    while let Some(record) = Record::at(s, at) {
        let n = record.answer_length();
        if left < n {
            return false;
        }
        left -= n;
        at = record.next();
    }
    true
}

// ANSWERS

// A table's sum, byte by byte.
fn sum(t: &[u8]) -> u32
    ensures { result ≡ sum_of t.now }
{
    let mut c: u64 = 0;
    for &b in t {
        c = (c * 257 + u64::from(b)) % 4294967291;
    }
    c as u32
}

// Number, freed or length, and the sum of the table.
fn put_numbers(out: &mut [u8], at: usize, number: u32, count: u32, sum: u32)
    requires { at + 12 ≤ length out.old }
    ensures { out.new ≡ splice at 12 (encode ((4, number) ∷ (4, count) ∷ (4, sum) ∷ [])) out.old }
{
    octets::put32(out, at, number);
    octets::put32(out, at + 4, count);
    octets::put32(out, at + 8, sum);
}

// CALLS

fn make(r: Record, t: &mut [u8]) -> Result<u32, Refusal>
    ensures { MakeMeets (making_at r.entry.list.now r.entry.at) t.old t.new (number_in result) × (count_in result ≡ 0) }
{
    llq::llq_make(r.week(), r.second(), t, r.body())?;
    Ok(0)
}

fn tick(r: Record, t: &mut [u8]) -> Result<u32, Refusal>
    ensures { TickMeets (ticking_at r.entry.list.now r.entry.at) t.old t.new (number_in result) (count_in result) }
{
    llq::llq_tick(r.week(), r.second(), t)
}

// A datagram served into a reply buffer, which is filled first.
fn serve(r: Record, t: &mut [u8], reply: &mut [u8]) -> Result<u32, Refusal>
    requires { length reply.old ≡ room_at r.list.now r.at }
    ensures { ServeMeets (serving_at r.entry.list.now r.entry.at) t.old t.new (replicate (room_at r.entry.list.now r.entry.at) 170) reply.new (number_in result) (count_in result) }
{
    reply.fill(0xAA);
    llq::llq_serve(
        r.week(),
        r.second(),
        octets::get64(r.list, r.at + HIGH_AT),
        octets::get64(r.list, r.at + LOW_AT),
        octets::get16(r.list, r.at + PORT_AT),
        octets::get64(r.list, r.at + RANDOM_AT),
        r.body(),
        t,
        reply,
    )
}

// The record's call, if it is one, with its answer written at index to. Returns where the next answer goes.
fn carry_out(r: Record, t: &mut [u8], out: &mut [u8], to: usize) -> usize
    requires { to + answers_length (call_at r.list.now r.at) ≤ length out.old }
    ensures { Carried (call_at r.entry.list.now r.entry.at) t.old t.new out.old out.new to result }
{
    let Some(call) = r.call() else {
        return to;
    };
    let end = to + r.answer_length();
    let result = match call {
        Call::Make => make(r, t),
        Call::Tick => tick(r, t),
        Call::Serve => serve(r, t, &mut out[to + NUMBERS..end]),
    };
    let (number, count) = llq::numbers(result);
    put_numbers(out, to, number, count, sum(t));
    end
}

// All records in order, each on the table as the one before it left it. Returns how many bytes the answers took.
fn each(s: &[u8], t: &mut [u8], out: &mut [u8]) -> usize
    requires { answers_length (calls_in s.now) ≤ length out.old }
    ensures { Carried (calls_in s.now) t.old t.new out.old out.new 0 result }
{
    let mut at: usize = 0;
    let mut to: usize = 0;
    while let Some(record) = Record::at(s, at) {
        to = carry_out(record, t, out, to);
        at = record.next();
    }
    to
}

// How many bytes the answers take in the lent buffer. Nothing is done if they do not fit.
pub fn run(script: &[u8], t: &mut [u8], out: &mut [u8]) -> Option<usize>
    ensures { Runs script.now t.old t.new out.old out.new result }
{
    if fits(script, out.len()) {
        Some(each(script, t, out))
    } else {
        None
    }
}
