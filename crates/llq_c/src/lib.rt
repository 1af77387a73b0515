// The calls of `llq` for a host in C, each with its clauses: what include/llq.h declares. C's archive is built of this crate.
#![tactic(auto)]

ghost use Rattle.std.specs.Prelude.{◌≡◌, ◌+◌, ◌*◌, ◌^◌, length};
ghost use Rattle.model.specs.Meets.{MakeMeets, TickMeets, ServeMeets};
ghost use Rattle.llq.specs.Refused.{number_in, count_in};

use llq::Refusal;

// C's struct for a datagram's answer: the refusal's number and 0, or 0 and the reply's length.
#[repr(C)]
#[derive(Clone, Copy)]
pub struct Served {
    pub number: u32,
    pub length: u32,
}

impl From<Result<u32, Refusal>> for Served {
    ghost from_gives = { λ r s. (s.number ≡ number_in r) × (s.length ≡ count_in r) };

    fn from(r: Result<u32, Refusal>) -> Served {
        let (number, length) = llq::numbers(r);
        Served { number, length }
    }
}

// C's struct for a tick's answer: the refusal's number and 0, or 0 and how many entries were freed.
#[repr(C)]
#[derive(Clone, Copy)]
pub struct Ticked {
    pub number: u32,
    pub freed: u32,
}

impl From<Result<u32, Refusal>> for Ticked {
    ghost from_gives = { λ r s. (s.number ≡ number_in r) × (s.freed ≡ count_in r) };

    fn from(r: Result<u32, Refusal>) -> Ticked {
        let (number, freed) = llq::numbers(r);
        Ticked { number, freed }
    }
}

#[unsafe(no_mangle)]
pub extern "C" fn llq_make(week: u32, second: u32, t: &mut [u8], roster: &[u8]) -> u32
    ensures { MakeMeets (record { week = week; second = second; roster = roster.now }) t.old t.new result }
{
    match llq::llq_make(week, second, t, roster) {
        Ok(()) => 0,
        Err(e) => e.into(),
    }
}

#[unsafe(no_mangle)]
pub extern "C" fn llq_tick(week: u32, second: u32, t: &mut [u8]) -> Ticked
    ensures { TickMeets (record { week = week; second = second }) t.old t.new result.number result.freed }
{
    llq::llq_tick(week, second, t).into()
}

#[unsafe(no_mangle)]
pub extern "C" fn llq_serve(
    week: u32,
    second: u32,
    high: u64,
    low: u64,
    port: u16,
    random: u64,
    datagram: &[u8],
    t: &mut [u8],
    reply: &mut [u8],
) -> Served
    ensures { ServeMeets (record { week = week; second = second; sender = record { address = high * 2 ^ 64 + low; port = port }; random = random; datagram = datagram.now; room = length reply.old }) t.old t.new reply.old reply.new result.number result.length }
{
    llq::llq_serve(week, second, high, low, port, random, datagram, t, reply).into()
}
