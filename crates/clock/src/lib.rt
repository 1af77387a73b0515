// Document 01, "The clock": readings, the step between two places, the clock moved on, and ages. A week of ten or of thirteen bits is a parameter.
// The clock moves in `stepped` alone. It is lent to `advance`; other crates call `advanced`, which lends it a copy.
#![tactic(auto)]

ghost use Rattle.std.specs.Prelude.{◌≡◌, ◌+◌, ◌^◌, ◌<◌};
ghost use Rattle.model.specs.Clock.{ten_bit, thirteen_bit, weeks_in, cycle_of, valid_reading, place_of, age_at, run_out};
ghost use Rattle.model.specs.Clock.{step as step_of, advance as advance_of};
ghost use Rattle.layout.specs.Weeks.{weeks_of};
ghost use Rattle.clock.specs.Clock.{clock_of};

use layout::Weeks;

const WEEK: u32 = 604800;

// 1,024 weeks of seconds, and 8,192.
const TEN_CYCLE: u64 = 1024 * WEEK as u64;

const TEN_HALF: u64 = TEN_CYCLE / 2;

const THIRTEEN_CYCLE: u64 = 8192 * WEEK as u64;

const THIRTEEN_HALF: u64 = THIRTEEN_CYCLE / 2;

// A step back of so many seconds or less changes nothing.
const SLACK: i64 = 60;

// The last place and the running count.
#[derive(Clone, Copy)]
pub struct Clock {
    pub place: u64,
    pub running: u32,
}

// How many weeks there are.
fn weeks_in(weeks: Weeks) -> u32
    ensures { result ≡ weeks_in (weeks_of weeks) }
{
    match weeks {
        Weeks::Ten => 1024,
        Weeks::Thirteen => 8192,
    }
}

// The seconds after which the week is back at 0.
pub fn cycle(weeks: Weeks) -> u64
    ensures { result ≡ cycle_of (weeks_of weeks) }
{
    match weeks {
        Weeks::Ten => TEN_CYCLE,
        Weeks::Thirteen => THIRTEEN_CYCLE,
    }
}

// A reading is a week 0 to 1,023, or to 8,191, and a second 0 to 604,799.
pub fn valid(weeks: Weeks, week: u32, second: u32) -> bool
    ensures { result ≡ valid_reading (weeks_of weeks) week second }
{
    if week >= weeks_in(weeks) {
        return false;
    }
    second < WEEK
}

// A reading's place.
pub fn place(week: u32, second: u32) -> u64
    ensures { result ≡ place_of week second }
{
    u64::from(week) * u64::from(WEEK) + u64::from(second)
}

// The step from the last place to a new one in a cycle, brought by whole cycles into −half to half − 1.
fn step_in(cycle: u64, half: u64, from: u64, to: u64) -> i64
    requires { (cycle ≡ half + half) × (cycle < 2 ^ 63) × (from < cycle) × (to < cycle) }
    ensures { result ≡ step_of cycle from to }
{
    let ahead = if from <= to {
        to - from
    } else {
        to + (cycle - from)
    };
    if ahead < half {
        ahead as i64
    } else {
        ahead as i64 - cycle as i64
    }
}

// With weeks of ten bits: into −309,657,600 to 309,657,599.
pub fn step(from: u32, to: u32) -> i32
    requires { (from < cycle_of ten_bit) × (to < cycle_of ten_bit) }
    ensures { result ≡ step_of (cycle_of ten_bit) from to }
{
    step_in(TEN_CYCLE, TEN_HALF, u64::from(from), u64::from(to)) as i32
}

// With weeks of thirteen bits: into −2,477,260,800 to 2,477,260,799, which an i32 does not hold.
pub fn step_wide(from: u64, to: u64) -> i64
    requires { (from < cycle_of thirteen_bit) × (to < cycle_of thirteen_bit) }
    ensures { result ≡ step_of (cycle_of thirteen_bit) from to }
{
    step_in(THIRTEEN_CYCLE, THIRTEEN_HALF, from, to)
}

// The one or the other.
pub fn step_of(weeks: Weeks, from: u64, to: u64) -> i64
    requires { (from < cycle_of (weeks_of weeks)) × (to < cycle_of (weeks_of weeks)) }
    ensures { result ≡ step_of (cycle_of (weeks_of weeks)) from to }
{
    match weeks {
        Weeks::Ten => i64::from(step(from as u32, to as u32)),
        Weeks::Thirteen => step_wide(from, to),
    }
}

// "A step of 0 or more is added to the running count, modulo 4,294,967,296, and the new place is kept." "A negative step of 60 seconds or less
// changes nothing. A larger one leaves the running count and keeps the new place." That the places lie in the cycle stays a clause here and below: a
// clock is document 01's two numbers and does not know its weeks.
fn stepped(c: Clock, weeks: Weeks, to: u64) -> Clock
    requires { (c.place < cycle_of (weeks_of weeks)) × (to < cycle_of (weeks_of weeks)) }
    ensures { clock_of result ≡ advance_of (cycle_of (weeks_of weeks)) (clock_of c) to }
{
    let s = step_of(weeks, c.place, to);
    if s < -SLACK {
        return Clock {
            place: to,
            running: c.running,
        };
    }
    if s < 0 {
        return c;
    }
    Clock {
        place: to,
        running: c.running.wrapping_add(s as u32),
    }
}

// "The clock is kept in one place and moved on by each reading that is accepted": the clock that is lent is moved on to a reading's place.
pub fn advance(c: &mut Clock, weeks: Weeks, to: u64)
    requires { (c.old.place < cycle_of (weeks_of weeks)) × (to < cycle_of (weeks_of weeks)) }
    ensures { clock_of c.new ≡ advance_of (cycle_of (weeks_of weeks)) (clock_of c.old) to }
{
    *c = stepped(*c, weeks, to);
}

// The same sentence, for a caller that holds the two numbers: the clock as `advance` leaves it.
pub fn advanced(c: Clock, weeks: Weeks, to: u64) -> Clock
    requires { (c.place < cycle_of (weeks_of weeks)) × (to < cycle_of (weeks_of weeks)) }
    ensures { clock_of result ≡ advance_of (cycle_of (weeks_of weeks)) (clock_of c) to }
{
    let mut k = c;
    advance(&mut k, weeks, to);
    k
}

// An entry's age: the running count less its stamp, modulo 4,294,967,296.
pub fn age(running: u32, stamp: u32) -> u32
    ensures { result ≡ age_at running stamp }
{
    running.wrapping_sub(stamp)
}

// An entry has run out when its age is at least its lease.
pub fn run_out(running: u32, stamp: u32, lease: u32) -> bool
    ensures { result ≡ run_out (age_at running stamp) lease }
{
    age(running, stamp) >= lease
}
