// Document 01's three calls: making, ticking, serving. A host in C calls them through the crate `llq_c`. Every refusal is decided before the first byte is written.
#![tactic(auto)]

ghost use Rattle.std.specs.Prelude.{◌≡◌, true, ◌+◌, ◌*◌, ◌^◌, ◌<◌, ◌≤◌, length};
ghost use Rattle.model.specs.Numbers.{splice};
ghost use Rattle.model.specs.Query.{message_number, flag_rd};
ghost use Rattle.model.specs.Table.{read_table};
ghost use Rattle.model.specs.Serve.{serve_option};
ghost use Rattle.model.specs.Reply.{option_bytes, mismatch, reply_length};
ghost use Rattle.model.specs.Meets.{MakeMeets, TickMeets, ServeMeets};
ghost use Rattle.wire.specs.Records.{option_of};
ghost use Rattle.entries.specs.Reads.{sender_of};
ghost use Rattle.entries.specs.Asked.{question_asked};
ghost use Rattle.layout.specs.Places.{LayoutFor};
ghost use Rattle.table.specs.Written.{WellFormed, Written};
ghost use Rattle.llq.specs.Refused.{number_of, number_in, count_in, Finds};
ghost use Rattle.llq.specs.Answer.{Measures, Matches, QuestionsOf, OptionsOf, before_options, Answers};

use entries::{Asked, Sender};
use layout::Layout;
use options::{ErrorCode, LLQ_SETUP};
use record::Address;
use wire::{HEADER_LEN, LlqNumber, LlqOption, MessageNumber, OPT_LEN, OPTION_LEN, Question};

// REFUSALS

// Why a call is refused. The lowest of document 01's numbers is given.
#[derive(Clone, Copy, PartialEq, Eq)]
pub enum Refusal {
    // the table is not sound, or in making has a length that no table has
    Table,
    // the reading is too large
    Reading,
    // the datagram is no query
    Datagram(query::Refusal),
    // the reply has no room
    Room,
    // the roster is not sound
    Roster,
}

impl From<query::Refusal> for Refusal {
    ghost use Rattle.llq.specs.declared.Refusal.TheVariants.{Datagram};

    ghost from_gives = { λ q e. e ≡ Datagram q };

    fn from(q: query::Refusal) -> Refusal {
        Refusal::Datagram(q)
    }
}

impl From<Refusal> for u32 {
    ghost from_gives = { λ e k. k ≡ number_of e };

    fn from(e: Refusal) -> u32 {
        match e {
            Refusal::Table => 1,
            Refusal::Reading => 2,
            Refusal::Datagram(q) => u32::from(q),
            Refusal::Room => 8,
            Refusal::Roster => 9,
        }
    }
}

// What a host in C is told of a call: the refusal's number and 0, or 0 and what the call counts.
pub fn numbers(r: Result<u32, Refusal>) -> (u32, u32)
    ensures { (result.0 ≡ number_in r) × (result.1 ≡ count_in r) }
{
    match r {
        Ok(count) => (0, count),
        Err(e) => (e.into(), 0),
    }
}

// MAKING

pub fn llq_make(week: u32, second: u32, t: &mut [u8], roster: &[u8]) -> Result<(), Refusal>
    ensures { MakeMeets (record { week = week; second = second; roster = roster.now }) t.old t.new (number_in result) }
{
    let l = layout::of(t.len());
    if !layout::table_length(t.len(), l) {
        return Err(Refusal::Table);
    }
    if !clock::valid(l.weeks, week, second) {
        return Err(Refusal::Reading);
    }
    if !sound::roster_sound(roster, l.n) {
        return Err(Refusal::Roster);
    }
    table::make_fresh(t, l, clock::place(week, second), roster);
    Ok(())
}

// TICKING

// Refusals 1 and 2: the layout of a sound table, whose clock takes the reading. Inlined, so that the soundness check stays a function of its own: else a tick takes 30 % longer.
#[inline(always)]
fn find_layout(week: u32, second: u32, t: &[u8]) -> Result<Layout, Refusal>
    ensures { Finds week second t.now result }
{
    let l = layout::of(t.len());
    if !sound::sound(t, l) {
        Err(Refusal::Table)
    } else if !clock::valid(l.weeks, week, second) {
        Err(Refusal::Reading)
    } else {
        Ok(l)
    }
}

pub fn llq_tick(week: u32, second: u32, t: &mut [u8]) -> Result<u32, Refusal>
    ensures { TickMeets (record { week = week; second = second }) t.old t.new (number_in result) (count_in result) }
{
    let l = find_layout(week, second, t)?;
    let freed = table::move_on(t, l, clock::place(week, second));
    Ok(freed as u32)
}

// SERVING

// What stands before a reply's options: a header, and the questions as the datagram has them.
#[derive(Clone, Copy)]
struct Head<'a> {
    datagram: &'a [u8],
    number: MessageNumber,
    desired: u8,
    count: usize,
    end: usize,
    ghost number_read: { number.0 ≡ message_number datagram.now },
    ghost desired_read: { desired ≡ flag_rd datagram.now },
    ghost measured: { Measures datagram.now count end },
}

impl<'a> Head<'a> {
    // 12 + questions + 11 + 22 for each option: one where the count and length test fails.
    fn reply_length(self, matched: bool) -> usize
        requires { Matches self.datagram.now matched }
        ensures { result ≡ reply_length self.entry.datagram.now }
    {
        let options = if matched { self.count } else { 1 };
        self.end + OPT_LEN + OPTION_LEN * options
    }

    // The header, the questions as received, and the OPT record of k options.
    fn put(self, reply: &mut [u8], k: u16)
        requires { (k ≤ 8) × (self.end + 11 ≤ length reply.old) }
        ensures { reply.new ≡ splice 0 (self.entry.end + 11) (before_options self.entry.datagram.now k) reply.old }
    {
        wire::write::put_header(reply, self.number, self.desired, self.count as u16);
        octets::copy(
            reply,
            HEADER_LEN,
            self.datagram,
            HEADER_LEN,
            self.end - HEADER_LEN,
        );
        wire::write::put_opt(reply, self.end, k);
    }

    // The count and length test fails: no option is served, and the reply has one: opcode 1, error 3, number 0, lease 0.
    fn put_mismatch(self, reply: &mut [u8])
        requires { self.end + 33 ≤ length reply.old }
        ensures { reply.new ≡ splice (self.entry.end + 11) 22 (option_bytes mismatch) (splice 0 (self.entry.end + 11) (before_options self.entry.datagram.now 1) reply.old) }
    {
        self.put(reply, 1);
        wire::write::put_option(
            reply,
            self.end + OPT_LEN,
            LLQ_SETUP,
            ErrorCode::FormatErr as u16,
            LlqNumber(0),
            0,
        );
    }
}

// An option served on the table as it stands, and written at its place in the reply.
fn serve_one(
    t: &mut [u8],
    l: Layout,
    reply: &mut [u8],
    at: usize,
    asked: Asked,
    r: u64,
    o: LlqOption,
)
    requires { WellFormed t.old × LayoutFor l (length t.old) × (asked.question.len ≤ 255) × (at + 22 ≤ length reply.old) }
    ensures { let x = serve_option (sender_of asked.entry.sender) r (question_asked asked.entry) (option_of o) (read_table t.old) in Written t.new x.table × (reply.new ≡ splice at 22 (option_bytes x.outcome) reply.old) }
{
    let served = options::serve_option(t, l, asked, r, o);
    let outcome = served.outcome;
    let number = served.reply_number();
    wire::write::put_option(
        reply,
        at,
        served.opcode,
        outcome.error(),
        number,
        outcome.lease(),
    );
}

// As many options as questions: each is served, in order, on the table that those before it left. Inlined: else the arrays of eight are copied once more, and a refresh on 4 slots takes 11 % longer.
#[inline(always)]
fn answer(
    t: &mut [u8],
    l: Layout,
    reply: &mut [u8],
    head: Head,
    sender: Sender,
    r: u64,
    questions: [Question; 8],
    options: [LlqOption; 8],
)
    requires { WellFormed t.old × LayoutFor l (length t.old) × QuestionsOf head.datagram.now head.count questions × OptionsOf head.datagram.now head.count options × Matches head.datagram.now true × (reply_length head.datagram.now ≤ length reply.old) }
    ensures { Answers (sender_of sender) r head.entry.datagram.now t.old t.new reply.old reply.new }
{
    head.put(reply, head.count as u16);
    let at = head.end + OPT_LEN;
    for i in 0..head.count {
        let asked = Asked {
            sender,
            datagram: head.datagram,
            question: questions[i],
        };
        serve_one(t, l, reply, at + OPTION_LEN * i, asked, r, options[i]);
    }
}

pub fn llq_serve(
    week: u32,
    second: u32,
    high: u64,
    low: u64,
    port: u16,
    random: u64,
    datagram: &[u8],
    t: &mut [u8],
    reply: &mut [u8],
) -> Result<u32, Refusal>
    ensures { ServeMeets (record { week = week; second = second; sender = record { address = high * 2 ^ 64 + low; port = port }; random = random; datagram = datagram.now; room = length reply.old }) t.old t.new reply.old reply.new (number_in result) (count_in result) }
{
    let l = find_layout(week, second, t)?;
    let q = query::parse(datagram)?;
    let head = Head {
        datagram,
        number: q.number,
        desired: q.desired,
        count: q.count,
        end: q.end,
    };
    let len = head.reply_length(q.options.is_some());
    if len > reply.len() || len > 1472 {
        return Err(Refusal::Room);
    }
    table::move_on(t, l, clock::place(week, second));
    match q.options {
        Some(options) => {
            let address = Address { high, low };
            let sender = Sender { address, port };
            answer(t, l, reply, head, sender, random, q.questions, options);
        }
        None => head.put_mismatch(reply),
    }
    Ok(len as u32)
}
