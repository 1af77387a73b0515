// Document 01's query, read left to right: header, questions, OPT record, options. Refusals 3 to 7.
#![tactic(auto)]

ghost use Rattle.std.specs.Prelude.{◌≡◌, ◌+◌, ◌≤◌, length};
ghost use Rattle.model.specs.Numbers.{big_endian};
ghost use Rattle.query.specs.Parts.{number_of, good_fields, ReadsHeader, ReadsQuestions, ReadsOpt, ReadsOptions};
ghost use Rattle.query.specs.Whole.{Reads};

use wire::{Cursor, HEADER_LEN, Header, LlqOption, MessageNumber, Question};

// Why a datagram is refused, by document 01's numbers. The lowest is given: what is read first has the lowest number.
#[derive(Clone, Copy, PartialEq, Eq)]
pub enum Refusal {
    // under 12 or over 1,472 bytes
    Length = 3,
    // a header that is no query's, or not 1 to 8 questions
    Header = 4,
    // a question runs past the end or has a bad name
    Questions = 5,
    // the OPT record, or its options do not fill it
    Opt = 6,
    // no option of code 1
    NoLlq = 7,
}

impl From<Refusal> for u32 {
    ghost from_gives = { λ e k. k ≡ number_of e };

    fn from(e: Refusal) -> u32 {
        e as u32
    }
}

// What the header tells of a query: the message number and the RD bit; how many questions there are to read, and from where.
#[derive(Clone, Copy)]
pub struct QueryHeader {
    pub number: MessageNumber,
    pub desired: u8,
    pub count: usize,
    pub first: Cursor,
}

// The questions by value, an array of eight that is walked in order, as the options are: document 01's form, and there is no heap. And the place behind them.
#[derive(Clone, Copy)]
pub struct Questions {
    pub all: [Question; 8],
    pub next: Cursor,
}

// The options of code 1: the first eight by value, how many there are, whether each has length 18. What the count and length test needs, which `parse` makes.
#[derive(Clone, Copy)]
pub struct Options {
    pub all: [LlqOption; 8],
    pub count: usize,
    pub sized: bool,
}

// Up to eight questions beside their options: there are none where they are not as many, or one has another length.
#[derive(Clone, Copy)]
pub struct Query {
    pub number: MessageNumber,
    pub desired: u8,
    pub count: usize,
    pub questions: [Question; 8],
    pub end: usize,
    pub options: Option<[LlqOption; 8]>,
}

// Refusal 4's tests.
pub fn good_header(h: Header) -> bool
    ensures { result ≡ good_fields h }
{
    h.flags / 128 % 2 == 0
        && h.flags / 8 % 16 == 0
        && h.flags / 2 % 2 == 0
        && (1..=8).contains(&h.qdcount)
        && h.ancount == 0
        && h.nscount == 0
        && h.arcount == 1
}

// QDCOUNT where it is at most 8: its second byte. A number of 16 bits that is known to be 1 to 8 has the compiler write the reading of a question out eight times, and the array with it: 2 to 3 % slower.
fn question_count(s: &[u8]) -> usize
    requires { (12 ≤ length s.now) × (big_endian s.now 4 2 ≤ 8) }
    ensures { result ≡ big_endian s.now 4 2 }
{
    usize::from(s[5])
}

// Refusals 3 and 4.
pub fn read_header(d: &[u8]) -> Result<QueryHeader, Refusal>
    ensures { ReadsHeader d.now result }
{
    if d.len() < HEADER_LEN || d.len() > 1472 {
        return Err(Refusal::Length);
    }
    let (h, first) = Cursor { at: 0 }.header(d);
    if !good_header(h) {
        return Err(Refusal::Header);
    }
    Ok(QueryHeader {
        number: h.number,
        desired: h.flags % 2,
        count: question_count(d),
        first,
    })
}

// Refusal 5: count questions from the header's end. Where some are read the datagram is short enough that its places fit 16 bits.
pub fn read_questions(s: &[u8], first: Cursor, count: usize) -> Result<Questions, Refusal>
    requires { (count ≤ 8) × (1 ≤ count → (first.at ≡ 12) × (length s.now ≤ 1472)) }
    ensures { ReadsQuestions s.now count result }
{
    let mut all = [Question::default(); 8];
    let mut next = first;
    for i in 0..count {
        let Some((q, behind)) = next.question(s) else {
            return Err(Refusal::Questions);
        };
        all[i] = Question {
            start: q.start as u16,
            len: q.len as u16,
            qtype: q.qtype,
            qclass: q.qclass,
        };
        next = behind;
    }
    Ok(Questions { all, next })
}

// Refusal 6, but for the options: where they start.
pub fn find_opt(s: &[u8], c: Cursor) -> Result<Cursor, Refusal>
    ensures { ReadsOpt s.now c.at result }
{
    c.opt(s).ok_or(Refusal::Opt)
}

// Refusal 6, of the options from a place to the end.
pub fn read_options(s: &[u8], first: Cursor) -> Result<Options, Refusal>
    requires { first.at ≤ length s.now }
    ensures { ReadsOptions s.now first.at result }
{
    let mut all = [LlqOption::default(); 8];
    let mut count: usize = 0;
    let mut sized = true;
    let mut c = first;
    while c.at < s.len() {
        let Some((o, next)) = c.option(s) else {
            return Err(Refusal::Opt);
        };
        c = next;
        if o.code != 1 {
            continue;
        }
        if o.size != 18 {
            sized = false;
        } else if count < 8 {
            all[count] = o.data.llq_option(s).0;
        }
        count += 1;
    }
    Ok(Options { all, count, sized })
}

// Refusals 3 to 7, or the query that the datagram is.
pub fn parse(d: &[u8]) -> Result<Query, Refusal>
    ensures { Reads d.now result }
{
    let h = read_header(d)?;
    let q = read_questions(d, h.first, h.count)?;
    let first = find_opt(d, q.next)?;
    let o = read_options(d, first)?;
    if o.count == 0 {
        return Err(Refusal::NoLlq);
    }
    Ok(Query {
        number: h.number,
        desired: h.desired,
        count: h.count,
        questions: q.all,
        end: q.next.at,
        options: (o.count == h.count && o.sized).then_some(o.all),
    })
}
