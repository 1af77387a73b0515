// Runs a list of calls on one table and prints what each gave: document 01's W11 and the lists of docs/SAMPLES.md. Beside the calls, names are
// compared and the pairs that were looked at are printed: no call tells of them.
// Standard input holds the list, as records of a head of 39 bytes and a body. In the head, big endian:
// kind 1, week 4, second 4, address 16 in two halves, port 2, the host's number 8, room 2, the body's size 2.
//   M make    room: the table's length; body: the roster
//   T tick
//   S serve   room: the reply buffer's length; body: the datagram
//   C compare room: the stored name's length; body: its bytes and then the sent name's
//   D print the table
// The list is cut where the table's length changes, before a C and before a D. Each piece is a script, which `script::run` carries out on
// the lent part of the table; the lines are printed from its answers. A call's line ends in a sum of the table's bytes.
#![tactic(auto)]

ghost use Rattle.std.specs.Prelude.{◌≤◌, ◌<◌, length};

use script::{Call, Record};

// The largest table.
const TABLE: usize = layout::TABLE_MOST;

// The most bytes of a list that are read.
const LIST: usize = 131072;

// What a list has beside calls.
#[derive(Clone, Copy, PartialEq, Eq)]
enum Step {
    Compare,
    Print,
}

impl Step {
    fn of(r: Record) -> Option<Step> {
        match r.kind() {
            b'C' => Some(Step::Compare),
            b'D' => Some(Step::Print),
            _ => None,
        }
    }
}

// Printed by the crate io: std's printing would rest on two more functions of C.
fn say(word: &[u8]) {
    io::write_all(1, word);
}

fn say_number(n: u64) {
    say(b" ");
    io::print_decimal(1, n);
}

// The bytes in hexadecimal, eight at a time: each printing is a write to standard output. Where fewer than eight are left, one by one.
fn say_bytes(s: &[u8]) {
    say(b" ");
    let (words, rest) = s.as_chunks::<8>();
    for &word in words {
        io::print_hex(1, u64::from_be_bytes(word), 16);
    }
    for &b in rest {
        io::print_hex(1, u64::from(b), 2);
    }
}

// A call's line, from its answer: number, freed or length, the whole reply buffer, the sum of the table.
fn say_answer(call: Call, answer: &[u8])
    requires { 12 ≤ length answer.now }
{
    let number = u64::from(octets::get32(answer, 0));
    let count = u64::from(octets::get32(answer, 4));
    let sum = u64::from(octets::get32(answer, 8));
    match call {
        Call::Make => {
            say(b"make");
            say_number(number);
        }
        Call::Tick => {
            say(b"tick");
            say_number(number);
            say_number(count);
        }
        Call::Serve => {
            say(b"serve");
            say_number(number);
            say_number(count);
            say_bytes(&answer[script::NUMBERS..]);
        }
    }
    say_number(sum);
    say(b"\n");
}

// A line for each call of a piece.
fn say_answers(s: &[u8], answers: &[u8]) {
    let mut rest = answers;
    let mut at: usize = 0;
    while let Some(record) = Record::at(s, at) {
        let Some((answer, after)) = rest.split_at_checked(record.answer_length()) else {
            return;
        };
        if let Some(call) = record.call() {
            say_answer(call, answer);
        }
        rest = after;
        at = record.next();
    }
}

// A piece on the lent table.
fn run(s: &[u8], t: &mut [u8], answers: &mut [u8]) {
    match script::run(s, t, answers) {
        Some(_) => say_answers(s, answers),
        None => say(b"the answers do not fit\n"),
    }
}

fn say_table(t: &[u8]) {
    say(b"table");
    say_bytes(t);
    say(b"\n");
}

// A comparison's line: 1 where the names are the same and else 0, and how many byte pairs were looked at.
fn say_compared(word: &[u8], r: names::Compared) {
    say(word);
    say_number(u64::from(r.same));
    say_number(r.pairs as u64);
    say(b"\n");
}

// The stored name is as many bytes of the body as the room says, and the sent one the rest: folded, and then as it lies. Neither the two
// slices lent to the first are the same nor the places in them, so that one taken for the other shows.
fn compare(r: Record) {
    let m = usize::from(r.room());
    let body = r.at + script::HEAD;
    let end = r.next();
    if end - body < m {
        return;
    }
    let n = end - body - m;
    let before = body - 1;
    say_compared(
        b"compare",
        names::compare(&r.list[before..end], 1, m, r.list, body + m, n),
    );
    say_compared(
        b"stored",
        names::compare_stored(r.list, body, m, body + m, n),
    );
}

// The length of the table that is lent: a making sets it, and it stays for the calls after.
fn lent(r: Record, before: u16) -> u16 {
    match r.call() {
        Some(Call::Make) => r.room(),
        _ => before,
    }
}

// A piece ends before names to compare, before a table to print, and before a making of another length.
fn cuts(r: Record, n: u16) -> bool {
    Step::of(r).is_some() || lent(r, n) != n
}

// Where the piece ends whose first record ends at index from.
fn piece(s: &[u8], from: usize, n: u16) -> usize
    requires { from ≤ length s.now }
    ensures { (from ≤ result) × (result ≤ length s.now) }
{
    let mut at = from;
    while let Some(record) = Record::at(s, at) {
        if cuts(record, n) {
            break;
        }
        at = record.next();
    }
    at
}

// The piece that starts with the record, on the lent part of the table; where it ends.
fn run_piece(r: Record, n: u16, table: &mut [u8], answers: &mut [u8]) -> usize
    ensures { (r.entry.at < result) × (result ≤ length r.entry.list.now) }
{
    let k = table.len().min(usize::from(n));
    match Step::of(r) {
        Some(Step::Compare) => compare(r),
        Some(Step::Print) => say_table(&table[..k]),
        None => {}
    }
    let end = piece(r.list, r.next(), n);
    run(&r.list[r.at..end], &mut table[..k], answers);
    end
}

// Piece by piece, to the first record that is not whole.
fn run_pieces(s: &[u8], table: &mut [u8], answers: &mut [u8]) {
    let mut at: usize = 0;
    let mut n: u16 = 0;
    while let Some(record) = Record::at(s, at) {
        n = lent(record, n);
        at = run_piece(record, n, table, answers);
    }
}

fn main() {
    let mut list = [0u8; LIST];
    let n = io::read_full(0, &mut list);
    let mut table = [0xEEu8; TABLE];
    let mut answers = [0u8; 65536];
    run_pieces(&list[..n], &mut table, &mut answers);
}
