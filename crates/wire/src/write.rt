// The parts of a reply, written in place.
ghost use Rattle.std.specs.Prelude.{◌≡◌, ◌+◌, ◌≤◌, length};
ghost use Rattle.model.specs.Numbers.{splice};
ghost use Rattle.model.specs.Reply.{opt_bytes, option_bytes};
ghost use Rattle.wire.specs.Write.{header_sent, outcome_sent};

use crate::{LlqNumber, MessageNumber, OPTION_LEN};

// The header: the message number and QDCOUNT repeated, 0x84 plus the RD bit, one additional record.
pub fn put_header(reply: &mut [u8], number: MessageNumber, desired: u8, count: u16)
    requires { (desired ≤ 1) × (12 ≤ length reply.old) }
    ensures { reply.new ≡ splice 0 12 (header_sent number.0 desired count) reply.old }
{
    octets::put16(reply, 0, number.0);
    octets::put8(reply, 2, 132 + desired);
    octets::put8(reply, 3, 0);
    octets::put16(reply, 4, count);
    octets::put16(reply, 6, 0);
    octets::put16(reply, 8, 0);
    octets::put16(reply, 10, 1);
}

// The OPT record at index at, before k options.
pub fn put_opt(reply: &mut [u8], at: usize, k: u16)
    requires { (k ≤ 8) × (at + 11 ≤ length reply.old) }
    ensures { reply.new ≡ splice at 11 (opt_bytes k) reply.old }
{
    octets::put8(reply, at, 0);
    octets::put16(reply, at + 1, 41);
    octets::put16(reply, at + 3, 1472);
    octets::put32(reply, at + 5, 0);
    octets::put16(reply, at + 9, OPTION_LEN as u16 * k);
}

// An option at index at. Its numbers come one by one: a reply's version is 1, and an LlqOption's may be any.
pub fn put_option(
    reply: &mut [u8],
    at: usize,
    opcode: u16,
    error: u16,
    number: LlqNumber,
    lease: u32,
)
    requires { at + 22 ≤ length reply.old }
    ensures { reply.new ≡ splice at 22 (option_bytes (outcome_sent opcode error number.0 lease)) reply.old }
{
    octets::put16(reply, at, 1);
    octets::put16(reply, at + 2, 18);
    octets::put16(reply, at + 4, 1);
    octets::put16(reply, at + 6, opcode);
    octets::put16(reply, at + 8, error);
    octets::put64(reply, at + 10, number.0);
    octets::put32(reply, at + 18, lease);
}
