ghost use Rattle.std.specs.Prelude.{◌+◌, ◌≤◌, length};

use super::Sender;
use wire::Question;

// What a datagram's option is looked up by: who sent it, and the question that lies in it.
#[derive(Clone, Copy)]
pub struct Asked<'a> {
    pub sender: Sender,
    pub datagram: &'a [u8],
    pub question: Question,
    ghost placed: { question.start + question.len ≤ length datagram.now },
}
