// The records of a message, and a cursor that reads them: RFC 1035, RFC 6891 and RFC 8764.
#![tactic(auto)]

ghost use Rattle.std.specs.Prelude.{◌≡◌, ◌+◌, ◌≤◌, length, leb};
ghost use Rattle.wire.specs.Read.{read_byte, read_number, read_header, read_label, read_name, read_question, read_opt, read_option, read_llq_option};

pub mod write;

// The bytes of a header, of an OPT record before its options, and of an LLQ option with its code and length.
pub const HEADER_LEN: usize = 12;

pub const OPT_LEN: usize = 11;

pub const OPTION_LEN: usize = 22;

// A message number and an LLQ number are different kinds: neither can stand for the other.
#[derive(Clone, Copy, PartialEq, Eq)]
pub struct MessageNumber(pub u16);

#[derive(Clone, Copy, PartialEq, Eq, Default)]
pub struct LlqNumber(pub u64);

// A header's fields: the third byte holds QR, OPCODE, AA, TC and RD.
#[derive(Clone, Copy)]
pub struct Header {
    pub number: MessageNumber,
    pub flags: u8,
    pub qdcount: u16,
    pub ancount: u16,
    pub nscount: u16,
    pub arcount: u16,
}

// A question: where its name starts in the datagram, how many bytes the name takes, its type and class. Places in a datagram fit 16 bits: eight questions are then 64 bytes without gaps.
#[derive(Clone, Copy, Default)]
pub struct Question {
    pub start: u16,
    pub len: u16,
    pub qtype: u16,
    pub qclass: u16,
}

// An LLQ option's 18 bytes. The widest field comes first: an array of eight is then cleared in two stores an option.
#[derive(Clone, Copy, Default)]
pub struct LlqOption {
    pub number: LlqNumber,
    pub lease: u32,
    pub version: u16,
    pub opcode: u16,
    pub error: u16,
}

// A place in a message. Each reader takes it and hands it back moved on, beside what it read; none where the bytes end first or are no such thing.
#[derive(Clone, Copy)]
pub struct Cursor {
    pub at: usize,
}

// A label that is passed, or the zero byte that ends a name: the place behind it.
#[derive(Clone, Copy)]
pub enum Label {
    Label(Cursor),
    Last(Cursor),
}

// Where a question's name starts and how many bytes it takes, and its numbers.
#[derive(Clone, Copy)]
pub struct QuestionRead {
    pub start: usize,
    pub len: usize,
    pub qtype: u16,
    pub qclass: u16,
}

// An option's code, where its data start and how many bytes they are.
#[derive(Clone, Copy)]
pub struct OptionRead {
    pub code: u16,
    pub data: Cursor,
    pub size: usize,
}

impl Cursor {
    // There are n bytes from here on.
    fn holds(self, s: &[u8], n: usize) -> bool
        ensures { result ≡ leb (self.at + n) (length s.now) }
    {
        n <= s.len() && self.at <= s.len() - n
    }

    pub fn byte(self, s: &[u8]) -> Option<(u8, Cursor)>
        ensures { result ≡ read_byte s.now self.at }
    {
        let b = *s.get(self.at)?;
        Some((b, Cursor { at: self.at + 1 }))
    }

    // A number of 16 bits.
    pub fn number(self, s: &[u8]) -> Option<(u16, Cursor)>
        ensures { result ≡ read_number s.now self.at }
    {
        if !self.holds(s, 2) {
            return None;
        }
        let number = octets::get16(s, self.at);
        Some((number, Cursor { at: self.at + 2 }))
    }

    // A header's 12 bytes.
    pub fn header(self, s: &[u8]) -> (Header, Cursor)
        requires { self.at + 12 ≤ length s.now }
        ensures { result ≡ read_header s.now self.at }
    {
        let at = self.at;
        let header = Header {
            number: MessageNumber(octets::get16(s, at)),
            flags: s[at + 2],
            qdcount: octets::get16(s, at + 4),
            ancount: octets::get16(s, at + 6),
            nscount: octets::get16(s, at + 8),
            arcount: octets::get16(s, at + 10),
        };
        (
            header,
            Cursor {
                at: at + HEADER_LEN,
            },
        )
    }

    // A length byte of 1 to 63 and the label's bytes, or the zero byte.
    pub fn label(self, s: &[u8]) -> Option<Label>
        ensures { result ≡ read_label s.now self.at }
    {
        let (b, next) = self.byte(s)?;
        match b {
            0 => Some(Label::Last(next)),
            1..=63 => Some(Label::Label(Cursor {
                at: next.at + usize::from(b),
            })),
            _ => None,
        }
    }

    // Labels up to the zero byte, at most 255 bytes: how many bytes the name takes.
    pub fn name(self, s: &[u8]) -> Option<(usize, Cursor)>
        ensures { result ≡ read_name s.now self.at }
    {
        let start = self.at;
        let mut c = self;
        while c.at - start < 255 {
            match c.label(s)? {
                Label::Label(next) => c = next,
                Label::Last(next) => return Some((next.at - start, next)),
            }
        }
        None
    }

    // A name, a type and a class.
    pub fn question(self, s: &[u8]) -> Option<(QuestionRead, Cursor)>
        ensures { result ≡ read_question s.now self.at }
    {
        let (len, next) = self.name(s)?;
        let (qtype, next) = next.number(s)?;
        let (qclass, next) = next.number(s)?;
        let q = QuestionRead {
            start: self.at,
            len,
            qtype,
            qclass,
        };
        Some((q, next))
    }

    // Refusal 6, but for the options: an OPT record with the root, type 41, version 0, and data that ends where the message does. Where the data start.
    pub fn opt(self, s: &[u8]) -> Option<Cursor>
        ensures { result ≡ read_opt s.now self.at }
    {
        let at = self.at;
        if self.holds(s, OPT_LEN)
            && s[at] == 0
            && octets::get16(s, at + 1) == 41
            && s[at + 6] == 0
            && at + OPT_LEN + usize::from(octets::get16(s, at + 9)) == s.len()
        {
            Some(Cursor { at: at + OPT_LEN })
        } else {
            None
        }
    }

    // A code, a length, and as many bytes.
    #[tactic(auto, unfolding(model::specs::Query::good_option))]
    pub fn option(self, s: &[u8]) -> Option<(OptionRead, Cursor)>
        ensures { result ≡ read_option s.now self.at }
    {
        if !self.holds(s, 4) {
            return None;
        }
        let code = octets::get16(s, self.at);
        let size = usize::from(octets::get16(s, self.at + 2));
        let data = Cursor { at: self.at + 4 };
        if !data.holds(s, size) {
            return None;
        }
        let next = Cursor { at: data.at + size };
        Some((OptionRead { code, data, size }, next))
    }

    // The 18 bytes of an LLQ option's data.
    pub fn llq_option(self, s: &[u8]) -> (LlqOption, Cursor)
        requires { self.at + 18 ≤ length s.now }
        ensures { result ≡ read_llq_option s.now self.at }
    {
        let at = self.at;
        let option = LlqOption {
            version: octets::get16(s, at),
            opcode: octets::get16(s, at + 2),
            error: octets::get16(s, at + 4),
            number: LlqNumber(octets::get64(s, at + 6)),
            lease: octets::get32(s, at + 14),
        };
        (option, Cursor { at: at + 18 })
    }
}
