// Why a part refuses a write.
ghost use Rattle.std.specs.Prelude.{◌≡◌, Some};
ghost use Rattle.parts.specs.Outcomes.{cause_number, cause_text, refusal_above, refusal_here, refusal_text};

use std::error::Error;
use std::fmt;

// The causes, each with its number in the rule book.
#[derive(Clone, Copy, PartialEq, Eq, Debug)]
pub enum Cause {
    // the key has no use in this part
    UnusedKey = 1,
    // the value is above the limit of its key
    ValueAboveLimit = 2,
    // the parent is not smaller than the group
    ParentNotSmaller = 3,
}

impl Cause {
    // The number of the cause in the rule book.
    pub fn number(self) -> u8
        ensures { result ≡ cause_number self }
    {
        self as u8
    }
}

// A refused write: its cause, the number of layers above the part that refused, and the key that that part received.
#[derive(Clone, Copy, PartialEq, Eq, Debug)]
pub struct WriteRefusal {
    pub cause: Cause,
    pub depth: u16,
    pub key: u16,
}

impl WriteRefusal {
    // The refusal of the part that was written to.
    pub fn here(cause: Cause, key: u16) -> WriteRefusal
        ensures { result ≡ refusal_here cause key }
    {
        WriteRefusal {
            cause,
            depth: 0,
            key,
        }
    }

    // The refusal of the part below, as a layer passes it up: one layer more lies above that part.
    pub fn from_below(self) -> WriteRefusal
        ensures { result ≡ refusal_above self }
    {
        WriteRefusal {
            depth: self.depth.saturating_add(1),
            ..self
        }
    }
}

// By hand, here and below, since a derive would say nothing of the text.
impl fmt::Display for Cause {
    ghost output = { λ cause. Some (cause_text cause) };

    fn fmt<W: fmt::Write>(&self, f: &mut fmt::Formatter<W>) -> fmt::Result {
        f.write_str(match self {
            Cause::UnusedKey => "the key has no use in this part",
            Cause::ValueAboveLimit => "the value is above the limit of its key",
            Cause::ParentNotSmaller => "the parent is not smaller than the group",
        })
    }
}

impl fmt::Display for WriteRefusal {
    ghost output = { λ refusal. Some (refusal_text refusal) };

    fn fmt<W: fmt::Write>(&self, f: &mut fmt::Formatter<W>) -> fmt::Result {
        let WriteRefusal { cause, depth, key } = self;
        write!(f, "write refused at depth {depth}, key {key}: {cause}")
    }
}

impl Error for Cause {}

impl Error for WriteRefusal {}
