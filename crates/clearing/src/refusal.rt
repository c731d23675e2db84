// Why a list that somebody else made is refused.
ghost use Rattle.std.specs.Prelude.{◌≡◌, Some};
ghost use Rattle.clearing.specs.Lists.{list_refusal, list_refusal_text, only_value};

use parts::numbers::Application;
use std::error::Error;
use std::fmt;

#[derive(Clone, Copy, PartialEq, Eq, Debug)]
pub enum ListRefusal {
    // the list has not one byte for each application
    Length,
    // a byte is above 1: the first such place
    NotAMark(Application),
    // a listed number is not live: the smallest
    NotLive(Application),
    // not independent on side one: the smallest number up to which the listed ones are not
    DependentOnOne(Application),
    // the same on side two
    DependentOnTwo(Application),
    // a live number outside is dominated on neither side: the smallest
    Undominated(Application),
}

impl ListRefusal {
    // The number of the refusal in the rule book. The variants hold applications, so they have no
    // discriminants to read.
    pub fn number(self) -> u8
        ensures { result ≡ (list_refusal self).0 }
    {
        match self {
            ListRefusal::Length => 8,
            ListRefusal::NotAMark(_) => 10,
            ListRefusal::NotLive(_) => 11,
            ListRefusal::DependentOnOne(_) => 12,
            ListRefusal::DependentOnTwo(_) => 13,
            ListRefusal::Undominated(_) => 14,
        }
    }

    // The application that the refusal names, if it names one.
    pub fn application(self) -> Option<Application>
        ensures { (list_refusal self).1 ≡ only_value result }
    {
        match self {
            ListRefusal::Length => None,
            ListRefusal::NotAMark(at)
            | ListRefusal::NotLive(at)
            | ListRefusal::DependentOnOne(at)
            | ListRefusal::DependentOnTwo(at)
            | ListRefusal::Undominated(at) => Some(at),
        }
    }
}

// By hand, since a derive would say nothing of the text.
impl fmt::Display for ListRefusal {
    ghost output = { λ refusal. Some (list_refusal_text refusal) };

    fn fmt<W: fmt::Write>(&self, f: &mut fmt::Formatter<W>) -> fmt::Result {
        match self {
            ListRefusal::Length => f.write_str("list refused: it is not 256 bytes long"),
            ListRefusal::NotAMark(at) => {
                write!(f, "list refused: the byte at place {at} is above 1")
            }
            ListRefusal::NotLive(at) => write!(f, "list refused: {at} is listed and not live"),
            ListRefusal::DependentOnOne(at) => {
                write!(
                    f,
                    "list refused: up to {at} it is not independent on side one"
                )
            }
            ListRefusal::DependentOnTwo(at) => {
                write!(
                    f,
                    "list refused: up to {at} it is not independent on side two"
                )
            }
            ListRefusal::Undominated(at) => {
                write!(
                    f,
                    "list refused: {at} is live, not listed, and dominated on neither side"
                )
            }
        }
    }
}

impl Error for ListRefusal {}
