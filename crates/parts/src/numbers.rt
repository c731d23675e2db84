// Application, group and place numbers, each a byte in a type of its own, so that none stands in for
// another; and caps.
ghost use Rattle.std.specs.Prelude.{◌≡◌, ◌<◌, Some, decimal, nat_le};
ghost use Rattle.parts.specs.Conversions.{ConvertsBelow};
ghost use Rattle.parts.specs.Limits.{applications};
ghost use Rattle.parts.specs.declared.refusal.Cause.TheVariants.{UnusedKey, ValueAboveLimit};

use crate::refusal::Cause;
use std::{array, fmt};

// How many application numbers there are.
pub const APPLICATIONS: usize = 256;

// How many quota groups there are.
pub const GROUPS: usize = 128;

// How many places there are.
pub const PLACES: usize = 32;

// One applicant's bid for one college. The smaller number comes first.
#[derive(Clone, Copy, PartialEq, Eq, PartialOrd, Ord, Debug)]
pub struct Application(u8);

impl Application {
    ghost use Rattle.parts.specs.Rows.{AllByNumber};

    // Every application, by number.
    pub fn all() -> [Application; APPLICATIONS]
        ensures { AllByNumber result }
    {
        array::from_fn(|number| Application::from(number as u8))
    }
}

impl From<u8> for Application {
    ghost from_gives = { λ number application. application.0 ≡ number };

    fn from(number: u8) -> Application {
        Application(number)
    }
}

// The application that a key names, where the keys of a part are the application numbers.
impl TryFrom<u16> for Application {
    type Error = Cause;

    ghost try_from_gives = { ConvertsBelow applications UnusedKey (λ application. application.0) };

    fn try_from(key: u16) -> Result<Application, Cause> {
        u8::try_from(key)
            .map(Application::from)
            .map_err(|_| Cause::UnusedKey)
    }
}

impl From<Application> for u8 {
    ghost from_gives = { λ application number. number ≡ application.0 };

    fn from(application: Application) -> u8 {
        application.0
    }
}

impl fmt::Display for Application {
    ghost output = { λ application. Some (decimal application.0) };

    fn fmt<W: fmt::Write>(&self, f: &mut fmt::Formatter<W>) -> fmt::Result {
        write!(f, "{}", self.0)
    }
}

// The application's place in a row of all of them.
impl From<Application> for usize {
    ghost from_gives = { λ application place. (place ≡ application.0) × (place < applications) };

    fn from(application: Application) -> usize {
        usize::from(application.0)
    }
}

// A number below a limit. The smaller one comes first.
#[derive(Clone, Copy, PartialEq, Eq, PartialOrd, Ord, Debug)]
pub struct Below<const LIMIT: u8> {
    number: u8,
    ghost within: { number < LIMIT },
}

// A quota group.
pub type Group = Below<128>;

// A seat at a college.
pub type Place = Below<32>;

impl Group {
    // Group 0, which lies above all the others.
    pub const ROOT: Group = Below { number: 0 };
}

impl<const LIMIT: u8> TryFrom<u32> for Below<LIMIT> {
    type Error = Cause;

    ghost try_from_gives = { ConvertsBelow LIMIT ValueAboveLimit (λ below. below.number) };

    fn try_from(number: u32) -> Result<Below<LIMIT>, Cause> {
        if number < u32::from(LIMIT) {
            Ok(Below {
                number: number as u8,
            })
        } else {
            Err(Cause::ValueAboveLimit)
        }
    }
}

impl<const LIMIT: u8> From<Below<LIMIT>> for u8 {
    ghost from_gives = { λ below number. number ≡ below.number };

    fn from(below: Below<LIMIT>) -> u8 {
        below.number
    }
}

impl<const LIMIT: u8> fmt::Display for Below<LIMIT> {
    ghost output = { λ below. Some (decimal below.number) };

    fn fmt<W: fmt::Write>(&self, f: &mut fmt::Formatter<W>) -> fmt::Result {
        write!(f, "{}", self.number)
    }
}

// The number's place in a table of as many rows as its limit.
impl<const LIMIT: u8> From<Below<LIMIT>> for usize {
    ghost from_gives = { λ below place. (place ≡ below.number) × (place < LIMIT) };

    fn from(below: Below<LIMIT>) -> usize {
        usize::from(below.number)
    }
}

// How many applications a set may have at most.
#[derive(Clone, Copy, PartialEq, Eq, PartialOrd, Ord, Debug)]
pub struct Cap(pub u16);

impl Cap {
    // The cap that never binds.
    pub const WHOLE: Cap = Cap(256);

    // Whether so many applications are within the cap.
    pub fn admits(self, count: u16) -> bool
        ensures { result ≡ nat_le count self.0 }
    {
        count <= self.0
    }
}

impl From<u16> for Cap {
    ghost from_gives = { λ most cap. cap.0 ≡ most };

    fn from(most: u16) -> Cap {
        Cap(most)
    }
}

// The cap that a written value sets.
impl TryFrom<u32> for Cap {
    type Error = Cause;

    ghost try_from_gives = { ConvertsBelow 257 ValueAboveLimit (λ cap. cap.0) };

    fn try_from(most: u32) -> Result<Cap, Cause> {
        if most > 256 {
            return Err(Cause::ValueAboveLimit);
        }
        Ok(Cap(most as u16))
    }
}

impl From<Cap> for u16 {
    ghost from_gives = { λ cap most. most ≡ cap.0 };

    fn from(cap: Cap) -> u16 {
        cap.0
    }
}
