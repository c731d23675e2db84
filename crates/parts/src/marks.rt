// Sets of applications, as rows of marks.
ghost use Rattle.std.specs.Prelude.{◌≡◌, length};
ghost use Rattle.parts.specs.Limits.{applications};

use crate::numbers::{APPLICATIONS, Application};

// A set of applications: a mark for each of them, set where it is a member.
#[derive(Clone, Copy, PartialEq, Eq, Debug)]
pub struct Marks {
    row: [bool; APPLICATIONS],
    ghost long: { length row ≡ applications },
}

impl From<[bool; APPLICATIONS]> for Marks {
    ghost from_gives = { λ row marks. marks.row ≡ row };

    fn from(row: [bool; APPLICATIONS]) -> Marks {
        Marks { row }
    }
}

impl Marks {
    ghost use Rattle.std.specs.Prelude.{Decides};
    ghost use Rattle.matroid.specs.Sets.{∅, ◌∪◌, ◌∖◌, add, card};
    ghost use Rattle.parts.specs.Marks.{members};

    // No application at all.
    pub fn none() -> Marks
        ensures { members result ≡ ∅ }
    {
        Marks::from([false; APPLICATIONS])
    }

    // The marks of the applications, by number.
    pub fn row(&self) -> &[bool; APPLICATIONS]
        ensures { result.now ≡ self.now.row }
    {
        &self.row
    }

    // Whether the application is a member.
    pub fn contains(&self, application: Application) -> bool
        ensures { result ≡ members self.now application.0 }
    {
        self.row[usize::from(application)]
    }

    // Makes the application a member.
    pub fn insert(&mut self, application: Application)
        ensures { members self.new ≡ add (members self.old) application.0 }
    {
        let place = usize::from(application);
        self.row[place] = true;
    }

    // The members and that application.
    pub fn with(&self, application: Application) -> Marks
        ensures { members result ≡ add (members self.now) application.0 }
    {
        let mut all = *self;
        all.insert(application);
        all
    }

    // The members of this set and those of the other. The loop takes the place along, since of a row
    // written through `zip` a proof knows nothing.
    pub fn union(&self, other: &Marks) -> Marks
        ensures { members result ≡ members self.now ∪ members other.now }
    {
        let mut row = self.row;
        for (place, mark) in other.row.iter().enumerate() {
            row[place] |= *mark;
        }
        Marks::from(row)
    }

    // The members of this set that the other has not, by the same loop: one for both would take the
    // operator as a closure, with a contract as long as either.
    pub fn difference(&self, other: &Marks) -> Marks
        ensures { members result ≡ members self.now ∖ members other.now }
    {
        let mut row = self.row;
        for (place, mark) in other.row.iter().enumerate() {
            row[place] &= !*mark;
        }
        Marks::from(row)
    }

    // How many members there are: a sum of all marks, which takes a tenth of the time of a test of each.
    pub fn count(&self) -> u16
        ensures { result ≡ card applications (members self.now) }
    {
        let mut count = 0;
        for mark in &self.row {
            count += u16::from(*mark);
        }
        count
    }

    // Whether both have the same members.
    pub fn is_same(&self, other: &Marks) -> bool
        ensures { Decides result (members self.now ≡ members other.now) }
    {
        self == other
    }
}
