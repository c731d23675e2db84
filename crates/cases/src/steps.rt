// Tables of steps, and what runs them. A step is a write or a question, with what must come of it.
use parts::marks::Marks;
use parts::numbers::Application;
use parts::part::Part;
use parts::ranking::Ranking;
use parts::refusal::{Cause, WriteRefusal};
use parts::rule::Rule;
use std::process::Abort;

// A question that a part answers by yes or no.
pub(crate) trait Question<P> {
    fn answer(&self, part: &P) -> bool;
}

// Whether the marked numbers and the asked one are independent together.
pub(crate) struct Allows(pub &'static [u8], pub u8);

impl<R: Rule> Question<R> for Allows {
    fn answer(&self, part: &R) -> bool {
        part.allows(&marks(self.0), Application::from(self.1))
    }
}

// Whether the first number precedes the second.
pub(crate) struct Precedes(pub u8, pub u8);

impl<K: Ranking> Question<K> for Precedes {
    fn answer(&self, part: &K) -> bool {
        part.precedes(Application::from(self.0), Application::from(self.1))
    }
}

// A step of a part that is asked such questions.
pub(crate) enum Step<Q> {
    // an accepted write: key and value
    Accepts(u16, u32),
    // a refused write: key and value, and the cause, depth and key of the refusal
    Refuses(u16, u32, Cause, u16, u16),
    // a question whose answer is yes
    Yes(Q),
    // a question whose answer is no
    No(Q),
}

// The set of those numbers.
pub(crate) fn marks(numbers: &[u8]) -> Marks {
    let mut marked = Marks::none();
    for number in numbers {
        marked.insert(Application::from(*number));
    }
    marked
}

// Takes one step. A failure names the part and the step.
fn take_step<Role, P: Part<Role>, Q: Question<P>>(
    rt: &impl Abort,
    part: &mut P,
    step: &Step<Q>,
    name: &str,
    number: usize,
) {
    match step {
        Step::Accepts(key, value) => {
            assert_eq!(rt; part.write(*key, *value), Ok(()), "{name}, step {number}");
        }
        Step::Refuses(key, value, cause, depth, received) => {
            let refusal = WriteRefusal {
                cause: *cause,
                depth: *depth,
                key: *received,
            };
            assert_eq!(rt;
                part.write(*key, *value),
                Err(refusal),
                "{name}, step {number}"
            );
        }
        Step::Yes(question) => assert!(rt; question.answer(part), "{name}, step {number}"),
        Step::No(question) => assert!(rt; !question.answer(part), "{name}, step {number}"),
    }
}

// Takes the steps one after the other. A failure says which it was, counted from 0, and of which part.
pub(crate) fn check<Role, P: Part<Role>, Q: Question<P>>(
    rt: &impl Abort,
    name: &str,
    part: &mut P,
    steps: &[Step<Q>],
) {
    for (number, step) in steps.iter().enumerate() {
        take_step(rt, part, step, name, number);
    }
}
