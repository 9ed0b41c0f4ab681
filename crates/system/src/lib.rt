// Systems: symbols and their arities, terms, rules, levels and built-in words; the table of numbers, and the limits. The lowest library, with
// `buffers`.
#![tactic(auto)]

ghost use Rattle.std.specs.Prelude.{◌≡◌, eqb};
ghost use Rattle.system.specs.Numbers.{number_of};

pub mod built_ins;
pub mod limits;
pub mod numbers;
pub mod squares;
pub mod words;

use crate::numbers::Verdict;

// 01: "Each answer is three numbers: number, place, steps." It holds a number and no `Verdict`, since C has these three as they are, and the
// theorems speak of them.
#[derive(Clone, Copy, PartialEq, Eq, Debug)]
pub struct Answer {
    pub number: u32,
    pub place: usize,
    pub steps: u32,
}

impl Answer {
    pub fn new(verdict: Verdict, place: usize, steps: u32) -> Answer
        ensures { result ≡ record { number = number_of verdict; place = place; steps = steps } }
    {
        Answer {
            number: verdict.into(),
            place,
            steps,
        }
    }

    pub fn is_taken(self) -> bool
        ensures { result ≡ eqb self.number 0 }
    {
        self.number == 0
    }
}
