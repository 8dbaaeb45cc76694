//! A clock over a list of answers.

ghost use Rattle.std.specs.Prelude.{◌≡◌, Some, drop, List, ℕ};
ghost use Rattle.outside.specs.Clocks.{last_or};

use crate::Clock;

/// A clock that gives these answers in turn, and then the last of them again; 0 where there is none.
#[derive(Drop)]
pub struct ListClock {
    answers: Vec<u64>,
    at: usize,
    after: u64,
}

impl ListClock {
    /// A clock of these answers, in milliseconds.
    pub fn new(answers: Vec<u64>) -> ListClock
        ensures { ⟦<ListClock as Clock>⟧.answers result ≡ Some (record { left = answers.items; after = last_or 0 answers.items }) }
    {
        let mut after = 0;
        for answer in &answers {
            after = *answer;
        }
        ListClock {
            answers,
            at: 0,
            after,
        }
    }
}

impl Clock for ListClock {
    ghost answers = { λ c. Some (record { left = drop c.at c.answers.items; after = c.after }) };

    fn now(&mut self) -> u64 {
        match self.answers.get(self.at) {
            Some(answer) => {
                self.at += 1;
                *answer
            }
            None => self.after,
        }
    }
}
