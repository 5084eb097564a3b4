// What the calls of the key service have in common: their answer, the refusal of slices that are not whole words, and the tests in front, in `fronts`.
#![tactic(auto)]

pub mod fronts;

ghost use Rattle.std.specs.Prelude.{◌≡◌, leb};
ghost use Rattle.rules.specs.Refusals.{demand, short_output};
ghost use Rattle.rules.specs.Calls.{whole_words};
ghost use Rattle.refusals.specs.Numbers.{said};
ghost use Rattle.answers.specs.Answers.{answered};

use refusals::{Reason, Refusal};

// What a call answers. Number 0 is acceptance, with place 0 and the three counts; a refusal has all counts 0.
// C reads it, so that it is no `Result`.
#[repr(C)]
#[derive(Clone, Copy)]
pub struct Answer {
    pub number: u64,
    pub place: u64,
    pub words: u64,
    pub replacements: u64,
    pub passes: u64,
}

// What an accepted call comes to: the words that its result needs, its replacements and its passes.
#[derive(Clone, Copy)]
pub struct Counts {
    pub words: usize,
    pub replacements: usize,
    pub passes: usize,
}

impl Counts {
    // The last test: whether an output of `room` words holds the result. The place of its refusal is how many words are needed.
    pub fn within(self, room: usize) -> Result<Counts, Refusal>
        ensures { said result ≡ demand (leb self.words room) short_output self.words self }
    {
        if room < self.words {
            return Err(Reason::ShortOutput.at(self.words));
        }
        Ok(self)
    }
}

impl From<Result<Counts, Refusal>> for Answer {
    ghost from_gives = { λ r a. a ≡ answered r };

    fn from(outcome: Result<Counts, Refusal>) -> Answer {
        match outcome {
            Ok(counts) => Answer {
                number: 0,
                place: 0,
                words: counts.words as u64,
                replacements: counts.replacements as u64,
                passes: counts.passes as u64,
            },
            Err(refusal) => Answer {
                number: refusal.reason.number(),
                place: refusal.place as u64,
                words: 0,
                replacements: 0,
                passes: 0,
            },
        }
    }
}

// Slices of these lengths are whole words.
pub fn whole_words(lengths: &[usize]) -> bool
    ensures { result ≡ whole_words lengths.now }
{
    lengths.iter().all(|n| n.is_multiple_of(4))
}
