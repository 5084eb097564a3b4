// Why a call is turned back, and at which place.
#![tactic(auto)]

ghost use Rattle.std.specs.Prelude.{◌≡◌};
ghost use Rattle.refusals.specs.Numbers.{number_of};

// A reason for each number of 01, "Turned back", in the order of the numbers from 1 to 14.
#[derive(Clone, Copy, Debug, PartialEq, Eq)]
pub enum Reason {
    BadSignature,
    FewCounters,
    SmallScratch,
    BadLength,
    Unfit,
    TooDeep,
    Unbound,
    AlreadyDefined,
    UsedUp,
    ShortOutput,
    NoTerms,
    NotTwo,
    BadLine,
    Ragged,
}

// A refusal: its reason, and the place that goes with it. The place stands in front, where the value of an answer that is no refusal stands too: so
// neither is put together from bytes.
#[derive(Clone, Copy, Debug, PartialEq, Eq)]
pub struct Refusal {
    pub place: usize,
    pub reason: Reason,
}

impl Reason {
    // The refusal for this reason at a place.
    pub fn at(self, place: usize) -> Refusal
        ensures { (result.reason ≡ self) × (result.place ≡ place) }
    {
        Refusal {
            reason: self,
            place,
        }
    }

    // The number that a caller is given. A method, since its name says which number: a conversion would not.
    pub fn number(self) -> u64
        ensures { result ≡ number_of self }
    {
        self as u64 + 1
    }
}
