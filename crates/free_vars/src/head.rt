// The head of a flat rule, whose free variables are asked for.
ghost use Rattle.std.specs.Prelude.{◌≡◌, ◌&&◌, ◌+◌, ◌-◌, ◌<◌, ◌≤◌, length, get_or};
ghost use Rattle.octets.specs.Words.{words, Got};

use crate::binds_next;
use octets::regions::among;
use octets::{count, get, part};
use words::{Term, term_of};

// The words of a flat rule from its first action on, under a signature with so many globals. The rule's header stands before them, so each word of the
// head has one before it, which tells whether it is a target.
#[derive(Clone, Copy)]
pub struct Head<'a> {
    pub rule: &'a [u8],
    pub from: usize,
    pub globals: u32,
    ghost behind: { 0 < from },
    ghost within: { from ≤ length (words rule.now) },
}

impl Head<'_> {
    ghost use Rattle.octets.specs.Regions.{part};
    ghost use Rattle.rules.specs.Signature.{elem};
    ghost use Rattle.free_vars.specs.First.{binds, first_free_at};
    ghost use Rattle.free_vars.specs.Free.{free};
    ghost use Rattle.free_vars.specs.Targets.{between};

    // How many words it has.
    pub(crate) fn len(&self) -> usize
        ensures { result ≡ length (words self.now.rule.now) - self.now.from }
    {
        count(self.rule) - self.from
    }

    // Its word i. That an index is in bounds is asked at each access, as by a slice, since it is about the index and not the head.
    pub(crate) fn word(&self, i: usize) -> u32
        requires { self.now.from + i < length (words self.now.rule.now) }
        ensures { Got (words self.now.rule.now) (self.now.from + i) result }
    {
        get(self.rule, self.from + i)
    }

    // Whether word i is a target: the word before it is that of one of the two actions that bind, a let or a call.
    pub(crate) fn is_target(&self, i: usize) -> bool
        requires { self.now.from + i < length (words self.now.rule.now) }
        ensures { result ≡ binds (get_or (words self.now.rule.now) (self.now.from + i - 1) 0) }
    {
        binds_next(get(self.rule, self.from + i - 1))
    }

    // Whether word i is a free variable that is met for the first time.
    fn first_free(&self, i: usize) -> bool
        requires { self.now.from + i < length (words self.now.rule.now) }
        ensures { result ≡ first_free_at self.now.globals (words self.now.rule.now) self.now.from i }
    {
        let Term::Var(v) = term_of(self.word(i), self.globals) else {
            return false;
        };
        !self.is_target(i) && !among(part(self.rule, self.from, i), v)
    }

    // How many free variables it has, told word by word.
    pub(crate) fn count_free(&self) -> usize
        ensures { result ≡ length (free self.now) }
    {
        (0..self.len()).filter(|i| self.first_free(*i)).count()
    }

    // Whether v lies from `low` to `high` and is among the first n words. Of a variable that is not in the row this says whether an action before binds it:
    // if it is among the words before, the first of them that is v is a target, and these lie from `low` to `high`. Outside there is no search.
    pub(crate) fn bound_before(&self, n: usize, v: u32, low: u32, high: u32) -> bool
        requires { self.now.from + n ≤ length (words self.now.rule.now) }
        ensures { result ≡ (between low high v && elem v (part (words self.now.rule.now) self.now.from n)) }
    {
        low <= v && v <= high && among(part(self.rule, self.from, n), v)
    }
}
