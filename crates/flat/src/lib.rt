// Reads what flat rules hold, atoms and actions: whether their words fit, which is refusal 5, and whether each atom has the terms it needs, which are
// refusals 11 and 12. Each expected word is taken by `let .. else`, the form that document 01 names.
#![tactic(auto)]

ghost use Rattle.std.specs.Prelude.{◌≡◌};
ghost use Rattle.octets.specs.Words.{words};
ghost use Rattle.rules.specs.Words.{is_name_word, is_literal_word, a_let, a_set, a_call};
ghost use Rattle.rules.specs.Written.{read_word, read_row};
ghost use Rattle.rules.specs.Flat.{is_target, read_term, read_terms, read_atom, read_core_action};
ghost use Rattle.refusals.specs.Numbers.{said};
ghost use Rattle.written.specs.Written.{with_heads, with_globals, ending_of, or_unfit};
ghost use Rattle.flat.specs.Flat.{term_numbers, term_at, atom_numbers, first_at, read_behind};

use refusals::{Reason, Refusal};
use words::{
    Atom, FRESH_BASE, HeadOrEq, LIMIT_12, LIMIT_16, LITERAL_BASE, NAME_BASE, Term, Word, word_at,
};

// A flat rule's words, and the numbers of heads and of globals that they are read under. What is read ends at the index behind it, or with a refusal.
// It is not the record of `written`: a written rule is read without G, and a struct has its methods in its own crate.
#[derive(Clone, Copy)]
pub struct Record<'a> {
    pub rule: &'a [u8],
    pub heads: u32,
    pub globals: u32,
}

// ---- terms

impl Record<'_> {
    // A literal. It is not one function with `name`: that would take the kind as a parameter, and no longer the word by its pattern.
    fn literal(&self, at: usize) -> Result<usize, Refusal>
        ensures { said result ≡ ending_of (read_word (words self.now.rule.now) is_literal_word at) }
    {
        let Some(Word::Literal(_)) = word_at(self.rule, at) else {
            return Err(Reason::Unfit.at(at));
        };
        Ok(at + 1)
    }

    // A variable's or a global's name.
    fn name(&self, at: usize) -> Result<usize, Refusal>
        ensures { said result ≡ ending_of (read_word (words self.now.rule.now) is_name_word at) }
    {
        let Some(Word::Name(_)) = word_at(self.rule, at) else {
            return Err(Reason::Unfit.at(at));
        };
        Ok(at + 1)
    }

    // What an action may bind: a fresh variable of a head below H, which is at most 4,096, or a name.
    fn target(&self, at: usize) -> Result<usize, Refusal>
        ensures { said result ≡ ending_of (read_word (words self.now.rule.now) (is_target (with_heads self.now.heads)) at) }
    {
        let Some(Word::Fresh(head, _)) = word_at(self.rule, at) else {
            return self.name(at);
        };
        if head < self.heads.min(LIMIT_12) {
            Ok(at + 1)
        } else {
            Err(Reason::Unfit.at(at))
        }
    }

    // The term at an index: a fresh variable of a head below H, which is at most 4,096, a name, which is a global's below G, or a literal. The count of
    // leading zeros tells which: a `Term` holds the word itself, and `word_at` would give its parts, from which the word would have to be made again.
    fn term_at(&self, at: usize) -> Option<Term>
        ensures { or_unfit term_numbers result at ≡ term_at (with_globals self.now.heads self.now.globals) (words self.now.rule.now) at }
    {
        if octets::count(self.rule) <= at {
            return None;
        }
        let w = octets::get(self.rule, at);
        let kind = w.leading_zeros();
        match kind {
            0 => {
                let head = (w - FRESH_BASE) / LIMIT_16;
                if head < self.heads.min(LIMIT_12) {
                    Some(Term::Var(w))
                } else {
                    None
                }
            }
            1 => {
                if w - NAME_BASE < LIMIT_12 {
                    Some(words::term_of(w, self.globals))
                } else {
                    None
                }
            }
            2 => {
                if w - LITERAL_BASE < LIMIT_16 {
                    Some(Term::Literal(w))
                } else {
                    None
                }
            }
            _ => None,
        }
    }

    // A term: what may be bound, or a literal.
    fn term(&self, at: usize) -> Result<usize, Refusal>
        ensures { said result ≡ ending_of (read_term (with_heads self.now.heads) (words self.now.rule.now) at) }
    {
        let Some(_) = self.term_at(at) else {
            return Err(Reason::Unfit.at(at));
        };
        Ok(at + 1)
    }

    // `count` terms, one after the other, each of one word.
    fn terms(&self, at: usize, count: u32) -> Result<usize, Refusal>
        ensures { said result ≡ ending_of (read_row (read_term (with_heads self.now.heads) (words self.now.rule.now)) count at) }
    {
        let mut next = at;
        for _ in 0..count {
            next = self.term(next)?;
        }
        Ok(next)
    }
}

// ---- atoms

impl Record<'_> {
    // How the atom at an index begins: with its head and the count of its terms. No atom begins with another word.
    // By the count of leading zeros: `atom_of` takes the word itself, and `word_at` would give its parts, from which the word would have to be made again.
    fn first_at(&self, at: usize) -> Option<Atom>
        ensures { or_unfit atom_numbers result at ≡ first_at (words self.now.rule.now) at }
    {
        if octets::count(self.rule) <= at {
            return None;
        }
        let w = octets::get(self.rule, at);
        let kind = w.leading_zeros();
        match kind {
            3..=4 => Some(words::atom_of(w, at)),
            _ => None,
        }
    }

    // An atom: a head below H with one term or more, or the equality of two. A word that does not fit is a 5, whatever its count.
    pub fn atom(&self, at: usize) -> Result<usize, Refusal>
        ensures { said result ≡ ending_of (read_atom (with_heads self.now.heads) (words self.now.rule.now) at) }
    {
        let Some(atom) = self.first_at(at) else {
            return Err(Reason::Unfit.at(at));
        };
        match atom.head {
            HeadOrEq::Eq => {
                if atom.count == 2 {
                    self.terms(atom.terms, atom.count)
                } else {
                    Err(Reason::NotTwo.at(at))
                }
            }
            HeadOrEq::Head(number) => {
                if self.heads <= number {
                    return Err(Reason::Unfit.at(at));
                }
                if atom.count == 0 {
                    return Err(Reason::NoTerms.at(at));
                }
                self.terms(atom.terms, atom.count)
            }
        }
    }
}

// ---- actions

impl Record<'_> {
    // A kind 3 word and its terms.
    fn head_terms(&self, at: usize) -> Result<usize, Refusal>
        ensures { said result ≡ ending_of (read_terms (with_heads self.now.heads) (words self.now.rule.now) at) }
    {
        let Some(Word::Head(head, count)) = word_at(self.rule, at) else {
            return Err(Reason::Unfit.at(at));
        };
        if head < self.heads {
            self.terms(at + 1, count)
        } else {
            Err(Reason::Unfit.at(at))
        }
    }

    // What a let binds, and its term.
    fn let_action(&self, at: usize) -> Result<usize, Refusal>
        ensures { said result ≡ ending_of (read_behind (with_heads self.now.heads) (words self.now.rule.now) a_let at) }
    {
        let behind = self.target(at)?;
        self.term(behind)
    }

    // A set's kind 3 word with its terms, and the value.
    fn set_action(&self, at: usize) -> Result<usize, Refusal>
        ensures { said result ≡ ending_of (read_behind (with_heads self.now.heads) (words self.now.rule.now) a_set at) }
    {
        let behind = self.head_terms(at)?;
        self.term(behind)
    }

    // What a call's answer is bound to, and its kind 3 word with its terms.
    fn call_action(&self, at: usize) -> Result<usize, Refusal>
        ensures { said result ≡ ending_of (read_behind (with_heads self.now.heads) (words self.now.rule.now) a_call at) }
    {
        let behind = self.target(at)?;
        self.head_terms(behind)
    }

    // An action: its code, and what the code asks for. Action 8 is not flat.
    // A `match` on the number, the form that document 01 names for codes: flat rules have 1 to 7, and any other is unfit.
    pub fn action(&self, at: usize) -> Result<usize, Refusal>
        ensures { said result ≡ ending_of (read_core_action (with_heads self.now.heads) (words self.now.rule.now) at) }
    {
        let Some(Word::Action(code)) = word_at(self.rule, at) else {
            return Err(Reason::Unfit.at(at));
        };
        let next = at + 1;
        match code {
            1 => self.let_action(next),
            2 => self.set_action(next),
            3..=4 => self.head_terms(next),
            5 => self.terms(next, 2),
            6 => self.literal(next),
            7 => self.call_action(next),
            _ => Err(Reason::Unfit.at(at)),
        }
    }
}
