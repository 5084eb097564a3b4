// Reads what written rules hold, facts and actions: whether their words fit, which is refusal 5, and how deep their expressions are, which is refusal 6. Each
// expected word is taken by `let .. else`, the form that document 01 names.
#![tactic(auto)]

ghost use Rattle.std.specs.Prelude.{ℕ, ◌≡◌, ◌≤◌};
ghost use Rattle.octets.specs.Words.{words};
ghost use Rattle.rules.specs.Words.{max_depth, a_let, a_set, a_panic};
ghost use Rattle.rules.specs.Refusals.{Res};
ghost use Rattle.rules.specs.Written.{read_many, read_expr, read_target, read_fact, read_code, read_action};
ghost use Rattle.refusals.specs.Numbers.{said};
ghost use Rattle.written.specs.Written.{with_heads, ending_of, or_unfit, leaf_end, taken_at, Starts, Tells, ends};

use refusals::{Reason, Refusal};
use words::{HEAD_BASE, LIMIT_12, LIMIT_16, LITERAL_BASE, MAX_DEPTH, NAME_BASE, Word, word_at};

// The first words that are no name and no literal any more.
const NAME_END: u32 = NAME_BASE + LIMIT_12;

const LITERAL_END: u32 = LITERAL_BASE + LIMIT_16;

// `count` things, one after the other, each read by `one` from where the one before it ends.
pub fn row<F: Fn(usize) -> Result<usize, Refusal>>(
    one: F,
    at: usize,
    count: u32,
) -> Result<usize, Refusal>
    requires { F.IsAlwaysCallable one }
    ensures { (f : ℕ → Res ℕ) → Tells (F.post one) f → said result ≡ ends f count at }
{
    let mut next = at;
    for _ in 0..count {
        next = one(next)?;
    }
    Ok(next)
}

// Where the leaves of a kind end: the names are of kind 1, the literals of kind 2. A fresh variable, of kind 0, lies behind the end of the names.
fn leaf_end(kind: u32) -> u32
    ensures { result ≡ leaf_end kind }
{
    if kind < 2 { NAME_END } else { LITERAL_END }
}

// A written rule's words, and the number of heads that they are read under. What is read ends at the index behind it, or with a refusal.
#[derive(Clone, Copy)]
pub struct Record<'a> {
    pub rule: &'a [u8],
    pub heads: u32,
}

impl Record<'_> {
    // How many arguments the expression at an index takes, if one begins there. The count of leading zeros tells a leaf from a head. It is asked of nearly
    // every word, and whether a leaf is a name or a literal can't be foreseen: so the ends of both are compared in one way, and no branch depends on which of
    // them it is.
    fn start_at(&self, at: usize) -> Option<u32>
        ensures { or_unfit (λ n. n) result at ≡ taken_at (with_heads self.now.heads) (words self.now.rule.now) at }
    {
        if octets::count(self.rule) <= at {
            return None;
        }
        let w = octets::get(self.rule, at);
        let kind = w.leading_zeros();
        if kind < 3 {
            if w < leaf_end(kind) {
                return Some(0);
            }
            return None;
        }
        if 3 < kind {
            return None;
        }
        if w % HEAD_BASE / LIMIT_16 < self.heads {
            Some(w % LIMIT_16)
        } else {
            None
        }
    }

    // The expression whose word, at an index, takes `count` arguments, if it may hold expressions `depth` deep.
    #[cycle(arguments_expression)]
    fn expression(&self, at: usize, count: u32, depth: u32) -> Result<usize, Refusal>
        requires { Starts (with_heads self.now.heads) (words self.now.rule.now) at count }
        ensures { said result ≡ ending_of (read_expr (with_heads self.now.heads) (words self.now.rule.now) depth at) }
    {
        if depth == 0 {
            return Err(Reason::TooDeep.at(at));
        }
        let next = at + 1;
        if count == 0 {
            return Ok(next);
        }
        self.arguments(next, count, depth - 1)
    }

    // `count` expressions, one after the other, each of which may hold expressions `depth` deep. Each is taken by its first word, or refused there; a name or a
    // literal is that word alone. Behind the arguments of the last one nothing is left to read, so that they are read in its place, without a call.
    // What is left is set anew there, so no `for` counts it: it would need a loop in a loop.
    #[cycle(arguments_expression)]
    fn arguments(&self, at: usize, count: u32, depth: u32) -> Result<usize, Refusal>
        ensures { said result ≡ ending_of (read_many (read_expr (with_heads self.now.heads) (words self.now.rule.now) depth) count at) }
    {
        let mut next = at;
        let mut left = count;
        let mut deep = depth;
        while 0 < left {
            let Some(some) = self.start_at(next) else {
                return Err(Reason::Unfit.at(next));
            };
            left -= 1;
            if 0 < deep && some == 0 {
                next += 1;
            } else if 0 < deep && left == 0 {
                next += 1;
                left = some;
                deep -= 1;
            } else {
                next = self.expression(next, some, deep)?;
            }
        }
        Ok(next)
    }

    // An expression that stands in no other. Most have no arguments or few: what begins here is told at once, and only arguments are walked.
    fn outermost(&self, at: usize) -> Result<usize, Refusal>
        ensures { said result ≡ ending_of (read_expr (with_heads self.now.heads) (words self.now.rule.now) max_depth at) }
    {
        let Some(some) = self.start_at(at) else {
            return Err(Reason::Unfit.at(at));
        };
        let next = at + 1;
        if some == 0 {
            return Ok(next);
        }
        // Taken out and given anew: were it handed through, the answer of a leaf would be made in memory too, and waited for there.
        let end = self.arguments(next, some, MAX_DEPTH - 1)?;
        Ok(end)
    }

    // The two expressions of an equality or a union, which stand behind its word. Taken out and given anew, as there.
    fn pair(&self, at: usize) -> Result<usize, Refusal>
        ensures { said result ≡ ending_of (read_many (read_expr (with_heads self.now.heads) (words self.now.rule.now) max_depth) 2 at) }
    {
        let end = self.arguments(at, 2, MAX_DEPTH)?;
        Ok(end)
    }

    // A fact that may have arguments or be an equality of two, by its first word.
    fn longer_fact(&self, at: usize) -> Result<usize, Refusal>
        ensures { said result ≡ ending_of (read_fact (with_heads self.now.heads) (words self.now.rule.now) at) }
    {
        let Some(Word::Equality(count)) = word_at(self.rule, at) else {
            return self.outermost(at);
        };
        if count == 2 {
            self.pair(at + 1)
        } else {
            Err(Reason::Unfit.at(at))
        }
    }

    // A fact: an expression, or an equality of two. One word alone that takes no arguments is told before anything else, so that no answer in memory is made
    // ready for it.
    pub fn fact(&self, at: usize) -> Result<usize, Refusal>
        ensures { said result ≡ ending_of (read_fact (with_heads self.now.heads) (words self.now.rule.now) at) }
    {
        if let Some(0) = self.start_at(at) {
            return Ok(at + 1);
        }
        self.longer_fact(at)
    }

    // The kind 3 word of a set, a delete or a subsume, and its arguments. A set has one expression more, its value, which is read with them.
    fn target(&self, at: usize, more: u32) -> Result<usize, Refusal>
        requires { more ≤ 1 }
        ensures change { more ≡ 0 → said result ≡ ending_of (read_target (with_heads self.now.heads) (words self.now.rule.now) at) }
        ensures set { (p : ℕ) → more ≡ 1 → said result ≡ ending_of (read_code (with_heads self.now.heads) (words self.now.rule.now) p a_set at) }
    {
        let Some(Word::Head(head, count)) = word_at(self.rule, at) else {
            return Err(Reason::Unfit.at(at));
        };
        if head < self.heads {
            self.arguments(at + 1, count + more, MAX_DEPTH)
        } else {
            Err(Reason::Unfit.at(at))
        }
    }

    // A let: a name and an expression.
    fn let_action(&self, name: usize) -> Result<usize, Refusal>
        ensures { (p : ℕ) → said result ≡ ending_of (read_code (with_heads self.now.heads) (words self.now.rule.now) p a_let name) }
    {
        let Some(Word::Name(_)) = word_at(self.rule, name) else {
            return Err(Reason::Unfit.at(name));
        };
        self.outermost(name + 1)
    }

    // A panic: a literal.
    fn panic_action(&self, message: usize) -> Result<usize, Refusal>
        ensures { (p : ℕ) → said result ≡ ending_of (read_code (with_heads self.now.heads) (words self.now.rule.now) p a_panic message) }
    {
        let Some(Word::Literal(_)) = word_at(self.rule, message) else {
            return Err(Reason::Unfit.at(message));
        };
        Ok(message + 1)
    }

    // An action: its code, and what the code asks for. Action 7 is not written.
    // A `match` on the number, the form that document 01 names for codes: written rules have 1 to 6 and 8, and any other is unfit.
    pub fn action(&self, at: usize) -> Result<usize, Refusal>
        ensures { said result ≡ ending_of (read_action (with_heads self.now.heads) (words self.now.rule.now) at) }
    {
        let Some(Word::Action(code)) = word_at(self.rule, at) else {
            return Err(Reason::Unfit.at(at));
        };
        let next = at + 1;
        match code {
            1 => self.let_action(next),
            2 => self.target(next, 1),
            3..=4 => self.target(next, 0),
            5 => self.pair(next),
            6 => self.panic_action(next),
            8 => self.outermost(next),
            _ => Err(Reason::Unfit.at(at)),
        }
    }
}

#[cfg(test)]
mod tests {
    use super::*;

    // Reads one word, of which five are there.
    fn one_of_five(at: usize) -> Result<usize, Refusal> {
        if at < 5 {
            Ok(at + 1)
        } else {
            Err(Reason::Unfit.at(at))
        }
    }

    #[test]
    fn reads_a_row_by_any_reader(rt: HostRuntime) {
        let cases = [(0, Ok(2)), (3, Ok(5)), (4, Err(Reason::Unfit.at(5)))];
        for (count, want) in cases {
            assert_eq!(rt;
                row(|at| one_of_five(at), 2, count),
                want,
                "{count} from 2 on"
            );
        }
    }
}
