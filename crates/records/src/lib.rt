// Reading the records of 01: whether each is good, and else the refusal. What rules hold is read in crates of their own.
#![tactic(auto)]

pub mod rows; // rows.rt: rows of what rules hold, and rules of two of them

ghost use Rattle.std.specs.Prelude.{ℕ, ◌≡◌};
ghost use Rattle.octets.specs.Words.{words};
ghost use Rattle.refusals.specs.Numbers.{said};
ghost use Rattle.rules.specs.Refusals.{Res};
ghost use Rattle.rules.specs.Written.{read_row, read_written};
ghost use Rattle.rules.specs.Flat.{read_atom, read_flat};
ghost use Rattle.rules.specs.Calls.{length_fits};
ghost use Rattle.written.specs.Written.{with_heads, ending_of, whole_of, Tells};
ghost use Rattle.records.specs.Rows.{whole_ends};

use refusals::{Reason, Refusal};
use rows::{Item, row};
use words::{Word, word_at};

// The words of a written rule, and of a flat rule given as input.
pub const MAX_WRITTEN: usize = 512;

pub const MAX_FLAT: usize = 1024;

// How many words a record has, if they are from 1 to `most`; else refusal 4.
pub fn length_fits(rule: &[u8], most: usize) -> Result<usize, Refusal>
    ensures { said result ≡ length_fits most (words rule.now) }
{
    let n = octets::count(rule);
    if (1..=most).contains(&n) {
        Ok(n)
    } else {
        Err(Reason::BadLength.at(0))
    }
}

// A whole rule, with nothing behind it, whose rows are read by readers that the caller lends: its header, a row of what its body holds, and a row of its
// actions. It ends with its words. What reads one thing of a row is any function here; `rows::whole_rule` has those of document 01, chosen by an `Item`, and is
// the one that the calls run.
pub fn whole_rule<B: Fn(usize) -> Result<usize, Refusal>, H: Fn(usize) -> Result<usize, Refusal>>(
    rule: &[u8],
    body: B,
    head: H,
) -> Result<usize, Refusal>
    requires { B.IsAlwaysCallable body × H.IsAlwaysCallable head }
    ensures { (f g : ℕ → Res ℕ) → Tells (B.post body) f → Tells (H.post head) g → said result ≡ whole_ends f g (words rule.now) }
{
    let Some(Word::Header(some, more)) = word_at(rule, 0) else {
        return Err(Reason::Unfit.at(0));
    };
    let actions = written::row(body, 1, some)?;
    let end = written::row(head, actions, more)?;
    let count = octets::count(rule);
    if end < count {
        return Err(Reason::Unfit.at(end));
    }
    Ok(count)
}

// A whole written rule, with nothing behind it. Which of its names are globals is not asked here, so any G would do.
pub fn written(rule: &[u8], heads: u32) -> Result<usize, Refusal>
    ensures { said result ≡ whole_of (words rule.now) (read_written (with_heads heads) (words rule.now)) }
{
    rows::whole_rule(rule, heads, 0, Item::Fact, Item::Action)
}

// `count` atoms, one after the other.
pub fn atoms(rule: &[u8], heads: u32, globals: u32, at: usize, count: u32) -> Result<usize, Refusal>
    ensures { said result ≡ ending_of (read_row (read_atom (with_heads heads) (words rule.now)) count at) }
{
    row(rule, heads, globals, at, count, Item::Atom)
}

// A whole flat rule, with nothing behind it.
pub fn flat(rule: &[u8], heads: u32, globals: u32) -> Result<usize, Refusal>
    ensures { said result ≡ whole_of (words rule.now) (read_flat (with_heads heads) (words rule.now)) }
{
    rows::whole_rule(rule, heads, globals, Item::Atom, Item::CoreAction)
}

#[cfg(test)]
mod tests {
    use super::*;

    // A rule of one fact and one action, an equality and a let, under headers that say so or do not.
    #[test]
    fn reads_a_rule_by_readers_that_are_lent(rt: HostRuntime) {
        let cases = [
            (1, 4, Ok(7)),
            (0, 4, Err(Reason::Unfit.at(4))),
            (2, 4, Err(Reason::Unfit.at(7))),
            (1, 8, Err(Reason::Unfit.at(0))),
        ];
        for (actions, kind, want) in cases {
            let rule: [u8; 28] = [
                actions, 16, 0, kind, 2, 0, 0, 8, 1, 0, 0, 64, 1, 0, 0, 64, 1, 0, 0, 2, 1, 0, 0,
                64, 9, 0, 0, 64,
            ];
            let record = written::Record {
                rule: &rule,
                heads: 4,
            };
            let read = whole_rule(&rule, |at| record.fact(at), |at| record.action(at));
            assert_eq!(rt; read, want, "{actions} actions under a word of {kind}");
        }
    }
}
