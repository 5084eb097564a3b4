// Rows: what a rule holds stands one after the other, written or flat. One loop reads them all, `row` of crates/written, and a rule is two of them behind its
// header, which is taken by `let .. else`, the form that document 01 names for each expected word.
ghost use Rattle.std.specs.Prelude.{◌≡◌};
ghost use Rattle.octets.specs.Words.{words};
ghost use Rattle.refusals.specs.Numbers.{said};
ghost use Rattle.rules.specs.Written.{read_row};
ghost use Rattle.written.specs.Written.{with_heads, ending_of, whole_of};
ghost use Rattle.records.specs.Rows.{read_item, read_headed, read_whole};

use refusals::{Reason, Refusal};
use words::{Word, word_at};

// What a row is of: facts and actions in a written rule, atoms and core actions in a flat one.
#[derive(Clone, Copy)]
pub enum Item {
    Fact,
    Action,
    Atom,
    CoreAction,
}

// `count` of them, one after the other. G tells which terms are globals; an expression is read without that. What they are is asked once for the row, and
// where it is known at the call, as for a whole rule, not at all: hence the inlining by hand, of the rule too.
#[inline(always)]
pub fn row(
    rule: &[u8],
    heads: u32,
    globals: u32,
    at: usize,
    count: u32,
    of: Item,
) -> Result<usize, Refusal>
    ensures { said result ≡ ending_of (read_row (read_item of (with_heads heads) (words rule.now)) count at) }
{
    let by_heads = written::Record { rule, heads };
    let by_both = flat::Record {
        rule,
        heads,
        globals,
    };
    match of {
        Item::Fact => written::row(|next| by_heads.fact(next), at, count),
        Item::Action => written::row(|next| by_heads.action(next), at, count),
        Item::Atom => written::row(|next| by_both.atom(next), at, count),
        Item::CoreAction => written::row(|next| by_both.action(next), at, count),
    }
}

// A rule that begins at an index, of a list that may go on behind it: its header, a row of what its body holds, and a row of its actions.
#[inline(always)]
fn rule_at(
    rule: &[u8],
    heads: u32,
    globals: u32,
    at: usize,
    body: Item,
    head: Item,
) -> Result<usize, Refusal>
    ensures { said result ≡ ending_of (read_headed body head (with_heads heads) (words rule.now) at) }
{
    let Some(Word::Header(some, more)) = word_at(rule, at) else {
        return Err(Reason::Unfit.at(at));
    };
    let actions = row(rule, heads, globals, at + 1, some, body)?;
    row(rule, heads, globals, actions, more, head)
}

// A whole rule, with nothing behind it. It ends with its words.
#[inline(always)]
pub fn whole_rule(
    rule: &[u8],
    heads: u32,
    globals: u32,
    body: Item,
    head: Item,
) -> Result<usize, Refusal>
    ensures { said result ≡ whole_of (words rule.now) (read_whole body head (with_heads heads) (words rule.now)) }
{
    let end = rule_at(rule, heads, globals, 0, body, head)?;
    let count = octets::count(rule);
    if end < count {
        return Err(Reason::Unfit.at(end));
    }
    Ok(count)
}
