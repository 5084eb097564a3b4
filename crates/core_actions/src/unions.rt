// Unions. With the flag on, a union of a name and a constructor call, in either order, becomes a set; any other stays one.
ghost use Rattle.std.specs.Prelude.{◌≡◌, List, ℕ, ◌+◌, ◌<◌, ◌≤◌, eqb, length, get_or};
ghost use Rattle.octets.specs.Words.{words};
ghost use Rattle.rules.specs.Words.{limit12, max_depth, head_base, signature_base, head_of};
ghost use Rattle.rules.specs.Signature.{Sig, heads};
ghost use Rattle.walks.specs.Steps.{Under, ExprAt};
ghost use Rattle.head_exprs.specs.Sites.{site_of};
ghost use Rattle.actions.specs.Acts.{PairAt};
ghost use Rattle.core_actions.specs.Unions.{Signed, set_side, arity_of};
ghost use Rattle.core_actions.specs.Rows.{AsksSigned, LowersUnion};

use actions::{Acted, lower_change, set_name, unite};
use head_exprs::Reading;
use signature::Kind;
use walks::{Stopped, Tops};
use words::SET;

// The word of a flag that is on: it says 1.
const FLAG_ON: u32 = words::SIGNATURE_BASE + 1;

// A side of a union: the one that is the constructor call of the set that the union becomes.
#[derive(Clone, Copy)]
enum Side {
    Left,
    Right,
}

// How many expressions stand under the first word of an expression.
fn arity(w: u32) -> usize
    requires { head_base ≤ w }
    ensures { (result ≡ arity_of w) × (result < 65536) }
{
    if words::is_leaf(w) {
        return 0;
    }
    words::head_word(w).count as usize
}

// The place behind the expression at `at`. It counts the expressions that are still to be passed.
// A `while`, since how many words it passes is told only by those that it reads: a `for` over the rule would have an end that is never reached.
fn skip(rule: &[u8], at: usize) -> usize
    requires { Under (λ sig. ExprAt sig (words rule.now) max_depth at × (heads sig ≤ limit12)) }
    ensures { (sig : Sig) (x : ExprAt sig (words rule.now) max_depth at) → heads sig ≤ limit12 → result ≡ at + x.size }
{
    let mut left = 1;
    let mut next = at;
    while 0 < left {
        let w = octets::get(rule, next);
        left = left - 1 + arity(w);
        next += 1;
    }
    next
}

// Whether the kind 3 word w has a constructor's head.
fn constructs(signature: &[u8], w: u32) -> bool
    requires { (head_base ≤ w) × (4 + head_of w < length (words signature.now)) }
    ensures { result ≡ eqb (get_or (words signature.now) (4 + head_of w) 0) (signature_base + 1) }
{
    let h = words::head_word(w).head as usize;
    octets::get(signature, 4 + h) == Kind::Constructor.word()
}

// Which side of the union at `at` is the constructor call, where it becomes a set.
fn as_set(signature: &[u8], rule: &[u8], at: usize) -> Option<Side>
    requires { Under (λ sig. PairAt sig (words rule.now) at × (heads sig ≤ limit12) × Signed sig (words signature.now)) }
    ensures { (sig : Sig) (x : PairAt sig (words rule.now) at)
        → heads sig ≤ limit12 → Signed sig (words signature.now) → result ≡ set_side sig x.left.value x.right.value }
{
    if octets::get(signature, 3) != FLAG_ON {
        return None;
    }
    let left = octets::get(rule, at + 1);
    if words::is_leaf(left) {
        let right = octets::get(rule, at + 2);
        if words::NAME_BASE <= left && !words::is_leaf(right) && constructs(signature, right) {
            return Some(Side::Right);
        }
        return None;
    }
    if constructs(signature, left) && words::NAME_BASE <= octets::get(rule, skip(rule, at + 1)) {
        return Some(Side::Left);
    }
    None
}

// A union, whose action word stands at `at`.
pub fn lower_union(
    signature: &[u8],
    reading: &Reading<'_>,
    at: usize,
    counters: &mut [u8],
    scratch: &mut [u8],
    tops: Tops,
) -> Result<Acted, Stopped>
    requires { AsksSigned (words signature.now) (site_of (words reading.now.rule.now) (words scratch.old) (words counters.old) at tops reading.now.scope)
        (λ sig. PairAt sig (words reading.now.rule.now) at) at }
    ensures { LowersUnion (words signature.now) (site_of (words reading.now.rule.now) (words scratch.old) (words counters.old) at tops reading.now.scope)
        (words scratch.new) (words counters.new) result }
{
    match as_set(signature, reading.rule, at) {
        Some(Side::Left) => lower_change(reading, at, SET, 1, counters, scratch, tops),
        Some(Side::Right) => set_name(reading, at, counters, scratch, tops),
        None => unite(reading, at, counters, scratch, tops),
    }
}
