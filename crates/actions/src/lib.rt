// The actions of the head, one by one. The names let so far lie at the bottom of the stack, so that the stack of an action starts where they
// end. Each call below an action has used one counter and given one flat action, so that the log also counts the actions.
#![tactic(auto)]

ghost use Rattle.std.specs.Prelude.{◌≡◌, ◌+◌, ◌<◌, ◌≤◌, length};
ghost use Rattle.octets.specs.Words.{words};
ghost use Rattle.rules.specs.Words.{max_depth};
ghost use Rattle.walks.specs.Steps.{ExprAt};
ghost use Rattle.head_exprs.specs.Sites.{site_of, RoomAt, ScopeRoomAt, Asks};
ghost use Rattle.actions.specs.Acts.{LetAt, ChangeAt, PairAt, NameCallAt, ChangeFits};
ghost use Rattle.actions.specs.Lowers.{LowersLet, LowersChange, LowersPanic, LowersExpression, Unites, SetsName, Closes};

use head_exprs::Reading;
use refusals::Reason;
use walks::{Stopped, Tops, Walk};
use words::{LET, MAX_DEPTH, PANIC, SET, UNION};

// How deep the arguments of an outermost call may be.
const DEEP: u32 = MAX_DEPTH - 1;

// The answer of an action: the places behind what was read, behind what was written and behind what was logged, how many names it let, and how many flat
// actions it gave.
#[derive(Clone, Copy)]
pub struct Acted {
    pub next: usize,
    pub to: usize,
    pub log: usize,
    pub names: usize,
    pub count: usize,
}

// A let, whose action word stands at `at`. Its name is tested before its expression, and bound behind it.
pub fn lower_let(
    reading: &Reading<'_>,
    at: usize,
    counters: &mut [u8],
    scratch: &mut [u8],
    tops: Tops,
) -> Result<Acted, Stopped>
    requires known { Asks (site_of (words reading.now.rule.now) (words scratch.old) (words counters.old) at tops reading.now.scope)
        (λ sig. LetAt sig (words reading.now.rule.now) at) at }
    requires top { reading.now.scope.first + reading.now.scope.names ≡ tops.sp }
    ensures { LowersLet (site_of (words reading.now.rule.now) (words scratch.old) (words counters.old) at tops reading.now.scope)
        (words scratch.new) (words counters.new) result }
{
    let name = octets::get(reading.rule, at + 1);
    if reading.scope.taken(scratch, name) {
        return Err(Stopped {
            refusal: Reason::AlreadyDefined.at(at),
            log: tops.log,
        });
    }
    let e = reading.lower(at + 2, MAX_DEPTH, counters, scratch, tops)?;
    let end = octets::rows::put_all(scratch, e.to, &[LET, name, e.term]);
    octets::put(scratch, tops.sp, name);
    Ok(Acted {
        next: e.next,
        to: end,
        log: e.log,
        names: 1,
        count: e.log - tops.log + 1,
    })
}

// The end of an action with a head: behind the n terms that the walk `terms` left on the stack, one count of the head of its kind 3 word w is used,
// and the action `code` is written. Where no count is left, it is refused at `place`. Walk, place, code, word and count are what its two callers differ in.
fn put_change(
    terms: Walk,
    place: usize,
    code: u32,
    w: u32,
    n: usize,
    counters: &mut [u8],
    scratch: &mut [u8],
    tops: Tops,
) -> Result<Acted, Stopped>
    requires { ChangeFits w n tops.sp tops.log terms (words scratch.old) (words counters.old) }
    ensures { Closes code w n place tops.sp tops.log (words scratch.old) (words counters.old) (words scratch.new) (words counters.new) terms result }
{
    let h = words::head_word(w).head;
    walks::take(counters, scratch, terms.log, h, place)?;
    let end = octets::rows::put_row(scratch, terms.to, &[code, w], tops.sp, n);
    Ok(Acted {
        next: terms.next,
        to: end,
        log: terms.log + 1,
        names: 0,
        count: terms.log - tops.log + 1,
    })
}

// Set, delete and subsume, and a union of a constructor call and a name: the expressions behind the kind 3 word at `at + 1`, `more` of which it
// does not count, then one count of its head, then the action `code` of their terms.
pub fn lower_change(
    reading: &Reading<'_>,
    at: usize,
    code: u32,
    more: usize,
    counters: &mut [u8],
    scratch: &mut [u8],
    tops: Tops,
) -> Result<Acted, Stopped>
    requires known { Asks (site_of (words reading.now.rule.now) (words scratch.old) (words counters.old) at tops reading.now.scope)
        (λ sig. ChangeAt sig (words reading.now.rule.now) more at) at }
    requires few { more ≤ 1 }
    ensures { LowersChange (site_of (words reading.now.rule.now) (words scratch.old) (words counters.old) at tops reading.now.scope) code more
        (words scratch.new) (words counters.new) result }
{
    let w = octets::get(reading.rule, at + 1);
    let n = words::head_word(w).count as usize + more;
    let args = reading.lower_arguments(at + 2, n, counters, scratch, tops)?;
    put_change(args, at + 1, code, w, n, counters, scratch, tops)
}

// A panic, whose action word stands at `at`, with its literal.
pub fn lower_panic(
    reading: &Reading<'_>,
    at: usize,
    counters: &mut [u8],
    scratch: &mut [u8],
    tops: Tops,
) -> Result<Acted, Stopped>
    requires at_in_bounds { at + 1 < length (words reading.now.rule.now) }
    requires room { RoomAt (site_of (words reading.now.rule.now) (words scratch.old) (words counters.old) at tops reading.now.scope) at
        × ScopeRoomAt (site_of (words reading.now.rule.now) (words scratch.old) (words counters.old) at tops reading.now.scope) at }
    ensures { LowersPanic (site_of (words reading.now.rule.now) (words scratch.old) (words counters.old) at tops reading.now.scope)
        (words scratch.new) (words counters.new) result }
{
    let l = octets::get(reading.rule, at + 1);
    let end = octets::rows::put_all(scratch, tops.to, &[PANIC, l]);
    Ok(Acted {
        next: at + 2,
        to: end,
        log: tops.log,
        names: 0,
        count: 1,
    })
}

// An expression as an action, whose action word stands at `at`: only its calls are left.
pub fn lower_expression(
    reading: &Reading<'_>,
    at: usize,
    counters: &mut [u8],
    scratch: &mut [u8],
    tops: Tops,
) -> Result<Acted, Stopped>
    requires { Asks (site_of (words reading.now.rule.now) (words scratch.old) (words counters.old) at tops reading.now.scope)
        (λ sig. ExprAt sig (words reading.now.rule.now) max_depth (at + 1)) at }
    ensures { LowersExpression (site_of (words reading.now.rule.now) (words scratch.old) (words counters.old) at tops reading.now.scope)
        (words scratch.new) (words counters.new) result }
{
    let e = reading.lower(at + 1, MAX_DEPTH, counters, scratch, tops)?;
    Ok(Acted {
        next: e.next,
        to: e.to,
        log: e.log,
        names: 0,
        count: e.log - tops.log,
    })
}

// A union that stays one, whose action word stands at `at`: left, then right.
pub fn unite(
    reading: &Reading<'_>,
    at: usize,
    counters: &mut [u8],
    scratch: &mut [u8],
    tops: Tops,
) -> Result<Acted, Stopped>
    requires { Asks (site_of (words reading.now.rule.now) (words scratch.old) (words counters.old) at tops reading.now.scope)
        (λ sig. PairAt sig (words reading.now.rule.now) at) at }
    ensures { Unites (site_of (words reading.now.rule.now) (words scratch.old) (words counters.old) at tops reading.now.scope)
        (words scratch.new) (words counters.new) result }
{
    let left = reading.lower(at + 1, MAX_DEPTH, counters, scratch, tops)?;
    let behind = left.tops(tops.sp);
    let right = reading.lower(left.next, MAX_DEPTH, counters, scratch, behind)?;
    let end = octets::rows::put_all(scratch, right.to, &[UNION, left.term, right.term]);
    Ok(Acted {
        next: right.next,
        to: end,
        log: right.log,
        names: 0,
        count: right.log - tops.log + 1,
    })
}

// A union of a name and a constructor call that becomes a set: the call's arguments, then the name.
pub fn set_name(
    reading: &Reading<'_>,
    at: usize,
    counters: &mut [u8],
    scratch: &mut [u8],
    tops: Tops,
) -> Result<Acted, Stopped>
    requires { Asks (site_of (words reading.now.rule.now) (words scratch.old) (words counters.old) at tops reading.now.scope)
        (λ sig. NameCallAt sig (words reading.now.rule.now) at) at }
    ensures { SetsName (site_of (words reading.now.rule.now) (words scratch.old) (words counters.old) at tops reading.now.scope)
        (words scratch.new) (words counters.new) result }
{
    let name = octets::get(reading.rule, at + 1);
    let w = octets::get(reading.rule, at + 2);
    let n = words::head_word(w).count as usize;
    let args = reading.lower_all(at + 3, n, DEEP, counters, scratch, tops)?;
    if reading.scope.may_read(scratch, name) {
        octets::put(scratch, tops.sp + n, name);
        return put_change(args, at + 2, SET, w, n + 1, counters, scratch, tops);
    }
    Err(Stopped {
        refusal: Reason::Unbound.at(at + 1),
        log: args.log,
    })
}
