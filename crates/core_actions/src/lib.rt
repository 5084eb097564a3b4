// Lowering the head, the source's `to_core_actions`.
//
//     written  (set (f (g x)) 1)      flat  (call @g.0 (g x)) (set (f @g.0) 1), and one count of f is used up
//
// The walks work in one scratch: actions go to `tops.to`, terms of arguments onto the stack at `tops.sp`, uses of counters to `tops.log`.
#![tactic(auto)]

pub mod unions; // unions.rt: unions, and those that become sets

ghost use Rattle.std.specs.Prelude.{◌≡◌, ◌+◌};
ghost use Rattle.octets.specs.Words.{words};
ghost use Rattle.head_exprs.specs.Sites.{site_of};
ghost use Rattle.core_actions.specs.Rows.{ActionAt, ActionsAt, row_site, AsksSigned, LowersAction, ActsAll};

use crate::unions::lower_union;
use actions::{Acted, lower_change, lower_expression, lower_let, lower_panic};
use head_exprs::Reading;
use head_exprs::scope::Scope;
use refusals::Reason;
use walks::{Stopped, Tops};

// Lowers the action at `at`, by its code.
// A `match` on the number, the form that document 01 names, over the codes 1 to 8. 7 is not written, and is refused with those outside.
fn lower_action(
    signature: &[u8],
    reading: &Reading<'_>,
    at: usize,
    counters: &mut [u8],
    scratch: &mut [u8],
    tops: Tops,
) -> Result<Acted, Stopped>
    requires known { AsksSigned (words signature.now)
        (site_of (words reading.now.rule.now) (words scratch.old) (words counters.old) at tops reading.now.scope)
        (λ sig. ActionAt sig (words reading.now.rule.now) at) at }
    requires top { reading.now.scope.first + reading.now.scope.names ≡ tops.sp }
    ensures { LowersAction (words signature.now) (site_of (words reading.now.rule.now) (words scratch.old) (words counters.old) at tops reading.now.scope)
        (words scratch.new) (words counters.new) result }
{
    let w = octets::get(reading.rule, at);
    let code = w - words::ACTION_BASE;
    match code {
        1 => lower_let(reading, at, counters, scratch, tops),
        2 => lower_change(reading, at, w, 1, counters, scratch, tops),
        3..=4 => lower_change(reading, at, w, 0, counters, scratch, tops),
        5 => lower_union(signature, reading, at, counters, scratch, tops),
        6 => lower_panic(reading, at, counters, scratch, tops),
        8 => lower_expression(reading, at, counters, scratch, tops),
        _ => Err(Stopped {
            refusal: Reason::Unfit.at(at),
            log: tops.log,
        }),
    }
}

// Lowers the n actions from `at` on. The names that they let lie behind those that the scope has, and the stack of each action behind these.
// `to` and `log` come apart from a `Tops`, which would hold a stack's place beside them: here that is the scope's to say.
pub fn to_core_actions(
    signature: &[u8],
    reading: &Reading<'_>,
    at: usize,
    n: usize,
    counters: &mut [u8],
    scratch: &mut [u8],
    to: usize,
    log: usize,
) -> Result<Acted, Stopped>
    requires { AsksSigned (words signature.now) (row_site (words reading.now.rule.now) (words scratch.old) (words counters.old) at to log reading.now.scope)
        (λ sig. ActionsAt sig (words reading.now.rule.now) n at) at }
    ensures { ActsAll (words signature.now) (row_site (words reading.now.rule.now) (words scratch.old) (words counters.old) at to log reading.now.scope) n
        (words scratch.new) (words counters.new) result }
{
    let mut row = Acted {
        next: at,
        to,
        log,
        names: reading.scope.names,
        count: 0,
    };
    // A `for` over the count: where the next action stands is told only by the walk over the one before it.
    for _ in 0..n {
        let scope = Scope {
            names: row.names,
            ..reading.scope
        };
        let now = Reading { scope, ..*reading };
        let tops = Tops {
            to: row.to,
            sp: reading.scope.first + row.names,
            log: row.log,
        };
        let one = lower_action(signature, &now, row.next, counters, scratch, tops)?;
        row = Acted {
            names: row.names + one.names,
            count: row.count + one.count,
            ..one
        };
    }
    Ok(row)
}
