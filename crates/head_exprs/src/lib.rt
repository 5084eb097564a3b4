// Expressions of the head. A name must be bound or global; a call takes its fresh variable after its arguments, and becomes action 7.
//
//     written  (f (g x) 1)      flat  (call @g.0 (g x)) (call @f.0 (f @g.0 1)), and the term @f.0
//
// The walks work in one scratch: actions go to `tops.to`, terms of arguments onto the stack at `tops.sp`, uses of counters to `tops.log`.
#![tactic(auto)]

pub mod scope; // scope.rt: which names are bound

ghost use Rattle.std.specs.Prelude.{◌≡◌};
ghost use Rattle.octets.specs.Words.{words};
ghost use Rattle.rules.specs.Words.{max_depth, count_of};
ghost use Rattle.walks.specs.Steps.{UseFits, ExprAt, ExprsAt};
ghost use Rattle.head_exprs.specs.Sites.{site_of, Asks};
ghost use Rattle.head_exprs.specs.Lowered.{Binds, LowersExpr, LowersExprs};

use crate::scope::Scope;
use refusals::Reason;
use walks::{Stopped, Tops, Walk};

// What the head's expressions are read by: the rule's words, and which names are bound there.
#[derive(Clone, Copy)]
pub struct Reading<'a> {
    pub rule: &'a [u8],
    pub scope: Scope,
}

// The end of a call: behind the walk `args` over its arguments, whose terms are on the stack, the fresh variable of the head of its kind 3 word w is
// taken, and its action written. Where no count is left, it is refused at `place`.
fn put_called(
    args: Walk,
    place: usize,
    w: u32,
    counters: &mut [u8],
    scratch: &mut [u8],
    sp: usize,
) -> Result<Walk, Stopped>
    requires { UseFits 3 w (count_of w) sp args (words scratch.old) (words counters.old) }
    ensures { Binds w place sp (words scratch.old) (words counters.old) (words scratch.new) (words counters.new) args result }
{
    let head = words::head_word(w);
    let v = walks::take(counters, scratch, args.log, head.head, place)?;
    let n = head.count as usize;
    let end = octets::rows::put_row(scratch, args.to, &[words::CALL, v, w], sp, n);
    Ok(Walk {
        next: args.next,
        to: end,
        log: args.log + 1,
        term: v,
    })
}

impl Reading<'_> {
    // Lowers the expression at `at`, which is at most `depth` deep. A call without arguments sets up no walk over them, and ends by
    // itself: with one end for both, a deep head takes a hundredth more instructions.
    #[cycle(lower_lower_all)]
    pub fn lower(
        &self,
        at: usize,
        depth: u32,
        counters: &mut [u8],
        scratch: &mut [u8],
        tops: Tops,
    ) -> Result<Walk, Stopped>
        requires { Asks (site_of (words self.now.rule.now) (words scratch.old) (words counters.old) at tops self.now.scope)
            (λ sig. ExprAt sig (words self.now.rule.now) depth at) at }
        ensures { LowersExpr depth (site_of (words self.now.rule.now) (words scratch.old) (words counters.old) at tops self.now.scope)
            (words scratch.new) (words counters.new) result }
    {
        let w = octets::get(self.rule, at);
        let here = Walk {
            next: at + 1,
            to: tops.to,
            log: tops.log,
            term: w,
        };
        if words::is_leaf(w) {
            if self.scope.may_read(scratch, w) {
                return Ok(here);
            }
            return Err(Stopped {
                refusal: Reason::Unbound.at(at),
                log: tops.log,
            });
        }
        let n = words::head_word(w).count as usize;
        if n == 0 {
            return put_called(here, at, w, counters, scratch, tops.sp);
        }
        let less = depth - 1;
        let args = self.lower_all(here.next, n, less, counters, scratch, tops)?;
        put_called(args, at, w, counters, scratch, tops.sp)
    }

    // Lowers the n expressions from `at` on; their terms go onto the stack.
    // Inlined by hand: else the compiler makes a call for each expression with arguments, a fifth of the time of lowering a head.
    #[cycle(lower_lower_all)]
    #[inline(always)]
    pub fn lower_all(
        &self,
        at: usize,
        n: usize,
        depth: u32,
        counters: &mut [u8],
        scratch: &mut [u8],
        tops: Tops,
    ) -> Result<Walk, Stopped>
        requires { Asks (site_of (words self.now.rule.now) (words scratch.old) (words counters.old) at tops self.now.scope)
            (λ sig. ExprsAt sig (words self.now.rule.now) depth n at) at }
        ensures { LowersExprs depth n (site_of (words self.now.rule.now) (words scratch.old) (words counters.old) at tops self.now.scope)
            (words scratch.new) (words counters.new) result }
    {
        let mut walk = Walk {
            next: at,
            to: tops.to,
            log: tops.log,
            term: 0,
        };
        // A `for` over the stack's places: where the next expression stands is told only by the walk over the one before it.
        for top in tops.sp..tops.sp + n {
            let here = walk.tops(top);
            walk = self.lower(walk.next, depth, counters, scratch, here)?;
            octets::put(scratch, top, walk.term);
        }
        Ok(Walk { term: 0, ..walk })
    }

    // Lowers the n outermost expressions from `at` on as `lower_all` does. The literals and globals in front need no walk: they may always be read, and are
    // their own terms.
    pub fn lower_arguments(
        &self,
        at: usize,
        n: usize,
        counters: &mut [u8],
        scratch: &mut [u8],
        tops: Tops,
    ) -> Result<Walk, Stopped>
        requires { Asks (site_of (words self.now.rule.now) (words scratch.old) (words counters.old) at tops self.now.scope)
            (λ sig. ExprsAt sig (words self.now.rule.now) max_depth n at) at }
        ensures { LowersExprs max_depth n (site_of (words self.now.rule.now) (words scratch.old) (words counters.old) at tops self.now.scope)
            (words scratch.new) (words counters.new) result }
    {
        let last = words::NAME_BASE + self.scope.globals - 1;
        let k = walks::leaves(octets::part(self.rule, at, n), last, scratch, tops.sp);
        let rest = Tops {
            sp: tops.sp + k,
            ..tops
        };
        self.lower_all(at + k, n - k, words::MAX_DEPTH, counters, scratch, rest)
    }
}
