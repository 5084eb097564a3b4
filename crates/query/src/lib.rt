// Flattening the body, the source's `to_query`.
//
//     written  (= x (f (g y)))      flat  (g y @g.0) (f @g.0 @f.0) (= x @f.0)
//
// The walks work in one scratch: atoms go to `tops.to`, terms of arguments onto the stack at `tops.sp`, uses of counters to `tops.log`.
#![tactic(auto)]

ghost use Rattle.std.specs.Prelude.{◌≡◌, ◌∷◌, [], ◌++◌, ◌+◌, ◌≤◌, ◌<◌, length, get_or};
ghost use Rattle.octets.specs.Words.{words};
ghost use Rattle.octets.specs.Regions.{splice, part};
ghost use Rattle.rules.specs.Words.{literal_base, equality_word};
ghost use Rattle.query.specs.Flattened.{AsksExpr, AsksExprs, AsksFact, AsksFacts};
ghost use Rattle.query.specs.Flattened.{FlattensExpr, FlattensExprs, FlattensFact, FlattensFacts};

use walks::{Stopped, Tops, Walk};
use words::{EQUALITY, MAX_DEPTH};

// Flattens the expression at `at`, which is at most `depth` deep. A name or a literal is its own term.
fn flatten(
    rule: &[u8],
    at: usize,
    depth: u32,
    counters: &mut [u8],
    scratch: &mut [u8],
    tops: Tops,
) -> Result<Walk, Stopped>
    requires { AsksExpr (words rule.now) depth at tops (words scratch.old) (words counters.old) }
    ensures { FlattensExpr (words rule.now) depth at tops (words scratch.old) (words counters.old) (words scratch.new) (words counters.new) result }
{
    let w = octets::get(rule, at);
    if words::is_leaf(w) {
        return Ok(Walk {
            next: at + 1,
            to: tops.to,
            log: tops.log,
            term: w,
        });
    }
    // Taken out and given anew: were it handed through, a leaf's answer would be made in memory too, and waited for there.
    let walk = flatten_call(rule, at, w, depth, counters, scratch, tops)?;
    Ok(walk)
}

// Makes an atom of the n words that stand behind the one at `at`: its head word goes before them, and its output behind. Returns the place
// behind it. It is not `octets::rows::put_atom`, which carries terms from further behind: here they stand where they belong.
fn put_around(scratch: &mut [u8], at: usize, head: u32, n: usize, output: u32) -> usize
    requires { at + n + 2 ≤ length (words scratch.old) }
    ensures { (result ≡ at + n + 2)
        × (words scratch.new ≡ splice (words scratch.old) at (head ∷ (part (words scratch.old) (at + 1) n ++ (output ∷ [])))) }
{
    octets::put(scratch, at, head);
    let end = at + 1 + n;
    octets::put(scratch, end, output);
    end + 1
}

// Flattens the call at `at`, whose head word is w. It takes its fresh variable before its arguments are walked; its own atom comes behind
// theirs. Arguments that are all names and literals are written as the atom at once, past the stack. Where a call stands among them, all are
// walked from the first on, over what was written of them.
#[cycle(flatten_all_flatten_call)]
fn flatten_call(
    rule: &[u8],
    at: usize,
    w: u32,
    depth: u32,
    counters: &mut [u8],
    scratch: &mut [u8],
    tops: Tops,
) -> Result<Walk, Stopped>
    requires asks { AsksExpr (words rule.now) depth at tops (words scratch.old) (words counters.old) }
    requires call { (w ≡ get_or (words rule.now) at 0) × (w < literal_base) }
    ensures { FlattensExpr (words rule.now) depth at tops (words scratch.old) (words counters.old) (words scratch.new) (words counters.new) result }
{
    let call = words::head_word(w);
    let n = call.count as usize;
    let v = walks::take(counters, scratch, tops.log, call.head, at)?;
    let tops = Tops {
        log: tops.log + 1,
        ..tops
    };
    let first = at + 1;
    let row = octets::part(rule, first, n);
    let k = walks::leaves(row, u32::MAX, scratch, tops.to + 1);
    if k == n {
        let to = put_around(scratch, tops.to, w + 1, n, v);
        return Ok(Walk {
            next: first + k,
            to,
            log: tops.log,
            term: v,
        });
    }
    let args = flatten_all(rule, first, n, depth - 1, counters, scratch, tops)?;
    let to = octets::rows::put_atom(scratch, args.to, w + 1, tops.sp, n, v);
    Ok(Walk {
        to,
        term: v,
        ..args
    })
}

// Flattens the n expressions from `at` on; their terms go onto the stack. Most are names and literals, so these are dealt with in the loop.
#[cycle(flatten_all_flatten_call)]
fn flatten_all(
    rule: &[u8],
    at: usize,
    n: usize,
    depth: u32,
    counters: &mut [u8],
    scratch: &mut [u8],
    tops: Tops,
) -> Result<Walk, Stopped>
    requires { AsksExprs (words rule.now) depth n at tops (words scratch.old) (words counters.old) }
    ensures { FlattensExprs (words rule.now) depth n at tops (words scratch.old) (words counters.old) (words scratch.new) (words counters.new) result }
{
    let mut walk = Walk {
        next: at,
        to: tops.to,
        log: tops.log,
        term: 0,
    };
    for top in tops.sp..tops.sp + n {
        let w = octets::get(rule, walk.next);
        if words::is_leaf(w) {
            octets::put(scratch, top, w);
            walk.next += 1;
            continue;
        }
        walk = flatten_call(rule, walk.next, w, depth, counters, scratch, walk.tops(top))?;
        octets::put(scratch, top, walk.term);
    }
    Ok(Walk { term: 0, ..walk })
}

// Flattens the equality at `at`. Its atom comes behind those of its left and of its right side. Two sides that are names or literals, as most are, are told
// by their words: as walks their answers would stand in memory.
fn flatten_equality(
    rule: &[u8],
    at: usize,
    counters: &mut [u8],
    scratch: &mut [u8],
    tops: Tops,
) -> Result<Walk, Stopped>
    requires asks { AsksFact (words rule.now) at tops (words scratch.old) (words counters.old) }
    requires equality { get_or (words rule.now) at 0 ≡ equality_word }
    ensures { FlattensFact (words rule.now) at tops (words scratch.old) (words counters.old) (words scratch.new) (words counters.new) result }
{
    let first = at + 1;
    let a = octets::get(rule, first);
    if words::is_leaf(a) {
        let second = first + 1;
        let b = octets::get(rule, second);
        if words::is_leaf(b) {
            return Ok(Walk {
                next: second + 1,
                to: octets::rows::put_all(scratch, tops.to, &[EQUALITY, a, b]),
                log: tops.log,
                term: 0,
            });
        }
    }
    let left = flatten(rule, first, MAX_DEPTH, counters, scratch, tops)?;
    let right = flatten(
        rule,
        left.next,
        MAX_DEPTH,
        counters,
        scratch,
        left.tops(tops.sp),
    )?;
    let to = octets::rows::put_all(scratch, right.to, &[EQUALITY, left.term, right.term]);
    Ok(Walk {
        to,
        term: 0,
        ..right
    })
}

// Flattens the n facts from `at` on, each by its first word. A bare name or literal has no atom. That word and a call are dealt with here and not in a
// function of their own, since the compiler clears the place of an answer in memory for each.
pub fn to_query(
    rule: &[u8],
    at: usize,
    n: usize,
    counters: &mut [u8],
    scratch: &mut [u8],
    tops: Tops,
) -> Result<Walk, Stopped>
    requires { AsksFacts (words rule.now) n at tops (words scratch.old) (words counters.old) }
    ensures { FlattensFacts (words rule.now) n at tops (words scratch.old) (words counters.old) (words scratch.new) (words counters.new) result }
{
    let mut walk = Walk {
        next: at,
        to: tops.to,
        log: tops.log,
        term: 0,
    };
    for _ in 0..n {
        let w = octets::get(rule, walk.next);
        if words::is_leaf(w) {
            walk.next += 1;
            continue;
        }
        let here = walk.tops(tops.sp);
        if w == EQUALITY {
            walk = flatten_equality(rule, walk.next, counters, scratch, here)?;
            continue;
        }
        let call = flatten_call(rule, walk.next, w, MAX_DEPTH, counters, scratch, here)?;
        walk = Walk { term: 0, ..call };
    }
    Ok(walk)
}
