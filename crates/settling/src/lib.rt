// Settling a flat body whose words stand in a scratch: `canonicalize`, then merge passes until one gives no equality.
//
// For a body of n words at `at` the scratch holds these regions, cut by no `split_at_mut`, since their uses change from pass to pass:
//
//     at             2n words      the body, and a table of spans behind it, up to 3n; later the groups of a pass
//     at + 2n        2n + 1 words  the links of a pass; later what becomes of its equalities
//     at + 4n + 1    2n words      the atoms of the next pass: here the settled atoms stand at the end
//     at + 6n + 1    2n + 1 words  the buckets of a pass, one more than the atoms have words
//     at + 8n + 3                  the end of the bindings, three words each, which are written downward
//
// That this suffices is a law of the definitions: settling never makes a body and its replacements heavier.
#![tactic(auto, using(octets::proofs::Words::length_words))]

ghost use Rattle.std.specs.Prelude.{◌≡◌, ◌≤◌, List};
ghost use Rattle.octets.specs.Words.{words};
ghost use Rattle.rules.specs.Signature.{Sig};
ghost use Rattle.rules.specs.Flat.{Atom};
ghost use Rattle.bodies.specs.Terms.{Agrees};
ghost use Rattle.bodies.specs.Standing.{BodyAt};
ghost use Rattle.settling.specs.Settle.{SettleAsks, SettledAt, settled_by, settled_none};

pub mod joining;

use bodies::terms::Sign;
use joining::Area;
use merging::{Merged, Pass};

// A settled body: where its atoms stand, in how many words, and how many they are; where its bindings stand, three words each, and how
// many they are, one for each replacement; and the passes.
#[derive(Clone, Copy)]
pub struct Settled {
    pub at: usize,
    pub words: usize,
    pub atoms: usize,
    pub binds: usize,
    pub replacements: usize,
    pub passes: usize,
}

impl Settled {
    // What a body without atoms settles to: nothing stands anywhere, and one pass finds that.
    fn nothing(at: usize) -> Settled
        ensures { result ≡ settled_none at }
    {
        Settled {
            at,
            words: 0,
            atoms: 0,
            binds: at,
            replacements: 0,
            passes: 1,
        }
    }

    // What the last of so many passes settles: the atoms that it kept stand at `body`, and the bindings from `binds` to `end`.
    fn kept_by(t: Merged, body: usize, binds: usize, end: usize, passes: usize) -> Settled
        requires { binds ≤ end }
        ensures { result ≡ settled_by t body binds end passes }
    {
        Settled {
            at: body,
            words: t.kept,
            atoms: t.atoms,
            binds,
            replacements: (end - binds) / 3,
            passes,
        }
    }
}

// Settles the atoms in the n words at `at`, with 8n + 3 words from there on to work in.
pub fn settle(s: &mut [u8], at: usize, n: usize, q: Sign) -> Settled
    requires { SettleAsks (words s.old) at n }
    ensures { (g : Sig) (xs : List Atom) → Agrees q g → BodyAt xs (words s.old) at n
        → SettledAt g xs (words s.old) (words s.new) at n result }
{
    if n == 0 {
        return Settled::nothing(at);
    }
    let links = at + 2 * n;
    let body = at + 4 * n + 1;
    let table = at + 6 * n + 1;
    let end = at + 8 * n + 3;
    let mut c = canonicalize::canonicalize(s, at, n, body, end, q);
    let mut passes = 0;
    // Passes are counted by hand: a range of them would have an end that is never reached, with an answer of its own.
    loop {
        let pass = Pass {
            from: body,
            n: c.words,
            eqs: at,
            links,
            table,
        };
        let t = pass.merge(s);
        passes += 1;
        if t.eqs == 0 {
            return Settled::kept_by(t, body, c.binds, end, passes);
        }
        let area = Area {
            body,
            k: t.kept,
            to: links,
            d: c.binds,
            sign: q,
        };
        c = area.canonicalize_again(s, at, t.eqs);
    }
}
