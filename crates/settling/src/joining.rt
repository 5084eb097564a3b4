// The equalities of a pass, canonicalized in front of the atoms that it kept. They stand in groups, and the atoms apart from them, so that a
// replacement runs over what is left of the groups and over the atoms.
ghost use Rattle.std.specs.Prelude.{◌≡◌, List, map, ◌++◌, ◌+◌, ◌≤◌, length};
ghost use Rattle.octets.specs.Words.{words};
ghost use Rattle.octets.specs.Regions.{part, splice, swap};
ghost use Rattle.rules.specs.Flat.{tab};
ghost use Rattle.bodies.specs.Terms.{sig};
ghost use Rattle.bodies.specs.Standing.{tabs_in};
ghost use Rattle.canonicalize.specs.Canonicalize.{CanonicalAt};
ghost use Rattle.merging.specs.RemoveDupVars.{Group, all_eqns, GroupsAt};
ghost use Rattle.settling.specs.Joining.{JoinOneAsks, JoinedOne, JoinGroupAsks, JoinedGroup, JoinedAll, AgainAsks};

use bodies::terms::Sign;
use canonicalize::{Canonical, Replacement, replacement_of, resolve_terms};
use words::LET;

// Where joining works, apart from the groups, and by which signature: the k words of atoms stand at `body`, what becomes of equalities is written at `to`,
// and a replacement is bound before d. These are places in one scratch, as the groups have too: cut by `split_at_mut` it would be four slices with a place
// in each, cut anew for each pass, since the regions change their use (src/lib.rt says which): no plainer.
#[derive(Clone, Copy)]
pub struct Area {
    pub body: usize,
    pub k: usize,
    pub to: usize,
    pub d: usize,
    pub sign: Sign,
}

// Makes a replacement in the n words at p. Most often its old term is not there, and a loop that only reads is the faster one.
fn replace_met(s: &mut [u8], p: usize, n: usize, r: Replacement)
    requires { p + n ≤ length (words s.old) }
    ensures { words s.new ≡ splice (words s.old) p (map (swap r.old r.new) (part (words s.old) p n)) }
{
    if octets::regions::among(octets::part(s, p, n), r.old) {
        octets::regions::replace(s, p, n, r.old, r.new);
    }
}

// What is left of an equality that was canonicalized: what its left term became, how many words were written, and where the bindings begin.
#[derive(Clone, Copy)]
pub struct Joined {
    pub left: u32,
    pub words: usize,
    pub binds: usize,
}

impl Area {
    // The equality of `left` and the term at p, with n words of groups behind it. If it asks for a replacement, that is made in them and in the atoms, and
    // bound; else what becomes of it is written.
    fn join_one(self, s: &mut [u8], left: u32, p: usize, n: usize) -> Joined
        requires { JoinOneAsks (sig self.sign) (words s.old) left p n self }
        ensures { JoinedOne (sig self.sign) (words s.old) (words s.new) left p n self result }
    {
        let right = octets::get(s, p);
        let Some(asked) = replacement_of(self.sign, left, right) else {
            let words = resolve_terms(s, self.to, left, right, self.sign);
            return Joined {
                left,
                words,
                binds: self.d,
            };
        };
        replace_met(s, p + 1, n, asked);
        octets::regions::replace(s, self.body, self.k, asked.old, asked.new);
        octets::rows::put_all(s, self.d - 3, &[LET, asked.old, asked.new]);
        let now = if asked.old == left { asked.new } else { left };
        Joined {
            left: now,
            words: 0,
            binds: self.d - 3,
        }
    }

    // The equalities of `left` and each of the m terms at p, with n words of groups from p on.
    fn join_group(self, s: &mut [u8], left: u32, p: usize, m: usize, n: usize) -> Joined
        requires { JoinGroupAsks (words s.old) left p m n self }
        ensures { JoinedGroup (sig self.sign) (words s.old) (words s.new) left p m n self result }
    {
        let mut t = Joined {
            left,
            words: 0,
            binds: self.d,
        };
        for i in 0..m {
            let free = Area {
                to: self.to + t.words,
                d: t.binds,
                ..self
            };
            let one = free.join_one(s, t.left, p + i, n - i - 1);
            t = Joined {
                words: t.words + one.words,
                ..one
            };
        }
        t
    }

    // The groups in the e words at `at`, one after the other.
    fn join_all(self, s: &mut [u8], at: usize, e: usize) -> Canonical
        requires { AgainAsks (words s.old) at e self }
        ensures { JoinedAll (sig self.sign) (words s.old) (words s.new) at e self result }
    {
        let mut i = 0;
        let mut t = Canonical {
            words: 0,
            binds: self.d,
        };
        // No iterator over the groups, which would hold the words that are written, and no closure: a step changes the scratch that tells where it ends.
        while i < e {
            let left = octets::get(s, at + i);
            let m = octets::get(s, at + i + 1) as usize;
            let free = Area {
                to: self.to + t.words,
                d: t.binds,
                ..self
            };
            let one = free.join_group(s, left, at + i + 2, m, e - i - 2);
            t = Canonical {
                words: t.words + one.words,
                binds: one.binds,
            };
            i += m + 2;
        }
        t
    }

    // Canonicalizes the equalities of the groups in the e words at `at`, in front of the atoms. If anything becomes of the equalities, the atoms are put
    // behind it, and all of it is brought back to `body`.
    pub fn canonicalize_again(self, s: &mut [u8], at: usize, e: usize) -> Canonical
        requires { AgainAsks (words s.old) at e self }
        ensures { (gs : List Group) → GroupsAt gs (words s.old) at e
            → CanonicalAt (sig self.sign) (all_eqns gs ++ map tab (tabs_in (words s.old) self.body self.k))
            (words s.old) (words s.new) at self.body self.d result }
    {
        let t = self.join_all(s, at, e);
        let v = t.words;
        if v == 0 {
            return Canonical {
                words: self.k,
                binds: t.binds,
            };
        }
        octets::regions::carry(s, self.to + v, self.body, self.k);
        octets::regions::carry(s, self.body, self.to, v + self.k);
        Canonical {
            words: v + self.k,
            binds: t.binds,
        }
    }
}
