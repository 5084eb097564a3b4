// The source's `canonicalize`: each equality that asks for it has one of its terms replaced by the other throughout the body. Then equalities of
// equal terms go, and others become value-eq of both terms and Unit, in position.
//
// One sweep over the equalities is enough, since none that was passed ever asks again. Those in front of all other atoms are done with as they
// are met, so that their replacements run only over what lies behind them; and a table of spans tells where a term may stand.
#![tactic(auto, using(octets::proofs::Words::length_words))]

ghost use Rattle.std.specs.Prelude.{◌≡◌, ◌+◌, ◌≤◌, length};
ghost use Rattle.octets.specs.Words.{words};
ghost use Rattle.octets.specs.Regions.{splice};
ghost use Rattle.rules.specs.Signature.{is_var, same_term};
ghost use Rattle.rules.specs.Canonicalize.{replacement_of};
ghost use Rattle.bodies.specs.Terms.{sig};
ghost use Rattle.bodies.specs.Standing.{atoms_in, Body};
ghost use Rattle.canonicalize.specs.Canonicalize.{asked_of, ask_at, place_of, StepAsks, Stepped, ReplaceAsks, Replaced};
ghost use Rattle.canonicalize.specs.Canonicalize.{resolve_terms, resolve_at, ResolveOneAsks, Runs, ResolveAsks, Resolved};
ghost use Rattle.canonicalize.specs.Canonicalize.{FrontOneAsks, FrontOne, FrontAsks, Fronted, CanonicalizeAsks, CanonicalAt};

pub mod spans; // spans.rt: where in a body a term may stand

use bodies::atoms::{Atoms, is_equality};
use bodies::terms::{Sign, same_term};
use spans::Table;
use words::{
    HEAD_BASE, HeadOrEq, LET, LIMIT_16, Term, UNIT, good_atom_at, good_term_of, past_equality,
};

// One term, which another replaces throughout a body.
#[derive(Clone, Copy)]
pub struct Replacement {
    pub old: u32,
    pub new: u32,
}

// What an equality of two terms asks for: the left one if it is a variable, else the right one, is replaced by the other.
pub fn replacement_of(q: Sign, a: u32, b: u32) -> Option<Replacement>
    ensures { result ≡ asked_of (replacement_of (same_term a b) (is_var (sig q) a) (is_var (sig q) b) a b) }
{
    if same_term(a, b) {
        return None;
    }
    if let Term::Var(old) = good_term_of(a, q.globals) {
        return Some(Replacement { old, new: b });
    }
    if let Term::Var(old) = good_term_of(b, q.globals) {
        return Some(Replacement { old, new: a });
    }
    None
}

// Writes at `to` what becomes of an equality of a and b that asks for nothing: value-eq of both and Unit, or nothing if they are equal. Returns
// how many words that are.
pub fn resolve_terms(s: &mut [u8], to: usize, a: u32, b: u32, q: Sign) -> usize
    requires { to + length (resolve_terms (same_term a b) (sig q) a b) ≤ length (words s.old) }
    ensures { (result ≡ length (resolve_terms (same_term a b) (sig q) a b))
        × (words s.new ≡ splice (words s.old) to (resolve_terms (same_term a b) (sig q) a b)) }
{
    if same_term(a, b) {
        return 0;
    }
    octets::rows::put_all(s, to, &[HEAD_BASE + q.equals * LIMIT_16 + 3, a, b, UNIT]);
    4
}

// Writes at `to` what becomes of the equality at p. Returns how many words that are.
fn resolve_one(s: &mut [u8], p: usize, to: usize, q: Sign) -> usize
    requires { ResolveOneAsks (sig q) (words s.old) p to }
    ensures { (result ≡ length (resolve_at (sig q) (words s.old) p))
        × (words s.new ≡ splice (words s.old) to (resolve_at (sig q) (words s.old) p)) }
{
    let atom = good_atom_at(s, p);
    let a = octets::get(s, atom.terms);
    let b = octets::get(s, atom.terms + 1);
    resolve_terms(s, to, a, b, q)
}

// How many words of a body are those of equalities in front of all other atoms, or of other atoms in front of all equalities.
fn run(body: &[u8], equalities: bool) -> usize
    requires { Body (words body.now) }
    ensures { Runs equalities (words body.now) 0 (length (words body.now)) result }
{
    Atoms { left: body }
        .take_while(|atom| is_equality(*atom) == equalities)
        .map(|atom| atom.next)
        .sum()
}

// Resolves the atoms in the n words at `from`, writing at `to`, which lies beyond them. Those that are no equalities stay as they are, so they
// are carried in runs. Returns how many words are written. By places in one scratch, as the steps of a sweep below.
fn resolve(s: &mut [u8], from: usize, n: usize, to: usize, q: Sign) -> usize
    requires { ResolveAsks (sig q) (words s.old) from n to }
    ensures { Resolved (sig q) (words s.old) (words s.new) from n to result }
{
    let mut i = 0;
    let mut k = 0;
    // No iterator over the atoms: those that are no equalities are carried in runs, so that the walk goes by runs and not by atoms.
    while i < n {
        let start = from + i;
        let r = run(octets::part(s, start, n - i), false);
        octets::regions::carry(s, to + k, start, r);
        i += r;
        k += r;
        if i == n {
            return k;
        }
        let p = from + i;
        let free = to + k;
        k += resolve_one(s, p, free, q);
        i = past_equality(p) - from;
    }
    k
}

// What canonicalize leaves: how many words the atoms have, and where the bindings begin.
#[derive(Clone, Copy)]
pub struct Canonical {
    pub words: usize,
    pub binds: usize,
}

// What a sweep over a body goes by: where terms may stand in it, and the signature. Its steps take one scratch, and places and counts in it: cut by
// `split_at_mut` it would be four slices, of the body, its table, what becomes of it and the bindings, each with a place in it: no plainer.
#[derive(Clone, Copy)]
struct Sweep {
    spans: Table,
    sign: Sign,
}

impl Sweep {
    // If the atom at p asks for a replacement, it is made in the n words at `at`, and its binding is put before those at d. Returns where that
    // stands, if it was put.
    fn replace_step(self, s: &mut [u8], at: usize, n: usize, p: usize, d: usize) -> Option<usize>
        requires { StepAsks (words s.old) at n p d self.spans.at self.spans.count }
        ensures { (result ≡ place_of (ask_at (sig self.sign) (words s.old) p) d)
            × Stepped (ask_at (sig self.sign) (words s.old) p) (words s.old) (words s.new) at n d self.spans.at self.spans.count }
    {
        let atom = good_atom_at(s, p);
        let HeadOrEq::Eq = atom.head else {
            return None;
        };
        let a = octets::get(s, atom.terms);
        let b = octets::get(s, atom.terms + 1);
        let asked = replacement_of(self.sign, a, b)?;
        self.spans.replace(s, at, n, asked);
        octets::rows::put_all(s, d - 3, &[LET, asked.old, asked.new]);
        Some(d - 3)
    }

    // Makes all replacements that the atoms in the n words at `at` ask for. The bindings go before d, the last one first. Returns where they
    // begin.
    fn replace_all(self, s: &mut [u8], at: usize, n: usize, d: usize) -> usize
        requires { ReplaceAsks (words s.old) at n d self.spans.at self.spans.count }
        ensures { Replaced (sig self.sign) (words s.old) (words s.new) at n d self.spans.at self.spans.count result }
    {
        let end = at + n;
        let mut p = at;
        let mut e = d;
        // No iterator over the atoms, which would hold the words that a replacement writes.
        while p < end {
            let atom = good_atom_at(s, p);
            e = self.replace_step(s, at, n, p, e).unwrap_or(e);
            p = atom.next;
        }
        e
    }

    // An equality at p, in front of what is left of a body, with n words from it to the end. If it asks for a replacement, that is made behind
    // it, and it goes; else what becomes of it is written at `to`.
    fn front_one(self, s: &mut [u8], p: usize, n: usize, to: usize, d: usize) -> Canonical
        requires { FrontOneAsks (sig self.sign) (words s.old) p n to d self.spans.at self.spans.count }
        ensures { FrontOne (sig self.sign) (words s.old) (words s.new) p n to d self.spans.at self.spans.count result }
    {
        let next = past_equality(p);
        if let Some(binds) = self.replace_step(s, next, n - (next - p), p, d) {
            return Canonical { words: 0, binds };
        }
        let k = resolve_one(s, p, to, self.sign);
        Canonical { words: k, binds: d }
    }

    // Canonicalizes the equalities in the e words at `at`, with other atoms in the k words behind them, where their replacements are made. What
    // becomes of the equalities is written at `to`, the bindings before d.
    fn canonicalize_front(
        self,
        s: &mut [u8],
        at: usize,
        e: usize,
        k: usize,
        to: usize,
        d: usize,
    ) -> Canonical
        requires { FrontAsks (words s.old) at e k to d self.spans.at self.spans.count }
        ensures { Fronted (sig self.sign) (atoms_in (words s.old) at e) (atoms_in (words s.old) (at + e) k)
            (words s.old) (words s.new) at e k to d self.spans.at self.spans.count result }
    {
        let mut t = Canonical { words: 0, binds: d };
        for i in (0..e).step_by(past_equality(0)) {
            let one = self.front_one(s, at + i, e - i + k, to + t.words, t.binds);
            t = Canonical {
                words: t.words + one.words,
                ..one
            };
        }
        t
    }
}

// Canonicalizes the atoms in the n words at `at`, with a table of spans in the 2 n words behind them. Those that it leaves are written at `to`,
// the bindings before d.
pub fn canonicalize(s: &mut [u8], at: usize, n: usize, to: usize, d: usize, q: Sign) -> Canonical
    requires { CanonicalizeAsks (words s.old) at n to d }
    ensures { CanonicalAt (sig q) (atoms_in (words s.old) at n) (words s.old) (words s.new) at to d result }
{
    let spans = Table::build(s, at, n, at + n);
    let sweep = Sweep { spans, sign: q };
    let e = run(octets::part(s, at, n), true);
    let t = sweep.canonicalize_front(s, at, e, n - e, to, d);
    let binds = sweep.replace_all(s, at + e, n - e, t.binds);
    let words = t.words + resolve(s, at + e, n - e, to + t.words, q);
    Canonical { words, binds }
}
