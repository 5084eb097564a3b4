// Atoms where they stand. The last of an atom's terms is its output, those before it are its inputs.
ghost use Rattle.std.specs.Prelude.{◌≡◌, ◌+◌, ◌≤◌, length};
ghost use Rattle.octets.specs.Words.{words};
ghost use Rattle.rules.specs.Signature.{same_terms};
ghost use Rattle.rules.specs.RemoveDupVars.{alike};
ghost use Rattle.words.specs.Atom.{BeginsGood};
ghost use Rattle.std.specs.Iterator.{YieldsFirstBy, item_count};
ghost use Rattle.bodies.specs.Standing.{size_at, tab_at, TabAt, Body};
ghost use Rattle.bodies.specs.Shapes.{is_eq, seen, shapes, body_prop};

use crate::terms::same_term;
use words::{Atom, HeadOrEq, good_atom_at};

// How many words the atom at p has.
pub fn size(s: &[u8], p: usize) -> usize
    requires { BeginsGood (words s.now) p }
    ensures { result ≡ size_at (words s.now) p }
{
    let atom = good_atom_at(s, p);
    atom.next - p
}

// The output of the atom at p.
pub fn output(s: &[u8], p: usize) -> u32
    requires { TabAt (words s.now) p }
    ensures { result ≡ (tab_at (words s.now) p).out }
{
    let atom = good_atom_at(s, p);
    octets::get(s, atom.next - 1)
}

// Whether the terms `a` and as many terms `b` are equal, each to each. No `a == b`: `same_term` is the one place that says when two terms are equal.
fn same_terms(a: &[u8], b: &[u8]) -> bool
    requires { length (words a.now) ≡ length (words b.now) }
    ensures { result ≡ same_terms (words a.now) (words b.now) }
{
    for i in 0..octets::count(a) {
        if !same_term(octets::get(a, i), octets::get(b, i)) {
            return false;
        }
    }
    true
}

// Whether the atoms at p and at q are alike in head and inputs: the first words tell of the heads, and that there are as many inputs.
pub fn alike(s: &[u8], p: usize, q: usize) -> bool
    requires tab_at { TabAt (words s.now) p }
    requires tab_at_2 { TabAt (words s.now) q }
    ensures { result ≡ alike (tab_at (words s.now) p) (tab_at (words s.now) q) }
{
    if octets::get(s, p) != octets::get(s, q) {
        return false;
    }
    let first = good_atom_at(s, p);
    let later = good_atom_at(s, q);
    let inputs = first.count as usize - 1;
    same_terms(
        octets::part(s, first.terms, inputs),
        octets::part(s, later.terms, inputs),
    )
}

// Whether an atom is an equality.
pub fn is_equality(atom: Atom) -> bool
    ensures { result ≡ is_eq atom.head }
{
    matches!(atom.head, HeadOrEq::Eq)
}

// The atoms of a body, one by one: what is left of its words. Each is read where the words that are left begin, so that its next place is its size.
#[derive(Clone, Copy)]
pub struct Atoms<'a> {
    pub left: &'a [u8],
    pub ghost good: { Body (words left.now) } by { body_prop (words left.now) },
}

impl Iterator for Atoms<'_> {
    type Item = Atom;

    ghost next_gives = { YieldsFirstBy seen (λ s. shapes (words s.left.now)) };

    ghost remaining = { item_count (λ s. shapes (words s.left.now)) };

    fn next(&mut self) -> Option<Atom> {
        let n = octets::count(self.left);
        if n == 0 {
            return None;
        }
        let atom = good_atom_at(self.left, 0);
        self.left = octets::part(self.left, atom.next, n - atom.next);
        Some(atom)
    }
}
