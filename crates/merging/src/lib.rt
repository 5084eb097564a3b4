// Merge passes, the source's `remove_dup_vars`: atoms alike in head and inputs form a group, its first atom stays, and each later output
// unlike the first gives an equality of both.
//
// The equalities of a group are written as its first output, the count of the others, and those: the first one stands once, since every
// equality of the group has it on its left.
#![tactic(auto, using(octets::proofs::Words::length_words))]

ghost use Rattle.std.specs.Prelude.{◌≡◌, ◌+◌, ◌-◌, ◌≤◌, length};
ghost use Rattle.octets.specs.Words.{words};
ghost use Rattle.octets.specs.Regions.{part, splice};
ghost use Rattle.merging.specs.RemoveDupVars.{MemberAsks, Member, GroupAsks, Grouped, MergeOneAsks, MergedOne, MergeAsks, MergedAll, PassAsks, Passed};

pub mod chains; // chains.rt: atoms of one bucket, linked

use bodies::atoms::{alike, output, size};
use bodies::terms::same_term;

// The atom at q, which stands behind that at p: if they are alike, it is marked at `mark`, and its output is written at `to` if it is unlike
// that of p. Returns how many words are written.
fn member(s: &mut [u8], p: usize, q: usize, mark: usize, to: usize) -> usize
    requires { MemberAsks (words s.old) p q mark to }
    ensures { Member (words s.old) (words s.new) p q mark to result }
{
    if !alike(s, p, q) {
        return 0;
    }
    octets::put(s, mark, 1);
    let a = output(s, p);
    let b = output(s, q);
    if same_term(a, b) {
        return 0;
    }
    octets::put(s, to, b);
    1
}

// Where a pass works: over the atoms in the n words at `from`. Their groups are written from `eqs` on, their links at `links`, and the table of buckets at
// `table`. These are places in one scratch: cut by `split_at_mut` it would be four slices with a place in each, cut anew for each pass, since the regions
// change their use (settling/src/lib.rt says which): no plainer.
#[derive(Clone, Copy)]
pub struct Pass {
    pub from: usize,
    pub n: usize,
    pub eqs: usize,
    pub links: usize,
    pub table: usize,
}

// What a pass has done: the words of its groups, the words of the atoms that it keeps, and how many atoms those are.
#[derive(Clone, Copy)]
pub struct Merged {
    pub eqs: usize,
    pub kept: usize,
    pub atoms: usize,
}

// What a pass has done so far, where of the atoms that it keeps only the words that were moved to the front count; and where the run of kept atoms
// starts that stands where it stood.
#[derive(Clone, Copy)]
struct Merging {
    done: Merged,
    start: usize,
}

impl Merging {
    // Ends the run of kept atoms at offset `end` of the words at `from`: it moves down to those that are kept before it. Returns how many words are kept.
    fn end_run(self, s: &mut [u8], from: usize, end: usize) -> usize
        requires { (self.done.kept ≤ self.start) × (self.start ≤ end) × (from + end ≤ length (words s.old)) }
        ensures { (result ≡ self.done.kept + (end - self.start))
            × (words s.new ≡ splice (words s.old) (from + self.done.kept) (part (words s.old) (from + self.start) (end - self.start))) }
    {
        if self.done.kept == self.start {
            return end;
        }
        let run = end - self.start;
        octets::regions::carry(s, from + self.done.kept, from + self.start, run);
        self.done.kept + run
    }
}

impl Pass {
    // The group of the atom at offset i: marks those alike behind it, and writes its equalities at `to`, if it has any. Returns how many words that are.
    fn group(self, s: &mut [u8], i: usize, to: usize) -> usize
        requires { GroupAsks (words s.old) self.from self.n i self.links to }
        ensures { Grouped (words s.old) (words s.new) self.from self.n i self.links to result }
    {
        let first = self.from + i;
        let mut next = chains::linked(s, self.links + i + 1);
        let mut k = 0;
        // Nothing is counted: a link that leads nowhere ends it. An iterator over links would hold the words that each turn writes.
        while let Some(j) = next {
            let later = self.from + j;
            let link = self.links + j + 1;
            let mark = self.links + j + 2;
            let free = to + 2 + k;
            k += member(s, first, later, mark, free);
            next = chains::linked(s, link);
        }
        if k == 0 {
            return 0;
        }
        let left = output(s, first);
        octets::rows::put_all(s, to, &[left, k as u32]);
        k + 2
    }

    // The atom at offset i. If it is marked, an atom before it is alike, and it goes: the run before it ends. Else its group is written behind those
    // before it, and it joins the run.
    fn merge_one(self, s: &mut [u8], i: usize, t: Merging) -> Merging
        requires { MergeOneAsks (words s.old) self.from self.n i self.eqs self.links t }
        ensures { MergedOne (words s.old) (words s.new) self.from self.n i self.eqs self.links t result }
    {
        if octets::get(s, self.links + i + 2) != 0 {
            let z = size(s, self.from + i);
            let kept = t.end_run(s, self.from, i);
            return Merging {
                done: Merged { kept, ..t.done },
                start: i + z,
            };
        }
        let free = self.eqs + t.done.eqs;
        let e = self.group(s, i, free);
        let done = Merged {
            eqs: t.done.eqs + e,
            atoms: t.done.atoms + 1,
            ..t.done
        };
        Merging { done, ..t }
    }

    // The pass over atoms that are linked. Its groups are written, and the atoms that it keeps move down, a run of them at a time: most passes drop few
    // atoms, and where none is dropped none moves.
    fn merge_all(self, s: &mut [u8]) -> Merged
        requires { MergeAsks (words s.old) self.from self.n self.eqs self.links }
        ensures { MergedAll (words s.old) (words s.new) self.from self.n self.eqs self.links result }
    {
        let none = Merged {
            eqs: 0,
            kept: 0,
            atoms: 0,
        };
        let mut t = Merging {
            done: none,
            start: 0,
        };
        let mut i = 0;
        // No iterator over the atoms, which would hold the words that are written, and no closure: a step changes the scratch that tells where it ends.
        while i < self.n {
            let z = size(s, self.from + i);
            t = self.merge_one(s, i, t);
            i += z;
        }
        let kept = t.end_run(s, self.from, self.n);
        Merged { kept, ..t.done }
    }

    // A pass: the atoms are linked, with as many buckets as they have words, and one, since there must be some; and then merged.
    pub fn merge(self, s: &mut [u8]) -> Merged
        requires { PassAsks (words s.old) self.from self.n self.eqs self.links self.table }
        ensures { Passed (words s.old) (words s.new) self.from self.n self.eqs self.table result }
    {
        self.link(s, self.n + 1);
        self.merge_all(s)
    }
}
