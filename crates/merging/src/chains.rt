// Chains: each atom of a pass is linked to the next one in its bucket, so that what is alike to an atom is found behind it by following links.
//
// A link is 1 + the offset of an atom in the body, or 0 for none. The link of the atom at offset i is the word at links + i + 1, and the word
// behind it is its mark, 0 at first. The word at `links` itself stands for the last atom of an empty bucket, so that linking has no branch.
// Links and buckets are words of the scratch, since there is no memory but what is lent.
ghost use Rattle.std.specs.Prelude.{◌+◌, ◌≡◌, ◌<◌, length, get_or};
ghost use Rattle.octets.specs.Words.{words};
ghost use Rattle.bodies.specs.Standing.{size_at};
ghost use Rattle.merging.specs.Chains.{link_of, LinkOneAsks, LinkedOne, LinkAsks, Linked};

use crate::Pass;
use bodies::atoms::size;
use bodies::buckets;

// The offset of the atom that the link at a place leads to, if it leads to any.
pub fn linked(s: &[u8], at: usize) -> Option<usize>
    requires { at < length (words s.now) }
    ensures { link_of result ≡ get_or (words s.now) at 0 }
{
    (octets::get(s, at) as usize).checked_sub(1)
}

impl Pass {
    // Links the atom at offset i, with so many buckets: the last one before it in its bucket leads to it, and it is the last one now. Returns its size.
    fn link_one(self, s: &mut [u8], i: usize, count: usize) -> usize
        requires { LinkOneAsks (words s.old) self.from i self.links self.table count }
        ensures { (result ≡ size_at (words s.old) (self.from + i))
            × LinkedOne (words s.old) (words s.new) self.from i self.links self.table count }
    {
        let z = size(s, self.from + i);
        let key = buckets::key(octets::part(s, self.from + i, z - 1));
        let bucket = self.table + buckets::bucket(key, count);
        let last = octets::get(s, bucket) as usize;
        octets::put(s, self.links + last, (i + 1) as u32);
        octets::rows::put_all(s, self.links + i + 1, &[0, 0]);
        octets::put(s, bucket, (i + 1) as u32);
        z
    }

    // Links the atoms, with so many buckets.
    pub fn link(self, s: &mut [u8], count: usize)
        requires { LinkAsks (words s.old) self.from self.n self.links self.table count }
        ensures { Linked (words s.old) (words s.new) self.from self.n self.links self.table count }
    {
        buckets::fill(s, self.table, count, 0);
        let mut i = 0;
        // No iterator over the atoms, which would hold the scratch that a step writes; and a step takes the atom's offset, the place of its link.
        while i < self.n {
            i += self.link_one(s, i, count);
        }
    }
}
