// Regions of words: copy, carry, replace, search. What only reads takes the words themselves, as a slice. `carry` and `replace` take a place
// and a count: the two regions of `carry` may overlap, so that they are no two slices, and callers of `replace` speak of words, and would cut what they lend
// by bytes. A function was tried that lends n words for writing: the clause of what the slice ends as (`Lends`) did not close, since that is proved of a
// field or of all that a call lends, and of no part.
ghost use Rattle.std.specs.Prelude.{◌≡◌, map, ◌+◌, ◌≤◌, length};
ghost use Rattle.octets.specs.Words.{words};
ghost use Rattle.octets.specs.Regions.{splice, part, Clear, swap, elem};

use crate::{count, get, put};

// Writes the words of `src` at `at`. By words and not by std's `copy_from_slice`: of a length that is known only when it runs this calls the C library's
// `memmove`, and the archive asks for no name from outside but `memset`.
#[tactic(auto, using(crate::proofs::Words::length_words))]
pub fn copy(out: &mut [u8], at: usize, src: &[u8])
    requires { at + length (words src.now) ≤ length (words out.old) }
    ensures { words out.new ≡ splice (words out.old) at (words src.now) }
{
    for i in 0..count(src) {
        put(out, at + i, get(src, i));
    }
}

// Writes the n words from `from` on at `to` of the same slice. `to` lies at or below `from`, or beyond those words, since a word must not
// be overwritten before it is read. Not std's `copy_within`, which goes by bytes: for one to three words it takes 1.2 times as long down and 2 times up.
pub fn carry(buf: &mut [u8], to: usize, from: usize, n: usize)
    requires n_in_bounds { (to + n ≤ length (words buf.old)) × (from + n ≤ length (words buf.old)) }
    requires clear { Clear to from n }
    ensures { words buf.new ≡ splice (words buf.old) to (part (words buf.old) from n) }
{
    for i in 0..n {
        let w = get(buf, from + i);
        put(buf, to + i, w);
    }
}

// y for x, and any other word as it is.
fn swapped(x: u32, y: u32, w: u32) -> u32
    ensures { result ≡ swap x y w }
{
    if w == x { y } else { w }
}

// Replaces x by y in the n words from `from` on. Every word is stored, changed or not, so that the loop has no branch and runs on vectors.
pub fn replace(buf: &mut [u8], from: usize, n: usize, x: u32, y: u32)
    requires { from + n ≤ length (words buf.old) }
    ensures { words buf.new ≡ splice (words buf.old) from (map (swap x y) (part (words buf.old) from n)) }
{
    for i in 0..n {
        let at = from + i;
        let w = get(buf, at);
        put(buf, at, swapped(x, y, w));
    }
}

// Whether w is among the words `ws`. Every word is looked at, found or not, so that the loop has no branch and runs on vectors.
#[tactic(auto, using(crate::proofs::Words::length_words))]
pub fn among(ws: &[u8], w: u32) -> bool
    ensures { result ≡ elem w (words ws.now) }
{
    let mut found = false;
    for i in 0..count(ws) {
        found |= w == get(ws, i);
    }
    found
}
