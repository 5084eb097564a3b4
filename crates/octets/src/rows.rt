// Writers of short rows: a few words one by one, and rows that end in terms which already stand further on in the same slice. Terms start
// behind the words that are written before them, so that none is lost before it is carried. Each writer answers with the place behind its
// row, where the next one goes. A row takes its terms by place and count, since they lie in the very slice that is written.
ghost use Rattle.std.specs.Prelude.{◌≡◌, ◌∷◌, [], ◌++◌, ◌+◌, ◌≤◌, length};
ghost use Rattle.octets.specs.Words.{words};
ghost use Rattle.octets.specs.Regions.{splice, part};

use crate::put;
use crate::regions::carry;

// Writes the words `ws` at `at`.
#[tactic(auto, using(crate::proofs::Words::length_words))]
pub fn put_all<const N: usize>(buf: &mut [u8], at: usize, ws: &[u32; N]) -> usize
    requires { at + N ≤ length (words buf.old) }
    ensures { (result ≡ at + N) × (words buf.new ≡ splice (words buf.old) at ws.now) }
{
    for (i, w) in ws.iter().enumerate() {
        put(buf, at + i, *w);
    }
    at + N
}

// Writes the words `front` at `at`, and behind them the n words from `from` on.
#[tactic(auto, using(crate::proofs::Words::length_words))]
pub fn put_row<const N: usize>(
    buf: &mut [u8],
    at: usize,
    front: &[u32; N],
    from: usize,
    n: usize,
) -> usize
    requires { (at + N ≤ from) × (from + n ≤ length (words buf.old)) }
    ensures { (result ≡ at + N + n) × (words buf.new ≡ splice (words buf.old) at (front.now ++ part (words buf.old) from n)) }
{
    let end = put_all(buf, at, front);
    carry(buf, end, from, n);
    end + n
}

// Writes an atom at `at`: its head word, the n words from `from` on, and its output.
#[tactic(auto, using(crate::proofs::Words::length_words))]
pub fn put_atom(buf: &mut [u8], at: usize, head: u32, from: usize, n: usize, output: u32) -> usize
    requires { (at + 2 ≤ from) × (from + n ≤ length (words buf.old)) }
    ensures { (result ≡ at + n + 2) × (words buf.new ≡ splice (words buf.old) at (head ∷ (part (words buf.old) from n ++ (output ∷ [])))) }
{
    let end = put_row(buf, at, &[head], from, n);
    put(buf, end, output);
    end + 1
}
