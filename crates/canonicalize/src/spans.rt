// Spans: where in a body a term may stand, so that a replacement runs only there. Words fall into buckets, and a table says of each bucket a
// place that none of its words stands before, and one that all of them stand before.
//
// The table has 2 * count words: the lower places, then the upper ones. One bucket, whose span is the whole body, makes every replacement run
// over the whole body: that is best for a short one, or for few equalities.
ghost use Rattle.std.specs.Prelude.{◌≡◌, map, ◌+◌, ◌-◌, ◌≤◌, length};
ghost use Rattle.octets.specs.Words.{words};
ghost use Rattle.octets.specs.Regions.{part, splice, swap};
ghost use Rattle.bodies.specs.Standing.{atoms_in, AtomsAt, Body};
ghost use Rattle.canonicalize.specs.Spans.{equations_in, Spanned, SpanAsks, Built, WidenAsks, widened, Replacing};

use crate::Replacement;
use bodies::atoms::{Atoms, is_equality};
use bodies::buckets::{bucket, fill};

// A body has more words than this, and more equalities, before a table pays.
const LONG: usize = 128;

const MANY: usize = 16;

// How many equalities there are among the atoms of a body.
fn equalities(body: &[u8]) -> usize
    requires { Body (words body.now) }
    ensures { result ≡ equations_in (atoms_in (words body.now) 0 (length (words body.now))) }
{
    Atoms { left: body }
        .filter(|atom| is_equality(*atom))
        .count()
}

// Where a table of spans stands, and how many buckets it has. A place in the scratch that the body stands in too: cut by `split_at_mut` it would be two
// slices, each with a place in it, and both handed to every step: no plainer.
#[derive(Clone, Copy)]
pub struct Table {
    pub at: usize,
    pub count: usize,
}

// One bucket, whose span is the n words at `at`.
fn one_bucket(s: &mut [u8], at: usize, n: usize, table: usize) -> usize
    requires { SpanAsks (words s.old) at n table }
    ensures { Built (words s.old) (words s.new) at n table result }
{
    octets::rows::put_all(s, table, &[at as u32, (at + n) as u32]);
    1
}

// As many buckets as words: spans that no word stands in, widened word by word.
fn narrow(s: &mut [u8], at: usize, n: usize, table: usize) -> usize
    requires { SpanAsks (words s.old) at n table }
    ensures { Built (words s.old) (words s.new) at n table result }
{
    fill(s, table, n, (at + n) as u32);
    fill(s, table + n, n, 0);
    let spans = Table {
        at: table,
        count: n,
    };
    for p in at..at + n {
        spans.widen(s, p);
    }
    n
}

// Replaces x by y from `start` to `end`, if there is anything between.
fn replace_between(s: &mut [u8], start: usize, end: usize, x: u32, y: u32)
    requires { end ≤ length (words s.old) }
    ensures { words s.new ≡ splice (words s.old) start (map (swap x y) (part (words s.old) start (end - start))) }
{
    if end <= start {
        return;
    }
    octets::regions::replace(s, start, end - start, x, y);
}

impl Table {
    // Builds the table of the n words at `at` at another place.
    pub fn build(s: &mut [u8], at: usize, n: usize, table: usize) -> Table
        requires atoms_at { AtomsAt (atoms_in (words s.old) at n) (words s.old) at n }
        requires span_asks { SpanAsks (words s.old) at n table }
        ensures place { result.at ≡ table }
        ensures built { Built (words s.old) (words s.new) at n result.at result.count }
    {
        let count = if n < LONG || equalities(octets::part(s, at, n)) < MANY {
            one_bucket(s, at, n, table)
        } else {
            narrow(s, at, n, table)
        };
        Table { at: table, count }
    }

    // Widens the span of the bucket of the word at p, behind which none was met.
    fn widen(self, s: &mut [u8], p: usize)
        requires { WidenAsks (words s.old) p self.at self.count }
        ensures { words s.new ≡ widened (words s.old) p self.at self.count }
    {
        let low = self.at + bucket(octets::get(s, p), self.count);
        let first = octets::get(s, low);
        octets::put(s, low, first.min(p as u32));
        octets::put(s, low + self.count, (p + 1) as u32);
    }

    // Makes a replacement among the n words at `at`, by running over the span of the old term. Then the new one may stand where that did. One bucket has
    // all words in its span already, so there the table is neither asked nor changed.
    pub fn replace(self, s: &mut [u8], at: usize, n: usize, r: Replacement)
        requires { Spanned (words s.old) at n self.at self.count }
        ensures { Replacing (words s.old) (words s.new) at n r.old r.new self.at self.count }
    {
        if self.count == 1 {
            octets::regions::replace(s, at, n, r.old, r.new);
            return;
        }
        let from = self.at + bucket(r.old, self.count);
        let to = self.at + bucket(r.new, self.count);
        let low = octets::get(s, from);
        let high = octets::get(s, from + self.count);
        replace_between(s, at.max(low as usize), high as usize, r.old, r.new);
        let first = octets::get(s, to);
        let end = octets::get(s, to + self.count);
        octets::put(s, to, first.min(low));
        octets::put(s, to + self.count, end.max(high));
    }
}
