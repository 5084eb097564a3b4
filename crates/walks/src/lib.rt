// What the two walks of lowering share: fresh variables are taken from the counters in place, and each use is logged, so that a refusal can
// put the counters back. Literals and names in front of a row go past the walk over each.
#![tactic(auto)]

ghost use Rattle.std.specs.Prelude.{◌≡◌, ℕ, ◌+◌, ◌<◌, ◌≤◌, length};
ghost use Rattle.octets.specs.Words.{words};
ghost use Rattle.octets.specs.Regions.{splice, part};
ghost use Rattle.rules.specs.Words.{limit12};
ghost use Rattle.rules.specs.ToQuery.{fresh};
ghost use Rattle.walks.specs.Log.{Taken, undone};
ghost use Rattle.walks.specs.Leaves.{leaves_up_to};
ghost use Rattle.walks.specs.Steps.{tops_at};

use refusals::{Reason, Refusal};

// Where a walk goes on: the places of the next word written, the next term on the stack and the next use of a counter. They lie in one scratch,
// which stays a parameter beside them, as the counters do: a struct that held both would need a clause for each in every contract.
#[derive(Clone, Copy)]
pub struct Tops {
    pub to: usize,
    pub sp: usize,
    pub log: usize,
}

// The answer of a walk: the places behind what was read, behind what was written and behind what was logged, and the term of an expression. Of a row it
// is 0: one type serves both, so that what a walk leaves is one definition (`Walked`), and no walk over an expression takes its term out of an `Option`.
#[derive(Clone, Copy)]
pub struct Walk {
    pub next: usize,
    pub to: usize,
    pub log: usize,
    pub term: u32,
}

// A walk that is refused, and the end of the log, by which the counters are put back.
#[derive(Clone, Copy)]
pub struct Stopped {
    pub refusal: Refusal,
    pub log: usize,
}

impl Walk {
    // Where a walk behind this one goes on, with the stack up to sp.
    pub fn tops(self, sp: usize) -> Tops
        ensures { result ≡ tops_at self sp }
    {
        Tops {
            to: self.to,
            sp,
            log: self.log,
        }
    }
}

// The next fresh variable of the head h, logged at `log`. Where its counter is used up, it is refused at `place`.
pub fn take(
    counters: &mut [u8],
    scratch: &mut [u8],
    log: usize,
    h: u32,
    place: usize,
) -> Result<u32, Stopped>
    requires { (h < limit12) × (h < length (words counters.old)) × (log < length (words scratch.old)) }
    ensures { Taken (fresh place h (words counters.old)) log (words scratch.old) (words counters.old) (words scratch.new) (words counters.new) result }
{
    let c = octets::get(counters, h as usize);
    if words::LIMIT_16 <= c {
        return Err(Stopped {
            refusal: Reason::UsedUp.at(place),
            log,
        });
    }
    let v = words::FRESH_BASE + h * words::LIMIT_16 + c;
    octets::put(counters, h as usize, c + 1);
    octets::put(scratch, log, v);
    Ok(v)
}

// Takes back the uses that are logged. The last one goes first, since a head may have been used more than once.
#[tactic(auto, using(octets::proofs::Words::length_words))]
pub fn restore(counters: &mut [u8], log: &[u8])
    ensures { words counters.new ≡ undone (words log.now) (words counters.old) }
{
    for k in (0..octets::count(log)).rev() {
        let v = octets::get(log, k);
        let h = (v / words::LIMIT_16 % 32768) as usize;
        if h < octets::count(counters) {
            octets::put(counters, h, v % words::LIMIT_16);
        }
    }
}

// Of a row of words, writes those before the first that is no literal or name, or is above `most`, to `to`. Returns how many they are.
#[tactic(auto, using(octets::proofs::Words::length_words))]
pub fn leaves(row: &[u8], most: u32, scratch: &mut [u8], to: usize) -> usize
    requires { to + length (words row.now) ≤ length (words scratch.old) }
    ensures { (result ≡ leaves_up_to most (words row.now))
        × (words scratch.new ≡ splice (words scratch.old) to (part (words row.now) 0 result)) }
{
    let n = octets::count(row);
    for k in 0..n {
        let w = octets::get(row, k);
        if w < words::LITERAL_BASE || most < w {
            return k;
        }
        octets::put(scratch, to + k, w);
    }
    n
}
