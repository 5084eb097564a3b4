// Writing a settled rule to the output: header, atoms, bindings, and the actions as they stood. It is written last, and only if there is room for all of it.
#![tactic(auto, using(octets::proofs::Words::length_words))]

ghost use Rattle.std.specs.Prelude.{◌≡◌, List, ◌++◌, length};
ghost use Rattle.octets.specs.Words.{words};
ghost use Rattle.octets.specs.Regions.{splice};
ghost use Rattle.rules.specs.Flat.{CoreAction, encode};
ghost use Rattle.rules.specs.Canonicalize.{bindings};
ghost use Rattle.rules.specs.RemoveDupVars as rules;
ghost use Rattle.free_vars.specs.Head.{WroteIfRoom};
ghost use Rattle.emitting.specs.Emit.{Fits, emitted, Parts, Stand};

use octets::part;
use octets::regions::copy;
use settling::Settled;
use words::{HEADER_BASE, LIMIT_12};

// The actions of a rule's head: their words, and how many actions these are.
#[derive(Clone, Copy)]
pub struct Actions<'a> {
    pub words: &'a [u8],
    pub count: usize,
}

// Copies the three runs behind the header.
fn emit(output: &mut [u8], header: u32, scratch: &[u8], body: Settled, head: Actions)
    requires { Fits body (length (words head.words.now)) (length (words output.old)) (length (words scratch.now)) }
    ensures { words output.new ≡ splice (words output.old) 0
        (emitted header (words scratch.now) body (words head.entry.words.now)) }
{
    let bound = 3 * body.replacements;
    let behind = 1 + body.words;
    octets::put(output, 0, header);
    copy(output, 1, part(scratch, body.at, body.words));
    copy(output, behind, part(scratch, body.binds, bound));
    copy(output, behind + bound, head.words);
}

// Writes a settled body with a head's actions, and answers how many words that takes. If the output has fewer, it is left as it is. No `Option`: the words
// needed are told there too, as the place of the refusal.
pub fn finish(output: &mut [u8], scratch: &[u8], body: Settled, head: Actions) -> usize
    requires { Stand (words scratch.now) body head.count (words head.words.now) }
    ensures { (b : rules.Settled) (xs : List CoreAction)
        → Parts b xs (words scratch.now) body head.entry.count (words head.entry.words.now)
        → WroteIfRoom (encode b.tabs (bindings b.repls ++ xs)) result output.old output.new }
{
    let needed = 1 + body.words + 3 * body.replacements + octets::count(head.words);
    if octets::count(output) < needed {
        return needed;
    }
    let counts = body.atoms * LIMIT_12 as usize + body.replacements + head.count;
    emit(output, HEADER_BASE + counts as u32, scratch, body, head);
    needed
}
