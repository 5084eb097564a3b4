// The call of free variables: a flat rule tested, and the free variables of its head written to the output.
#![tactic(auto)]

ghost use Rattle.rules.specs.Calls.{free_vars};
ghost use Rattle.answers.specs.Answers.{answered, Gives};

use answers::fronts::{SCRATCH_WORDS, flat_front};
use answers::{Answer, Counts, whole_words};
use refusals::{Reason, Refusal};

// The call, before its outcome becomes an answer. No scratch is lent: it is tested as if there were enough.
fn find_or_refuse(signature: &[u8], rule: &[u8], output: &mut [u8]) -> Result<Counts, Refusal>
    ensures { Gives (free_vars signature.now rule.now output.old) (answered result) output.new }
{
    if !whole_words(&[signature.len(), rule.len(), output.len()]) {
        return Err(Reason::Ragged.at(0));
    }
    let sign = flat_front(signature, rule, SCRATCH_WORDS)?;
    let counts = Counts {
        words: free_vars::get_free_vars(rule, sign.globals, output),
        replacements: 0,
        passes: 0,
    };
    counts.within(octets::count(output))
}

// The free variables of a flat rule's head, in ascending word order.
pub fn free_vars_bytes(signature: &[u8], rule: &[u8], output: &mut [u8]) -> Answer
    ensures { Gives (free_vars signature.now rule.now output.old) result output.new }
{
    Answer::from(find_or_refuse(signature, rule, output))
}
