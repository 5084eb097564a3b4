// The call of settling: a flat rule tested, its body settled in the scratch, and the settled rule written to the output.
#![tactic(auto)]

ghost use Rattle.std.specs.Prelude.{◌*◌, ◌≤◌, length};
ghost use Rattle.octets.specs.Words.{words};
ghost use Rattle.rules.specs.Signature.{Sig};
ghost use Rattle.rules.specs.Flat.{FlatRule};
ghost use Rattle.rules.specs.Calls.{settled};
ghost use Rattle.answers.specs.Answers.{answered, Gives, scratch_flat, Beyond};
ghost use Rattle.settle_call.specs.Settle.{FlatUnder, SomeFlat, EndedWith};

use answers::fronts::flat_front;
use answers::{Answer, Counts, whole_words};
use bodies::terms::Sign;
use emitting::Actions;
use free_vars::first_action;
use refusals::{Reason, Refusal};
use signature::Signature;
use words::header_word;

// The bytes of scratch that are lent on for each word of the rule: 16 words.
const LENT: usize = 64;

// Settles a rule that is known to be good. The body is settled at the front of the scratch; the actions are copied from where they stand.
fn settle_good(rule: &[u8], sign: Signature, output: &mut [u8], scratch: &mut [u8]) -> Counts
    requires some_flat { SomeFlat (words rule.now) sign }
    requires rule_in_bounds { 16 * length (words rule.now) ≤ length (words scratch.old) }
    ensures { (s : Sig) (f : FlatRule) → FlatUnder (words rule.now) sign s f
        → EndedWith s f result output.old output.new }
{
    let end = first_action(rule);
    let n = end - 1;
    octets::regions::copy(scratch, 0, octets::part(rule, 1, n));
    // No `From`, which could ask for nothing: were the bounds kept in `Signature`, its definition `sign_of` would need a proof of them for each `Sig`.
    let terms = Sign {
        globals: sign.globals,
        equals: sign.equals,
    };
    let body = settling::settle(scratch, 0, n, terms);
    let head = Actions {
        words: octets::part(rule, end, octets::count(rule) - end),
        count: header_word(octets::get(rule, 0)).actions as usize,
    };
    let words = emitting::finish(output, scratch, body, head);
    Counts {
        words,
        replacements: body.replacements,
        passes: body.passes,
    }
}

// The call, before its outcome becomes an answer. The scratch is cut before it is lent on, so that nothing behind the cut can be read or written.
fn settle_or_refuse(
    signature: &[u8],
    rule: &[u8],
    output: &mut [u8],
    scratch: &mut [u8],
) -> Result<Counts, Refusal>
    ensures gives { Gives
        (settled signature.now rule.now output.old (length scratch.old))
        (answered result) output.new }
    ensures beyond { Beyond (scratch_flat rule.now) scratch.old scratch.new }
{
    if !whole_words(&[signature.len(), rule.len(), output.len(), scratch.len()]) {
        return Err(Reason::Ragged.at(0));
    }
    let sign = flat_front(signature, rule, octets::count(scratch))?;
    let n = octets::count(rule);
    let counts = settle_good(rule, sign, output, &mut scratch[..LENT * n]);
    counts.within(octets::count(output))
}

// A flat rule settled: variables that must be equal are one, and no two atoms of a head have the same inputs.
pub fn settle_bytes(signature: &[u8], rule: &[u8], output: &mut [u8], scratch: &mut [u8]) -> Answer
    ensures gives { Gives
        (settled signature.now rule.now output.old (length scratch.old))
        result output.new }
    ensures beyond { Beyond (scratch_flat rule.now) scratch.old scratch.new }
{
    Answer::from(settle_or_refuse(signature, rule, output, scratch))
}
