// The call of lowering: a written rule tested, lowered and settled, the source's `to_canonicalized_core_rule`, and written to the output.
#![tactic(auto)]

ghost use Rattle.std.specs.Prelude.{length};
ghost use Rattle.octets.specs.Words.{words};
ghost use Rattle.rules.specs.Calls.{lower};
ghost use Rattle.answers.specs.Answers.{answered, GivesBoth, scratch_written, Beyond};
ghost use Rattle.lower_call.specs.Lower.{LowerAsks, LowersRead};

use answers::fronts::written_front;
use answers::{Answer, Counts, whole_words};
use bodies::terms::Sign;
use emitting::Actions;
use refusals::{Reason, Refusal};
use signature::Signature;

// The bytes of scratch that are lent on for each word of the rule: 32 words.
const LENT: usize = 128;

// Lowers a rule that was read, settles it and writes it. Where the output has no room the counters are taken back, since only an accepted call uses them.
fn lower_good(
    signature: &[u8],
    rule: &[u8],
    sign: Signature,
    counters: &mut [u8],
    output: &mut [u8],
    scratch: &mut [u8],
) -> Result<Counts, Refusal>
    requires { LowerAsks (words signature.now) (words rule.now) sign (words counters.old) (length (words scratch.old)) }
    ensures { LowersRead (words signature.now) (words rule.now) sign (words counters.old)
        (words counters.new) output.old output.new result }
{
    let n = octets::count(rule);
    let core = lowering::to_core_rule(signature, rule, counters, scratch)?;
    // No `From`, which could ask for nothing: were the bounds kept in `Signature`, its definition `sign_of` would need a proof of them for each `Sig`.
    let terms = Sign {
        globals: sign.globals,
        equals: sign.equals,
    };
    let body = settling::settle(scratch, 0, core.body, terms);
    let head = Actions {
        words: octets::part(scratch, lowering::HEAD_AT * n, core.head),
        count: core.actions,
    };
    let words = emitting::finish(output, scratch, body, head);
    if octets::count(output) < words {
        let log = octets::part(scratch, lowering::LOG_AT * n, core.log);
        walks::restore(counters, log);
    }
    Ok(Counts {
        words,
        replacements: body.replacements,
        passes: body.passes,
    })
}

// The call, before its outcome becomes an answer. The scratch is cut before it is lent on, so that nothing behind the cut can be read or written.
fn lower_or_refuse(
    signature: &[u8],
    rule: &[u8],
    counters: &mut [u8],
    output: &mut [u8],
    scratch: &mut [u8],
) -> Result<Counts, Refusal>
    ensures gives_both { GivesBoth
        (lower signature.now rule.now counters.old output.old (length scratch.old))
        (answered result) output.new counters.new }
    ensures beyond { Beyond (scratch_written rule.now) scratch.old scratch.new }
{
    let lengths = [
        signature.len(),
        rule.len(),
        counters.len(),
        output.len(),
        scratch.len(),
    ];
    if !whole_words(&lengths) {
        return Err(Reason::Ragged.at(0));
    }
    let many = octets::count(counters);
    let room = octets::count(scratch);
    let sign = written_front(signature, rule, many, room)?;
    let size = octets::count(rule);
    let lent = &mut scratch[..LENT * size];
    let counts = lower_good(signature, rule, sign, counters, output, lent)?;
    counts.within(octets::count(output))
}

// A written rule, lowered and settled.
pub fn lower_bytes(
    signature: &[u8],
    rule: &[u8],
    counters: &mut [u8],
    output: &mut [u8],
    scratch: &mut [u8],
) -> Answer
    ensures gives_both { GivesBoth
        (lower signature.now rule.now counters.old output.old (length scratch.old))
        result output.new counters.new }
    ensures beyond { Beyond (scratch_written rule.now) scratch.old scratch.new }
{
    Answer::from(lower_or_refuse(signature, rule, counters, output, scratch))
}
