// The archive: the calls of `tulgarent` under the C names and with the contracts that they have there. include/tulgarent.h declares them to C.
#![tactic(auto)]

ghost use Rattle.std.specs.Prelude.{length};
ghost use Rattle.rules.specs.Calls.{lower, settled, free_vars};
ghost use Rattle.answers.specs.Answers.{Gives, GivesBoth, scratch_written, scratch_flat, Beyond};

use answers::Answer;

// A written rule, lowered and settled.
#[unsafe(no_mangle)]
pub extern "C" fn tulgarent_lower(
    signature: &[u8],
    rule: &[u8],
    counters: &mut [u8],
    output: &mut [u8],
    scratch: &mut [u8],
) -> Answer
    ensures gives_both { GivesBoth
        (lower signature.now rule.now counters.old output.old (length scratch.old))
        result output.new counters.new }
    ensures beyond { Beyond (scratch_written rule.now) scratch.old scratch.new }
{
    tulgarent::tulgarent_lower(signature, rule, counters, output, scratch)
}

// A flat rule settled: variables that must be equal are one, and no two atoms of a head have the same inputs.
#[unsafe(no_mangle)]
pub extern "C" fn tulgarent_settle(
    signature: &[u8],
    rule: &[u8],
    output: &mut [u8],
    scratch: &mut [u8],
) -> Answer
    ensures gives { Gives
        (settled signature.now rule.now output.old (length scratch.old))
        result output.new }
    ensures beyond { Beyond (scratch_flat rule.now) scratch.old scratch.new }
{
    tulgarent::tulgarent_settle(signature, rule, output, scratch)
}

// The free variables of a flat rule's head, in ascending word order.
#[unsafe(no_mangle)]
pub extern "C" fn tulgarent_free_vars(signature: &[u8], rule: &[u8], output: &mut [u8]) -> Answer
    ensures { Gives (free_vars signature.now rule.now output.old) result output.new }
{
    tulgarent::tulgarent_free_vars(signature, rule, output)
}
