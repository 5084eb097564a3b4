// The calls of the key service, over byte slices: four bytes a word, the lowest first. Each runs its tests in the order of 01, "Turned back", and leaves
// output and counters as they were on a refusal. Each is proved in a crate of its own, and named here with the contract that callers read; `tulgarent_c`
// exports them.
#![tactic(auto)]

ghost use Rattle.std.specs.Prelude.{length};
ghost use Rattle.rules.specs.Calls.{lower, settled, free_vars};
ghost use Rattle.answers.specs.Answers.{Gives, GivesBoth, scratch_written, scratch_flat, Beyond};

use answers::Answer;

// A written rule, lowered and settled.
pub fn tulgarent_lower(
    signature: &[u8],
    rule: &[u8],
    counters: &mut [u8],
    output: &mut [u8],
    scratch: &mut [u8],
) -> Answer
    ensures gives_both { GivesBoth
        (lower signature.now rule.now counters.old output.old (length scratch.old))
        result output.new counters.new }
    ensures beyond { Beyond (scratch_written rule.now) scratch.old scratch.new }
{
    lower_call::lower_bytes(signature, rule, counters, output, scratch)
}

// A flat rule settled: variables that must be equal are one, and no two atoms of a head have the same inputs.
pub fn tulgarent_settle(
    signature: &[u8],
    rule: &[u8],
    output: &mut [u8],
    scratch: &mut [u8],
) -> Answer
    ensures gives { Gives
        (settled signature.now rule.now output.old (length scratch.old))
        result output.new }
    ensures beyond { Beyond (scratch_flat rule.now) scratch.old scratch.new }
{
    settle_call::settle_bytes(signature, rule, output, scratch)
}

// The free variables of a flat rule's head, in ascending word order.
pub fn tulgarent_free_vars(signature: &[u8], rule: &[u8], output: &mut [u8]) -> Answer
    ensures { Gives (free_vars signature.now rule.now output.old) result output.new }
{
    free_vars_call::free_vars_bytes(signature, rule, output)
}
