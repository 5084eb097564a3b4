// The tests in front of the work, in the order of 01, "Turned back". They give the signature, or the first refusal. There are two rows of them: lowering tests
// the counters too, and reads another record, so that one row for both would be told by a switch which tests to make.
ghost use Rattle.std.specs.Prelude.{◌≡◌};
ghost use Rattle.octets.specs.Words.{words};
ghost use Rattle.refusals.specs.Numbers.{said, told};
ghost use Rattle.signature.specs.Signature.{sign_of};
ghost use Rattle.answers.specs.Fronts.{sizes_fit, flat_front, written_front};

use refusals::{Reason, Refusal};
use signature::Signature;

// The words of scratch that settling and lowering ask for.
pub const SCRATCH_WORDS: usize = 16384;

// The tests of the scratch and of the rule's length.
fn sizes(rule: &[u8], most: usize, scratch: usize) -> Result<(), Refusal>
    ensures { said result ≡ sizes_fit most (words rule.now) scratch }
{
    if scratch < SCRATCH_WORDS {
        return Err(Reason::SmallScratch.at(0));
    }
    records::length_fits(rule, most)?;
    Ok(())
}

// The tests in front of settling and of free variables: signature, scratch, length, record.
pub fn flat_front(signature: &[u8], rule: &[u8], scratch: usize) -> Result<Signature, Refusal>
    ensures { said result ≡ told sign_of (flat_front (words signature.now) (words rule.now) scratch) }
{
    let sign = signature::read(signature)?;
    sizes(rule, records::MAX_FLAT, scratch)?;
    records::flat(rule, sign.heads, sign.globals)?;
    Ok(sign)
}

// The tests in front of lowering: signature, counters, scratch, length, record.
pub fn written_front(
    signature: &[u8],
    rule: &[u8],
    counters: usize,
    scratch: usize,
) -> Result<Signature, Refusal>
    ensures { said result ≡ told sign_of (written_front (words signature.now) (words rule.now) counters scratch) }
{
    let sign = signature::read(signature)?;
    if counters < sign.heads as usize {
        return Err(Reason::FewCounters.at(0));
    }
    sizes(rule, records::MAX_WRITTEN, scratch)?;
    records::written(rule, sign.heads)?;
    Ok(sign)
}
