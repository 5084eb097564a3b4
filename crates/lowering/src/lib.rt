// Lowering a rule without settling it, the source's `to_core_rule`: the body is flattened, then the head lowered under the names that the body
// binds. Fresh variables are taken from the counters in place; a refusal puts the counters back from the log of their uses.
#![tactic(auto)]

ghost use Rattle.std.specs.Prelude.{◌≡◌, length};
ghost use Rattle.octets.specs.Words.{words};
ghost use Rattle.rules.specs.Refusals.{ok};
ghost use Rattle.rules.specs.Signature.{Sig, read_signature};
ghost use Rattle.rules.specs.Written.{Rule, read_written};
ghost use Rattle.rules.specs.ToCoreActions.{to_core_rule};
ghost use Rattle.lowering.specs.Lowered.{Good, Lowers, LowersBoth};

use head_exprs::Reading;
use head_exprs::scope::Scope;
use refusals::Refusal;
use walks::{Stopped, Tops};

// Where the parts of a rule of n words start in the scratch, in steps of n words. The body starts at 0 and has at most 3 n words; settling takes
// 8 words for each of them, so that the head comes 24 n words behind.
pub const HEAD_AT: usize = 24;

const STACK_AT: usize = 28;

pub const LOG_AT: usize = 30;

// The answer: the words of the body and of the head, how many actions these are, and how many uses are logged.
#[derive(Clone, Copy)]
pub struct Lowering {
    pub body: usize,
    pub head: usize,
    pub actions: usize,
    pub log: usize,
}

// Both walks over a rule that was read. Where one is stopped, the counters stay as it left them.
fn lower_both(
    signature: &[u8],
    rule: &[u8],
    counters: &mut [u8],
    scratch: &mut [u8],
) -> Result<Lowering, Stopped>
    requires { Good (words signature.now) (words rule.now) (words counters.old) (length (words scratch.old)) }
    ensures { (sig : Sig) (rl : Rule) → read_signature (words signature.now) ≡ ok sig → read_written sig (words rule.now) ≡ ok rl
        → LowersBoth (to_core_rule sig rl (words counters.old)) (length (words rule.now))
        (words counters.old) (words scratch.new) (words counters.new) result }
{
    let n = octets::count(rule);
    let log = LOG_AT * n;
    let sp = STACK_AT * n;
    let header = words::header_word(octets::get(rule, 0));
    let facts = header.body as usize;
    let body = query::to_query(rule, 1, facts, counters, scratch, Tops { to: 0, sp, log })?;
    // The globals, and the flag where a union asks for it, are read from the bytes: the struct `Signature` beside these would ask callers that the two agree.
    let globals = octets::get(signature, 1) - words::SIGNATURE_BASE;
    let scope = Scope::new(globals, body.to, sp);
    let reading = Reading { rule, scope };
    let actions = header.actions as usize;
    let to = HEAD_AT * n;
    let head = core_actions::to_core_actions(
        signature, &reading, body.next, actions, counters, scratch, to, body.log,
    )?;
    Ok(Lowering {
        body: body.to,
        head: head.to - to,
        actions: head.count,
        log: head.log - log,
    })
}

// Lowers a rule that was read. A refusal takes the uses that are logged back.
pub fn to_core_rule(
    signature: &[u8],
    rule: &[u8],
    counters: &mut [u8],
    scratch: &mut [u8],
) -> Result<Lowering, Refusal>
    requires { Good (words signature.now) (words rule.now) (words counters.old) (length (words scratch.old)) }
    ensures { (sig : Sig) (rl : Rule) → read_signature (words signature.now) ≡ ok sig → read_written sig (words rule.now) ≡ ok rl
        → Lowers (to_core_rule sig rl (words counters.old)) (length (words rule.now))
        (words counters.old) (words scratch.new) (words counters.new) result }
{
    let both = lower_both(signature, rule, counters, scratch);
    if let Err(stopped) = both {
        let log = LOG_AT * octets::count(rule);
        walks::restore(counters, octets::part(scratch, log, stopped.log - log));
    }
    both.map_err(|stopped| stopped.refusal)
}
