// The signature, read in place: its kinds stay in the bytes. H, G, the value-eq head and the flag are taken by `let .. else`, the
// form that document 01 names for expected words.
#![tactic(auto)]

ghost use Rattle.std.specs.Prelude.{◌≡◌, ◌+◌, ◌-◌, ◌≤◌, length};
ghost use Rattle.octets.specs.Words.{words};
ghost use Rattle.rules.specs.Signature.{read_signature, payload_at};
ghost use Rattle.refusals.specs.Numbers.{said, told};
ghost use Rattle.rules.specs.Words.{signature_base, within};
ghost use Rattle.signature.specs.Signature.{kind_word, sign_of, all_kinds, first_bad, Begins};

use refusals::{Reason, Refusal};
use words::{LIMIT_12, SIGNATURE_BASE, Word, word_at};

// G is at most 4,096, so one of so many numbers.
const GLOBALS: u32 = LIMIT_12 + 1;

// What a head is, in the order of the numbers 0, 1 and 2 that say it.
#[derive(Clone, Copy, Debug, PartialEq, Eq)]
pub enum Kind {
    Function,
    Constructor,
    Primitive,
}

impl Kind {
    // The word that says it. A method, since `u32::from` of a kind would not tell its word from its number.
    pub fn word(self) -> u32
        ensures { result ≡ kind_word self }
    {
        SIGNATURE_BASE + self as u32
    }
}

// H, G, the value-eq head and the union-to-set flag.
#[derive(Clone, Copy)]
pub struct Signature {
    pub heads: u32,
    pub globals: u32,
    pub equals: u32,
    pub flag: bool,
}

// The payload at an index, one of `size` numbers from `low` on; or refusal 1 there.
fn payload_at(signature: &[u8], low: u32, size: u32, at: usize) -> Result<u32, Refusal>
    requires { low + size ≤ signature_base }
    ensures { said result ≡ payload_at (words signature.now) low size at }
{
    let Some(Word::Signature(n)) = word_at(signature, at) else {
        return Err(Reason::BadSignature.at(at));
    };
    if low <= n && n - low < size {
        Ok(n)
    } else {
        Err(Reason::BadSignature.at(at))
    }
}

// A word of kind 7 whose payload is a kind of heads.
fn is_kind(w: u32) -> bool
    ensures { result ≡ within signature_base 3 w }
{
    (Kind::Function.word()..=Kind::Primitive.word()).contains(&w)
}

// All of these words are kinds. No branch depends on a word, so that the loop runs on many words at once.
fn all_kinds(kinds: &[u8]) -> bool
    ensures { result ≡ all_kinds (words kinds.now) (length (words kinds.now)) 0 }
{
    let mut good = true;
    for i in 0..octets::count(kinds) {
        good &= is_kind(octets::get(kinds, i));
    }
    good
}

// The first of these words that is no kind.
fn find_bad(kinds: &[u8]) -> Option<usize>
    ensures { result ≡ first_bad (words kinds.now) (length (words kinds.now)) 0 }
{
    for i in 0..octets::count(kinds) {
        if !is_kind(octets::get(kinds, i)) {
            return Some(i);
        }
    }
    None
}

// The first kind that is bad or missing; by the quick test first, which nearly every signature passes.
#[tactic(auto, using(octets::proofs::Words::length_words))]
fn first_bad(signature: &[u8], end: usize) -> Option<usize>
    requires { (4 ≤ end) × (4 ≤ length (words signature.now)) }
    ensures { result ≡ first_bad (words signature.now) (end - 4) 4 }
{
    let there = octets::count(signature).min(end);
    let kinds = octets::part(signature, 4, there - 4);
    if !all_kinds(kinds) {
        return Some(4 + find_bad(kinds)?);
    }
    if there < end { Some(there) } else { None }
}

// The rest of a signature that begins well: its kinds, then no surplus word; last, value-eq is a primitive.
fn read_kinds(signature: &[u8], begun: Signature) -> Result<Signature, Refusal>
    requires { Begins (words signature.now) begun }
    ensures { said result ≡ told sign_of (read_signature (words signature.now)) }
{
    let end = 4 + begun.heads as usize;
    if let Some(bad) = first_bad(signature, end) {
        return Err(Reason::BadSignature.at(bad));
    }
    if end < octets::count(signature) {
        return Err(Reason::BadSignature.at(end));
    }
    if octets::get(signature, 4 + begun.equals as usize) == Kind::Primitive.word() {
        Ok(begun)
    } else {
        Err(Reason::BadSignature.at(2))
    }
}

// A signature: H, G, the value-eq head, the flag, and the kinds; or refusal 1.
pub fn read(signature: &[u8]) -> Result<Signature, Refusal>
    ensures { said result ≡ told sign_of (read_signature (words signature.now)) }
{
    let heads = payload_at(signature, 1, LIMIT_12, 0)?;
    let globals = payload_at(signature, 0, GLOBALS, 1)?;
    let equals = payload_at(signature, 0, heads, 2)?;
    let flag = payload_at(signature, 0, 2, 3)? == 1;
    read_kinds(
        signature,
        Signature {
            heads,
            globals,
            equals,
            flag,
        },
    )
}
