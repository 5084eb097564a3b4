// What a word of a record says. Its kind is the count of its leading zero bits, and the bits after the first one bit are its payload.
#![tactic(auto)]

ghost use Rattle.std.specs.Prelude.{◌≡◌, ◌+◌, ◌^◌, ◌≤◌, ◌<◌, leb, get_or};
ghost use Rattle.octets.specs.Words.{words};
ghost use Rattle.rules.specs.Words.{limit12, header_base, equality_base, head_base, literal_base};
ghost use Rattle.words.specs.Word.{numbers, numbers_of, WordSays, head_word_of, header_of};
ghost use Rattle.words.specs.Atom.{TermSays, HeadSays, laid_out, AtomSays, BeginsAtom, BeginsGood};

// Heads, names, facts, atoms and actions are numbered below LIMIT_12, counts and literals below LIMIT_16.
pub const LIMIT_12: u32 = 4096;

pub const LIMIT_16: u32 = 65536;

// The first word of each kind.
pub const FRESH_BASE: u32 = 0x8000_0000;

pub const NAME_BASE: u32 = 0x4000_0000;

pub const LITERAL_BASE: u32 = 0x2000_0000;

pub const HEAD_BASE: u32 = 0x1000_0000;

const EQUALITY_BASE: u32 = 0x0800_0000;

pub const HEADER_BASE: u32 = 0x0400_0000;

pub const ACTION_BASE: u32 = 0x0200_0000;

pub const SIGNATURE_BASE: u32 = 0x0100_0000;

// The equality of two, and Unit.
pub const EQUALITY: u32 = EQUALITY_BASE + 2;

pub const UNIT: u32 = LITERAL_BASE;

// The actions, by their codes. 7 is a call whose answer is bound.
pub const LET: u32 = ACTION_BASE + 1;

pub const SET: u32 = ACTION_BASE + 2;

pub const UNION: u32 = ACTION_BASE + 5;

pub const PANIC: u32 = ACTION_BASE + 6;

pub const CALL: u32 = ACTION_BASE + 7;

// An expression holds expressions up to 32 deep, itself counted.
pub const MAX_DEPTH: u32 = 32;

// What a word says, by its kind.
#[derive(Clone, Copy)]
pub enum Word {
    // kind 0: a fresh variable, its head and its count
    Fresh(u32, u32),
    // kind 1: a name
    Name(u32),
    // kind 2: a literal
    Literal(u32),
    // kind 3: a head, and how many words or expressions stand under it
    Head(u32, u32),
    // kind 4: an equality and its count
    Equality(u32),
    // kind 5: a rule's header, its facts or atoms and its actions
    Header(u32, u32),
    // kind 6: an action, by its code
    Action(u32),
    // kind 7: a word of a signature
    Signature(u32),
}

// What a word below those of heads says: it is of a kind from 4 to 7, or of none. `word_of` has counted the zeros already, and the compiler makes one jump of both.
fn low_word_of(w: u32) -> Option<Word>
    requires { w < head_base }
    ensures { numbers result ≡ numbers_of w }
{
    let kind = w.leading_zeros();
    match kind {
        4 => Some(Word::Equality(w - EQUALITY_BASE)),
        5 => {
            let p = w - HEADER_BASE;
            if p < LIMIT_12 * LIMIT_12 {
                Some(Word::Header(p / LIMIT_12, p % LIMIT_12))
            } else {
                None
            }
        }
        6 => {
            let code = w - ACTION_BASE;
            match code {
                1..=8 => Some(Word::Action(code)),
                _ => None,
            }
        }
        7 => Some(Word::Signature(w - SIGNATURE_BASE)),
        _ => None,
    }
}

// What a word says: the count of its leading zeros tells the kind, and so where the payload begins. A word of no kind, or with a payload that does not fit its
// kind, says nothing.
fn word_of(w: u32) -> Option<Word>
    ensures { numbers result ≡ numbers_of w }
{
    let kind = w.leading_zeros();
    match kind {
        0 => {
            let p = w - FRESH_BASE;
            Some(Word::Fresh(p / LIMIT_16, p % LIMIT_16))
        }
        1 => {
            let n = w - NAME_BASE;
            if n < LIMIT_12 {
                Some(Word::Name(n))
            } else {
                None
            }
        }
        2 => {
            let n = w - LITERAL_BASE;
            if n < LIMIT_16 {
                Some(Word::Literal(n))
            } else {
                None
            }
        }
        3 => {
            let p = w - HEAD_BASE;
            Some(Word::Head(p / LIMIT_16, p % LIMIT_16))
        }
        _ => low_word_of(w),
    }
}

// What the word at an index says; behind the record's end there is none.
pub fn word_at(rule: &[u8], at: usize) -> Option<Word>
    ensures { WordSays result (words rule.now) at }
{
    if at < octets::count(rule) {
        word_of(octets::get(rule, at))
    } else {
        None
    }
}

// Whether the first word of an expression is a leaf, which is its own term: kinds 0 to 2. Any other is a call's, of kind 3.
pub fn is_leaf(w: u32) -> bool
    ensures { result ≡ leb literal_base w }
{
    w.leading_zeros() < 3
}

// A word of kind 3, taken apart: its head, and how many words or expressions stand under it.
#[derive(Clone, Copy)]
pub struct HeadWord {
    pub head: u32,
    pub count: u32,
}

// What a word of kind 3 says.
pub fn head_word(w: u32) -> HeadWord
    requires { head_base ≤ w }
    ensures { result ≡ head_word_of w }
{
    let p = w - HEAD_BASE;
    HeadWord {
        head: p / LIMIT_16,
        count: p % LIMIT_16,
    }
}

// A header taken apart: how many facts or atoms the body of a rule has, and how many actions its head.
#[derive(Clone, Copy)]
pub struct Header {
    pub body: u32,
    pub actions: u32,
}

// What a word of kind 5, a header, says.
pub fn header_word(w: u32) -> Header
    requires { header_base ≤ w }
    ensures { result ≡ header_of w }
{
    let p = w - HEADER_BASE;
    Header {
        body: p / LIMIT_12,
        actions: p % LIMIT_12,
    }
}

// A term by what it is under a signature with G globals. Each case holds the term's word.
#[derive(Clone, Copy)]
pub enum Term {
    // a fresh variable, or a name from G up
    Var(u32),
    // a name below G
    Global(u32),
    Literal(u32),
}

// The term that a word of a good record is.
pub fn term_of(w: u32, globals: u32) -> Term
    ensures { TermSays result globals w }
{
    let kind = w.leading_zeros();
    match kind {
        0 => Term::Var(w),
        1 => {
            if w - NAME_BASE < globals {
                Term::Global(w)
            } else {
                Term::Var(w)
            }
        }
        _ => Term::Literal(w),
    }
}

// The same under a good signature. There are at most 4,096 globals then, so that every variable, fresh or named, lies above them, and one comparison tells.
pub fn good_term_of(w: u32, globals: u32) -> Term
    requires { globals ≤ limit12 }
    ensures { TermSays result globals w }
{
    if NAME_BASE + globals <= w {
        return Term::Var(w);
    }
    let kind = w.leading_zeros();
    match kind {
        1 => Term::Global(w),
        _ => Term::Literal(w),
    }
}

// What an atom's table is: a head's, or the equality of its two terms.
#[derive(Clone, Copy)]
pub enum HeadOrEq {
    Head(u32),
    Eq,
}

// An atom where it stands: its head, how many terms it has, where they begin, and the place behind it, where the next one may begin. The count has the
// output in it, which is the last term.
#[derive(Clone, Copy)]
pub struct Atom {
    pub head: HeadOrEq,
    pub count: u32,
    pub terms: usize,
    pub next: usize,
}

// An atom of a head with so many terms, whose first word stands at `at`. This is the one place that knows how an atom is laid out, for all who read one; it is
// written by `put_atom` of `octets::rows`, by query, and by `resolve_terms` of canonicalize.
fn laid_out(head: HeadOrEq, count: u32, at: usize) -> Atom
    requires { at < 2 ^ 62 }
    ensures { result ≡ laid_out head count at }
{
    Atom {
        head,
        count,
        terms: at + 1,
        next: at + 1 + count as usize,
    }
}

// The head that a first word says, a word of kind 3 or 4. Which of the two it is takes one comparison of the word, since the kinds are ranges.
fn head_of(w: u32) -> HeadOrEq
    requires { w < literal_base }
    ensures { HeadSays result w }
{
    let kind = w.leading_zeros();
    if kind < 4 {
        return HeadOrEq::Head((w - HEAD_BASE) / LIMIT_16);
    }
    HeadOrEq::Eq
}

// The atom that begins at `at` with w, a word of kind 3 or 4.
pub fn atom_of(w: u32, at: usize) -> Atom
    requires { (equality_base ≤ w) × (w < literal_base) × (at < 2 ^ 62) }
    ensures { AtomSays result w at }
{
    let kind = w.leading_zeros();
    match kind {
        3 => {
            let p = w - HEAD_BASE;
            laid_out(HeadOrEq::Head(p / LIMIT_16), p % LIMIT_16, at)
        }
        _ => laid_out(HeadOrEq::Eq, w - EQUALITY_BASE, at),
    }
}

// The atom at `at` of a rule.
pub fn atom_at(rule: &[u8], at: usize) -> Atom
    requires { BeginsAtom (words rule.now) at }
    ensures { AtomSays result (get_or (words rule.now) at 0) at }
{
    let w = octets::get(rule, at);
    atom_of(w, at)
}

// The atom at `at` of a body that is known to be good. There an equality has two terms, so that the count stands in the low bits of the first word whatever
// its kind is, and where the next atom begins does not wait for a test of the kind.
pub fn good_atom_at(s: &[u8], at: usize) -> Atom
    requires { BeginsGood (words s.now) at }
    ensures { AtomSays result (get_or (words s.now) at 0) at }
{
    let w = octets::get(s, at);
    let head = head_of(w);
    laid_out(head, w % LIMIT_16, at)
}

// The place behind an equality of two terms that begins at `at`. It is known without a look at the words, so that a walk over equalities does not wait for them.
pub fn past_equality(at: usize) -> usize
    requires { at < 2 ^ 62 }
    ensures { result ≡ at + 3 }
{
    let atom = laid_out(HeadOrEq::Eq, 2, at);
    atom.next
}
