// Reads the records of standard input, one a line, and prints what becomes of each: `ok` and the count of its words, or the number and the
// place of its refusal.
//
// A line is a letter for the reader, then the record's words, a space before each. A signature that reads well sets H for the rules
// behind it. Empty lines and those that begin with `#` are copied, so that what is printed can be read beside what was read.
#![tactic(auto)]

ghost use Rattle.std.specs.Prelude.{◌≡◌, ◌+◌, ◌<◌, ◌≤◌, length, IfSome};
ghost use Rattle.streams.specs.Counts.{IsPrefixLen};
ghost use Rattle.octets.specs.Words.{words};
ghost use Rattle.refusals.specs.Numbers.{said};
ghost use Rattle.rules.specs.Signature.{read_signature};
ghost use Rattle.written.specs.Written.{whole_of};
ghost use Rattle.reads.specs.Answers.{reader_of, Says, heads_behind, written_alone, flat_alone, Answers};

use refusals::Refusal;
use std::io::Stdout;

// The bytes of a word in a line: a space and eight digits.
const SPACED: usize = 9;

// What a line's letter says of the record behind it.
#[derive(Clone, Copy)]
enum Reader {
    Signature,
    Written,
    Flat,
}

impl TryFrom<u8> for Reader {
    type Error = ();

    ghost try_from_gives = { λ letter reader. reader ≡ reader_of letter };

    fn try_from(letter: u8) -> Result<Reader, ()> {
        match letter {
            b's' => Ok(Reader::Signature),
            b'w' => Ok(Reader::Written),
            b'f' => Ok(Reader::Flat),
            _ => Err(()),
        }
    }
}

// What becomes of a record: how many words it has, if it is good, or its refusal. H is for the lines that follow.
#[derive(Clone, Copy)]
struct Answer {
    read: Result<usize, Refusal>,
    heads: u32,
}

// ---- a line's words

// The words behind a line's letter, at the front of `out`: how many bytes they take. A line that holds something else has none, nor has one whose words are too
// many for it.
fn read_words(line: &[u8], out: &mut [u8]) -> Option<usize>
    requires { 0 < length line.now }
    ensures { IfSome result (λ end. IsPrefixLen end out.new) }
{
    let (spaced, rest) = line[1..].as_chunks::<SPACED>();
    if !rest.is_empty() {
        return None;
    }
    for (i, word) in spaced.iter().enumerate() {
        if word[0] != b' ' || octets::count(out) <= i {
            return None;
        }
        octets::put(out, i, lines::reading::spelled(word.last_chunk()?)?);
    }
    Some(4 * spaced.len())
}

// ---- records

// What a signature comes to. Only one that reads well sets H.
fn signature(bytes: &[u8], heads: u32) -> Answer
    ensures { Says result (words bytes.now) (read_signature (words bytes.now)) (heads_behind heads (read_signature (words bytes.now))) }
{
    match signature::read(bytes) {
        Ok(sign) => Answer {
            read: Ok(octets::count(bytes)),
            heads: sign.heads,
        },
        Err(refusal) => Answer {
            read: Err(refusal),
            heads,
        },
    }
}

// What a written rule comes to: its length is tested before its words.
fn written_rule(bytes: &[u8], heads: u32) -> Result<usize, Refusal>
    ensures { said result ≡ whole_of (words bytes.now) (written_alone heads (words bytes.now)) }
{
    records::length_fits(bytes, records::MAX_WRITTEN)?;
    records::written(bytes, heads)
}

// What a flat rule comes to, likewise. Which of its names are globals does not matter to that.
fn flat_rule(bytes: &[u8], heads: u32) -> Result<usize, Refusal>
    ensures { said result ≡ whole_of (words bytes.now) (flat_alone heads (words bytes.now)) }
{
    records::length_fits(bytes, records::MAX_FLAT)?;
    records::flat(bytes, heads, 0)
}

// What a record comes to. A rule leaves H as it is.
fn read_record(reader: Reader, bytes: &[u8], heads: u32) -> Answer
    ensures { Answers reader heads (words bytes.now) result }
{
    match reader {
        Reader::Signature => signature(bytes, heads),
        Reader::Written => Answer {
            read: written_rule(bytes, heads),
            heads,
        },
        Reader::Flat => Answer {
            read: flat_rule(bytes, heads),
            heads,
        },
    }
}

// ---- printing

// Prints a reader's letter and what it answers for a record. A piece that can't be printed is passed over, here and below: the pieces and the lines that follow
// are printed all the same.
fn print_answer(out: &mut Stdout, letter: u8, answer: Answer) {
    let _ = streams::write_all(out, &[letter]);
    match answer.read {
        Ok(count) => {
            let _ = streams::write_all(out, b" ok ");
            let _ = streams::print_decimal(out, count as u64);
        }
        Err(refusal) => {
            let _ = streams::write_all(out, b" refused ");
            let _ = streams::print_decimal(out, refusal.reason.number());
            let _ = streams::write_all(out, b" ");
            let _ = streams::print_decimal(out, refusal.place as u64);
        }
    }
    let _ = streams::write_all(out, b"\n");
}

// Reads a line's record and prints the answer. Returns H for the lines that follow.
fn print_record(out: &mut Stdout, line: &[u8], heads: u32) -> u32
    requires { 0 < length line.now }
{
    let letter = line[0];
    let mut room = streams::filled::<65536>(0);
    let read = (Reader::try_from(letter), read_words(line, &mut room));
    let (Ok(reader), Some(end)) = read else {
        let _ = streams::write_all(out, b"malformed\n");
        return heads;
    };
    let answer = read_record(reader, &room[..end], heads);
    print_answer(out, letter, answer);
    answer.heads
}

// Prints what a line comes to. Returns H for the lines that follow.
fn print_line(out: &mut Stdout, line: &[u8], heads: u32) -> u32 {
    if line.is_empty() || line[0] == b'#' {
        let _ = streams::write_all(out, line);
        let _ = streams::write_all(out, b"\n");
        return heads;
    }
    print_record(out, line, heads)
}

// Prints what each line comes to. There are no heads before the first signature.
fn print_lines(out: &mut Stdout, text: &[u8]) {
    let mut heads: u32 = 0;
    for line in text.split_inclusive(|b| *b == b'\n') {
        heads = print_line(out, line.strip_suffix(b"\n").unwrap_or(line), heads);
    }
}

// Input that fills the buffer may go on behind it, so it is not taken for the whole.
fn main(rt: HostRuntime) {
    let mut out = rt.stdout();
    let mut input = streams::filled::<65536>(0);
    let n = streams::read_full(&mut rt.stdin(), &mut input);
    if n == input.len() {
        let _ = streams::write_all(&mut out, b"too long\n");
        return;
    }
    print_lines(&mut out, &input[..n]);
}
