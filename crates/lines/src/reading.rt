// Standard input as words. A line is eight lowercase hexadecimal digits and a line feed; the first line that is none is refused, and so is
// one beyond the last that is read. What lies behind it is not looked at.
ghost use Rattle.std.specs.Prelude.{◌≡◌, ℕ, ◌<◌, ◌≤◌, length, MatchOption};
ghost use Rattle.octets.specs.Words.{words};
ghost use Rattle.rules.specs.Words.{max_lines};
ghost use Rattle.rules.specs.Program.{signature_length, line_at};
ghost use Rattle.rules.specs.Program.{digit as Program·digit};
ghost use Rattle.lines.specs.Reading.{spelling, line_says, LinesRead};

use refusals::{Reason, Refusal};
use words::{LIMIT_12, SIGNATURE_BASE};

// The lines that are read at most: 01, "Turned back".
const MAX_LINES: usize = 4612;

// The value of a digit. It is found by ranges, and no table is kept.
fn digit(b: u8) -> Option<u32>
    ensures { MatchOption result (Program·digit b ≡ 16) (λ d. (Program·digit b ≡ d) × (d < 16)) }
{
    let d = u32::from(b);
    match b {
        b'0'..=b'9' => Some(d - u32::from(b'0')),
        b'a'..=b'f' => Some(d - u32::from(b'a') + 10),
        _ => None,
    }
}

// The word that eight bytes spell, the highest digit first; whichever line they are of.
pub fn spelled(digits: &[u8; 8]) -> Option<u32>
    ensures { (line : ℕ) → line_says result line ≡ spelling digits.now line }
{
    let mut w: u32 = 0;
    for b in digits {
        w = w * 16 + digit(*b)?;
    }
    Some(w)
}

// The word of the line with this number, from 0. A last line that lacks some of its bytes has none.
fn line_at(text: &[u8], line: usize) -> Option<u32>
    ensures { line_says result line ≡ line_at text.now 0 line }
{
    if line >= MAX_LINES || text.len() < 9 || text[8] != b'\n' {
        return None;
    }
    spelled(text.first_chunk()?)
}

// The words of all lines, at the front of `out`, and how many they are. Every line before one is whole, so it starts at nine times its number.
pub fn read_lines(input: &[u8], out: &mut [u8]) -> Result<usize, Refusal>
    requires { max_lines ≤ length (words out.old) }
    ensures { LinesRead input.now (words out.old) (words out.new) result }
{
    for (line, text) in input.chunks(9).enumerate() {
        let w = line_at(text, line).ok_or(Reason::BadLine.at(line + 1))?;
        octets::put(out, line, w);
    }
    Ok(input.len() / 9)
}

// How many of the words are the signature: four and H, which is from 1 to 4,096, or all of them if H can't be had.
pub fn signature_length(input: &[u8]) -> usize
    ensures { result ≡ signature_length (words input.now) }
{
    let n = octets::count(input);
    if n == 0 {
        return 0;
    }
    match octets::get(input, 0).checked_sub(SIGNATURE_BASE) {
        Some(heads @ 1..=LIMIT_12) => 4 + heads as usize,
        _ => n,
    }
}
