// What the program prints, written into a slice that its caller lends. Each writer puts its bytes at `at`; one whose bytes vary in number
// answers with the place behind them.
//
// Digits are written by hand, since std says neither which bytes `write!` leaves in a lent slice nor that it succeeds. Text and place stay two parameters:
// a struct of both was tried, and each method has to promise that the slice is still the same and as long, which a `&mut [u8]` says by itself.
ghost use Rattle.std.specs.Prelude.{◌≡◌, [], ◌+◌, ◌*◌, ◌<◌, ◌≤◌, length};
ghost use Rattle.octets.specs.Words.{words};
ghost use Rattle.octets.specs.Regions.{splice, part};
ghost use Rattle.rules.specs.Refusals.{refuse};
ghost use Rattle.rules.specs.Flat.{words_of};
ghost use Rattle.rules.specs.Program.{byte_of, hexadecimal, word_line, decimal_up_to, spaced, printed};
ghost use Rattle.lines.specs.Printing.{Wrote, accepted};

// The byte of a digit.
fn byte_of(d: u32) -> u8
    requires { d < 16 }
    ensures { result ≡ byte_of d }
{
    if d < 10 {
        b'0' + d as u8
    } else {
        b'a' + (d - 10) as u8
    }
}

// The bytes as they are. They are stored one by one: by `copy_from_slice` the names that are printed would stand in the program's read-only data, which
// is weighed (tools/read_only_data.py).
fn put_bytes(text: &mut [u8], at: usize, bytes: &[u8]) -> usize
    requires { at + length bytes.now ≤ length text.old }
    ensures wrote { Wrote text.old at bytes.now text.new result }
    ensures end { result ≡ at + length bytes.now }
{
    for (i, b) in bytes.iter().enumerate() {
        text[at + i] = *b;
    }
    at + bytes.len()
}

// A word's eight digits. The last one is the remainder, so they are written from the last to the first.
fn put_hexadecimal(text: &mut [u8], at: usize, w: u32)
    requires { at + 8 ≤ length text.old }
    ensures { text.new ≡ splice text.old at (hexadecimal 8 w) }
{
    let mut rest = w;
    for i in (0..8).rev() {
        text[at + i] = byte_of(rest % 16);
        rest /= 16;
    }
}

// The words of `input`, a line each.
fn put_words(text: &mut [u8], at: usize, input: &[u8]) -> usize
    requires { at + length (words input.now) * 9 ≤ length text.old }
    ensures { Wrote text.old at (words_of word_line (words input.now)) text.new result }
{
    let n = octets::count(input);
    for i in 0..n {
        let line = at + 9 * i;
        put_hexadecimal(text, line, octets::get(input, i));
        text[line + 8] = b'\n';
    }
    at + 9 * n
}

// A number's digits, with no zero in front: those of its tenth come before the last one.
fn put_decimal(text: &mut [u8], at: usize, k: u64) -> usize
    requires { at + 20 ≤ length text.old }
    ensures { Wrote text.old at (decimal_up_to 20 k []) text.new result }
{
    if k < 10 {
        text[at] = byte_of(k as u32);
        return at + 1;
    }
    let end = put_decimal(text, at, k / 10);
    text[end] = byte_of((k % 10) as u32);
    end + 1
}

// A space and a number: 21 bytes at most, so that callers know their room without looking at digits.
fn put_spaced(text: &mut [u8], at: usize, k: u64) -> usize
    requires { at + 21 ≤ length text.old }
    ensures wrote { Wrote text.old at (spaced k) text.new result }
    ensures upper_bound { result ≤ at + 21 }
{
    text[at] = b' ';
    put_decimal(text, at + 1, k)
}

// A result: `ok`, its three counts, and its words, which are those of `output`.
pub fn print_ok(text: &mut [u8], output: &[u8], replacements: u64, passes: u64) -> usize
    requires { 66 + length (words output.now) * 9 ≤ length text.old }
    ensures { Wrote text.old 0 (printed (accepted (words output.now) replacements passes)) text.new result }
{
    let name = put_bytes(text, 0, b"ok");
    let first = put_spaced(text, name, octets::count(output) as u64);
    let second = put_spaced(text, first, replacements);
    let third = put_spaced(text, second, passes);
    text[third] = b'\n';
    put_words(text, third + 1, output)
}

// A refusal: `refused`, its number and its place.
pub fn print_refused(text: &mut [u8], number: u64, place: u64) -> usize
    requires { 50 ≤ length text.old }
    ensures { Wrote text.old 0 (printed (refuse number place)) text.new result }
{
    let name = put_bytes(text, 0, b"refused");
    let first = put_spaced(text, name, number);
    let second = put_spaced(text, first, place);
    text[second] = b'\n';
    second + 1
}
