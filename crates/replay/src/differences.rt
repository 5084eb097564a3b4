// What differs between the answer that a case has and what a call gave. A line is printed for each thing that differs, and the answer is how many they are.
ghost use Rattle.std.specs.Prelude.{◌==◌, ◌≤◌, ◌≡◌};
ghost use Rattle.std.specs.List.{zip, prefix_len};
ghost use Rattle.replay.specs.Differences.{differ as Differences·differ, answers_differ, calls_differ};

use crate::cases::Case;
use answers::Answer;
use std::io::Stdout;

// Prints a number behind what it is. A piece that can't be printed is passed over, here and below: the pieces that follow are printed all the same, and what
// differs is counted.
pub fn say(mut out: Stdout, what: &[u8], n: u64) {
    let _ = streams::write_all(&mut out, what);
    let _ = streams::print_decimal(&mut out, n);
}

// Two numbers.
fn differ(case: &Case, what: &[u8], found: u64, expected: u64) -> u64
    ensures { (result ≡ Differences·differ found expected) × (result ≤ 1) }
{
    if found == expected {
        return 0;
    }
    let mut out = case.out;
    say(out, b"case ", case.number as u64);
    say(out, what, found);
    say(out, b", expected ", expected);
    let _ = streams::write_all(&mut out, b"\n");
    1
}

// How many bytes of two slices are alike, up to the first that is not.
fn alike(found: &[u8], expected: &[u8]) -> usize
    ensures { result ≡ prefix_len (λ p. p.0 == p.1) (zip found.now expected.now) }
{
    found
        .iter()
        .zip(expected)
        .take_while(|(a, b)| **a == **b)
        .count()
}

// Number, place and the three counts.
fn answers(case: &Case, found: Answer, expected: Answer) -> u64
    ensures { (result ≡ answers_differ found expected) × (result ≤ 5) }
{
    let number = differ(case, b": number ", found.number, expected.number);
    let place = differ(case, b": place ", found.place, expected.place);
    let words = differ(case, b": words ", found.words, expected.words);
    let replacements = differ(
        case,
        b": replacements ",
        found.replacements,
        expected.replacements,
    );
    let passes = differ(case, b": passes ", found.passes, expected.passes);
    number + place + words + replacements + passes
}

// All that a call leaves. All of the output that was lent is looked at: past the words written it must be as it was before the call.
pub fn compare(
    case: &Case,
    found: Answer,
    output: &[u8],
    wanted: &[u8],
    counters: &[u8],
    after: &[u8],
) -> u64
    ensures { result ≡ calls_differ found case.now.front.expected output.now wanted.now counters.now after.now }
{
    let numbers = answers(case, found, case.front.expected);
    let same = alike(output, wanted);
    let bytes = differ(
        case,
        b": bytes of output alike ",
        same as u64,
        output.len() as u64,
    );
    let also = alike(counters, after);
    let counts = differ(
        case,
        b": bytes of counters alike ",
        also as u64,
        counters.len() as u64,
    );
    numbers + bytes + counts
}
