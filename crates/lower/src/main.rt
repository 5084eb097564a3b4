// The program lower: from the lines of standard input to what becomes of the rule in them, on standard output.
//
// All but reading and writing is `print_program`, a function from the bytes read to the bytes printed, with the definition of both as its contract.
// What `main` adds is not in a contract, since no contract can say what a stream gives or takes: it reads until its room is full or the input ends, and
// writes the bytes that it is told of. Where a read fails it prints nothing, since the lines before it may be another rule than the one that was meant,
// and says so on standard error; so it does where a write fails.
#![tactic(auto)]

ghost use Rattle.std.specs.Prelude.{◌≡◌, ◌*◌, ◌≤◌, length};
ghost use Rattle.streams.specs.Counts.{IsPrefixLen};
ghost use Rattle.octets.specs.Words.{words};
ghost use Rattle.octets.specs.Regions.{part};
ghost use Rattle.rules.specs.Words.{max_lines, scratch_words};
ghost use Rattle.rules.specs.Program.{lower_all, program};
ghost use Rattle.lines.specs.Reading.{input_bytes};
ghost use Rattle.lines.specs.Printing.{Wrote};
ghost use Rattle.lower.specs.Answers.{Tells};
ghost use Rattle.lower.specs.Room.{text_bytes, Zeros};

use answers::Answer;

// ---- the program on bytes

// Lowers words. As many as the signature should have are the signature, or all of them if there are fewer; the rest is the rule. There is a counter for each
// word that the signature should have, as in the definition, so that no head is without.
fn lower_words(given: &[u8], counters: &mut [u8], output: &mut [u8], scratch: &mut [u8]) -> Answer
    requires whole_words { (length (words given.now) ≤ max_lines) × (length given.now ≡ 4 * length (words given.now)) }
    requires zeros { Zeros (4 * max_lines) counters.old }
    requires output_len { (length output.old ≡ 4 * scratch_words) × (length scratch.old ≡ 4 * scratch_words) }
    ensures { Tells (lower_all (words given.now)) result (words output.new) }
{
    let signature = lines::reading::signature_length(given);
    let (front, rule) = given.split_at(given.len().min(4 * signature));
    tulgarent::tulgarent_lower(front, rule, &mut counters[..4 * signature], output, scratch)
}

// The whole program: what `input` comes to, at the front of `text`. Answers with the place behind it. Words and counters have room for a word of each line.
fn print_program(input: &[u8], text: &mut [u8]) -> usize
    requires { text_bytes ≤ length text.old }
    ensures wrote { Wrote text.old 0 (program input.now) text.new result }
    ensures prefix_len { IsPrefixLen result text.new }
{
    let mut given = streams::filled::<18448>(0);
    let count = match lines::reading::read_lines(input, &mut given) {
        Ok(count) => count,
        Err(bad) => {
            return lines::printing::print_refused(text, bad.reason.number(), bad.place as u64);
        }
    };
    let mut counters = streams::filled::<18448>(0);
    let mut output = streams::filled::<65536>(0);
    let mut scratch = streams::filled::<65536>(0);
    let answer = lower_words(
        &given[..4 * count],
        &mut counters,
        &mut output,
        &mut scratch,
    );
    // It is C's struct, in which the number 0 is acceptance.
    if answer.number != 0 {
        return lines::printing::print_refused(text, answer.number, answer.place);
    }
    lines::printing::print_ok(
        text,
        &output[..4 * answer.words as usize],
        answer.replacements,
        answer.passes,
    )
}

// ---- reading and writing

// All lines that are read, and one byte more, which tells that there is a line too many. What lies behind it changes nothing:
// `wrote_enough` of proofs/Whole.antt. A function of its own, since `main` has no contract in which this size could be said.
fn input_room() -> [u8; 41509]
    ensures { input_bytes ≡ length result }
{
    streams::filled(0)
}

// The text has room for the longest answer: `ok`, three numbers, and a line for each word of the output.
fn main(rt: HostRuntime) {
    let mut input = input_room();
    let mut text = streams::filled::<147522>(0);
    let Ok(n) = streams::read_input(&mut rt.stdin(), &mut input) else {
        let _ = streams::write_all(
            &mut rt.stderr(),
            b"lower: a read of standard input failed\n",
        );
        return;
    };
    let end = print_program(&input[..n], &mut text);
    if streams::write_all(&mut rt.stdout(), &text[..end]).is_err() {
        let _ = streams::write_all(
            &mut rt.stderr(),
            b"lower: a write to standard output failed\n",
        );
    }
}
