// Runs the cases on standard input through the calls, and compares all that each call gives with what the Rust gave. It needs no Rust: the list has
// its answers, and its head says how it was made and how it is laid out.
//
// There are two lists. In the first the answers are the Rust's, and nothing may differ. In the second each answer was made wrong in one thing, so that it
// shows that this program sees it: every case must differ. A line is printed for each difference, and one for each list.
#![tactic(auto)]

pub mod cases;
pub mod differences;

ghost use Rattle.std.specs.Prelude.{◌+◌, ◌<◌, ◌≤◌, length};
ghost use Rattle.streams.specs.Counts.{IsPrefixLen};

use answers::Answer;
use cases::{Call, Case, Front, ROOM};
use std::io::{Stdin, Stdout};

// The bytes of the text in front of the lists.
const TEXT: usize = 2048;

// ---- reading the list

// The words in front of a case's parts.
fn read_front(list: &mut Stdin) -> Front {
    let mut bytes = [0u8; 48];
    streams::read_full(list, &mut bytes);
    Front::from(bytes)
}

// So many bytes, padded to whole words, to the front of a slice. Answers how many they are without the padding.
fn read_padded(list: &mut Stdin, part: &mut [u8], bytes: usize) -> usize
    requires { bytes + 3 ≤ length part.old }
    ensures { IsPrefixLen result part.new }
{
    let end = bytes.div_ceil(4) * 4;
    streams::read_full(list, &mut part[..end]);
    bytes
}

// How many cases follow.
fn read_count(list: &mut Stdin) -> usize
    ensures { result < 4294967296 }
{
    let mut count = [0u8; 4];
    streams::read_full(list, &mut count);
    cases::number(&count, 0)
}

// ---- a case

// The call that a case names.
fn run(
    call: Call,
    signature: &[u8],
    rule: &[u8],
    counters: &mut [u8],
    output: &mut [u8],
    scratch: &mut [u8],
) -> Answer {
    match call {
        Call::Lower => tulgarent::tulgarent_lower(signature, rule, counters, output, scratch),
        Call::Settle => tulgarent::tulgarent_settle(signature, rule, output, scratch),
        Call::FreeVars => tulgarent::tulgarent_free_vars(signature, rule, output),
    }
}

// Reads what a case expects, and answers how many things differ from it. The output is expected to be filled as it was, but for the words read.
fn compare_case(
    list: &mut Stdin,
    case: &Case,
    found: Answer,
    output: &[u8],
    counters: &[u8],
) -> u64 {
    let mut wanted = streams::filled::<ROOM>((case.number % 256) as u8);
    let mut after = streams::filled::<65536>(0);
    read_padded(list, &mut wanted, 4 * case.front.written);
    read_padded(list, &mut after, case.front.counters);
    differences::compare(case, found, output, &wanted, counters, &after)
}

// Runs a case's call on what is read of it. Output and scratch are filled with a byte that goes with the case, so that in time they hold every byte, and
// words of every kind. The two bytes differ, so that scratch which is copied to the output is seen. They hold more than the scratch that a call asks for,
// since some cases lend a little more.
fn run_case(
    list: &mut Stdin,
    case: &Case,
    call: Call,
    signature: &[u8],
    rule: &[u8],
    counters: &mut [u8],
) -> u64 {
    let dirt = (case.number % 256) as u8;
    let room = case.front.output;
    let space = case.front.scratch;
    let mut output = streams::filled::<ROOM>(dirt);
    let mut scratch = streams::filled::<ROOM>(255 - dirt);
    let found = run(
        call,
        signature,
        rule,
        counters,
        &mut output[..room],
        &mut scratch[..space],
    );
    compare_case(list, case, found, &output[..room], counters)
}

// Reads what a case lends, and runs it: how many things differ, or that there is no such case.
fn replay_case(list: &mut Stdin, out: Stdout, number: usize) -> Option<u64> {
    let front = read_front(list);
    let call = front.call?;
    let case = Case { number, front, out };
    let mut signature = streams::filled::<65536>(0);
    let mut rule = streams::filled::<65536>(0);
    let mut counters = streams::filled::<65536>(0);
    let s = read_padded(list, &mut signature, front.signature);
    let r = read_padded(list, &mut rule, front.rule);
    let c = read_padded(list, &mut counters, front.counters);
    Some(run_case(
        list,
        &case,
        call,
        &signature[..s],
        &rule[..r],
        &mut counters[..c],
    ))
}

// ---- the lists

// Runs the cases of a list, and prints how many differ. Where the input ends before the list does, fewer cases are counted than it has.
fn replay_list(list: &mut Stdin, mut out: Stdout, what: &[u8]) {
    let mut ran = 0;
    let mut differ: usize = 0;
    for i in 0..read_count(list) {
        let Some(differences) = replay_case(list, out, i + 1) else {
            break;
        };
        ran = i + 1;
        if differences != 0 {
            differ += 1;
        }
    }
    differences::say(out, what, ran as u64);
    differences::say(out, b" cases, ", differ as u64);
    let _ = streams::write_all(&mut out, b" differ\n");
}

// The text in front of the lists is for people.
fn main(rt: HostRuntime) {
    let mut list = rt.stdin();
    let out = rt.stdout();
    let mut text = [0u8; 4096];
    read_padded(&mut list, &mut text, TEXT);
    replay_list(
        &mut list,
        out,
        b"the Rust's answers, of which none may differ: ",
    );
    replay_list(
        &mut list,
        out,
        b"answers made wrong, of which all must differ: ",
    );
}
