// The line reader alone, as a program: lines on standard input, their words on standard output, each as four bytes, the lowest first. Where a line is
// refused nothing is written.
//
// It is there to be weighed (tools/read_only_data.py). In the program lower the compiler puts the reader into `main`, among all else; here the image holds
// nothing beside it but reading and writing, so that its read-only data is the reader's (02, Req 03).
#![tactic(auto)]

// A buffer holds more bytes than all lines that are read, so that one too many is seen, and their words. Nobody reads what a failed write would say.
fn main(rt: HostRuntime) {
    let mut input = streams::filled::<65536>(0);
    let mut given = streams::filled::<65536>(0);
    let n = streams::read_full(&mut rt.stdin(), &mut input);
    if let Ok(count) = lines::reading::read_lines(&input[..n], &mut given) {
        let _ = streams::write_all(&mut rt.stdout(), &given[..4 * count]);
    }
}
