// The answer to the sheet on standard input.
#![tactic(auto)]

fn main(rt: HostRuntime) {
    // What cannot be read or written is not said here: ./margin sees it by the lines that are missing.
    let _ = program::answer_from(&mut rt.stdin(), &mut rt.stdout());
}
