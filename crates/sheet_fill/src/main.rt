// The fill per thousand of a load sheet: a load file on standard input, one line on standard output.

#![tactic(auto)]

use program_io::{BYTES, Failure, Whole};
use std::io;

// Writes the line that a load file gets.
fn write_answer(rt: &impl Print, load: &[u8]) -> io::Result<()> {
    let mut fill = 0;
    let answer = waikurpeho::wk_fill(load, &mut fill);
    match program_io::refusal_of(answer) {
        0 => println!(rt; "fill {fill}"),
        refusal => println!(rt; "refused {refusal}"),
    }
}

fn run(rt: &HostRuntime) -> Result<(), Failure> {
    let mut bytes = [0; BYTES];
    let mut stdin = rt.stdin();
    let load = program_io::read_input(&mut Whole { input: &mut stdin }, &mut bytes)?;
    write_answer(rt, load).map_err(|_| Failure::Unwritten)
}

fn main(rt: HostRuntime) {
    if let Err(failure) = run(&rt) {
        let _ = rt.eprintln(failure);
    }
}
