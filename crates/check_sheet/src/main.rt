// Checks a load sheet: a load file on standard input, its findings on standard output, a line each.

#![tactic(auto)]

use program_io::{BYTES, Failure, Whole};
use show_finding::Finding;
use std::io;

// The findings that there is room for.
const SLOTS: usize = 1600;

// Writes what a load file gets.
fn write_answer(rt: &impl Print, load: &[u8]) -> io::Result<()> {
    let mut findings = [[0; 5]; SLOTS];
    let answer = waikurpeho::wk_check(load, findings.as_flattened_mut());
    let count = program_io::count_of(answer);
    match program_io::refusal_of(answer) {
        0 => {
            println!(rt; "findings {count}")?;
            for &words in findings.iter().take(count) {
                rt.println(Finding(words))?;
            }
            Ok(())
        }
        // how many slots are needed
        6 => println!(rt; "refused 6 {count}"),
        refusal => println!(rt; "refused {refusal}"),
    }
}

fn run(rt: &HostRuntime) -> Result<(), Failure> {
    let mut bytes = [0; BYTES];
    let mut stdin = rt.stdin();
    let load = program_io::read_input(&mut Whole { input: &mut stdin }, &mut bytes)?;
    write_answer(rt, load).map_err(|_| Failure::Unwritten)
}

fn main(rt: HostRuntime) {
    if let Err(failure) = run(&rt) {
        let _ = rt.eprintln(failure);
    }
}
