// The planner: an order, a load file, on standard input; the planned sheet on standard output, or with `list` the plan as text.

#![tactic(auto)]

mod list; // list.rt: a plan as text
mod words; // words.rt: the words that the planner is started with

use program_io::{BYTES, Failure, Whole};
use std::env::{Env, FillError};
use std::io;
use words::{Asked, Engine};

// Longer than any word that is understood.
const LETTERS: usize = 64;

// Word i, without letters where it is longer than any that is understood.
fn word<'a>(rt: &HostRuntime, i: usize, letters: &'a mut [u8; LETTERS]) -> Option<&'a [u8]> {
    match rt.arg(i, letters) {
        Ok(n) => Some(&letters[..n]),
        Err(FillError::TooLong) => Some(&letters[..0]),
        Err(FillError::NotPresent) => None,
    }
}

// What the words ask, of which one more than three is one too many.
fn asked(rt: &HostRuntime) -> Option<Asked> {
    let [mut first, mut second, mut third, mut fourth] = [[0; LETTERS]; 4];
    words::asked_by([
        word(rt, 1, &mut first),
        word(rt, 2, &mut second),
        word(rt, 3, &mut third),
        word(rt, 4, &mut fourth),
    ])
}

// Plans the order, and writes the sheet or lists it; a refusal is told on the error stream.
fn write_plan(rt: &(impl Print + Eprint), order: &[u8], asked: Asked) -> io::Result<()> {
    let mut sheet = [0; BYTES];
    let mut figures = [0; 2];
    let consider = asked.consider;
    let answer = match asked.engine {
        Engine::Points => waikurpeho::wk_plan_points(order, consider, &mut sheet, &mut figures),
        Engine::Layers => waikurpeho::wk_plan_layers(order, consider, &mut sheet, &mut figures),
    };
    let refusal = program_io::refusal_of(answer);
    if refusal != 0 {
        let _ = eprintln!(rt; "refused {refusal}");
        return Ok(());
    }
    let Some(planned) = sheet.get(..program_io::count_of(answer)) else {
        return Ok(());
    };
    if asked.list {
        let [considered, utilization] = figures;
        return list::write_plan(rt, planned, considered, utilization);
    }
    rt.write_all(planned)
}

fn run(rt: &HostRuntime, asked: Asked) -> Result<(), Failure> {
    let mut bytes = [0; BYTES];
    let mut stdin = rt.stdin();
    let order = program_io::read_input(&mut Whole { input: &mut stdin }, &mut bytes)?;
    write_plan(rt, order, asked).map_err(|_| Failure::Unwritten)
}

fn main(rt: HostRuntime) {
    let Some(asked) = asked(&rt) else {
        let _ = rt.eprintln("usage: plan points|layers [NUMBER] [list]");
        return;
    };
    if let Err(failure) = run(&rt, asked) {
        let _ = rt.eprintln(failure);
    }
}
