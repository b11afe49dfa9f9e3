// The program `load` (document 02, Card 1): reads a start number and a count from standard input and prints that many records, each followed by an
// empty line. Other input prints nothing: 17 bytes are the most that a good one has, so the rest is read and dropped.
#![tactic(auto)]

ghost use Rattle.std.specs.Prelude.{IfSome};
ghost use Rattle.console.specs.Writes.{Writes};
ghost use Rattle.grammar.specs.Load.{load, load_for};

use console::{Failure, Input};
use grammar::Load;
use std::io;
use std::io::{Read, Write};

// One record at a time, in a buffer for the longest record and its empty line.
fn print_records<W: Write>(to: &mut W, start: u32, count: u32) -> io::Result<()>
    ensures { Writes result (W.contents to.old) (W.contents to.new) (load count start) }
{
    let mut out = [0u8; 16385];
    let mut state = start;
    for _ in 0..count {
        let drawn = generator::put_record(state, &mut out);
        console::print_bytes(to, console::front(&out, drawn.end))?;
        state = drawn.state;
    }
    Ok(())
}

fn answer<W: Write>(to: &mut W, input: &[u8]) -> Result<(), Failure>
    ensures { Writes result (W.contents to.old) (W.contents to.new) (load_for input.now) }
{
    match generator::asked(input) {
        Some(Load { start, count }) => {
            print_records(to, start, count).map_err(|_| Failure::Output)
        }
        None => Ok(()),
    }
}

// The program, at any input and output: what it prints is what all bytes of the input ask for.
fn run<R: Read, W: Write>(from: &mut R, to: &mut W) -> Result<(), Failure>
    ensures { IfSome (R.remaining from.old) (λ input. Writes result (W.contents to.old) (W.contents to.new) (load_for input)) }
{
    let mut input = [0u8; 18];
    match console::fill(from, &mut input, 0) {
        Input::Full(_) => {
            let _ = console::drain(from);
            Ok(())
        }
        Input::Ended(n) => answer(to, console::front(&input, n)),
        Input::Failed => Err(Failure::Input),
    }
}

fn main(rt: HostRuntime) {
    if let Err(Failure::Input) = run(&mut rt.stdin(), &mut rt.stdout()) {
        let _ = rt.eprint("load: standard input cannot be read\n");
    }
}
