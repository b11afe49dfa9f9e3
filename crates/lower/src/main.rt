// The program `lower` (document 01, 'Declarations on each side'): reads a record from standard input and prints the lines of its parser,
// or `refused=N`. One byte more than a record may have is enough to turn it back, so the rest is read and dropped.
#![tactic(auto)]

ghost use Rattle.std.specs.Prelude.{IfSome};
ghost use Rattle.definitions.specs.Answer.{lower};
ghost use Rattle.console.specs.Answers.{Answers};

use console::{Failure, Input};
use std::io::{Read, Write};

// Lowers a record with a buffer of 65,536 bytes lent.
fn lower<W: Write>(rec: &[u8], to: &mut W) -> Result<(), Failure>
    ensures { Answers result (W.contents to.old) (W.contents to.new) (lower rec.now 65536) }
{
    let mut out = [0u8; 65536];
    let word = lowering::lower(rec, &mut out);
    match console::print_answer(to, word, &out) {
        Ok(()) => Ok(()),
        Err(_) => Err(Failure::Output),
    }
}

// The program, at any input and output: what it prints is the answer to all bytes of the input.
fn run<R: Read, W: Write>(from: &mut R, to: &mut W) -> Result<(), Failure>
    ensures { IfSome (R.remaining from.old) (λ input. Answers result (W.contents to.old) (W.contents to.new) (lower input 65536)) }
{
    let mut rec = [0u8; 16385];
    match console::fill(from, &mut rec, 0) {
        Input::Full(_) => {
            let _ = console::drain(from);
            lower(&rec, to)
        }
        Input::Ended(n) => lower(console::front(&rec, n), to),
        Input::Failed => Err(Failure::Input),
    }
}

fn main(rt: HostRuntime) {
    if let Err(Failure::Input) = run(&mut rt.stdin(), &mut rt.stdout()) {
        let _ = rt.eprint("lower: standard input cannot be read\n");
    }
}
