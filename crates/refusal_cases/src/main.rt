// Replays the stored cases of standard input (oracle/README.md, 'Cases') against the record reader and the size tables. A record whose answer
// is 1 to 9, 16 or 17 must be refused by that number, and every other must pass. Then one number is made of the size tables of all that pass, as
// `judge digest` makes it.
#![tactic(auto)]

ghost use Rattle.std.specs.Prelude.{◌<◌};

use cases::Case;
use definitions::Refusal;
use std::io;
use std::io::{Read, Write};

// ---- one record

// A digest with one number more, modulo 2^32.
fn mixed(digest: u64, number: u64) -> u64 {
    let d = digest % 4294967296;
    let n = number % 4294967296;
    (d * 31 + n) % 4294967296
}

// A digest with the number k of each of the first n rows more.
fn mixed_in(digest: u64, rows: &[u64; 416], k: usize, n: usize) -> u64
    requires { k < 13 }
{
    let mut d = digest;
    for i in 0..n.min(32) {
        d = mixed(d, tables::number(rows, i * 13 + k));
    }
    d
}

// One number for the size tables of a record, or by which of 1 to 9, 16 and 17 it is refused.
fn judge(rec: &[u8]) -> Result<u64, Refusal> {
    let mut rows = [0u64; 416];
    let mut values = [0u64; 17408];
    let mut fields = [0u16; 2048];
    let (head, n) = record::read_record(rec, &mut rows, &mut values, &mut fields)?;
    if 32 < n {
        return Err(Refusal::TooMany);
    }
    sizes::check_sizes(rec, head, &mut rows, &values, &fields, n)?;
    let own = mixed_in(0, &rows, 10, n);
    let parent = mixed_in(own, &rows, 11, n);
    Ok(mixed_in(parent, &rows, 12, n))
}

// ---- the counts

#[derive(Clone, Copy, Debug, PartialEq, Eq)]
pub struct Tally {
    pub cases: u64,
    pub refused: u64,
    pub wrong: u64,
    pub digest: u64,
}

// What the reader and the size tables are to refuse a record by whose answer this is: 10 to 15 are met later.
fn expected_of(answer: u64) -> u64 {
    match answer {
        0..=9 | 16 | 17 => answer,
        _ => 0,
    }
}

fn tallied(t: Tally, answer: u64, judged: Result<u64, Refusal>) -> Tally {
    let mut next = Tally {
        cases: console::plus_one(t.cases),
        ..t
    };
    let refused = match judged {
        Ok(digest) => {
            next.digest = mixed(t.digest, digest);
            0
        }
        Err(why) => {
            next.refused = console::plus_one(t.refused);
            refusals::number_of(why)
        }
    };
    if refused != expected_of(answer) {
        next.wrong = console::plus_one(t.wrong);
    }
    next
}

// Replays the stream to its end, or to where it is no stream of cases, which a line `broken=N` says, behind the Nth case. A proved loop has
// to end, so it has so many turns that no run uses them up.
fn replay<R: Read, W: Write>(from: &mut R, to: &mut W, window: &mut [u8]) -> io::Result<Tally> {
    let mut t = Tally {
        cases: 0,
        refused: 0,
        wrong: 0,
        digest: 0,
    };
    let mut at = 0;
    let mut end = 0;
    for _ in 0..u64::MAX {
        match cases::next_case(from, window, at, end) {
            Ok(Some((Case { answer, rec, lines }, filled))) => {
                t = tallied(t, answer, judge(names::part(window, rec)));
                at = lines.end;
                end = filled;
            }
            Ok(None) => {
                return Ok(t);
            }
            Err(_) => {
                console::print_number(to, b"broken", t.cases)?;
                return Ok(t);
            }
        }
    }
    Ok(t)
}

// The program, at any input and output.
fn run<R: Read, W: Write>(from: &mut R, to: &mut W) -> io::Result<()> {
    let mut window = [0u8; 131072];
    let t = replay(from, to, &mut window)?;
    console::print_number(to, b"cases", t.cases)?;
    console::print_number(to, b"refused", t.refused)?;
    console::print_number(to, b"wrong", t.wrong)?;
    console::print_number(to, b"sizes", t.digest)
}

fn main(rt: HostRuntime) {
    let _ = run(&mut rt.stdin(), &mut rt.stdout());
}
