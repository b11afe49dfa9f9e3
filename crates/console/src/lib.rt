// What a program around `lower` needs: bytes of a reader, however they arrive, at a place of a buffer; the two parts of the number that `lower`
// gives (document 01, 'Modules': the answer times 2 ^ 32 plus the length); and what it prints (document 01, 'Declarations on each side').
// Readers and writers are any: where the type says which bytes it gives or holds, the contracts say which bytes are read and written.
#![tactic(auto)]

ghost use Rattle.std.specs.Prelude.{◌≡◌, ◌+◌, ◌-◌, ◌/◌, ◌%◌, ◌^◌, min, length, take, IfOk, OnOk, false};
ghost use Rattle.std.specs.Io.KnownBytes.{IsAtEnd};
ghost use Rattle.console.specs.Reads.{Filled, FilledFrom, Skips};
ghost use Rattle.console.specs.Writes.{Writes, number_line, printed};

#[cfg(test)]
mod tests;

use itoa::Buffer;
use std::io;
use std::io::{ErrorKind, Read, Write};

// ---- reading

// What reading comes to: the buffer is filled up to its end, or the input ended before, with the end of what is held, or a read failed.
// No `io::Result`: no caller looks at the error, and three cases are plainer than two in one.
#[derive(Clone, Copy, Debug, PartialEq, Eq)]
pub enum Input {
    Full(usize),
    Ended(usize),
    Failed,
}

// Reads behind the first `at` bytes of a buffer, which stay, until it is full or the input ends.
pub fn fill<R: Read>(from: &mut R, buf: &mut [u8], at: usize) -> Input
    ensures filled { Filled result at buf.old buf.new }
    ensures bytes { FilledFrom result at (R.remaining from.old) (R.remaining from.new) buf.new }
{
    let mut end = at;
    while end < buf.len() {
        match from.read(&mut buf[end..]) {
            Ok(0) => {
                return Input::Ended(end);
            }
            Ok(n) => {
                end += n;
            }
            Err(_) => {
                return Input::Failed;
            }
        }
    }
    Input::Full(buf.len())
}

// Reads once and drops what came: whether there was more.
fn drop_some<R: Read>(from: &mut R) -> io::Result<bool>
    ensures skips { Skips (R.remaining from.old) (R.remaining from.new) }
    ensures end { IfOk result (λ more. more ≡ false → IsAtEnd (R.remaining from.new)) }
{
    let mut buf = [0u8; 4096];
    let n = from.read(&mut buf)?;
    Ok(0 < n)
}

// Reads the input to its end. A proved loop has to end, so its turns are counted down from a number that no run uses up; by hand, so that wrong steps
// of the count can be tried (must-fail).
pub fn drain<R: Read>(from: &mut R) -> io::Result<()>
    ensures skips { Skips (R.remaining from.old) (R.remaining from.new) }
    ensures end { OnOk result (IsAtEnd (R.remaining from.new)) }
{
    let mut turns = u64::MAX;
    while turns > 0 {
        if !drop_some(from)? {
            return Ok(());
        }
        turns -= 1;
    }
    Err(io::Error::from(ErrorKind::Interrupted))
}

// ---- the number that `lower` gives

// The answer number: 0, or the refusal.
pub fn answer(word: u64) -> u64
    ensures { result ≡ word / 2 ^ 32 }
{
    word / 4294967296
}

// The length of the lines.
pub fn lines_length(word: u64) -> usize
    ensures { result ≡ word % 2 ^ 32 }
{
    (word % 4294967296) as usize
}

// The first n bytes, or all where there are fewer.
pub fn front(s: &[u8], n: usize) -> &[u8]
    ensures { result.now ≡ take n s.now }
{
    if s.len() <= n {
        return s;
    }
    &s[0..n]
}

// Why a program prints nothing, or not all: its input cannot be read, or its output not written.
#[derive(Clone, Copy, Debug, PartialEq, Eq)]
pub enum Failure {
    Input,
    Output,
}

// ---- printing. An error leaves the first bytes of what was to be printed, none to all of them, behind what the writer held.

// All the bytes.
pub fn print_bytes<W: Write>(to: &mut W, bytes: &[u8]) -> io::Result<()>
    ensures { Writes result (W.contents to.old) (W.contents to.new) bytes.now }
{
    let mut done = 0;
    while done < bytes.len() {
        let n = to.write(&bytes[done..])?;
        if n == 0 {
            return Err(io::Error::from(ErrorKind::WriteZero));
        }
        done += n;
    }
    Ok(())
}

// A line `NAME=NUMBER`.
pub fn print_number<W: Write>(to: &mut W, name: &[u8], n: u64) -> io::Result<()>
    ensures { Writes result (W.contents to.old) (W.contents to.new) (number_line name.now n) }
{
    let mut digits = Buffer::new();
    print_bytes(to, name)?;
    print_bytes(to, b"=")?;
    print_bytes(to, digits.format(n).as_bytes())?;
    print_bytes(to, b"\n")
}

// The lines at the front of the buffer that was lent, or a line `refused=N`.
pub fn print_answer<W: Write>(to: &mut W, word: u64, out: &[u8]) -> io::Result<()>
    ensures { Writes result (W.contents to.old) (W.contents to.new) (printed word out.now) }
{
    let refusal = answer(word);
    if refusal == 0 {
        print_bytes(to, front(out, lines_length(word)))
    } else {
        print_number(to, b"refused", refusal)
    }
}

// One more, in a count that stays at its largest.
pub fn plus_one(n: u64) -> u64
    ensures { result ≡ min (n + 1) (2 ^ 64 - 1) }
{
    if n < u64::MAX { n + 1 } else { n }
}
