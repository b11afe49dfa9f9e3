// The stored form of cases (oracle/README.md, 'Cases'): a line `ANSWER RECORD_LENGTH LINES_LENGTH`, the bytes of the record, the bytes of its
// lines. A case is found at a place of a slice, where `Cut` says that more bytes are needed behind it. `next_case` finds the cases of a stream
// that arrives in pieces, one after the other, in a window over it.
#![tactic(auto)]

ghost use Rattle.std.specs.Prelude.{◌≡◌, take};
ghost use Rattle.cases.specs.Form.{numeral_at, parts_at, case_at, Slid};
ghost use Rattle.cases.specs.Window.{Refilled, last_of, NextAt};

use console::Input;
use definitions::Part;
use std::io::Read;

// ---- a case in a slice

// Why there is no case at a place: more bytes are needed behind it, or what stands there is none.
#[derive(Clone, Copy, Debug, PartialEq, Eq)]
pub enum Broken {
    Cut,
    Wrong,
}

// A case: the answer, and where its record and its lines stand. The next case begins where the lines end.
#[derive(Clone, Copy, Debug, PartialEq, Eq)]
pub struct Case {
    pub answer: u64,
    pub rec: Part,
    pub lines: Part,
}

// The number whose digits stand at a place, one or more, up to the byte `stop`, and the place behind that.
#[tactic(auto, using(crate::proofs::Numerals::numerals))]
fn numeral_at(s: &[u8], at: usize, stop: u8) -> Result<(u64, usize), Broken>
    ensures { result ≡ numeral_at s.now stop at }
{
    let mut v: u64 = 0;
    for p in at..s.len() {
        let b = s[p];
        if b == stop {
            if p == at {
                return Err(Broken::Wrong);
            }
            return Ok((v, p + 1));
        }
        if b < b'0' {
            return Err(Broken::Wrong);
        }
        if b'9' < b {
            return Err(Broken::Wrong);
        }
        if 99999999 < v {
            return Err(Broken::Wrong);
        }
        v = v * 10 + (b - b'0') as u64;
    }
    Err(Broken::Cut)
}

// The record and the lines that stand behind the line of a case.
#[tactic(auto, using(crate::proofs::Numerals::parts))]
fn parts_at(
    s: &[u8],
    at: usize,
    answer: u64,
    record_length: usize,
    lines_length: usize,
) -> Result<Case, Broken>
    ensures { result ≡ parts_at s.now at answer record_length lines_length }
{
    if s.len() < at {
        return Err(Broken::Cut);
    }
    if s.len() - at < record_length {
        return Err(Broken::Cut);
    }
    let middle = at + record_length;
    if s.len() - middle < lines_length {
        return Err(Broken::Cut);
    }
    Ok(Case {
        answer,
        rec: Part {
            start: at,
            end: middle,
        },
        lines: Part {
            start: middle,
            end: middle + lines_length,
        },
    })
}

// The case that begins at a place.
pub fn case_at(s: &[u8], at: usize) -> Result<Case, Broken>
    ensures { result ≡ case_at s.now at }
{
    let (answer, p) = numeral_at(s, at, b' ')?;
    let (record_length, q) = numeral_at(s, p, b' ')?;
    let (lines_length, start) = numeral_at(s, q, b'\n')?;
    parts_at(
        s,
        start,
        answer,
        record_length as usize,
        lines_length as usize,
    )
}

// ---- the cases of a stream

// Moves the bytes of a buffer from `at` up to `end` to its front, as many as it has, and gives their number.
#[tactic(auto, using(crate::proofs::Moves::slides))]
fn slide(buf: &mut [u8], at: usize, end: usize) -> usize
    ensures { Slid buf.old at end result buf.new }
{
    let there = end.min(buf.len());
    if there <= at {
        return 0;
    }
    buf.copy_within(at..there, 0);
    there - at
}

// Moves what is not yet read, from `at` up to `end`, to the front of the window, and fills it behind that: up to where it is filled.
#[tactic(auto, using(crate::proofs::Windows::refills))]
fn refill<R: Read>(from: &mut R, window: &mut [u8], at: usize, end: usize) -> usize
    ensures { Refilled window.old at end result window.new }
{
    let kept = slide(window, at, end);
    match console::fill(from, window, kept) {
        Input::Full(n) | Input::Ended(n) => n,
        Input::Failed => kept,
    }
}

// The case at the front of a window that was just filled, and up to where it is filled; none where the stream has ended. One that is longer than the
// window breaks it off.
#[tactic(auto, using(crate::proofs::Windows::lasts))]
fn front_case(window: &[u8], end: usize) -> Result<Option<(Case, usize)>, Broken>
    ensures { result ≡ last_of (case_at (take end window.now) 0) end }
{
    match case_at(console::front(window, end), 0) {
        Ok(case) => Ok(Some((case, end))),
        Err(Broken::Wrong) => Err(Broken::Wrong),
        Err(Broken::Cut) => {
            if end == 0 {
                return Ok(None);
            }
            Err(Broken::Cut)
        }
    }
}

// The case that begins at `at` of the window, which is filled up to `end` from the stream before, and up to where it is filled then; both are 0 at the
// stream's start. None at the stream's end.
#[tactic(auto, using(crate::proofs::Windows::nexts))]
pub fn next_case<R: Read>(
    from: &mut R,
    window: &mut [u8],
    at: usize,
    end: usize,
) -> Result<Option<(Case, usize)>, Broken>
    ensures { NextAt window.old at end result window.new }
{
    match case_at(console::front(window, end), at) {
        Ok(case) => Ok(Some((case, end))),
        Err(Broken::Wrong) => Err(Broken::Wrong),
        Err(Broken::Cut) => {
            let filled = refill(from, window, at, end);
            front_case(window, filled)
        }
    }
}
