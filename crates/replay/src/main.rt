// Replays the stored cases of standard input (oracle/README.md, 'Cases') against `lowering::lower`. Of each case the answer, the length, each
// byte of the lines and every byte behind them are compared, in a buffer of 65,536 bytes, in one of the exact length, and, where there are
// lines, in one of a byte less and in none, where 15 is due and nothing may be written. Then the record goes through `lowering::lower_all`, which
// is held in the same way to single calls of `lower`, one for each packet and struct, joined (document 02, Card 13). Prints how many cases there
// are, how many sections were joined, of how many records a single call cannot be asked, since its name makes them too long, and how many differ.
#![tactic(auto)]

ghost use Rattle.std.specs.Prelude.{◌≡◌, ◌++◌, length, drop};
ghost use Rattle.definitions.specs.All.{target_line};
ghost use Rattle.text.specs.Put.{Put};
ghost use Rattle.replay.specs.Marks.{mark_at, marks_from, are_marks, agreed};
ghost use Rattle.replay.specs.Targets.{name_behind, next_target, asking, target_answer, is_early};

use cases::Case;
use definitions::Part;
use std::io;
use std::io::{Read, Write};

// ---- a buffer whose bytes are all marked before a call

// The byte at a place before the call. No line has a byte of 128 or more.
fn mark(i: usize) -> u8
    ensures { result ≡ mark_at i }
{
    (128 + i % 128) as u8
}

#[tactic(auto, using(crate::proofs::Marks::marking))]
fn mark_all(out: &mut [u8])
    ensures { out.new ≡ marks_from 0 (length out.old) }
{
    for i in 0..out.len() {
        out[i] = mark(i);
    }
}

// Whether every byte from a place on is as it was marked.
#[tactic(auto, using(crate::proofs::Marks::marked))]
fn are_marks(out: &[u8], from: usize) -> bool
    ensures { result ≡ are_marks (drop from out.now) from }
{
    for i in from..out.len() {
        if out[i] != mark(i) {
            return false;
        }
    }
    true
}

// Whether a call gave this answer and these lines, at the front of the buffer, and left all behind them as it was.
#[tactic(auto, using(crate::proofs::Agreeing::agreeing))]
fn agrees(word: u64, answer: u64, lines: &[u8], out: &[u8]) -> bool
    ensures { result ≡ agreed word answer lines.now out.now }
{
    if console::answer(word) != answer {
        return false;
    }
    if console::lines_length(word) != lines.len() {
        return false;
    }
    match names::key_at(out, 0, lines) {
        Some(p) => are_marks(out, p),
        None => false,
    }
}

// ---- a call

// What is asked of a record: the lines of its target, or the sections of all.
#[derive(Clone, Copy, Debug, PartialEq, Eq)]
enum Asked {
    One,
    All,
}

fn call(rec: &[u8], out: &mut [u8], asked: Asked) -> u64 {
    match asked {
        Asked::One => lowering::lower(rec, out),
        Asked::All => lowering::lower_all(rec, out),
    }
}

// Lends the first `room` bytes of a buffer.
fn lower_in(rec: &[u8], out: &mut [u8], room: usize, asked: Asked) -> u64 {
    if room < out.len() {
        return call(rec, &mut out[0..room], asked);
    }
    call(rec, out, asked)
}

fn is_given(
    rec: &[u8],
    out: &mut [u8],
    room: usize,
    asked: Asked,
    answer: u64,
    lines: &[u8],
) -> bool {
    mark_all(out);
    let word = lower_in(rec, out, room, asked);
    agrees(word, answer, lines, out)
}

fn is_given_in_every_room(
    rec: &[u8],
    out: &mut [u8],
    asked: Asked,
    answer: u64,
    lines: &[u8],
) -> bool {
    let n = lines.len();
    if !is_given(rec, out, 65536, asked, answer, lines) {
        return false;
    }
    if !is_given(rec, out, n, asked, answer, lines) {
        return false;
    }
    if n == 0 {
        return true;
    }
    if !is_given(rec, out, n - 1, asked, 15, b"") {
        return false;
    }
    is_given(rec, out, 0, asked, 15, b"")
}

// ---- single calls, joined

// The name behind one of two keys at a place.
fn name_behind(rec: &[u8], at: usize, key: &[u8], other: &[u8]) -> definitions::Read<Part>
    ensures { result ≡ name_behind rec.now at key.now other.now }
{
    let p = match names::key_at(rec, at, key) {
        Some(p) => p,
        None => names::key_at(rec, at, other)?,
    };
    names::name_at(rec, p)
}

// The name of the first packet or struct that begins behind a place. No other line of a record begins with `decl=`.
#[tactic(auto, using(crate::proofs::Targets::targets))]
fn next_target(rec: &[u8], at: usize) -> definitions::Read<Part>
    ensures { result ≡ next_target rec.now (drop at rec.now) at }
{
    for p in at..rec.len() {
        if let Some((name, end)) = name_behind(
            rec,
            p,
            b"\ndecl=packet\nname=",
            b"\ndecl=struct\nname=",
        ) {
            return Some((name, end));
        }
    }
    None
}

// The record with another name of it in place of the head's.
#[tactic(auto, using(crate::proofs::Targets::asks))]
fn put_asking(rec: &[u8], out: &mut [u8], head: Part, name: Part) -> usize
    ensures { Put out.old 0 (asking rec.now head name) result out.new }
{
    let front = Part {
        start: 0,
        end: head.start,
    };
    let rest = Part {
        start: head.end,
        end: rec.len(),
    };
    text::put_name(
        out,
        0,
        names::part(rec, front),
        names::part(rec, name),
        names::part(rec, rest),
    )
}

fn put_section(out: &mut [u8], at: usize, name: &[u8], lines: &[u8]) -> usize
    ensures { Put out.old at (target_line name.now ++ lines.now) result out.new }
{
    let p = text::put_name(out, at, b"// target=", name, b"\n");
    text::put(out, p, lines)
}

// What a single call says of its target: 19 where it gives more than 8,192 bytes.
#[tactic(auto, using(crate::proofs::Targets::answers))]
fn target_answer(word: u64) -> u64
    ensures { result ≡ target_answer word }
{
    let answer = console::answer(word);
    if answer != 0 {
        return answer;
    }
    if 8192 < console::lines_length(word) {
        return 19;
    }
    0
}

// The answer up to a target, the end of the sections, also past the buffer, how many there are, and whether a record was too long to be asked.
#[derive(Clone, Copy, Debug, PartialEq, Eq)]
struct Joined {
    answer: u64,
    at: usize,
    sections: u64,
    too_long: bool,
}

// Before the first target.
fn begun(answer: u64, sections: u64) -> Joined {
    Joined {
        answer,
        at: 0,
        sections,
        too_long: false,
    }
}

// One target more, by a single call in `out`.
fn join(
    rec: &[u8],
    asking: &mut [u8],
    out: &mut [u8],
    whole: &mut [u8],
    j: Joined,
    head: Part,
    name: Part,
) -> Joined {
    let n = put_asking(rec, asking, head, name);
    if 16384 < n {
        return Joined {
            answer: 0,
            too_long: true,
            ..j
        };
    }
    let word = lowering::lower(console::front(asking, n), out);
    let answer = target_answer(word);
    if answer != 0 {
        return Joined {
            answer,
            too_long: false,
            ..j
        };
    }
    let lines = console::front(out, console::lines_length(word));
    let at = put_section(whole, j.at, names::part(rec, name), lines);
    Joined {
        answer: 0,
        at,
        sections: console::plus_one(j.sections),
        too_long: false,
    }
}

// All targets of a record that passes the refusals before them: it has 32 at most. The first that is refused ends it.
fn join_all(
    rec: &[u8],
    asking: &mut [u8],
    out: &mut [u8],
    whole: &mut [u8],
    sections: u64,
    head: Part,
) -> Joined {
    let mut j = begun(0, sections);
    let mut at = 0;
    for _ in 0..33 {
        let Some((name, _)) = next_target(rec, at) else {
            return j;
        };
        j = join(rec, asking, out, whole, j, head, name);
        if j.answer != 0 || j.too_long {
            return j;
        }
        at = name.end;
    }
    j
}

// ---- a case

// Whether a refusal comes before any target: 1 to 9, 16 and 17.
#[tactic(auto, using(crate::proofs::Targets::early))]
fn is_early(answer: u64) -> bool
    ensures { result ≡ is_early answer }
{
    if answer == 0 {
        return false;
    }
    if answer < 10 {
        return true;
    }
    15 < answer
}

// All targets of a case with this answer. A record that is refused before any target is refused alike for all of them.
fn join_calls(
    rec: &[u8],
    asking: &mut [u8],
    out: &mut [u8],
    whole: &mut [u8],
    sections: u64,
    answer: u64,
) -> Joined {
    if is_early(answer) {
        return begun(answer, sections);
    }
    match name_behind(rec, 0, b"endian=little\ntarget=", b"endian=big\ntarget=") {
        Some((head, _)) => join_all(rec, asking, out, whole, sections, head),
        None => begun(answer, sections),
    }
}

// Whether all targets are answered as single calls joined say.
fn is_joined(rec: &[u8], out: &mut [u8], whole: &[u8], j: Joined) -> bool {
    if j.too_long {
        return true;
    }
    let answer = j.answer;
    if answer != 0 {
        return is_given_in_every_room(rec, out, Asked::All, answer, b"");
    }
    let n = j.at;
    if whole.len() < n {
        return is_given_in_every_room(rec, out, Asked::All, 15, b"");
    }
    is_given_in_every_room(rec, out, Asked::All, 0, console::front(whole, n))
}

// ---- the stream

#[derive(Clone, Copy, Debug, PartialEq, Eq)]
struct Tally {
    cases: u64,
    accepted: u64,
    sections: u64,
    too_long: u64,
    differ: u64,
}

// One case more, for one target, and for all of them by what the single calls came to.
fn tallied<W: Write>(
    to: &mut W,
    t: Tally,
    answer: u64,
    j: Joined,
    agreed: bool,
) -> io::Result<Tally> {
    let cases = console::plus_one(t.cases);
    let accepted = if answer == 0 {
        console::plus_one(t.accepted)
    } else {
        t.accepted
    };
    let too_long = if j.too_long {
        console::plus_one(t.too_long)
    } else {
        t.too_long
    };
    let differ = if agreed {
        t.differ
    } else {
        differs(to, t.differ, cases)?
    };
    Ok(Tally {
        cases,
        accepted,
        sections: j.sections,
        too_long,
        differ,
    })
}

// A case that differs is printed.
fn differs<W: Write>(to: &mut W, n: u64, case: u64) -> io::Result<u64> {
    console::print_number(to, b"differs", case)?;
    Ok(console::plus_one(n))
}

// Replays a case, whose record and lines stand in the window.
fn replay_case<W: Write>(
    to: &mut W,
    window: &[u8],
    asking: &mut [u8],
    out: &mut [u8],
    whole: &mut [u8],
    t: Tally,
    case: Case,
) -> io::Result<Tally> {
    let rec = names::part(window, case.rec);
    let lines = names::part(window, case.lines);
    let j = join_calls(rec, asking, out, whole, t.sections, case.answer);
    let agreed = is_given_in_every_room(rec, out, Asked::One, case.answer, lines)
        && is_joined(rec, out, whole, j);
    tallied(to, t, case.answer, j, agreed)
}

// Replays the stream to its end, or to where it is no stream of cases, which a line `broken=N` says, behind the Nth case. A proved loop has
// to end, so it has so many turns that no run uses them up.
fn replay<R: Read, W: Write>(
    from: &mut R,
    to: &mut W,
    window: &mut [u8],
    asking: &mut [u8],
    out: &mut [u8],
    whole: &mut [u8],
) -> io::Result<Tally> {
    let mut t = Tally {
        cases: 0,
        accepted: 0,
        sections: 0,
        too_long: 0,
        differ: 0,
    };
    let mut at = 0;
    let mut end = 0;
    for _ in 0..u64::MAX {
        match cases::next_case(from, window, at, end) {
            Ok(Some((case, filled))) => {
                t = replay_case(to, window, asking, out, whole, t, case)?;
                at = case.lines.end;
                end = filled;
            }
            Ok(None) => {
                return Ok(t);
            }
            Err(_) => {
                console::print_number(to, b"broken", t.cases)?;
                return Ok(t);
            }
        }
    }
    Ok(t)
}

// The program, at any input and output.
fn run<R: Read, W: Write>(from: &mut R, to: &mut W) -> io::Result<()> {
    let mut window = [0u8; 131072];
    let mut asking = [0u8; 16448];
    let mut out = [0u8; 65536];
    let mut whole = [0u8; 65536];
    let t = replay(from, to, &mut window, &mut asking, &mut out, &mut whole)?;
    console::print_number(to, b"cases", t.cases)?;
    console::print_number(to, b"accepted", t.accepted)?;
    console::print_number(to, b"sections", t.sections)?;
    console::print_number(to, b"too_long", t.too_long)?;
    console::print_number(to, b"differ", t.differ)
}

fn main(rt: HostRuntime) {
    let _ = run(&mut rt.stdin(), &mut rt.stdout());
}
