// Chunks and their checks: what `parse_bit_field` does to its chunk, `check_size` and `check_code` of cxx.rs, with refusals 10 and 12.
// Chunk and state go in and come back by value; the kinds of the chunk's fields stay with the driver, which hands them over where the chunk closes.
// A run's lines are not held back: its check is written before its first chunk, with the bits that follow in the run as `later`.
#![tactic(auto)]

ghost use Rattle.std.specs.Prelude.{List, [], ◌≡◌, ◌+◌, ◌<◌, ◌^◌};
ghost use Rattle.definitions.specs.Bytes.{text};
ghost use Rattle.definitions.specs.Blocks.{Bit};
ghost use Rattle.stream.specs.Stream.{check_text};
ghost use Rattle.text.specs.Wrote.{Wrote};
ghost use Rattle.chunk_lines.specs.Bits.{alone_of, bits_of};
ghost use Rattle.chunks.specs.Steps.{no_fields, new_state, pushed, opened_state, next_by, closed_state, code_verdict};
ghost use Rattle.chunks.specs.Steps.{seen, alone_at, close_advance, Closing, Advanced};

use bit_fields::KindAt;
use chunk_lines::{Chunk, WholeChunk};
use definitions::{Options, Refusal};
use text::Writer;

// What the parser keeps beside its open chunk: the chunk's bits, the number of the next chunk that has one, how many tested enums the closed chunks have,
// and whether the present run has its check.
#[derive(Clone, Copy, Debug, PartialEq, Eq)]
pub struct State {
    pub shift: u64,
    pub nr: u64,
    pub raws: u64,
    pub pending: bool,
}

// `new`: before the first field.
pub fn new() -> State
    ensures { result ≡ new_state }
{
    State {
        shift: 0,
        nr: 0,
        raws: 0,
        pending: false,
    }
}

// ---- the open chunk

// A chunk without fields.
pub fn empty() -> Chunk
    ensures { result ≡ no_fields }
{
    Chunk {
        shifts: [0; 64],
        widths: [0; 64],
        len: 0,
    }
}

// The chunk with one field more.
pub fn push(c: Chunk, shift: u64, width: u64) -> Chunk
    requires { c.len < 64 }
    ensures { result ≡ pushed c shift width }
{
    let mut d = c;
    d.shifts[c.len] = shift;
    d.widths[c.len] = width;
    d.len = c.len + 1;
    d
}

// The same in place, as `&mut self` does it: one thin step that calls the by-value one.
pub fn push_in(c: &mut Chunk, shift: u64, width: u64)
    requires { c.old.len < 64 }
    ensures { c.new ≡ pushed c.old shift width }
{
    *c = push(*c, shift, width);
}

// The chunk with one field more, changed in place.
pub fn grow(c: Chunk, shift: u64, width: u64) -> Chunk
    requires { c.len < 64 }
    ensures { result ≡ pushed c shift width }
{
    let mut d = c;
    push_in(&mut d, shift, width);
    d
}

// The state with so many bits more in its chunk.
pub fn opened(t: State, width: u64) -> State
    requires { t.shift + width < 2 ^ 64 }
    ensures { result ≡ opened_state t width }
{
    State {
        shift: t.shift + width,
        ..t
    }
}

// ---- a chunk that closes

// The number of the next chunk: it goes up only for a chunk of more than one field that is no skip.
fn next_nr(skip: bool, nr: u64) -> u64
    requires { nr + 1 < 2 ^ 64 }
    ensures { result ≡ next_by skip nr }
{
    if skip { nr } else { nr + 1 }
}

// `check_size`, before the first chunk of a run only.
pub fn check_size(w: &mut Writer, pending: bool, n: u64)
    ensures { Wrote w.old w.new (check_text pending n) }
{
    if !pending {
        w.number(b"if (span.size() < ", n, b") {\n    return false;\n}\n");
    }
}

// The state behind a chunk that closed: the run has its check.
fn closed(nr: u64, raws: u64) -> State
    ensures { result ≡ closed_state nr raws }
{
    State {
        shift: 0,
        nr,
        raws,
        pending: true,
    }
}

// A field alone in its chunk, of whole octets: 12, or the check of its run where it is the first, and its lines. `later` are the bits of the bit fields
// behind it up to the next other field.
pub fn close_alone<'a>(
    rec: &'a [u8],
    w: &mut Writer,
    options: Options,
    t: State,
    width: u64,
    later: u64,
    kind: KindAt,
) -> Result<State, Refusal>
    requires { (width + later < 2 ^ 64) × (t.raws + 1 < 2 ^ 64) }
    ensures { let bs : List Bit = alone_of options.arrays rec.now (text "payload") width kind in
        Advanced (close_advance options (alone_at t width bs) later) [] w.old w.new result }
{
    text::get_cxx_scalar_type(width).ok_or(Refusal::ScalarTooWide)?;
    check_size(w, t.pending, (width + later) / 8);
    chunk_lines::put_alone(rec, b"payload", w, options, t.raws, width, kind);
    Ok(closed(t.nr, chunk_lines::next_raw(t.raws, kind)))
}

// A chunk of two fields or more is at an octet boundary, with the bits of the state.
pub fn close<'a>(
    rec: &'a [u8],
    w: &mut Writer,
    options: Options,
    t: State,
    c: Chunk,
    kinds: [KindAt; 64],
    later: u64,
) -> Result<State, Refusal>
    requires { Closing t c later }
    ensures { let bs : List Bit = bits_of options.arrays rec.now (text "payload") c kinds c.len in
        Advanced (close_advance options (seen t bs) later) [] w.old w.new result }
{
    let backing = text::get_cxx_scalar_type(t.shift).ok_or(Refusal::ScalarTooWide)?;
    let skip = chunk_lines::should_skip_value(&kinds[..c.len]);
    let whole = WholeChunk {
        nr: t.nr,
        raws: t.raws,
        bits: t.shift,
        backing,
        skip,
    };
    check_size(w, t.pending, (t.shift + later) / 8);
    let raws = chunk_lines::put_chunk(rec, b"payload", w, options, c, kinds, whole);
    Ok(closed(next_nr(skip, t.nr), raws))
}

// `check_code`, of an open chunk of so many fields: before a field that is no bit field, and at the end. The lines are written already.
pub fn check_code(pending: bool, len: usize) -> Result<(), Refusal>
    ensures { result ≡ code_verdict pending len }
{
    if pending && len != 0 {
        return Err(Refusal::OpenChunk);
    }
    Ok(())
}
