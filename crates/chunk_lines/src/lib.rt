// A chunk of bit fields, by value, and the lines of a closed one: the later part of `parse_bit_field` of cxx.rs. A chunk of reserved fields only becomes
// one skip, a chunk of one field reads into it, a larger one into `chunk0`, `chunk1` and so on.
#![tactic(auto)]

ghost use Rattle.std.specs.Prelude.{◌≡◌, List, ℕ, ◌+◌, ◌<◌, ◌^◌};
ghost use Rattle.std.specs.List.{list_all};
ghost use Rattle.definitions.specs.Bytes.{Text};
ghost use Rattle.definitions.specs.Blocks.{Bit, raws_behind};
ghost use Rattle.text.specs.Wrote.{Wrote};
ghost use Rattle.stream.specs.Stream.{chunk_text};
ghost use Rattle.chunk_lines.specs.Bits.{is_reserved_at, next_raw_at, Narrow, Fits, alone_of, bits_of, bits_text, head_text, skip_text, chunk_of, Closed};

use bit_fields::{KindAt, RawValue, Source};
use definitions::{EndiannessValue, Options};
use text::Writer;

// The shifts and the widths of its fields, by value and of fixed size, since no memory is asked for; their kinds stand in an array beside the chunk.
#[derive(Clone, Copy, Debug, PartialEq, Eq)]
pub struct Chunk {
    pub shifts: [u64; 64],
    pub widths: [u64; 64],
    pub len: usize,
}

// A closed chunk as a whole: its number, how many tested enums are before it, its bits and their backing type, and whether all of its fields are
// reserved.
#[derive(Clone, Copy, Debug, PartialEq, Eq)]
pub struct WholeChunk {
    pub nr: u64,
    pub raws: u64,
    pub bits: u64,
    pub backing: u64,
    pub skip: bool,
}

fn is_reserved(k: KindAt) -> bool
    ensures { result ≡ is_reserved_at k }
{
    matches!(k, KindAt::Reserved)
}

// How many tested enums there are behind a field, where so many are before it: they alone take a number.
pub fn next_raw(raws: u64, k: KindAt) -> u64
    requires { raws + 1 < 2 ^ 64 }
    ensures { result ≡ next_raw_at raws k }
{
    match k {
        KindAt::ClosedEnum { .. } => raws + 1,
        _ => raws,
    }
}

// `should_skip_value`: the kinds are all reserved.
pub fn should_skip_value(kinds: &[KindAt]) -> bool
    ensures { result ≡ list_all is_reserved_at kinds.now }
{
    kinds.iter().all(|&k| is_reserved(k))
}

// The fields of a chunk that is held in a variable. The answer: how many tested enums the target has up to there.
fn put_bits<'a>(
    rec: &'a [u8],
    word: &'a [u8],
    w: &mut Writer,
    options: Options,
    c: Chunk,
    kinds: [KindAt; 64],
    whole: WholeChunk,
) -> u64
    requires { Narrow c × Fits whole }
    ensures { Wrote w.old w.new (bits_text options rec.now word.now whole c kinds c.len)
        × (result ≡ raws_behind whole.raws (bits_of options.arrays rec.now word.now c kinds c.len)) }
{
    let mut raws = whole.raws;
    for i in 0..c.len {
        let v = Source::Bits {
            nr: whole.nr,
            shift: c.shifts[i],
            mask: text::mask(c.widths[i]),
        };
        let x = RawValue {
            raw: options.raw,
            nr: raws,
        };
        bit_fields::put_kind(rec, word, w, options.arrays, x, v, kinds[i]);
        raws = next_raw(raws, kinds[i]);
    }
    raws
}

// `uintW_t chunkN = span.read_le<uintW_t, N>();`
fn put_head(w: &mut Writer, order: EndiannessValue, nr: u64, backing: u64, width: u64)
    ensures { Wrote w.old w.new (head_text order nr backing width) }
{
    w.number(b"uint", backing, b"_t chunk");
    w.number(b"", nr, b"");
    expressions::put_read(w, b" = ", b"span", order, width, b";\n");
}

// A skip of so many bits.
fn put_skip(w: &mut Writer, bits: u64)
    ensures { Wrote w.old w.new (skip_text bits) }
{
    w.number(b"span.skip(", bits / 8, b"); // skip reserved fields\n");
}

// The lines of a chunk of one field, which has no number; `raws` are the tested enums before it.
pub fn put_alone<'a>(
    rec: &'a [u8],
    word: &'a [u8],
    w: &mut Writer,
    options: Options,
    raws: u64,
    width: u64,
    kind: KindAt,
)
    ensures { let bs : List Bit = alone_of options.arrays rec.now word.now width kind in
        ((nr : ℕ) → Wrote w.old w.new (chunk_text options (chunk_of nr raws bs))) }
{
    if is_reserved(kind) {
        put_skip(w, width);
        return;
    }
    let v = Source::Read {
        order: options.endianness,
        width,
    };
    let x = RawValue {
        raw: options.raw,
        nr: raws,
    };
    bit_fields::put_kind(rec, word, w, options.arrays, x, v, kind);
}

// The lines of a larger chunk. The answer: how many tested enums the target has up to there.
pub fn put_chunk<'a>(
    rec: &'a [u8],
    word: &'a [u8],
    w: &mut Writer,
    options: Options,
    c: Chunk,
    kinds: [KindAt; 64],
    whole: WholeChunk,
) -> u64
    requires { Closed c kinds whole × Fits whole }
    ensures { let bs : List Bit = bits_of options.arrays rec.now word.now c kinds c.len in
        Wrote w.old w.new (chunk_text options (chunk_of whole.nr whole.raws bs))
        × (result ≡ raws_behind whole.raws bs) }
{
    if whole.skip {
        put_skip(w, whole.bits);
        return whole.raws;
    }
    put_head(w, options.endianness, whole.nr, whole.backing, whole.bits);
    put_bits(rec, word, w, options, c, kinds, whole)
}
