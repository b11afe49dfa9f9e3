// The block of a payload or a body: `parse_payload_field_lite` of cxx.rs. The texts are those of definitions' Blocks.
#![tactic(auto)]

ghost use Rattle.std.specs.Prelude.{◌++◌};
ghost use Rattle.definitions.specs.Bytes.{text as bytes};
ghost use Rattle.definitions.specs.Lines.{expr_text};
ghost use Rattle.definitions.specs.Blocks.{named, actual_size, Block};
ghost use Rattle.text.specs.Wrote.{Wrote};
ghost use Rattle.stream.specs.Stream.{block_text};
ghost use Rattle.payload_lines.specs.Texts.{changed_size};

use definitions::{Arrays, Modifier};
use text::Writer;

// `(x - 5)`, `(x + 5)` of the size variable, between two pieces.
fn put_changed_size(
    w: &mut Writer,
    before: &[u8],
    arrays: Arrays,
    word: &[u8],
    sign: &[u8],
    n: u64,
    behind: &[u8],
)
    ensures { Wrote w.old w.new
        (changed_size before.now (named arrays word.now (bytes "_size_")) sign.now n behind.now) }
{
    w.put(before);
    expressions::put_named(w, b"(", arrays, word, b"_size_", sign);
    w.number(b"", n, b")");
    w.put(behind);
}

// The payload's size, between two pieces.
fn put_actual_size(
    w: &mut Writer,
    before: &[u8],
    arrays: Arrays,
    word: &[u8],
    modifier: Modifier,
    behind: &[u8],
)
    ensures { Wrote w.old w.new
        (before.now ++ expr_text (actual_size modifier (named arrays word.now (bytes "_size_"))) behind.now) }
{
    match modifier {
        Modifier::None => expressions::put_named(w, before, arrays, word, b"_size_", behind),
        Modifier::Plus(n) => put_changed_size(w, before, arrays, word, b" - ", n, behind),
        Modifier::Minus(n) => put_changed_size(w, before, arrays, word, b" + ", n, behind),
    }
}

// A payload by its size.
pub fn put_sized_payload(w: &mut Writer, arrays: Arrays, word: &[u8], modifier: Modifier)
    ensures { Wrote w.old w.new
        (block_text (Block.sized_payload (named arrays word.now (bytes "_")) (named arrays word.now (bytes "_size_")) modifier)) }
{
    put_actual_size(
        w,
        b"if (span.size() < ",
        arrays,
        word,
        modifier,
        b") return false;\n",
    );
    expressions::put_target(w, arrays, word, b"_");
    put_actual_size(w, b" = span.subrange(0, ", arrays, word, modifier, b");\n");
    put_actual_size(w, b"span.skip(", arrays, word, modifier, b");\n");
}

// A payload up to the trailing bytes.
pub fn put_payload_up_to(w: &mut Writer, arrays: Arrays, word: &[u8], n: u64)
    ensures { Wrote w.old w.new (block_text (Block.payload_up_to (named arrays word.now (bytes "_")) n)) }
{
    w.number(b"if (span.size() < ", n, b") return false;\n");
    expressions::put_target(w, arrays, word, b"_");
    w.number(b" = span.subrange(0, span.size() - ", n, b");\n");
    w.number(b"span.skip(span.size() - ", n, b");\n");
}

// A payload to the end.
pub fn put_payload_to_end(w: &mut Writer, arrays: Arrays, word: &[u8])
    ensures { Wrote w.old w.new (block_text (Block.payload_to_end (named arrays word.now (bytes "_")))) }
{
    expressions::put_named(w, b"", arrays, word, b"_", b" = span;\nspan.clear();\n");
}
