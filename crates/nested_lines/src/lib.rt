// The block of a typedef that is no bit field: `parse_typedef_field` of cxx.rs. The texts are those of definitions' Blocks.
#![tactic(auto)]

ghost use Rattle.std.specs.Prelude.{[]};
ghost use Rattle.definitions.specs.Bytes.{text as bytes};
ghost use Rattle.definitions.specs.Blocks.{named, Block};
ghost use Rattle.text.specs.Wrote.{Wrote};
ghost use Rattle.stream.specs.Stream.{block_text};
ghost use Rattle.nested_lines.specs.Texts.{span_text, parse_span_text};

use definitions::Arrays;
use text::Writer;

// A nested parser on the span.
pub fn put_nested(w: &mut Writer, arrays: Arrays, id: &[u8], type_id: &[u8])
    ensures { Wrote w.old w.new (block_text (Block.nested type_id.now (named arrays id.now (bytes "_")))) }
{
    w.name(b"if (!", type_id, b"::Parse(span, &");
    expressions::put_named(w, b"", arrays, id, b"_", b")) return false;\n");
}

// `pdl::packet::slice {id}_span = span.subrange(0, span.size() - N);` behind its check.
fn put_span(w: &mut Writer, id: &[u8], n: u64)
    ensures { Wrote w.old w.new (span_text id.now n []) }
{
    w.number(b"if (span.size() < ", n, b") return false;\n");
    w.name(
        b"pdl::packet::slice ",
        id,
        b"_span = span.subrange(0, span.size() - ",
    );
    w.number(b"", n, b");\n");
}

// A nested parser on that span, and the skip of what is left of it.
fn put_parse_span(w: &mut Writer, arrays: Arrays, id: &[u8], type_id: &[u8])
    ensures { Wrote w.old w.new (parse_span_text arrays id.now type_id.now) }
{
    w.name(b"if (!", type_id, b"::Parse(");
    w.name(b"", id, b"_span, &");
    expressions::put_named(w, b"", arrays, id, b"_", b")) return false;\nspan.skip(");
    w.name(b"", id, b"_span.size());\n");
}

// A nested parser on a part of the span before the trailing bytes.
pub fn put_nested_up_to(w: &mut Writer, arrays: Arrays, id: &[u8], n: u64, type_id: &[u8])
    ensures { Wrote w.old w.new (block_text (Block.nested_up_to id.now n type_id.now (named arrays id.now (bytes "_")))) }
{
    put_span(w, id, n);
    put_parse_span(w, arrays, id, type_id);
}
