// The block of an optional field: `parse_optional_field` of cxx.rs. The texts are those of definitions' Blocks.
#![tactic(auto)]

ghost use Rattle.std.specs.Prelude.{[]};
ghost use Rattle.definitions.specs.Bytes.{text as bytes};
ghost use Rattle.definitions.specs.Blocks.{named, Block};
ghost use Rattle.text.specs.Wrote.{Wrote};
ghost use Rattle.stream.specs.Stream.{block_text};
ghost use Rattle.optional_lines.specs.Texts.{when_text, room_text, raw_text};

use definitions::{Arrays, EndiannessValue, Options};
use text::Writer;

// `if (c == v) {`
fn put_when(w: &mut Writer, cond: &[u8], value: u64)
    ensures { Wrote w.old w.new (when_text cond.now value []) }
{
    w.name(b"if (", cond, b" == ");
    w.number(b"", value, b") {\n");
}

// `if (c == v) {`, and the check of a field of so many bits.
fn put_room(w: &mut Writer, cond: &[u8], value: u64, width: u64)
    ensures { Wrote w.old w.new (room_text cond.now value width []) }
{
    put_when(w, cond, value);
    w.number(
        b"    if (span.size() < ",
        width / 8,
        b") {\n        return false;\n    }\n",
    );
}

pub fn put_optional_scalar(
    w: &mut Writer,
    cond: &[u8],
    value: u64,
    width: u64,
    options: Options,
    id: &[u8],
)
    ensures { Wrote w.old w.new
        (block_text (Block.optional_scalar cond.now value options.endianness width (named options.arrays id.now (bytes "_")))) }
{
    put_room(w, cond, value, width);
    expressions::put_named(w, b"    ", options.arrays, id, b"_", b" = ");
    expressions::put_read(w, b"", b"span", options.endianness, width, b";\n}\n");
}

pub fn put_optional_open(
    w: &mut Writer,
    cond: &[u8],
    value: u64,
    width: u64,
    options: Options,
    id: &[u8],
    type_id: &[u8],
)
    ensures { Wrote w.old w.new
        (block_text (Block.optional_open cond.now value options.endianness width
        (named options.arrays id.now (bytes "_")) type_id.now)) }
{
    put_room(w, cond, value, width);
    expressions::put_named(w, b"    ", options.arrays, id, b"_", b" = ");
    w.put(type_id);
    expressions::put_read(w, b"(", b"span", options.endianness, width, b");\n}\n");
}

// The condition, the check, the value and its test.
fn put_raw_value(
    w: &mut Writer,
    cond: &[u8],
    value: u64,
    endianness: EndiannessValue,
    width: u64,
    type_id: &[u8],
)
    ensures { Wrote w.old w.new (raw_text cond.now value endianness width type_id.now []) }
{
    put_room(w, cond, value, width);
    expressions::put_read(
        w,
        b"    auto raw_value = ",
        b"span",
        endianness,
        width,
        b";\n",
    );
    w.name(
        b"    if (!IsValid",
        type_id,
        b"(raw_value)) {\n       return false;\n    }\n",
    );
}

pub fn put_optional_closed(
    w: &mut Writer,
    cond: &[u8],
    value: u64,
    width: u64,
    options: Options,
    id: &[u8],
    type_id: &[u8],
)
    ensures { Wrote w.old w.new
        (block_text (Block.optional_closed cond.now value options.endianness width
        (named options.arrays id.now (bytes "_")) type_id.now)) }
{
    put_raw_value(w, cond, value, options.endianness, width, type_id);
    expressions::put_named(w, b"    ", options.arrays, id, b"_", b" = ");
    w.name(b"", type_id, b"(raw_value);\n}\n");
}

pub fn put_optional_nested(
    w: &mut Writer,
    cond: &[u8],
    value: u64,
    arrays: Arrays,
    id: &[u8],
    type_id: &[u8],
)
    ensures { Wrote w.old w.new
        (block_text (Block.optional_nested cond.now value (named arrays id.now (bytes "_")) type_id.now)) }
{
    put_when(w, cond, value);
    expressions::put_named(
        w,
        b"    auto& opt_output = ",
        arrays,
        id,
        b"_",
        b".emplace();\n    if (!",
    );
    w.name(
        b"",
        type_id,
        b"::Parse(span, &opt_output)) {\n        return false;\n    }\n}\n",
    );
}
