// The block of an array with its padding: what `parse` of cxx.rs appends around an array that has a padded size. The texts are those of definitions'
// Blocks.
#![tactic(auto)]

ghost use Rattle.definitions.specs.Blocks.{Block};
ghost use Rattle.text.specs.Wrote.{Wrote};
ghost use Rattle.stream.specs.Stream.{block_text};
ghost use Rattle.arrays.specs.Shapes.{ProductFits, array_of};
ghost use Rattle.padding_lines.specs.Texts.{missing_text, padding_text};

use arrays::ArrayShape;
use definitions::Options;
use elements::Names;
use text::Writer;

// `P - ({id}_start_size - span.size())`, between two pieces.
fn put_missing(w: &mut Writer, before: &[u8], id: &[u8], n: u64, behind: &[u8])
    ensures { Wrote w.old w.new (missing_text before.now id.now n behind.now) }
{
    w.number(before, n, b" - (");
    w.name(id, b"_start_size - span.size())", behind);
}

// The padding after an array.
fn put_padding(w: &mut Writer, id: &[u8], n: u64)
    ensures { Wrote w.old w.new (padding_text id.now n) }
{
    w.name(b"if (", id, b"_start_size - span.size() < ");
    w.number(b"", n, b") {\n");
    put_missing(w, b"    if (span.size() < ", id, n, b") return false;\n");
    put_missing(w, b"    span.skip(", id, n, b");\n}\n");
}

pub fn put_padded_array(
    w: &mut Writer,
    padding: u64,
    options: Options,
    names: &Names,
    shape: ArrayShape,
)
    requires { ProductFits shape.element_size shape.array_size }
    ensures { Wrote w.old w.new
        (block_text (Block.padded_array padding shape.modifier 64
        (array_of options names.now.id.now names.now.type_id.now shape.element shape.element_size shape.array_size))) }
{
    w.name(b"size_t ", names.id, b"_start_size = span.size();\n");
    arrays::put_array(w, options, names, shape);
    put_padding(w, names.id, padding);
}
