// An array's lines: the size modifier, and the shape of the mode.
#![tactic(auto)]

ghost use Rattle.definitions.specs.Bytes.{text as bytes};
ghost use Rattle.definitions.specs.Blocks.{named};
ghost use Rattle.text.specs.Wrote.{Wrote};
ghost use Rattle.arrays.specs.Shapes.{ProductFits, modified_text, modifier_text, array_text};

use definitions::{ArraySize, Arrays, ElementSize, Modifier, Options};
use elements::{Element, Names};
use text::Writer;

// `x = x - m;` of the size variable: the sign, and the number.
fn put_modified(w: &mut Writer, arrays: Arrays, id: &[u8], sign: &[u8], n: u64)
    ensures { Wrote w.old w.new (modified_text (named arrays id.now (bytes "_size_")) sign.now n) }
{
    expressions::put_named(w, b"", arrays, id, b"_size_", b" = ");
    expressions::put_target(w, arrays, id, b"_size_");
    w.number(sign, n, b";\n");
}

fn put_modifier(w: &mut Writer, arrays: Arrays, id: &[u8], modifier: Modifier)
    ensures { Wrote w.old w.new (modifier_text arrays id.now modifier) }
{
    match modifier {
        Modifier::None => {}
        Modifier::Plus(n) => put_modified(w, arrays, id, b" - +", n),
        Modifier::Minus(n) => put_modified(w, arrays, id, b" - -", n),
    }
}

// What of an array its lines depend on, beside its names.
#[derive(Clone, Copy, Debug, PartialEq, Eq)]
pub struct ArrayShape {
    pub element: Element,
    pub modifier: Modifier,
    pub element_size: ElementSize,
    pub array_size: ArraySize,
}

// An array's lines, with its size modifier.
pub fn put_array(w: &mut Writer, options: Options, names: &Names, shape: ArrayShape)
    requires { ProductFits shape.element_size shape.array_size }
    ensures { Wrote w.old w.new
        (array_text options names.now.id.now names.now.type_id.now shape.element shape.modifier shape.element_size shape.array_size) }
{
    put_modifier(w, options.arrays, names.id, shape.modifier);
    match options.arrays {
        Arrays::Lite => lite_arrays::parse_array_field_lite(
            w,
            options.products,
            names,
            shape.element_size,
            shape.array_size,
        ),
        Arrays::Full => full_arrays::parse_array_field_full(
            w,
            options.products,
            names,
            shape.element,
            shape.element_size,
            shape.array_size,
        ),
    }
}
