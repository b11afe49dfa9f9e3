// `parse_array_field_lite` of cxx.rs: the lines of an array in lite mode, by element size and array size, twelve of the 24 shapes. No element is
// read: the array keeps its part of the span. The shapes of full mode stand apart (full_arrays), since each has lines of its own.
#![tactic(auto)]

ghost use Rattle.text.specs.Wrote.{Wrote};
ghost use Rattle.expressions.specs.Statements.{stmt_bytes, stmts_bytes};
ghost use Rattle.array_lines.specs.Products.{ProductFits};
ghost use Rattle.lite_arrays.specs.Statements.{zero_test, cut_stmts, taken_stmts, product_stmts, whole_stmts, eaten_stmt, parsed_span};
ghost use Rattle.lite_arrays.specs.Shapes.{lite_text};
ghost use Rattle.definitions.specs.declared.Products.{Products};

use definitions::{ArraySize, Arrays, ElementSize, Products};
use elements::{Loop, Names};
use expressions::{Amount, Term};
use text::Writer;

// ---- statements

// `if ({id}_element_size_ == 0) {` ..
fn put_zero(w: &mut Writer, id: &[u8])
    ensures { Wrote w.old w.new (stmt_bytes (zero_test id.now)) }
{
    expressions::put_amount(
        w,
        b"if (",
        Arrays::Lite,
        id,
        Amount::Of(Term::ElementSize),
        b" == 0) {\n    return false;\n}\n",
    );
}

// `{id}_ = span.subrange(0, e);`, `span.skip(e);`
fn put_cut(w: &mut Writer, id: &[u8], amount: Amount)
    ensures { Wrote w.old w.new (stmts_bytes (cut_stmts id.now amount)) }
{
    expressions::put_target(w, Arrays::Lite, id, b"_");
    expressions::put_amount(
        w,
        b" = span.subrange(0, ",
        Arrays::Lite,
        id,
        amount,
        b");\n",
    );
    array_lines::put_skip(w, Arrays::Lite, id, amount);
}

// The same behind the check of so many bytes.
fn put_taken(w: &mut Writer, id: &[u8], amount: Amount)
    ensures { Wrote w.old w.new (stmts_bytes (taken_stmts id.now amount)) }
{
    expressions::check_size(w, Arrays::Lite, id, amount);
    put_cut(w, id, amount);
}

// And behind the check of e * n bytes.
fn put_product(w: &mut Writer, products: Products, id: &[u8], element: Term, count: Term)
    ensures { Wrote w.old w.new (stmts_bytes (product_stmts products id.now element count)) }
{
    array_lines::check_product(w, products, Arrays::Lite, id, element, count);
    put_cut(w, id, Amount::Product(element, count));
}

// `{id}_ = span;`, `span.clear();`
fn put_whole(w: &mut Writer, id: &[u8])
    ensures { Wrote w.old w.new (stmts_bytes (whole_stmts id.now)) }
{
    expressions::put_named(w, b"", Arrays::Lite, id, b"_", b" = span;\nspan.clear();\n");
}

// `{id}_ = {id}_.subrange(0, {id}_.size() - span.size());`
fn put_eaten(w: &mut Writer, id: &[u8])
    ensures { Wrote w.old w.new (stmt_bytes (eaten_stmt id.now)) }
{
    w.name(id, b"_ = ", id);
    w.name(b"_.subrange(0, ", id, b"_.size() - span.size());\n");
}

// What a loop of parsers eats.
fn put_parsed_span(w: &mut Writer, names: &Names, head: Loop)
    ensures { Wrote w.old w.new (stmts_bytes (parsed_span names.now.id.now names.now.type_id.now head)) }
{
    expressions::put_named(w, b"", Arrays::Lite, names.id, b"_", b" = span;\n");
    elements::put_parsing(w, names, head);
    put_eaten(w, names.id);
}

// ---- shapes, by element size

fn put_static_lite(
    w: &mut Writer,
    products: Products,
    names: &Names,
    element_size: u64,
    array_size: ArraySize,
)
    requires { ProductFits (ElementSize.Static element_size) array_size }
    ensures { Wrote w.old w.new
        (lite_text products names.now.id.now names.now.type_id.now (ElementSize.Static element_size) array_size) }
{
    match array_size {
        ArraySize::StaticCount(count) => {
            let total_size = element_size * count;
            put_taken(w, names.id, Amount::Of(Term::Literal(total_size)));
        }
        ArraySize::DynamicCount => put_product(
            w,
            products,
            names.id,
            Term::Literal(element_size),
            Term::Count,
        ),
        ArraySize::DynamicSize => {
            expressions::check_size(w, Arrays::Lite, names.id, Amount::Of(Term::Size));
            array_lines::put_ragged(
                w,
                Arrays::Lite,
                names.id,
                Term::Size,
                Term::Literal(element_size),
            );
            put_cut(w, names.id, Amount::Of(Term::Size));
        }
        ArraySize::Unknown => {
            array_lines::put_ragged(
                w,
                Arrays::Lite,
                names.id,
                Term::Rest,
                Term::Literal(element_size),
            );
            put_whole(w, names.id);
        }
    }
}

fn put_dynamic_lite(w: &mut Writer, products: Products, names: &Names, array_size: ArraySize)
    ensures { Wrote w.old w.new
        (lite_text products names.now.id.now names.now.type_id.now ElementSize.Dynamic array_size) }
{
    match array_size {
        ArraySize::StaticCount(count) => {
            put_zero(w, names.id);
            put_product(
                w,
                products,
                names.id,
                Term::ElementSize,
                Term::Literal(count),
            );
        }
        ArraySize::DynamicCount => {
            put_zero(w, names.id);
            put_product(w, products, names.id, Term::ElementSize, Term::Count);
        }
        ArraySize::DynamicSize => {
            expressions::check_size(w, Arrays::Lite, names.id, Amount::Of(Term::Size));
            array_lines::put_ragged_or_zero(w, Arrays::Lite, names.id, Term::Size);
            put_cut(w, names.id, Amount::Of(Term::Size));
        }
        ArraySize::Unknown => {
            array_lines::put_ragged_or_zero(w, Arrays::Lite, names.id, Term::Rest);
            put_whole(w, names.id);
        }
    }
}

// No product is checked here, under either word.
fn put_unknown_lite(w: &mut Writer, names: &Names, array_size: ArraySize)
    ensures { Wrote w.old w.new
        (lite_text Products.Plain names.now.id.now names.now.type_id.now ElementSize.Unknown array_size) }
{
    match array_size {
        ArraySize::StaticCount(count) => put_parsed_span(
            w,
            names,
            Loop::Times(Amount::Of(Term::Literal(count))),
        ),
        ArraySize::DynamicCount => put_parsed_span(w, names, Loop::Times(Amount::Of(Term::Count))),
        ArraySize::DynamicSize => put_taken(w, names.id, Amount::Of(Term::Size)),
        ArraySize::Unknown => put_parsed_span(w, names, Loop::WhileRest),
    }
}

pub fn parse_array_field_lite(
    w: &mut Writer,
    products: Products,
    names: &Names,
    element_size: ElementSize,
    array_size: ArraySize,
)
    requires { ProductFits element_size array_size }
    ensures { Wrote w.old w.new
        (lite_text products names.now.id.now names.now.type_id.now element_size array_size) }
{
    match element_size {
        ElementSize::Static(size) => put_static_lite(w, products, names, size, array_size),
        ElementSize::Dynamic => put_dynamic_lite(w, products, names, array_size),
        ElementSize::Unknown => put_unknown_lite(w, names, array_size),
    }
}
