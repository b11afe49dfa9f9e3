// `parse_array_field_full` of cxx.rs: the lines of an array in full mode, by element size and array size, twelve of the 24 shapes. Each element is
// read, and stored. The shapes of lite mode stand apart (lite_arrays), since each has lines of its own.
#![tactic(auto)]

ghost use Rattle.text.specs.Wrote.{Wrote};
ghost use Rattle.expressions.specs.Statements.{stmt_bytes, stmts_bytes};
ghost use Rattle.array_lines.specs.Products.{ProductFits};
ghost use Rattle.full_arrays.specs.Statements.{own_count_stmt, own_span_stmt, counted_stmts, product_parts, counted_parts};
ghost use Rattle.full_arrays.specs.Shapes.{full_text};
ghost use Rattle.definitions.specs.declared.Products.{Products};

use definitions::{ArraySize, Arrays, ElementSize, Products};
use elements::{Element, Loop, Names, Place, Source};
use expressions::{Amount, Term};
use text::Writer;

// ---- statements

// `auto {id}_count_ = s / e;`
fn put_own_count(w: &mut Writer, id: &[u8], size: Term, element: Term)
    ensures { Wrote w.old w.new (stmt_bytes (own_count_stmt id.now size element)) }
{
    expressions::put_named(w, b"auto ", Arrays::Lite, id, b"_count_", b" = ");
    expressions::put_amount(
        w,
        b"",
        Arrays::Full,
        id,
        Amount::Quotient(size, element),
        b";\n",
    );
}

// `auto {id}_span = span.subrange(0, output->{id}_size_);`
fn put_own_span(w: &mut Writer, id: &[u8])
    ensures { Wrote w.old w.new (stmt_bytes (own_span_stmt id.now)) }
{
    expressions::put_named(
        w,
        b"auto ",
        Arrays::Lite,
        id,
        b"_span",
        b" = span.subrange(0, ",
    );
    expressions::put_amount(w, b"", Arrays::Full, id, Amount::Of(Term::Size), b");\n");
}

// `auto {id}_count_ = s / e;`, and as many elements.
fn put_counted(w: &mut Writer, names: &Names, size: Term, element_size: u64, element: Element)
    ensures { Wrote w.old w.new
        (stmts_bytes (counted_stmts names.now.id.now names.now.type_id.now size element_size element)) }
{
    array_lines::put_ragged(w, Arrays::Full, names.id, size, Term::Literal(element_size));
    put_own_count(w, names.id, size, Term::Literal(element_size));
    elements::put_elements(
        w,
        names,
        Loop::Times(Amount::Of(Term::OwnCount)),
        element,
        Place::Push,
    );
}

// The check of e * n bytes, n parts, and the skip behind them.
fn put_product_parts(w: &mut Writer, products: Products, names: &Names, count: Term)
    ensures { Wrote w.old w.new
        (stmts_bytes (product_parts products names.now.id.now names.now.type_id.now count)) }
{
    array_lines::check_product(
        w,
        products,
        Arrays::Full,
        names.id,
        Term::ElementSize,
        count,
    );
    elements::put_parts(w, names, Loop::Times(Amount::Of(count)));
    array_lines::put_skip(
        w,
        Arrays::Full,
        names.id,
        Amount::Product(Term::ElementSize, count),
    );
}

// `auto {id}_count_ = s / e;` behind its test, and as many parts.
fn put_counted_parts(w: &mut Writer, names: &Names, size: Term)
    ensures { Wrote w.old w.new (stmts_bytes (counted_parts names.now.id.now names.now.type_id.now size)) }
{
    array_lines::put_ragged_or_zero(w, Arrays::Full, names.id, size);
    put_own_count(w, names.id, size, Term::ElementSize);
    elements::put_parts(w, names, Loop::Times(Amount::Of(Term::OwnCount)));
}

// ---- shapes, by element size

fn put_static_full(
    w: &mut Writer,
    products: Products,
    names: &Names,
    element: Element,
    element_size: u64,
    array_size: ArraySize,
)
    requires { ProductFits (ElementSize.Static element_size) array_size }
    ensures { Wrote w.old w.new
        (full_text products names.now.id.now names.now.type_id.now element (ElementSize.Static element_size) array_size) }
{
    match array_size {
        ArraySize::StaticCount(count) => {
            let total_size = element_size * count;
            expressions::check_size(
                w,
                Arrays::Full,
                names.id,
                Amount::Of(Term::Literal(total_size)),
            );
            elements::put_elements(
                w,
                names,
                Loop::Times(Amount::Of(Term::Literal(count))),
                element,
                Place::Slot,
            );
        }
        ArraySize::DynamicCount => {
            array_lines::check_product(
                w,
                products,
                Arrays::Full,
                names.id,
                Term::Literal(element_size),
                Term::Count,
            );
            elements::put_elements(
                w,
                names,
                Loop::Times(Amount::Of(Term::Count)),
                element,
                Place::Push,
            );
        }
        ArraySize::DynamicSize => {
            expressions::check_size(w, Arrays::Full, names.id, Amount::Of(Term::Size));
            put_counted(w, names, Term::Size, element_size, element);
        }
        ArraySize::Unknown => put_counted(w, names, Term::Rest, element_size, element),
    }
}

fn put_dynamic_full(
    w: &mut Writer,
    products: Products,
    names: &Names,
    element: Element,
    array_size: ArraySize,
)
    ensures { Wrote w.old w.new
        (full_text products names.now.id.now names.now.type_id.now element ElementSize.Dynamic array_size) }
{
    match array_size {
        ArraySize::StaticCount(count) => put_product_parts(
            w,
            products,
            names,
            Term::Literal(count),
        ),
        ArraySize::DynamicCount => put_product_parts(w, products, names, Term::Count),
        ArraySize::DynamicSize => {
            expressions::check_size(w, Arrays::Full, names.id, Amount::Of(Term::Size));
            put_counted_parts(w, names, Term::Size);
            array_lines::put_skip(w, Arrays::Full, names.id, Amount::Of(Term::Size));
        }
        ArraySize::Unknown => {
            put_counted_parts(w, names, Term::Rest);
            w.put(b"span.clear();\n");
        }
    }
}

// No product is checked here, under either word.
fn put_unknown_full(w: &mut Writer, names: &Names, element: Element, array_size: ArraySize)
    ensures { Wrote w.old w.new
        (full_text Products.Plain names.now.id.now names.now.type_id.now element ElementSize.Unknown array_size) }
{
    match array_size {
        ArraySize::StaticCount(count) => {
            let head = Loop::Times(Amount::Of(Term::Literal(count)));
            elements::put_moved_elements(w, names, head, Source::Span, Place::Slot);
        }
        ArraySize::DynamicCount => elements::put_moved_elements(
            w,
            names,
            Loop::Times(Amount::Of(Term::Count)),
            Source::Span,
            Place::Push,
        ),
        ArraySize::DynamicSize => {
            expressions::check_size(w, Arrays::Full, names.id, Amount::Of(Term::Size));
            put_own_span(w, names.id);
            elements::put_moved_elements(w, names, Loop::WhileOwn, Source::OwnSpan, Place::Push);
            array_lines::put_skip(w, Arrays::Full, names.id, Amount::Of(Term::Size));
        }
        ArraySize::Unknown => elements::put_moved_elements(
            w,
            names,
            Loop::WhileRest,
            Source::Span,
            Place::Push,
        ),
    }
}

pub fn parse_array_field_full(
    w: &mut Writer,
    products: Products,
    names: &Names,
    element: Element,
    element_size: ElementSize,
    array_size: ArraySize,
)
    requires { ProductFits element_size array_size }
    ensures { Wrote w.old w.new
        (full_text products names.now.id.now names.now.type_id.now element element_size array_size) }
{
    match element_size {
        ElementSize::Static(size) => put_static_full(w, products, names, element, size, array_size),
        ElementSize::Dynamic => put_dynamic_full(w, products, names, element, array_size),
        ElementSize::Unknown => put_unknown_full(w, names, element, array_size),
    }
}
