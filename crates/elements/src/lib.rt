// `parse_array_element` of cxx.rs, and the loops of both modes around the elements of an array. A closed enum is tested by `IsValid`, complete or
// not.
#![tactic(auto)]

ghost use Rattle.std.specs.Prelude.{[], ◌++◌};
ghost use Rattle.definitions.specs.Lines.{lines_text, line_text, Out};
ghost use Rattle.definitions.specs.Blocks.{span as whole_span, parse_lines, parse_array_element, Elem};
ghost use Rattle.text.specs.Wrote.{Wrote};
ghost use Rattle.expressions.specs.Statements.{stmt_bytes};
ghost use Rattle.elements.specs.Elements.{source_of, place_of, place_start, place_end, element_of, out_of};
ghost use Rattle.elements.specs.Elements.{raw_value, loop_head, loop_of, in_part, element_span_line};

use definitions::{Arrays, EndiannessValue};
use expressions::{Amount, Term};
use text::Writer;

// An array's name, and the name of its elements' type.
#[derive(Clone, Copy)]
pub struct Names<'a> {
    pub id: &'a [u8],
    pub type_id: &'a [u8],
}

// How one element is read; a name that it needs stands beside it.
#[derive(Clone, Copy, Debug, PartialEq, Eq)]
pub enum Element {
    Scalar {
        endianness: EndiannessValue,
        width: u64,
    },
    OpenEnum {
        endianness: EndiannessValue,
        width: u64,
    },
    ClosedEnum {
        endianness: EndiannessValue,
        width: u64,
    },
    // By its type's own parser.
    Parsed,
}

// The span that an element's own parser gets.
#[derive(Clone, Copy, Debug, PartialEq, Eq)]
pub enum Source {
    // `span`
    Span,
    // `element_span`
    ElementSpan,
    // `{id}_span`
    OwnSpan,
}

// Where an element goes.
#[derive(Clone, Copy, Debug, PartialEq, Eq)]
pub enum Place {
    // `output->{id}_[n] = V;`
    Slot,
    // `output->{id}_.push_back(V);`
    Push,
}

// How an element that its own parser has read is stored.
#[derive(Clone, Copy, Debug, PartialEq, Eq)]
pub enum Stored {
    // `out`
    Plain,
    // `std::move(out)`
    Moved,
}

// The head of a loop.
#[derive(Clone, Copy, Debug, PartialEq, Eq)]
pub enum Loop {
    // `for (size_t n = 0; n < e; n++) {`
    Times(Amount),
    // `while (span.size() > 0) {`
    WhileRest,
    // `while ({id}_span.size() > 0) {`
    WhileOwn,
}

// A span's name before a piece.
fn put_source(w: &mut Writer, id: &[u8], source: Source, behind: &[u8])
    ensures { Wrote w.old w.new (source_of id.now source ++ behind.now) }
{
    match source {
        Source::Span => w.name(b"", b"span", behind),
        Source::ElementSpan => w.name(b"", b"element_span", behind),
        Source::OwnSpan => expressions::put_named(w, b"", Arrays::Lite, id, b"_span", behind),
    }
}

// `T out;`, `if (!T::Parse(s, &out)) {` ..
fn put_parse(w: &mut Writer, names: &Names, source: Source)
    ensures { Wrote w.old w.new
        (lines_text 4 (parse_lines names.now.type_id.now (source_of names.now.id.now source)) []) }
{
    w.name(b"    ", names.type_id, b" out;\n    if (!");
    w.name(b"", names.type_id, b"::Parse(");
    put_source(
        w,
        names.id,
        source,
        b", &out)) {\n        return false;\n    }\n",
    );
}

// `    output->{id}_[n] = `, `    output->{id}_.push_back(`
fn put_place(w: &mut Writer, id: &[u8], place: Place)
    ensures { Wrote w.old w.new (place_start id.now place []) }
{
    match place {
        Place::Slot => expressions::put_named(w, b"    ", Arrays::Full, id, b"_", b"[n] = "),
        Place::Push => expressions::put_named(w, b"    ", Arrays::Full, id, b"_", b".push_back("),
    }
}

// A piece before the end of the place's line.
fn put_place_end(w: &mut Writer, before: &[u8], place: Place)
    ensures { Wrote w.old w.new (before.now ++ place_end place) }
{
    match place {
        Place::Slot => w.name(before, b"", b";\n"),
        Place::Push => w.name(before, b"", b");\n"),
    }
}

// A scalar, read where it is stored.
fn put_scalar(w: &mut Writer, id: &[u8], endianness: EndiannessValue, width: u64, place: Place)
    ensures { Wrote w.old w.new
        (lines_text 4 (parse_array_element whole_span (Elem.scalar endianness width) (place_of id.now place) Out.out) []) }
{
    put_place(w, id, place);
    expressions::put_read(w, b"", b"span", endianness, width, b"");
    put_place_end(w, b"", place);
}

// An open enum, read where it is stored.
fn put_open_enum(
    w: &mut Writer,
    names: &Names,
    endianness: EndiannessValue,
    width: u64,
    place: Place,
)
    ensures { Wrote w.old w.new
        (lines_text 4 (parse_array_element whole_span (Elem.open_enum names.now.type_id.now endianness width) (place_of names.now.id.now place) Out.out) []) }
{
    put_place(w, names.id, place);
    w.put(names.type_id);
    expressions::put_read(w, b"(", b"span", endianness, width, b"");
    put_place_end(w, b")", place);
}

// The value of a closed enum, and its test.
fn put_raw_value(w: &mut Writer, type_id: &[u8], endianness: EndiannessValue, width: u64)
    ensures { Wrote w.old w.new (lines_text 4 (raw_value type_id.now endianness width) []) }
{
    expressions::put_read(
        w,
        b"    auto raw_value = ",
        b"span",
        endianness,
        width,
        b";\n",
    );
    w.name(
        b"    if (!IsValid",
        type_id,
        b"(raw_value)) {\n        return false;\n    }\n",
    );
}

// A closed enum: its value is tested before it is stored.
fn put_closed_enum(
    w: &mut Writer,
    names: &Names,
    endianness: EndiannessValue,
    width: u64,
    place: Place,
)
    ensures { Wrote w.old w.new
        (lines_text 4 (parse_array_element whole_span (Elem.closed_enum names.now.type_id.now endianness width) (place_of names.now.id.now place) Out.out) []) }
{
    put_raw_value(w, names.type_id, endianness, width);
    put_place(w, names.id, place);
    w.put(names.type_id);
    put_place_end(w, b"(raw_value)", place);
}

// An element by its own parser, from a span.
fn put_parsed(w: &mut Writer, names: &Names, source: Source, place: Place, stored: Stored)
    ensures { Wrote w.old w.new
        (lines_text 4 (parse_array_element (source_of names.now.id.now source)
        (Elem.parsed names.now.type_id.now) (place_of names.now.id.now place) (out_of stored)) []) }
{
    put_parse(w, names, source);
    put_place(w, names.id, place);
    match stored {
        Stored::Plain => put_place_end(w, b"out", place),
        Stored::Moved => put_place_end(w, b"std::move(out)", place),
    }
}

// `parse_array_element`, and the place where the element goes
fn parse_array_element(w: &mut Writer, names: &Names, element: Element, place: Place)
    ensures { Wrote w.old w.new
        (lines_text 4 (parse_array_element whole_span (element_of names.now.type_id.now element) (place_of names.now.id.now place) Out.out) []) }
{
    match element {
        Element::Scalar { endianness, width } => put_scalar(w, names.id, endianness, width, place),
        Element::OpenEnum { endianness, width } => put_open_enum(
            w, names, endianness, width, place,
        ),
        Element::ClosedEnum { endianness, width } => put_closed_enum(
            w, names, endianness, width, place,
        ),
        Element::Parsed => put_parsed(w, names, Source::Span, place, Stored::Plain),
    }
}

// The head of a loop.
fn put_loop(w: &mut Writer, arrays: Arrays, id: &[u8], head: Loop)
    ensures { Wrote w.old w.new (loop_head arrays id.now head []) }
{
    match head {
        Loop::Times(amount) => expressions::put_amount(
            w,
            b"for (size_t n = 0; n < ",
            arrays,
            id,
            amount,
            b"; n++) {\n",
        ),
        Loop::WhileRest => w.put(b"while (span.size() > 0) {\n"),
        Loop::WhileOwn => expressions::put_named(
            w,
            b"while (",
            Arrays::Lite,
            id,
            b"_span",
            b".size() > 0) {\n",
        ),
    }
}

// Lite: a loop of parsers, which store nothing.
pub fn put_parsing(w: &mut Writer, names: &Names, head: Loop)
    ensures { Wrote w.old w.new
        (stmt_bytes (loop_of Arrays.Lite names.now.id.now head (parse_lines names.now.type_id.now whole_span))) }
{
    put_loop(w, Arrays::Lite, names.id, head);
    put_parse(w, names, Source::Span);
    w.put(b"}\n");
}

// Full: a loop over elements of Static size.
pub fn put_elements(w: &mut Writer, names: &Names, head: Loop, element: Element, place: Place)
    ensures { Wrote w.old w.new
        (stmt_bytes (loop_of Arrays.Full names.now.id.now head
        (parse_array_element whole_span (element_of names.now.type_id.now element) (place_of names.now.id.now place) Out.out))) }
{
    put_loop(w, Arrays::Full, names.id, head);
    parse_array_element(w, names, element, place);
    w.put(b"}\n");
}

// Full: a loop over elements of Unknown size. It stays beside the one above, since only elements with a parser of their own read another span.
pub fn put_moved_elements(w: &mut Writer, names: &Names, head: Loop, source: Source, place: Place)
    ensures { Wrote w.old w.new
        (stmt_bytes (loop_of Arrays.Full names.now.id.now head
        (parse_array_element (source_of names.now.id.now source) (Elem.parsed names.now.type_id.now) (place_of names.now.id.now place) Out.moved))) }
{
    put_loop(w, Arrays::Full, names.id, head);
    put_parsed(w, names, source, place, Stored::Moved);
    w.put(b"}\n");
}

// `auto element_span = span.subrange(n * e, e);`
fn put_element_span(w: &mut Writer, id: &[u8])
    ensures { Wrote w.old w.new (line_text 4 (element_span_line id.now) []) }
{
    expressions::put_amount(
        w,
        b"    auto element_span = span.subrange(n * ",
        Arrays::Full,
        id,
        Amount::Of(Term::ElementSize),
        b", ",
    );
    expressions::put_amount(
        w,
        b"",
        Arrays::Full,
        id,
        Amount::Of(Term::ElementSize),
        b");\n",
    );
}

// Full: a loop over elements of Dynamic size, each in a part of the span.
pub fn put_parts(w: &mut Writer, names: &Names, head: Loop)
    ensures { Wrote w.old w.new
        (stmt_bytes (loop_of Arrays.Full names.now.id.now head (in_part names.now.id.now names.now.type_id.now))) }
{
    put_loop(w, Arrays::Full, names.id, head);
    put_element_span(w, names.id);
    put_parsed(w, names, Source::ElementSpan, Place::Slot, Stored::Plain);
    w.put(b"}\n");
}
