// What the lines of arrays, payloads, typedefs and optional fields share: names behind their prefix, sizes, and reads, each written between two
// pieces. The texts are those of definitions' Lines.
#![tactic(auto)]

ghost use Rattle.std.specs.Prelude.{◌≡◌, ◌++◌};
ghost use Rattle.definitions.specs.Lines.{expr_text, src_text, Stmt};
ghost use Rattle.definitions.specs.Blocks.{named, read_of, check_size, get_cxx_scalar_type};
ghost use Rattle.text.specs.Wrote.{Wrote};
ghost use Rattle.expressions.specs.Amounts.{term_of, amount_of, sized_read};
ghost use Rattle.expressions.specs.Statements.{stmt_bytes};

use definitions::{Arrays, EndiannessValue};
use text::Writer;

// A number, the size of the span, or a variable of the array or payload that is read.
#[derive(Clone, Copy, Debug, PartialEq, Eq)]
pub enum Term {
    Literal(u64),
    // `span.size()`
    Rest,
    // `{prefix}{id}_size_`
    Size,
    // `{prefix}{id}_count_`
    Count,
    // `{prefix}{id}_element_size_`
    ElementSize,
    // `{id}_count_`
    OwnCount,
}

// What stands in a size check, a subrange, a skip or a count.
#[derive(Clone, Copy, Debug, PartialEq, Eq)]
pub enum Amount {
    Of(Term),
    Product(Term, Term),
    Quotient(Term, Term),
    Remainder(Term, Term),
}

// `{prefix}{id}` and an end. The mode stands beside the name here and above, in no struct with it: most callers pass a constant mode.
pub fn put_target(w: &mut Writer, arrays: Arrays, id: &[u8], end: &[u8])
    ensures { Wrote w.old w.new (named arrays id.now end.now) }
{
    match arrays {
        Arrays::Lite => w.name(b"", id, end),
        Arrays::Full => w.name(b"output->", id, end),
    }
}

// The same between two pieces.
pub fn put_named(
    w: &mut Writer,
    before: &[u8],
    arrays: Arrays,
    id: &[u8],
    end: &[u8],
    behind: &[u8],
)
    ensures { Wrote w.old w.new
        (before.now ++ (named arrays id.now end.now ++ behind.now)) }
{
    w.put(before);
    put_target(w, arrays, id, end);
    w.put(behind);
}

// A number or a variable, between two pieces.
fn put_term(w: &mut Writer, before: &[u8], arrays: Arrays, id: &[u8], term: Term, behind: &[u8])
    ensures { Wrote w.old w.new
        (before.now ++ expr_text (term_of arrays id.now term) behind.now) }
{
    match term {
        Term::Literal(n) => w.number(before, n, behind),
        Term::Rest => w.name(before, b"span.size()", behind),
        Term::Size => put_named(w, before, arrays, id, b"_size_", behind),
        Term::Count => put_named(w, before, arrays, id, b"_count_", behind),
        Term::ElementSize => put_named(w, before, arrays, id, b"_element_size_", behind),
        Term::OwnCount => put_named(w, before, Arrays::Lite, id, b"_count_", behind),
    }
}

// An amount between two pieces.
pub fn put_amount(
    w: &mut Writer,
    before: &[u8],
    arrays: Arrays,
    id: &[u8],
    amount: Amount,
    behind: &[u8],
)
    ensures { Wrote w.old w.new
        (before.now ++ expr_text (amount_of arrays id.now amount) behind.now) }
{
    match amount {
        Amount::Of(term) => put_term(w, before, arrays, id, term, behind),
        Amount::Product(left, right) => {
            put_term(w, before, arrays, id, left, b" * ");
            put_term(w, b"", arrays, id, right, behind);
        }
        Amount::Quotient(left, right) => {
            put_term(w, before, arrays, id, left, b" / ");
            put_term(w, b"", arrays, id, right, behind);
        }
        Amount::Remainder(left, right) => {
            put_term(w, before, arrays, id, left, b" % ");
            put_term(w, b"", arrays, id, right, behind);
        }
    }
}

// `check_size`
pub fn check_size(w: &mut Writer, arrays: Arrays, id: &[u8], amount: Amount)
    ensures { Wrote w.old w.new (stmt_bytes (Stmt.one (check_size (amount_of arrays id.now amount)))) }
{
    put_amount(
        w,
        b"if (span.size() < ",
        arrays,
        id,
        amount,
        b") {\n    return false;\n}\n",
    );
}

// The bits of the backing type of a field that is no chunk; none is wider than 64.
fn backing_bits(width: u64) -> u64
    ensures { result ≡ get_cxx_scalar_type width }
{
    text::get_cxx_scalar_type(width).unwrap_or(64)
}

// `W_t, N>()` of so many bits, between two pieces.
fn put_sized_read(w: &mut Writer, before: &[u8], width: u64, behind: &[u8])
    ensures { Wrote w.old w.new (sized_read before.now width behind.now) }
{
    w.number(before, backing_bits(width), b"_t, ");
    w.number(b"", width / 8, b">()");
    w.put(behind);
}

// `s.read_le<uintW_t, N>()` of so many bits, between two pieces.
pub fn put_read(
    w: &mut Writer,
    before: &[u8],
    span: &[u8],
    endianness: EndiannessValue,
    width: u64,
    behind: &[u8],
)
    ensures { Wrote w.old w.new
        (before.now ++ src_text (read_of span.now endianness width) behind.now) }
{
    w.put(before);
    w.put(span);
    match endianness {
        EndiannessValue::LittleEndian => put_sized_read(w, b".read_le<uint", width, behind),
        EndiannessValue::BigEndian => put_sized_read(w, b".read_be<uint", width, behind),
    }
}
