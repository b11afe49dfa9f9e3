// The statements that the arrays of both modes share: checks and tests of a size, and the skip.
#![tactic(auto)]

ghost use Rattle.text.specs.Wrote.{Wrote};
ghost use Rattle.expressions.specs.Statements.{stmt_bytes};
ghost use Rattle.array_lines.specs.Statements.{ragged_test, ragged_or_zero_test, skip_stmt, divided_stmt, product_stmt};

use definitions::{Arrays, Products};
use expressions::{Amount, Term};
use text::Writer;

// `if (e != 0 && span.size() / e < n) {` ..
fn put_divided(w: &mut Writer, arrays: Arrays, id: &[u8], element: Term, count: Term)
    ensures { Wrote w.old w.new (stmt_bytes (divided_stmt arrays id.now element count)) }
{
    expressions::put_amount(w, b"if (", arrays, id, Amount::Of(element), b" != 0 && ");
    expressions::put_amount(
        w,
        b"",
        arrays,
        id,
        Amount::Quotient(Term::Rest, element),
        b" < ",
    );
    expressions::put_amount(
        w,
        b"",
        arrays,
        id,
        Amount::Of(count),
        b") {\n    return false;\n}\n",
    );
}

// The check of e * n bytes, by their product or by a division.
pub fn check_product(
    w: &mut Writer,
    products: Products,
    arrays: Arrays,
    id: &[u8],
    element: Term,
    count: Term,
)
    ensures { Wrote w.old w.new (stmt_bytes (product_stmt products arrays id.now element count)) }
{
    match products {
        Products::Plain => expressions::check_size(w, arrays, id, Amount::Product(element, count)),
        Products::Divide => put_divided(w, arrays, id, element, count),
    }
}

// `if ((s % e) != 0) {` ..
pub fn put_ragged(w: &mut Writer, arrays: Arrays, id: &[u8], size: Term, element: Term)
    ensures { Wrote w.old w.new (stmt_bytes (ragged_test arrays id.now size element)) }
{
    expressions::put_amount(
        w,
        b"if ((",
        arrays,
        id,
        Amount::Remainder(size, element),
        b") != 0) {\n    return false;\n}\n",
    );
}

// `if (e == 0 || (s % e) != 0) {` ..
pub fn put_ragged_or_zero(w: &mut Writer, arrays: Arrays, id: &[u8], size: Term)
    ensures { Wrote w.old w.new (stmt_bytes (ragged_or_zero_test arrays id.now size)) }
{
    expressions::put_amount(
        w,
        b"if (",
        arrays,
        id,
        Amount::Of(Term::ElementSize),
        b" == 0 || (",
    );
    expressions::put_amount(
        w,
        b"",
        arrays,
        id,
        Amount::Remainder(size, Term::ElementSize),
        b") != 0) {\n    return false;\n}\n",
    );
}

// `span.skip(e);`
pub fn put_skip(w: &mut Writer, arrays: Arrays, id: &[u8], amount: Amount)
    ensures { Wrote w.old w.new (stmt_bytes (skip_stmt arrays id.now amount)) }
{
    expressions::put_amount(w, b"span.skip(", arrays, id, amount, b");\n");
}
