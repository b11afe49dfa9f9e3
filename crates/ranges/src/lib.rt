// Refusals 3 and 6 over the tables of a record (document 01, 'The answer'): too many declarations or fields, and a width, count, padding or mod
// number outside its range.
#![tactic(auto)]

ghost use Rattle.std.specs.Prelude.{◌≡◌, false, ◌||◌, ◌+◌, ◌≤◌};
ghost use Rattle.definitions.specs.Bytes.{any};
ghost use Rattle.definitions.specs.Refusals.{too_many, outside, bad_width, bad_count, bad_maybe, bad_modifier, bad_number, bad_decl, out_of_range};
ghost use Rattle.tables.specs.Tables.{field_here, fields_from, count_here, declaration_in, declarations_from};
ghost use Rattle.ranges.specs.Ranges.{bare, bad_field, bad_numbers};

use definitions::{DeclDesc, FieldDesc, Modifier};
use tables::{KIND_FLAG, KIND_SCALAR, KIND_SIZE, KIND_TYPEDEF, Tables};

// ---- 3: more than 32 declarations, or one with more than 64 fields

const MOST_DECLARATIONS: usize = 32;

const MOST_FIELDS: usize = 64;

// More than 32 declarations, or one with more than 64 fields.
pub fn too_many(rows: &[u64], n: usize) -> bool
    ensures { result ≡ too_many (bare rows.now n) }
{
    MOST_DECLARATIONS < n || (0..n).any(|i| MOST_FIELDS < tables::count_here(rows, i))
}

// ---- 6: a number outside its range

// Below `low` or above `high`.
fn is_outside(low: u64, high: u64, n: u64) -> bool
    ensures { result ≡ outside low high n }
{
    n < low || high < n
}

fn bad_width(n: u64) -> bool
    ensures { result ≡ bad_width n }
{
    is_outside(1, 64, n)
}

// A count, a padding or a mod number.
fn bad_count(n: u64) -> bool
    ensures { result ≡ bad_count n }
{
    is_outside(0, 65535, n)
}

fn bad_modifier(m: Modifier) -> bool
    ensures { result ≡ bad_modifier m }
{
    match m {
        Modifier::None => false,
        Modifier::Plus(n) | Modifier::Minus(n) => bad_count(n),
    }
}

// The width, mod and count of an array.
fn bad_array(width: Option<u64>, size_modifier: Modifier, size: Option<u64>) -> bool
    ensures { result ≡ bad_maybe bad_width width || bad_modifier size_modifier || bad_maybe bad_count size }
{
    width.is_some_and(bad_width) || bad_modifier(size_modifier) || size.is_some_and(bad_count)
}

// A number of a field.
fn bad_number(desc: FieldDesc) -> bool
    ensures { result ≡ bad_number desc }
{
    match desc {
        FieldDesc::Padding { size } => bad_count(size),
        FieldDesc::Size { width, .. }
        | FieldDesc::Count { width, .. }
        | FieldDesc::ElementSize { width, .. }
        | FieldDesc::FixedScalar { width, .. }
        | FieldDesc::Reserved { width }
        | FieldDesc::Scalar { width, .. } => bad_width(width),
        FieldDesc::Payload { size_modifier } => bad_modifier(size_modifier),
        FieldDesc::Array {
            width,
            size_modifier,
            size,
            ..
        } => bad_array(width, size_modifier, size),
        FieldDesc::Checksum { .. }
        | FieldDesc::Body
        | FieldDesc::FixedEnum { .. }
        | FieldDesc::Flag { .. }
        | FieldDesc::Typedef { .. } => false,
    }
}

// The field whose place is `at`. The table has numbers (fixed memory), so the kind is matched as one: a size up to a scalar has a width, a flag up to a
// typedef no number, and of those no more is read.
fn bad_here(values: &[u64], at: usize) -> bool
    ensures { result ≡ bad_field (field_here values.now at) }
{
    match tables::kind_here(values, at) {
        KIND_SIZE..=KIND_SCALAR => bad_width(tables::number_here(values, at, 4)),
        KIND_FLAG..=KIND_TYPEDEF => false,
        _ => bad_number(tables::field_here(values, at).desc),
    }
}

// The width of a declaration.
fn bad_decl(desc: DeclDesc) -> bool
    ensures { result ≡ bad_decl desc }
{
    match desc {
        DeclDesc::Checksum { width } | DeclDesc::Enum { width, .. } => bad_width(width),
        DeclDesc::CustomField { width } => width.is_some_and(|w| is_outside(1, 4096, w)),
        _ => false,
    }
}

// A number of n fields, whose places the table has from `base` on.
fn bad_fields(t: &Tables, base: usize, n: usize) -> bool
    requires { base + n ≤ 4096 }
    ensures { result ≡ any bad_field (fields_from t.now.values t.now.fields base n) }
{
    (base..base + n).any(|k| bad_here(t.values, tables::get(t.fields, k)))
}

// A number of the declaration with the index i, or of its fields.
fn bad_numbers(t: &Tables, i: usize) -> bool
    requires i_bound { i ≤ 32 }
    requires i_bound_2 { count_here t.now.rows i ≤ 64 }
    ensures { result ≡ bad_numbers (declaration_in t.now.rows t.now.values t.now.fields i) }
{
    bad_decl(tables::decl_here(t.rows, i).desc)
        || bad_fields(t, i * 64, tables::count_here(t.rows, i))
}

// A number of the first n declarations, where 3 is not met.
pub fn out_of_range(t: &Tables, n: usize) -> bool
    requires { too_many (bare t.now.rows n) ≡ false }
    ensures { result ≡ out_of_range (declarations_from t.now.rows t.now.values t.now.fields 0 n) }
{
    (0..n).any(|i| bad_numbers(t, i))
}
