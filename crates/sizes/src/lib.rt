// `element_size` (analyzer.rs), refusals 8, 9 and 17 (a `bits` line differs from the size), and 7, 8, 17, 9 one after the other over the tables of a record.
#![tactic(auto)]

ghost use Rattle.std.specs.Prelude.{◌≡◌, ◌&&◌, List, ℕ, ◌*◌, ◌≤◌, length};
ghost use Rattle.definitions.specs.Sizes.{same_name, typed_element, element_size};
ghost use Rattle.definitions.specs.Refusals.{not_whole, ragged_size, ragged_array, ragged_enum, ragged_desc, ragged_field, ragged, is_frame};
ghost use Rattle.definitions.specs.declared.Decl.{Decl};
ghost use Rattle.definitions.specs.declared.Size.{Size};
ghost use Rattle.tables.specs.Tables.{rows_of, decl_here, field_here, fields_of, row_in};
ghost use Rattle.schema.specs.Entries.{entries_from};
ghost use Rattle.sizes.specs.Answers.{ragged_fields, misstated_row, misstated_rows, target_from, behind_schema, Checked};

use annotate::ArrayParts;
use definitions::{ElementSize, EnumKind, Field, FieldDesc, Head, Part, Refusal, Size};
use tables::Tables;

// ---- `element_size`

fn typed_element(size: Size, given: bool) -> ElementSize
    ensures { result ≡ typed_element size given }
{
    match size {
        Size::Static(width) => ElementSize::Static(width / 8),
        _ if given => ElementSize::Dynamic,
        _ => ElementSize::Unknown,
    }
}

// Of an array, in the declaration with the index i and n fields.
pub fn element_size(t: &Tables, i: usize, n: usize, array: ArrayParts) -> ElementSize
    ensures { result ≡ element_size t.now.source (rows_of t.now i) (fields_of t.now i n) array.id array.width array.type_id }
{
    match (array.width, array.type_id) {
        (Some(bits), _) => ElementSize::Static(bits / 8),
        (None, Some(name)) => typed_element(
            rows::total_of(t, i, name),
            references::has_element_size(t, i, n, array.id),
        ),
        (None, None) => ElementSize::Unknown,
    }
}

// ---- 8: an element or an optional scalar or enum of no whole bytes

fn not_whole(bits: u64) -> bool
    ensures { result ≡ not_whole bits }
{
    bits % 8 != 0
}

fn ragged_bits(bits: u64) -> bool
    ensures { result ≡ ragged_size (Size.Static bits) }
{
    bits == 0 || not_whole(bits)
}

fn ragged_size(size: Size) -> bool
    ensures { result ≡ ragged_size size }
{
    matches!(size, Size::Static(bits) if ragged_bits(bits))
}

fn ragged_array(t: &Tables, i: usize, width: Option<u64>, type_id: Option<Part>) -> bool
    ensures { result ≡ ragged_array t.now.source (rows_of t.now i) width type_id }
{
    match (width, type_id) {
        (Some(bits), _) => ragged_bits(bits),
        (None, Some(name)) => ragged_size(rows::total_of(t, i, name)),
        (None, None) => false,
    }
}

fn ragged_enum(of: Option<EnumKind>) -> bool
    ensures { result ≡ ragged_enum of }
{
    matches!(of, Some(EnumKind { width, .. }) if not_whole(width))
}

fn ragged_desc(t: &Tables, i: usize, optional: bool, desc: FieldDesc) -> bool
    ensures { result ≡ ragged_desc t.now.source (rows_of t.now i) optional desc }
{
    match desc {
        FieldDesc::Array { width, type_id, .. } => ragged_array(t, i, width, type_id),
        FieldDesc::Scalar { width, .. } => optional && not_whole(width),
        FieldDesc::Typedef { type_id, .. } => {
            optional && ragged_enum(rows::enum_of(t, i, type_id))
        }
        FieldDesc::Checksum { .. }
        | FieldDesc::Padding { .. }
        | FieldDesc::Size { .. }
        | FieldDesc::Count { .. }
        | FieldDesc::ElementSize { .. }
        | FieldDesc::Body
        | FieldDesc::Payload { .. }
        | FieldDesc::FixedScalar { .. }
        | FieldDesc::FixedEnum { .. }
        | FieldDesc::Reserved { .. }
        | FieldDesc::Flag { .. } => false,
    }
}

fn ragged_field(t: &Tables, i: usize, f: Field) -> bool
    ensures { result ≡ ragged_field t.now.source (rows_of t.now i) f }
{
    ragged_desc(t, i, f.cond.is_some(), f.desc)
}

// The field whose place is `at`. Without a condition only an array is ragged; of others no more is read. An array's kind is the last.
fn ragged_here(t: &Tables, i: usize, at: usize) -> bool
    ensures { result ≡ ragged_field t.now.source (rows_of t.now i) (field_here t.now.values at) }
{
    if tables::kind_here(t.values, at) < tables::KIND_ARRAY
        && tables::cond_here(t.values, at).is_none()
    {
        return false;
    }
    ragged_field(t, i, tables::field_here(t.values, at))
}

fn ragged_fields(t: &Tables, i: usize, n: usize) -> bool
    ensures { result ≡ ragged_fields t.now.source (rows_of t.now i) (fields_of t.now i n) }
{
    (0..n).any(|k| ragged_here(t, i, references::place_in(t, i, k)))
}

pub fn ragged(t: &Tables, n: usize) -> bool
    ensures { result ≡ ragged t.now.source (entries_from t.now.source t.now.rows t.now.values t.now.fields 0 n) }
{
    (0..n).any(|i| ragged_fields(t, i, tables::count_here(t.rows, i)))
}

// ---- 17: a `bits` line differs from `decl_size`

// The declaration with the index i.
fn misstated_here(t: &Tables, i: usize) -> bool
    ensures { result ≡ misstated_row (row_in t.now.rows i) }
{
    match tables::bits_here(t.rows, i) {
        None => false,
        Some(stated) => stated != rows::own_size(t.rows, i),
    }
}

// One of n declarations.
pub fn misstated(t: &Tables, n: usize) -> bool
    ensures { result ≡ misstated_rows (rows_of t.now n) }
{
    (0..n).any(|i| misstated_here(t, i))
}

// ---- 9: the target is no packet or struct; no field is looked at, so any tables of fields will do

// The declaration with the index i.
fn is_target(t: &Tables, i: usize, name: Part) -> bool
    ensures { let d : Decl = decl_here t.now.rows i in result ≡ (same_name t.now.source d.id name && is_frame d.desc) }
{
    let d = tables::decl_here(t.rows, i);
    names::same_name(t.source, d.id, name) && tables::is_frame(d.desc)
}

// The index of the first packet or struct with the target's name.
pub fn target(t: &Tables, n: usize, name: Part) -> Option<usize>
    ensures { (values fields : List ℕ) → result ≡ target_from t.now.source name 0 (entries_from t.now.source t.now.rows values fields 0 n) }
{
    for i in 0..n {
        if is_target(t, i, name) {
            return Some(i);
        }
    }
    None
}

// ---- 7, 8, 17 and 9, each over the whole record before the next: the target's index, or the first refusal

// 8, 17 and 9.
fn behind_schema(t: &Tables, head: Head, n: usize) -> Result<usize, Refusal>
    ensures { result ≡ behind_schema t.now.source head (entries_from t.now.source t.now.rows t.now.values t.now.fields 0 n) }
{
    if ragged(t, n) {
        return Err(Refusal::NotWholeBytes);
    }
    if misstated(t, n) {
        return Err(Refusal::Misstated);
    }
    target(t, n, head.target).ok_or(Refusal::NoTarget)
}

// The sizes of the n declarations are put into the rows; where 7 is not met the tables give all of `Schema`.
pub fn check_sizes(
    rec: &[u8],
    head: Head,
    rows: &mut [u64],
    values: &[u64],
    fields: &[u16],
    n: usize,
) -> Result<usize, Refusal>
    requires { n * 13 ≤ length rows.old }
    ensures { Checked rec.now head rows.old values.now fields.now n rows.new result }
{
    schema::schema(rec, rows, values, fields, n)?;
    let t = Tables {
        source: rec,
        rows: &*rows,
        values,
        fields,
    };
    behind_schema(&t, head, n)
}
