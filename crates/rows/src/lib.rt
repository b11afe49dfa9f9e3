// The rows of `Schema` (analyzer.rs), 13 numbers each in declaration order: what a declaration takes from those before it, looked up by name among
// the first n. Each of the three sizes of a row stands there as a number.
#![tactic(auto)]

ghost use Rattle.std.specs.Prelude.{◌≡◌, ◌+◌, ◌*◌, get_or};
ghost use Rattle.definitions.specs.Sizes.{total_of, parent_of, desc_enum, enum_of, is_bitfield};
ghost use Rattle.definitions.specs.Tables.{decode};
ghost use Rattle.tables.specs.Tables.{rows_of};

use definitions::{DeclDesc, EnumKind, FieldDesc, Part, Size};
use tables::Tables;

// ---- the sizes of a row, of the table of rows alone

// Number k of row i as a size; that of no bits outside the table.
fn size_in(rows: &[u64], i: usize, k: usize) -> Size
    ensures { result ≡ decode (get_or rows.now (i * 13 + k) 0) }
{
    let n = rows.len();
    if n / 13 < i || n <= k {
        return Size::Static(0);
    }
    bits::get_size(rows, i * 13 + k)
}

// `schema.decl_size` of the declaration with the index i.
pub fn own_size(rows: &[u64], i: usize) -> Size
    ensures { result ≡ decode (get_or rows.now (i * 13 + 10) 0) }
{
    size_in(rows, i, 10)
}

fn parent_size(rows: &[u64], i: usize) -> Size
    ensures { result ≡ decode (get_or rows.now (i * 13 + 11) 0) }
{
    size_in(rows, i, 11)
}

fn payload_size(rows: &[u64], i: usize) -> Size
    ensures { result ≡ decode (get_or rows.now (i * 13 + 12) 0) }
{
    size_in(rows, i, 12)
}

// `schema.total_size` of a type by its name.
pub fn total_of(t: &Tables, n: usize, name: Part) -> Size
    ensures { result ≡ total_of t.now.source (rows_of t.now n) name }
{
    let Some(i) = tables::find(t, n, name) else {
        return Size::Unknown;
    };
    let a = own_size(t.rows, i);
    let b = parent_size(t.rows, i);
    let c = payload_size(t.rows, i);
    bits::add_size(bits::add_size(a, b), c)
}

// `schema.decl_size(key) + schema.parent_size(key)` of the parent.
pub fn parent_of(t: &Tables, n: usize, parent: Option<Part>) -> Size
    ensures { result ≡ parent_of t.now.source (rows_of t.now n) parent }
{
    let Some(name) = parent else {
        return Size::Static(0);
    };
    let Some(i) = tables::find(t, n, name) else {
        return Size::Static(0);
    };
    let a = own_size(t.rows, i);
    let b = parent_size(t.rows, i);
    bits::add_size(a, b)
}

// ---- a type that is an enum

fn desc_enum(desc: DeclDesc) -> Option<EnumKind>
    ensures { result ≡ desc_enum desc }
{
    match desc {
        DeclDesc::Enum {
            width,
            open,
            complete,
        } => Some(EnumKind {
            width,
            is_open: open,
            is_complete: complete,
        }),
        _ => None,
    }
}

// Its width, and the marks open and complete.
pub fn enum_of(t: &Tables, n: usize, name: Part) -> Option<EnumKind>
    ensures { result ≡ enum_of t.now.source (rows_of t.now n) name }
{
    let i = tables::find(t, n, name)?;
    desc_enum(tables::decl_here(t.rows, i).desc)
}

// `is_bitfield`: a typedef only where its type is an enum.
pub fn is_bitfield(t: &Tables, n: usize, desc: FieldDesc) -> bool
    ensures { result ≡ is_bitfield t.now.source (rows_of t.now n) desc }
{
    match desc {
        FieldDesc::Size { .. }
        | FieldDesc::Count { .. }
        | FieldDesc::ElementSize { .. }
        | FieldDesc::FixedScalar { .. }
        | FieldDesc::FixedEnum { .. }
        | FieldDesc::Reserved { .. }
        | FieldDesc::Scalar { .. }
        | FieldDesc::Flag { .. } => true,
        FieldDesc::Typedef { type_id, .. } => enum_of(t, n, type_id).is_some(),
        FieldDesc::Checksum { .. }
        | FieldDesc::Padding { .. }
        | FieldDesc::Body
        | FieldDesc::Payload { .. }
        | FieldDesc::Array { .. } => false,
    }
}
