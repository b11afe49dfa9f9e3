// `Schema::new` (analyzer.rs): `decl_size`, `parent_size` and `payload_size` of each declaration, put into its row of the table, and refusal 7 on the way.
// The first entry over the limit ends the pass.
#![tactic(auto)]

ghost use Rattle.std.specs.Prelude.{◌≡◌, ◌*◌, ◌≤◌, ◌+◌, ◌<◌, length};
ghost use Rattle.definitions.specs.Sizes.{decl_size_of, payload_size_of, annotate_decl};
ghost use Rattle.tables.specs.Tables.{rows_of, fields_of, declaration_in};
ghost use Rattle.schema.specs.Entries.{large_sizes, row_sizes, fine_sizes, put_row, Sized};

use annotate::FieldSums;
use definitions::{Decl, DeclDesc, Refusal, Size};
use tables::Tables;

// ---- a row

// The sizes of an entry.
#[derive(Clone, Copy, Debug, PartialEq, Eq)]
pub struct RowSizes {
    pub own: Size,
    pub parent: Size,
    pub payload: Size,
}

fn decl_size(desc: DeclDesc, sum: Size) -> Size
    ensures { result ≡ decl_size_of desc sum }
{
    match desc {
        DeclDesc::Checksum { width }
        | DeclDesc::CustomField { width: Some(width) }
        | DeclDesc::Enum { width, .. } => Size::Static(width),
        DeclDesc::CustomField { width: None } => Size::Dynamic,
        DeclDesc::Packet { .. } | DeclDesc::Struct { .. } => sum,
    }
}

fn payload_size(desc: DeclDesc, last: Size) -> Size
    ensures { result ≡ payload_size_of desc last }
{
    match desc {
        DeclDesc::Checksum { .. } | DeclDesc::CustomField { .. } | DeclDesc::Enum { .. } => {
            Size::Static(0)
        }
        DeclDesc::Packet { .. } | DeclDesc::Struct { .. } => last,
    }
}

// One of the sizes of a row, or its `total_size`, is over the limit.
fn large_sizes(own: Size, parent: Size, payload: Size) -> bool
    ensures { result ≡ large_sizes own parent payload }
{
    bits::large_size(own)
        || bits::large_size(parent)
        || bits::large_size(payload)
        || bits::large_size(bits::add_capped(bits::add_capped(own, parent), payload))
}

// What the fields and the parent come to; none where it is over the limit.
fn row_sizes(desc: DeclDesc, sums: FieldSums, above: Size) -> Option<RowSizes>
    ensures { result ≡ row_sizes desc sums above }
{
    let own = bits::capped(decl_size(desc, sums.sum));
    let parent = bits::capped(above);
    let payload = payload_size(desc, sums.payload);
    if sums.large
        || large_sizes(own, parent, payload)
        || bits::large_size(Size::Static(sums.bits))
    {
        return None;
    }
    Some(RowSizes {
        own,
        parent,
        payload,
    })
}

// `annotate_decl` of a declaration with n fields, after i others.
fn annotate_decl(t: &Tables, i: usize, n: usize, d: Decl) -> Option<RowSizes>
    ensures { result ≡ fine_sizes (annotate_decl t.now.source (rows_of t.now i) (record { decl = d; fields = fields_of t.now i n })) }
{
    let above = rows::parent_of(t, i, tables::parent_id(d.desc));
    row_sizes(d.desc, annotate::sum_fields(t, i, n), above)
}

// The same of the declaration with the index i.
fn row_at(t: &Tables, i: usize) -> Option<RowSizes>
    ensures { result ≡ fine_sizes (annotate_decl t.now.source (rows_of t.now i) (declaration_in t.now.rows t.now.values t.now.fields i)) }
{
    annotate_decl(
        t,
        i,
        tables::count_here(t.rows, i),
        tables::decl_here(t.rows, i),
    )
}

// ---- the table

fn put_row(rows: &mut [u64], i: usize, row: RowSizes)
    requires { i * 13 + 12 < length rows.old }
    ensures { rows.new ≡ put_row rows.old i row }
{
    bits::put_size(rows, i * 13 + 10, row.own);
    bits::put_size(rows, i * 13 + 11, row.parent);
    bits::put_size(rows, i * 13 + 12, row.payload);
}

// The sizes of the n declarations, or refusal 7.
pub fn schema(
    rec: &[u8],
    rows: &mut [u64],
    values: &[u64],
    fields: &[u16],
    n: usize,
) -> Result<(), Refusal>
    requires { n * 13 ≤ length rows.old }
    ensures { Sized rec.now rows.old values.now fields.now n rows.new result }
{
    for i in 0..n {
        let t = Tables {
            source: rec,
            rows: &*rows,
            values,
            fields,
        };
        let Some(row) = row_at(&t, i) else {
            return Err(Refusal::TooLarge);
        };
        put_row(rows, i, row);
    }
    Ok(())
}
