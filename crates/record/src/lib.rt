// The record reader (document 01, module 2): refusals 1 to 6, each over the whole record before the next, or the head, the number of declarations and
// the tables of what was read. Behind 2 and before 3 stands 16, of a name that is a keyword of C++ (document 02, Card 6).
#![tactic(auto)]

ghost use Rattle.std.specs.Prelude.{◌≡◌, ◌≤◌, length};
ghost use Rattle.tables.specs.Tables.{declarations_from, tables_of};
ghost use Rattle.record.specs.Reader.{read_verdict, values_room, InTables, OfRecord};

use definitions::{Head, Refusal};
use tables::Tables;

// The most bytes of a record.
const MOST_BYTES: usize = 16384;

// Refusals 3 to 6 of what the tables give, each over the whole record before the next.
fn read_verdict(t: &Tables, n: usize) -> Result<(), Refusal>
    ensures { result ≡ read_verdict t.now.source (declarations_from t.now.rows t.now.values t.now.fields 0 n) }
{
    if ranges::too_many(t.rows, n) {
        return Err(Refusal::TooMany);
    }
    if scope::duplicate_name(t, n) {
        return Err(Refusal::DuplicateName);
    }
    if scope::unknown_name(t, n) {
        return Err(Refusal::UnknownName);
    }
    if ranges::out_of_range(t, n) {
        return Err(Refusal::OutOfRange);
    }
    Ok(())
}

// The reader over tables of any length.
fn read_tables(
    rec: &[u8],
    rows: &mut [u64],
    values: &mut [u64],
    fields: &mut [u16],
) -> Result<(Head, usize), Refusal>
    ensures { InTables rec.now
        (tables_of rec.now rows.old values.old fields.old) result
        (tables_of rec.now rows.new values.new fields.new) }
{
    if rec.is_empty() || MOST_BYTES < rec.len() {
        return Err(Refusal::RecordLength);
    }
    let (target, p) = readers::head_at(rec, 0).ok_or(Refusal::RecordForm)?;
    // where the target is a keyword the form is read first
    let n = places::fill(rec, p, target.is_none(), rows, values, fields)?;
    let head = target.ok_or(Refusal::Keyword)?;
    let t = Tables {
        source: rec,
        rows: &*rows,
        values: &*values,
        fields: &*fields,
    };
    read_verdict(&t, n)?;
    Ok((head, n))
}

// The reader, with tables of 32 declarations and 2,048 fields, and room for the values of the record's fields.
pub fn read_record(
    rec: &[u8],
    rows: &mut [u64; 416],
    values: &mut [u64],
    fields: &mut [u16; 2048],
) -> Result<(Head, usize), Refusal>
    requires { values_room rec.now ≤ length values.old }
    ensures { OfRecord rec.now
        (tables_of rec.now rows.old values.old fields.old) result
        (tables_of rec.now rows.new values.new fields.new) }
{
    read_tables(rec, rows, values, fields)
}
