// The reader's filling of the tables of a record (document 01, 'Form'): each declaration and each of its fields, as numbers, and the places of the fields,
// up to the first line that is wrong or has a keyword of C++ (document 02, Card 6). Behind a keyword only the form is read: `kept` says that one stands
// before the place.
#![tactic(auto)]

ghost use Rattle.std.specs.Prelude.{◌+◌, ◌≤◌, ◌<◌, ◌^◌, length};
ghost use Rattle.definitions.specs.Bytes.{Text};
ghost use Rattle.definitions.specs.Record.{fields_at};
ghost use Rattle.places.specs.Places.{framed_fields, framed_up_to, fields_up_to, Filled, FilledOne, FilledAll};

use definitions::{Read, Refusal};

// The tables stay three parameters while they are filled: a struct with three `&mut` names three ghost names in each clause.

// ---- the fields of a declaration

// The fields from a place on, up to a line that is no field, with their places in `fields` from `base` on: how many, or that a name is a keyword.
fn fill_fields(
    rec: &[u8],
    at: usize,
    kept: bool,
    values: &mut [u64],
    fields: &mut [u16],
    base: usize,
) -> Read<Option<usize>>
    requires { (base + length rec.now < 2 ^ 64) × (length rec.now ≤ 16384) }
    ensures { let s : Text = rec.now in
        Filled s kept (fields_at s (length s) at) (fields_up_to s (length s) at) values.old fields.old base result
        values.new fields.new }
{
    let mut p = at;
    let mut met = kept;
    for n in 0..rec.len() {
        if names::key_at(rec, p, b"field=").is_none() {
            return Some(((!met).then_some(n), p));
        }
        let (field, q) = readers::field_at(rec, p)?;
        match field {
            Some(x) if !met => {
                tables::put_field(values, p, x);
                tables::put(fields, base + n, p);
            }
            _ => met = true,
        }
        p = q;
    }
    None
}

// The same behind the lines of a declaration: only a packet and a struct have fields.
fn fill_behind(
    rec: &[u8],
    frame: bool,
    at: usize,
    kept: bool,
    values: &mut [u64],
    fields: &mut [u16],
    base: usize,
) -> Read<Option<usize>>
    requires { (base + length rec.now < 2 ^ 64) × (length rec.now ≤ 16384) }
    ensures { let s : Text = rec.now in
        Filled s kept (framed_fields s frame at) (framed_up_to s frame at) values.old fields.old base result
        values.new fields.new }
{
    if frame {
        return fill_fields(rec, at, kept, values, fields, base);
    }
    Some(((!kept).then_some(0), at))
}

// ---- the declarations of a record

// The declaration at a place with its fields, as the one with the index i, which has 64 entries of `fields`.
fn fill_decl(
    rec: &[u8],
    at: usize,
    kept: bool,
    rows: &mut [u64],
    values: &mut [u64],
    fields: &mut [u16],
    i: usize,
) -> Read<Option<usize>>
    requires { (i ≤ 16384) × (length rec.now ≤ 16384) }
    ensures { FilledOne rec.now kept at i rows.old values.old fields.old result
        rows.new values.new fields.new }
{
    let (decl, q) = readers::decl_at(rec, at)?;
    match decl {
        Ok(d) => {
            let frame = tables::is_frame(d.desc);
            let (count, t) = fill_behind(rec, frame, q, kept, values, fields, i * 64)?;
            if let Some(n) = count {
                tables::put_decl(rows, i, d, n);
            }
            Some((count, t))
        }
        Err(frame) => fill_behind(rec, frame, q, true, values, fields, i * 64),
    }
}

// The declarations from a place on to the end of the record, and how many; `kept` says that the target is a keyword. A broken form is refused before a
// keyword, so the form is read on behind one, and where there are too many (refusal 3).
pub fn fill(
    rec: &[u8],
    at: usize,
    kept: bool,
    rows: &mut [u64],
    values: &mut [u64],
    fields: &mut [u16],
) -> Result<usize, Refusal>
    requires { length rec.now ≤ 16384 }
    ensures { FilledAll rec.now kept at rows.old values.old fields.old result
        rows.new values.new fields.new }
{
    let mut p = at;
    let mut met = kept;
    for i in 0..rec.len() {
        let read = fill_decl(rec, p, met, rows, values, fields, i);
        let (count, t) = read.ok_or(Refusal::RecordForm)?;
        met = count.is_none();
        p = t;
        if rec.len() <= p {
            return if met {
                Err(Refusal::Keyword)
            } else {
                Ok(i + 1)
            };
        }
    }
    Err(Refusal::RecordForm)
}
