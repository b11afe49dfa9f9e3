// `lower`: the record's bytes in, the lines of its target's C++ parser out; and `lower_all`: those of every packet and struct. The reader, the sizes and the
// parser each turn a record back by their refusals; here the tables are lent to them, the target's plan is handed on, 15 is tested, and number and length
// come to one 64-bit number.
#![tactic(auto)]

ghost use Rattle.std.specs.Prelude.{◌≡◌, ℕ, ◌≤◌, length};
ghost use Rattle.definitions.specs.Bytes.{Text};
ghost use Rattle.definitions.specs.Sizes.{new_schema};
ghost use Rattle.definitions.specs.FieldParser.{lower_fields};
ghost use Rattle.definitions.specs.Answer.{lower as answered, word, buffer_after};
ghost use Rattle.definitions.specs.All.{lower_all};
ghost use Rattle.definitions.specs.declared.Part.{Part};
ghost use Rattle.stream.specs.Stream.{fresh};
ghost use Rattle.schema.specs.Entries.{entries_from};
ghost use Rattle.tables.specs.Tables.{declarations_from, Tables as Seen, tables_of};
ghost use Rattle.record.specs.Reader.{values_room};
ghost use Rattle.emits.specs.Target.{setting_at, rest_at};
ghost use Rattle.plans.specs.Told.{tell};
ghost use Rattle.plans.specs.Plans.{plans_from, Sound};
ghost use Rattle.targets.specs.Told.{tell_each, AllFine};
ghost use Rattle.lowering.specs.Steps.{word_of, Gives, Answers, AnswersTold, ToldFits, Short, Few, lower_sized, sized_for, lower_for};

use definitions::{Head, Options, Refusal};
use emits::Target;
use plans::PlanAt;
use tables::Tables;
use text::Writer;

// The lines of no record have more bytes (crate lengths: `longest`).
const LONGEST_LINES: usize = 65536;

// What is asked for: the lines of the head's target, or those of every packet and struct. Two exported functions share all that comes before the lines; a
// closure for what follows would have to say in its clause, for every table, what the two cases of `sized_for` say.
#[derive(Clone, Copy, Debug, PartialEq, Eq)]
enum Wanted {
    Target,
    All,
}

// ---- the lines: their length, or the refusal

// The plan of a target of n fields, twice: a first pass in no room gives the length of the lines, and where they fit a second writes them.
fn write_plan(
    rec: &[u8],
    out: &mut [u8],
    options: Options,
    plan: [PlanAt; 64],
    n: usize,
) -> Result<usize, Refusal>
    requires { (n ≤ 64) × Sound plan n }
    ensures { let s : Text = rec.now in
        ((bits : Part → ℕ)
        → AnswersTold (tell options fresh (plans_from options s bits plan 0 n)) out.old (word_of result) out.new) }
{
    let mut none = [0u8; 0];
    let mut first = Writer {
        out: &mut none,
        at: 0,
    };
    parser::lower_target(rec, &mut first, options, plan, n)?;
    if out.len() < first.at {
        return Err(Refusal::NoRoom);
    }
    let mut second = Writer { out, at: 0 };
    parser::lower_target(rec, &mut second, options, plan, n)?;
    Ok(second.at)
}

// The same in room for the lines, whatever they are: the verdict is found without them, and one pass writes them.
fn write_at_once(
    rec: &[u8],
    out: &mut [u8],
    options: Options,
    plan: [PlanAt; 64],
    n: usize,
) -> Result<usize, Refusal>
    requires { (n ≤ 64) × Sound plan n }
    ensures { let s : Text = rec.now in
        ((bits : Part → ℕ) → ToldFits (length out.old) (tell options fresh (plans_from options s bits plan 0 n))
        → AnswersTold (tell options fresh (plans_from options s bits plan 0 n)) out.old (word_of result) out.new) }
{
    verdicts::target_verdict(plan, n)?;
    let mut only = Writer { out, at: 0 };
    parser::lower_target(rec, &mut only, options, plan, n)?;
    Ok(only.at)
}

// The target. Without fields it has no lines, and no plan is made.
fn write_lines(t: &Target, out: &mut [u8]) -> Result<usize, Refusal>
    requires { Short (lower_fields (setting_at t.now.tables.now t.now.i t.now.n t.now.options) (rest_at t.now.tables.now t.now.i t.now.n 0)) }
    ensures { Answers (lower_fields (setting_at t.now.tables.now t.now.i t.now.n t.now.options) (rest_at t.now.tables.now t.now.i t.now.n 0))
        out.old (word_of result) out.new }
{
    if t.n == 0 {
        return Ok(0);
    }
    let tables = t.tables;
    let plan = planner::plan_target(t);
    if out.len() < LONGEST_LINES {
        return write_plan(tables.source, out, t.options, plan, t.n);
    }
    write_at_once(tables.source, out, t.options, plan, t.n)
}

// The sections of all n declarations, twice, as `write_plan` does.
fn write_sections(t: &Tables, out: &mut [u8], options: Options, n: usize) -> Result<usize, Refusal>
    requires { AllFine t.now n }
    ensures { AnswersTold (tell_each t.now.source options (entries_from t.now.source t.now.rows t.now.values t.now.fields 0 n))
        out.old (word_of result) out.new }
{
    let mut none = [0u8; 0];
    let whole = targets::put_sections(t, &mut none, options, n)?;
    if out.len() < whole {
        return Err(Refusal::NoRoom);
    }
    targets::put_sections(t, out, options, n)
}

// ---- the record

// A record of n declarations that the reader passes.
fn lower_read(
    rec: &[u8],
    out: &mut [u8],
    head: Head,
    rows: &mut [u64; 416],
    values: &[u64],
    fields: &[u16; 2048],
    n: usize,
    wanted: Wanted,
) -> Result<usize, Refusal>
    requires { let t : Seen = tables_of rec.now rows.old values.now fields.now in
        (length t.source ≤ 16384) × (Few t.rows n
        × Short (lower_sized t.source head (new_schema t.source (declarations_from t.rows t.values t.fields 0 n)))) }
    ensures { let t : Seen = tables_of rec.now rows.old values.now fields.now in
        Gives (sized_for wanted (length out.old) t.source head (new_schema t.source (declarations_from t.rows t.values t.fields 0 n)))
        out.old (word_of result) out.new }
{
    let i = sizes::check_sizes(rec, head, rows, values, fields, n)?;
    let t = Tables {
        source: rec,
        rows,
        values,
        fields,
    };
    match wanted {
        Wanted::Target => {
            let target = Target {
                tables: &t,
                i,
                n: tables::count_here(t.rows, i),
                options: head.options,
            };
            write_lines(&target, out)
        }
        Wanted::All => write_sections(&t, out, head.options, n),
    }
}

// With room for the values of the record's fields.
fn lower_in(
    rec: &[u8],
    out: &mut [u8],
    values: &mut [u64],
    wanted: Wanted,
) -> Result<usize, Refusal>
    requires { values_room rec.now ≤ length values.old }
    ensures { Gives (lower_for wanted rec.now (length out.old)) out.old (word_of result) out.new }
{
    let mut rows = [0u64; 416];
    let mut fields = [0u16; 2048];
    let (head, n) = record::read_record(rec, &mut rows, values, &mut fields)?;
    lower_read(rec, out, head, &mut rows, values, &fields, n, wanted)
}

// The answer times 2^32 plus the length of the lines.
fn word_of(lowered: Result<usize, Refusal>) -> u64
    ensures { result ≡ word_of lowered }
{
    match lowered {
        Ok(length) => length as u64,
        Err(why) => refusals::turned_back(why),
    }
}

// In room for N values. A field has 16 bytes or more and 17 numbers, so a room by the record's length spares short records the clearing of the largest.
fn in_room<const N: usize>(rec: &[u8], out: &mut [u8], wanted: Wanted) -> u64
    requires room { values_room rec.now ≤ N }
    requires small { N ≤ 17408 }
    ensures { Gives (lower_for wanted rec.now (length out.old)) out.old result out.new }
{
    let mut values = [0u64; N];
    word_of(lower_in(rec, out, &mut values, wanted))
}

// ---- the two functions that crates/lowering_c exports

// The number is the answer times 2^32 plus the length of the lines, which stand at the front of `out`; all behind them is as it was.
pub fn lower(rec: &[u8], out: &mut [u8]) -> u64
    ensures { (result ≡ word (answered rec.now (length out.old)))
        × (out.new ≡ buffer_after (answered rec.now (length out.old)) out.old) }
{
    match rec.len() {
        0..=256 => in_room::<272>(rec, out, Wanted::Target),
        257..=1024 => in_room::<1088>(rec, out, Wanted::Target),
        1025..=2048 => in_room::<2176>(rec, out, Wanted::Target),
        2049..=4096 => in_room::<4416>(rec, out, Wanted::Target),
        4097..=8192 => in_room::<8704>(rec, out, Wanted::Target),
        _ => in_room::<17408>(rec, out, Wanted::Target),
    }
}

// The same, of the sections of every packet and struct, joined. A whole file is seldom short: two sizes do.
pub fn lower_all(rec: &[u8], out: &mut [u8]) -> u64
    ensures { (result ≡ word (lower_all rec.now (length out.old)))
        × (out.new ≡ buffer_after (lower_all rec.now (length out.old)) out.old) }
{
    match rec.len() {
        0..=4096 => in_room::<4416>(rec, out, Wanted::All),
        _ => in_room::<17408>(rec, out, Wanted::All),
    }
}
