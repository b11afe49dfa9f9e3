// All targets of a record: for each packet and struct, in file order, its section, a line `// target=NAME` and its lines. A section is written as `lower`
// writes its lines, by a plan of the target, and 19 looks at its length. On an empty buffer the same functions find the length of all.
#![tactic(auto)]

ghost use Rattle.std.specs.Prelude.{◌≡◌, ◌≤◌, ◌^◌, length};
ghost use Rattle.schema.specs.Entries.{entry_in, entries_from};
ghost use Rattle.tables.specs.Tables.{count_here};
ghost use Rattle.emits.specs.Target.{Fine};
ghost use Rattle.parser.specs.Driver.{Tells};
ghost use Rattle.targets.specs.Told.{entry_told, tell_each, SectionsTold, AllFine};

use definitions::{Options, Refusal};
use emits::Target;
use tables::Tables;
use text::Writer;

// The most bytes that a section's lines may have, without its first line.
const LONGEST_SECTION: usize = 8192;

// The section of the declaration with the index i. On a refusal, what was written of it stays in the buffer.
fn put_section(t: &Tables, w: &mut Writer, options: Options, i: usize) -> Result<(), Refusal>
    requires { (length t.now.source ≤ 16384) × (w.old.at ≤ 2 ^ 32) × Fine t.now i (count_here t.now.rows i) }
    ensures { Tells (entry_told t.now.source options (entry_in t.now.source t.now.rows t.now.values t.now.fields i)) w.old w.new result }
{
    let target = Target {
        tables: t,
        i,
        n: tables::count_here(t.rows, i),
        options,
    };
    let plan = planner::plan_target(&target);
    let id = tables::id_here(t.rows, i);
    w.name(b"// target=", names::part(t.source, id), b"\n");
    let from = w.at;
    parser::lower_target(t.source, w, options, plan, target.n)?;
    if LONGEST_SECTION < w.at - from {
        return Err(Refusal::SectionTooLong);
    }
    Ok(())
}

// The sections of n declarations, from the front of the buffer on, and the place behind them. The first target that is refused ends it.
pub fn put_sections(
    t: &Tables,
    out: &mut [u8],
    options: Options,
    n: usize,
) -> Result<usize, Refusal>
    requires { AllFine t.now n }
    ensures { SectionsTold (tell_each t.now.source options (entries_from t.now.source t.now.rows t.now.values t.now.fields 0 n))
        out.old result out.new }
{
    let mut w = Writer { out, at: 0 };
    for i in 0..n {
        if tables::is_frame(tables::decl_here(t.rows, i).desc) {
            put_section(t, &mut w, options, i)?;
        }
    }
    Ok(w.at)
}
