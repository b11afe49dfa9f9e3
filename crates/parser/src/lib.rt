// The driver of `FieldParser` (cxx.rs) over a plan of the target: `new`, `parse` for each field in order, and `done`. A run's check is written before its
// first chunk, with the bits that the plan has of the fields behind it; that the lines are those of cxx.rs is the law of the crates stream and plans.
// The kinds of the open chunk's fields are the loop's own: a chunk takes them where it closes.
#![tactic(auto)]

ghost use Rattle.std.specs.Prelude.{List, ◌≡◌, ℕ, ◌≤◌, length};
ghost use Rattle.definitions.specs.Bytes.{Text};
ghost use Rattle.definitions.specs.Blocks.{Bit};
ghost use Rattle.definitions.specs.declared.Part.{Part};
ghost use Rattle.stream.specs.Stream.{fresh, calm};
ghost use Rattle.emits.specs.BlockOf.{EmitFits};
ghost use Rattle.plans.specs.Told.{said_advance, other_advance, tell};
ghost use Rattle.plans.specs.Plans.{plans_from, Sound};
ghost use Rattle.chunks.specs.Steps.{seen, Advanced};
ghost use Rattle.parser.specs.Driver.{said_in, misplaced, is_alone, Tells};

use bit_fields::KindAt;
use chunks::State;
use definitions::{Options, Refusal};
use emits::EmitAt;
use plans::PlanAt;
use text::Writer;

// ---- `parse`, of a field that is no bit field

// What it emits, where nothing is pending any more.
fn append<'a>(
    rec: &'a [u8],
    w: &mut Writer,
    options: Options,
    t: State,
    emit: EmitAt,
) -> Result<State, Refusal>
    requires { EmitFits emit }
    ensures { let s : Text = rec.now in
        ((bits : Part → ℕ) (bs : List Bit)
        → Advanced (said_advance (calm (seen t bs)) (said_in options s bits emit)) bs w.old w.new result) }
{
    match emit {
        EmitAt::Appends(block) => field_lines::put_block(rec, b"payload", w, options, block),
        EmitAt::Silent => {}
        EmitAt::Refuses(why) => return Err(why),
    }
    Ok(State {
        pending: false,
        ..t
    })
}

// 11: an open chunk, of so many bits.
pub fn is_misplaced(aligned: bool, shift: u64) -> bool
    ensures { result ≡ misplaced aligned shift }
{
    aligned && shift != 0
}

// It first flushes what is pending; the open chunk has `len` fields.
fn parse_other_field<'a>(
    rec: &'a [u8],
    w: &mut Writer,
    options: Options,
    t: State,
    len: usize,
    aligned: bool,
    emit: EmitAt,
) -> Result<State, Refusal>
    requires { EmitFits emit }
    ensures { let s : Text = rec.now in
        ((bits : Part → ℕ) (bs : List Bit) → length bs ≡ len
        → Advanced (other_advance (seen t bs) aligned (said_in options s bits emit)) bs w.old w.new result) }
{
    chunks::check_code(t.pending, len)?;
    if is_misplaced(aligned, t.shift) {
        return Err(Refusal::OctetBoundary);
    }
    append(rec, w, options, t, emit)
}

// ---- all fields, and the end

// A bit field fills its chunk: none is open, and it has whole octets.
fn is_alone(len: usize, width: u64) -> bool
    ensures { result ≡ is_alone len width }
{
    len == 0 && width % 8 == 0
}

// The lines of a target of n fields by its plan, which is of fixed size, since no memory is asked for. On a refusal, what the fields before wrote stays in
// the buffer.
pub fn lower_target<'a>(
    rec: &'a [u8],
    w: &mut Writer,
    options: Options,
    plan: [PlanAt; 64],
    n: usize,
) -> Result<(), Refusal>
    requires { (n ≤ 64) × Sound plan n }
    ensures { let s : Text = rec.now in
        ((bits : Part → ℕ) → Tells (tell options fresh (plans_from options s bits plan 0 n)) w.old w.new result) }
{
    let mut kinds = [KindAt::Reserved; 64];
    let mut c = chunks::empty();
    let mut t = chunks::new();
    for k in 0..n {
        match plan[k] {
            PlanAt::Other { aligned, emit } => {
                t = parse_other_field(rec, w, options, t, c.len, aligned, emit)?;
            }
            PlanAt::Bit { width, later, kind } => {
                if is_alone(c.len, width) {
                    t = chunks::close_alone(rec, w, options, t, width, later, kind)?;
                } else {
                    kinds[c.len] = kind;
                    c = chunks::grow(c, t.shift, width);
                    t = chunks::opened(t, width);
                    if t.shift % 8 == 0 {
                        t = chunks::close(rec, w, options, t, c, kinds, later)?;
                        c.len = 0;
                    }
                }
            }
        }
    }
    // `done`
    chunks::check_code(t.pending, c.len)
}
