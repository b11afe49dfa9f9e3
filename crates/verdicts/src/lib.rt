// Whether a target is refused, by its plan and without a line (refusals 10 to 14): that shows in the widths and the places of its fields. Where a
// buffer has room for the lines of every record, it is all that is left to ask before they are written.
#![tactic(auto)]

ghost use Rattle.std.specs.Prelude.{◌≡◌, ℕ, ◌+◌, ◌≤◌, ◌<◌, ◌^◌};
ghost use Rattle.definitions.specs.Bytes.{Text};
ghost use Rattle.definitions.specs.declared.Options.{Options};
ghost use Rattle.definitions.specs.declared.Part.{Part};
ghost use Rattle.stream.specs.Stream.{fresh};
ghost use Rattle.plans.specs.Told.{tell};
ghost use Rattle.plans.specs.Plans.{plans_from, Sound};
ghost use Rattle.verdicts.specs.Verdicts.{emit_verdict, other_verdict, bit_counted, counted, BitsFit};

use definitions::Refusal;
use emits::EmitAt;
use plans::PlanAt;

// The open chunk, as far as a refusal asks for it: its bits and the number of its fields; and whether lines are pending.
#[derive(Clone, Copy, Debug, PartialEq, Eq)]
pub struct Tally {
    pub shift: u64,
    pub len: usize,
    pub pending: bool,
}

fn emit_verdict(emit: EmitAt) -> Result<(), Refusal>
    ensures { result ≡ emit_verdict emit }
{
    match emit {
        EmitAt::Refuses(why) => Err(why),
        EmitAt::Appends(_) | EmitAt::Silent => Ok(()),
    }
}

// A field that is no bit field: 10, 11, 13 and 14.
fn other_verdict(t: Tally, aligned: bool, emit: EmitAt) -> Result<(), Refusal>
    ensures { result ≡ other_verdict t aligned emit }
{
    chunks::check_code(t.pending, t.len)?;
    if parser::is_misplaced(aligned, t.shift) {
        return Err(Refusal::OctetBoundary);
    }
    emit_verdict(emit)
}

// The tally behind a bit field, or 12.
fn count_bit(t: Tally, width: u64) -> Result<Tally, Refusal>
    requires { (t.shift + width < 2 ^ 64) × (t.len < 64) }
    ensures { result ≡ bit_counted t width }
{
    let shift = t.shift + width;
    if shift % 8 != 0 {
        return Ok(Tally {
            shift,
            len: t.len + 1,
            pending: t.pending,
        });
    }
    if 64 < shift {
        return Err(Refusal::ScalarTooWide);
    }
    Ok(Tally {
        shift: 0,
        len: 0,
        pending: true,
    })
}

// The tally behind one entry of the plan, or its refusal.
fn count(t: Tally, here: PlanAt) -> Result<Tally, Refusal>
    requires { BitsFit t here × (t.len < 64) }
    ensures { result ≡ counted t here }
{
    match here {
        PlanAt::Other { aligned, emit } => {
            other_verdict(t, aligned, emit)?;
            Ok(Tally {
                pending: false,
                ..t
            })
        }
        PlanAt::Bit { width, .. } => count_bit(t, width),
    }
}

// Whether a target of n fields is refused, by its plan: the verdict of `lower_target`, without a line.
pub fn target_verdict(plan: [PlanAt; 64], n: usize) -> Result<(), Refusal>
    requires { (n ≤ 64) × Sound plan n }
    ensures { (o : Options) (s : Text) (bits : Part → ℕ) → result ≡ (tell o fresh (plans_from o s bits plan 0 n)).verdict }
{
    let mut t = Tally {
        shift: 0,
        len: 0,
        pending: false,
    };
    for k in 0..n {
        t = count(t, plan[k])?;
    }
    chunks::check_code(t.pending, t.len)
}
