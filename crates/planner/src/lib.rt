// The plan of the target (crate plans): what each of its fields comes to, decided once, from the last to the first, so that the bits behind a bit field are
// known where it is met.
#![tactic(auto)]

ghost use Rattle.std.specs.Prelude.{◌≡◌, ℕ};
ghost use Rattle.definitions.specs.FieldParser.{is_bit};
ghost use Rattle.definitions.specs.declared.Options.{Options};
ghost use Rattle.emits.specs.Target.{setting_at};
ghost use Rattle.plans.specs.Planned.{aligned};
ghost use Rattle.planner.specs.Entries.{Entries};

use definitions::{Field, FieldDesc, Part};
use emits::{EmitAt, Target};
use plans::PlanAt;
use tables::Tables;

// A bit field without a condition (`is_bitfield` of cxx.rs). No field is looked up, so any number of fields will do.
fn is_bit(t: &Tables, i: usize, f: Field) -> bool
    ensures { (n : ℕ) (o : Options) → result ≡ is_bit (setting_at t.now i n o) f }
{
    match f.cond {
        None => rows::is_bitfield(t, i, f.desc),
        Some(_) => false,
    }
}

// Refusal 11: what must stand on an octet boundary.
fn aligned(f: Field) -> bool
    ensures { result ≡ aligned f }
{
    match f.desc {
        FieldDesc::Body | FieldDesc::Payload { .. } | FieldDesc::Typedef { .. } => f.cond.is_none(),
        FieldDesc::Checksum { .. }
        | FieldDesc::Padding { .. }
        | FieldDesc::Size { .. }
        | FieldDesc::Count { .. }
        | FieldDesc::ElementSize { .. }
        | FieldDesc::FixedScalar { .. }
        | FieldDesc::FixedEnum { .. }
        | FieldDesc::Reserved { .. }
        | FieldDesc::Array { .. }
        | FieldDesc::Scalar { .. }
        | FieldDesc::Flag { .. } => false,
    }
}

// The plan of the fields; behind them it has entries that no field has.
pub fn plan_target(t: &Target) -> [PlanAt; 64]
    ensures { Entries t.now.tables.now t.now.i t.now.n t.now.options result }
{
    let mut conds = [Part { start: 0, end: 0 }; 64];
    let used = conditions::conditions(t.tables, t.i, t.n, &mut conds);
    let mut plan = [PlanAt::Other {
        aligned: false,
        emit: EmitAt::Silent,
    }; 64];
    let mut later = 0;
    for k in (0..t.n).rev() {
        let f = references::field_in(t.tables, t.i, k);
        if is_bit(t.tables, t.i, f) {
            let kind = field_kinds::kind_of(t.tables, &conds[..used], t.i, f.desc);
            let size = annotate::field_size(t.tables, t.i, t.n, f);
            let width = bits::static_bits(size);
            plan[k] = PlanAt::Bit { width, later, kind };
            later += width;
        } else {
            let emit = fields::parse_unchecked(t, k);
            plan[k] = PlanAt::Other {
                aligned: aligned(f),
                emit,
            };
            later = 0;
        }
    }
    plan
}
