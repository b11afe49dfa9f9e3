// A plan of the target, by value: what each of its fields comes to, decided once, before any line is written. Both passes, the one for the length and the
// one that writes, go over it alone. `planner` makes it, `parser` goes over it. specs/Planned says what a field comes to and specs/Told what the lines of
// a list of such are; specs/Plans has the by-value form.
#![tactic(auto)]

use bit_fields::KindAt;
use emits::EmitAt;

// A bit field: its width, the bits of the bit fields behind it up to the next other field, and what its bits are put into. Any other field: whether it
// must stand on an octet boundary (refusal 11), and what it emits there.
#[derive(Clone, Copy)]
pub enum PlanAt {
    Bit {
        width: u64,
        later: u64,
        kind: KindAt,
    },
    Other {
        aligned: bool,
        emit: EmitAt,
    },
}
