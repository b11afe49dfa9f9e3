// A record of the load (document 02, Card 1) with the empty line behind it, written into a lent buffer, and what an input of the program `load` asks for.
// What is right stands in crates/grammar/specs; families.rt has the texts among which is chosen.
#![tactic(auto)]

mod families;

ghost use Rattle.std.specs.Prelude.{◌≡◌, ◌∷◌, [], ◌++◌};
ghost use Rattle.text.specs.Put.{Put};
ghost use Rattle.grammar.specs.Load.{draw_record, asked_by};

use grammar::Load;
use slots::Drawn;

// ---- a record

// A record and the empty line behind it. The first step chooses among the families, of which there are 8.
pub fn put_record(state: u32, out: &mut [u8]) -> Drawn
    ensures { Put out.old 0 ((draw_record state).drawn ++ (10 ∷ [])) result.end out.new
        × (result.state ≡ (draw_record state).state) }
{
    let s = slots::next_state(state);
    let family = families::family(slots::choice(s, 8));
    let record = slots::put_slots(family, s, out);
    let end = text::put(out, record.end, b"\n");
    Drawn {
        state: record.state,
        end,
    }
}

// ---- the input

// A start number of 32 bits and a count to 65,535, each with its newline, and nothing behind them; anything else asks for nothing.
pub fn asked(input: &[u8]) -> Option<Load>
    ensures { result ≡ asked_by input.now }
{
    let (start, p) = names::number_at(input, 0)?;
    let (count, end) = names::number_at(input, p)?;
    if 4294967295 < start {
        return None;
    }
    if 65535 < count {
        return None;
    }
    if end != input.len() {
        return None;
    }
    Some(Load {
        start: start as u32,
        count: count as u32,
    })
}
