// What is drawn from a family of slots (document 02, Card 1): a step of the state, the choice among the possibilities of a slot, and the slots of a family
// from left to right, written into a lent buffer. A family comes as a text, its slots parted by `;` and their possibilities by `|`.
#![tactic(auto)]

ghost use Rattle.std.specs.Prelude.{◌≡◌, [], ◌+◌, ◌<◌, length, get_or, drop};
ghost use Rattle.text.specs.Put.{Put};
ghost use Rattle.grammar.specs.Choices.{next, choice as choice_of, chosen, draw_slots};
ghost use Rattle.slots.specs.Pieces.{slots, possibilities, up_to};
ghost use Rattle.slots.specs.Draws.{Draws};

// The state behind what was drawn, and the end of what was written.
#[derive(Clone, Copy, Debug, PartialEq, Eq)]
pub struct Drawn {
    pub state: u32,
    pub end: usize,
}

// ---- choices

// A step of the state.
pub fn next_state(state: u32) -> u32
    ensures { result ≡ next state }
{
    let s = state as u64;
    ((1664525 * s + 1013904223) % 4294967296) as u32
}

// The choice among n in a state: by its top 16 bits.
pub fn choice(state: u32, n: usize) -> usize
    requires { 0 < n }
    ensures { result ≡ choice_of state n }
{
    (state / 65536) as usize % n
}

// ---- pieces of a text

// Where the piece at a place ends: at the next separator, or at the text's end.
fn piece_end(s: &[u8], at: usize, separator: u8) -> usize
    ensures { result ≡ at + up_to separator (drop at s.now) }
{
    for p in at..s.len() {
        if s[p] == separator {
            return p;
        }
    }
    at.max(s.len())
}

// How many possibilities a slot has: one more than the bytes `|`.
fn count_possibilities(slot: &[u8]) -> usize
    ensures { result ≡ length (possibilities slot.now) }
{
    slot.iter().filter(|&&b| b == b'|').count() + 1
}

// The k-th possibility of a slot; nothing where there are fewer.
fn possibility(slot: &[u8], k: usize) -> &[u8]
    ensures { result.now ≡ get_or (possibilities slot.now) k [] }
{
    let mut skip = k;
    for p in 0..slot.len() {
        if skip == 0 {
            return &slot[p..piece_end(slot, p, b'|')];
        }
        if slot[p] == b'|' {
            skip -= 1;
        }
    }
    &slot[..0]
}

// ---- what is drawn, written

// The possibility of a slot that is chosen in the state behind its step.
fn put_slot(slot: &[u8], state: u32, out: &mut [u8], at: usize) -> usize
    ensures { Put out.old at (chosen state (possibilities slot.now)) result out.new }
{
    let n = count_possibilities(slot);
    text::put(out, at, possibility(slot, choice(state, n)))
}

// All slots of a family, each with a step of the state, from the buffer's start on.
pub fn put_slots(family: &[u8], state: u32, out: &mut [u8]) -> Drawn
    ensures { Draws (draw_slots (slots family.now) state) out.old result.end result.state out.new }
{
    let mut s = state;
    let mut at = 0;
    let mut p = 0;
    loop {
        let e = piece_end(family, p, b';');
        s = next_state(s);
        at = put_slot(&family[p..e], s, out, at);
        if family.len() <= e {
            return Drawn { state: s, end: at };
        }
        p = e + 1;
    }
}
