// The load of document 02, Card 1: its records as a definition, for any state, and what the program `load` prints, for any input; no code but a type that both
// share. specs/Choices: the state, a choice, and what is drawn from slots. Fragments and Families: the grammar, as docs/LOAD.md lists it. Load: records, and
// inputs. Passing: what is promised of every record; proofs/Every has the theorem and is to be read first.
#![tactic(auto)]

// What an input of the program `load` asks for: so many records from a start. An input of another form asks for none.
#[derive(Clone, Copy, Debug, PartialEq, Eq)]
pub struct Load {
    pub start: u32,
    pub count: u32,
}
