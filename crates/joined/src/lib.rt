// All targets of a file in one go (document 02, Card 13): the whole is the single calls' lines, joined; no code. proofs/Joined has the theorems and is to be
// read first.
#![tactic(auto)]
