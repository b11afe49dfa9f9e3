// How long the lines of an accepted record can be, and that a buffer of so many bytes is enough for every record; no code. Each field of the target
// has a share of the bytes (specs/), and proofs/ has that its lines are within its share; Longest.antt is to be read first.
#![tactic(auto)]
