// The meaning of the lines (document 01, 'What the lines mean') and what is proved of every accepted record. It has no code: the machine and the
// reference's rule stand in specs/, the theorems in proofs/, of which Demands.antt is to be read first.
#![tactic(auto)]
