// A record of fragments: a head, then for each declaration its lines and the texts of its fields. It is read as what each fragment says alone; no code.
// proofs/Groups says what that means, proofs/Tests which tests of the fragments are asked for (each is proved by computation, as in proofs/Cases),
// proofs/Reading and proofs/Catalogue have the theorems.
#![tactic(auto)]
