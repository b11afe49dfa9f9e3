// Texts count, and places do not: two records that say the same at other places are lowered alike; no code. Document 02, Card 10: lines `bits` that are put
// in or taken out (specs/Without) change no byte of an accepted record's lines. Card 7: without its line `raw` a record is lowered as one that chooses `plain`.
// Card 8: the same of its line `products`. And the parser gives, with other words for these two, the same but for these words (specs/Chosen, proofs/Chosen).
// proofs/Ignored and proofs/Plainly have the theorems and are to be read first.
#![tactic(auto)]
