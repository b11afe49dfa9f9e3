// Numbers behind `raw_value` change nothing but these names (document 02, Card 7); no code. proofs/Numbered has the theorems and is to be read first.
#![tactic(auto)]
