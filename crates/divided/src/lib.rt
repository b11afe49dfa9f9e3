// With `products=divide` no record needs a premise on products (document 02, Card 8); no code. proofs/Unlimited
// drops the premise, proofs/Divided says what one word or the other changes; these two are to be read first.
#![tactic(auto)]
