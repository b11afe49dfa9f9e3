// Laws: declarations that meet none of refusals 16, 3 to 9 and 17 meet none with fewer fields too, under a test that can be computed (specs/Sound); no code.
// Document 02, Card 1. proofs/Passes has the theorem and is to be read first.
#![tactic(auto)]
