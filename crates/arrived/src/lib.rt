// Reading while a text arrives (document 02, change request 3): what the calls of crate pieces come to over a whole text, however it is cut. No code: it stands in
// specs/ and proofs/.
#![tactic(auto)]
