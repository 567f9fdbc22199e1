// That something is read at all (document 01, demand 2): plain tokens written with a blank behind each (specs/Spelt.antt) are read, all of them and
// nothing else. No code: the theorem stands in proofs/.
#![tactic(auto)]
