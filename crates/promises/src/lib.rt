// What is promised, call by call: proofs/Promises.antt is the index, and beside it stands a file for each call. Document 01's demands 1 to 3, for each
// call that its answer is determined, what it means in plain definitions, and the worked texts; each line a statement with the place where it is proved.
// No code.
#![tactic(auto)]
