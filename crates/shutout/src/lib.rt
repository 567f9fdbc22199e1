// What the promises shut out (document 01): a reader that refuses everything, that gives one tape to all texts, that accepts and writes nothing; a repair
// that leaves the first tape standing; kept numbers that are invented. No code: the definitions stand in specs/ShutOut.antt, the theorems in proofs/.
#![tactic(auto)]
