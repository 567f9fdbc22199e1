// The refusals of reading: their numbers and reasons. No code: specs/Inner.antt says what a refusal of reading is, and proofs/Tokens.antt that the token reader of RON
// gives no other.
#![tactic(auto)]
