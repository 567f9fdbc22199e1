// Which refusals the calls give (document 01, "Refusal numbers"; change requests 5 and 1): the numbers 1, 2 and 4 to 29, and never 3; with 13 a reason of 1 to
// 8, and with any other number 0. No code: one law for each definition that answers a refusal, and for each call proofs/Calls.antt.
#![tactic(auto)]
