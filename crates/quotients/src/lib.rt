// The quotient of a decimal (document 02, CR 14): "the digits as a whole number divided once by the power of ten, then negated after a minus".
//
// Read specs/Quotient first. What is proved beyond the contracts, for all m < 10^15 and k ≤ 22: both operands are cast exactly and the quotient is the
// fraction rounded once, to nearest and ties to even (proofs/Exact); it is at most half the gap to its neighbour away (`half-gap`); what patterns and
// neighbours are (proofs/Anchors).
#![tactic(auto)]

pub mod quotient;
