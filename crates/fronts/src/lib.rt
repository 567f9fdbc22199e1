// What every call asks first, said plainly (document 01, refusals 1, 2 and 28): specs/Fronts.antt. No code: that each call goes past its front exactly
// where it may is proved in proofs/, call by call.
#![tactic(auto)]
