// The third demand as one statement over the calls (document 01, "Repair"): a tape that `read` or `repair` left, one run of bytes replaced, and `repair`
// of it (specs/Mended.antt). No code: that every such repair is as it should be is proved in proofs/.
#![tactic(auto)]
