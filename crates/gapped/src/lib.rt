// Gaps said plainly (document 01, modules 1 and 2): whitespace by code point, line comments, nested block comments (specs/Gap.antt). No code: that crate
// `comments` passes exactly such a gap, and refuses exactly where document 01 says, is proved in proofs/Exactly.antt.
#![tactic(auto)]
