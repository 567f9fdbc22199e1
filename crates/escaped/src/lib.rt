// Escapes said plainly (document 01, module 3): what may stand behind a backslash, and what it means (specs/Escape.antt). No code: that crate `escapes`
// reads exactly this is proved in proofs/Exactly.antt, and in proofs/Reasons.antt that what it refuses is refused for the reasons of specs/Wrong.antt, at
// their places.
#![tactic(auto)]
