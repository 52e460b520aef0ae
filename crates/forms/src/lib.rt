// Forms: how a value is written as bytes, and how it is read from bytes that begin with it; a line of the strip sheet is one. It has no
// code: specs/ defines them, proofs/ has their laws.
#![tactic(auto)]
