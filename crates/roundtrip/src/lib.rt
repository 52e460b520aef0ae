// The round trip of the strip sheet: writing, then reading, and reading, then writing. It has no code: specs/Claim.antt is the claim with
// all that it rests on, proofs/Holds.antt its proof.
#![tactic(auto)]
