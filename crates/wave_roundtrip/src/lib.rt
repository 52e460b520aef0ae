// The round trip of wave files: writing, then reading. It has no code: specs/Claim.antt is the claim with all that it rests on,
// proofs/Holds.antt its proof.
#![tactic(auto)]
