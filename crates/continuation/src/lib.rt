// Continuing a list of calls from the sheet that it wrote. It has no code: specs/Claim.antt is the claim with all that it rests on,
// proofs/Holds.antt its proof.
#![tactic(auto)]
