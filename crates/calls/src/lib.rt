// A list of calls, of which the claims speak: level orders and blocks, each on the unit that the last one handed back. It has no code:
// specs/Calls.antt defines the list, proofs/ has its laws.
#![tactic(auto)]
