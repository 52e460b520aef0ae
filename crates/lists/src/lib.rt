// What is about lists alone: lists by their entries, tests of every entry, runs of stores. It has no code: specs/Lists.antt defines them,
// proofs/ has the laws.
#![tactic(auto)]
