// The starred figures of docs/SPECIFICATION.md, Figures to check. It has no code: specs/Figures.antt is the table, proofs/Hold.antt its one proof.
#![tactic(auto)]
