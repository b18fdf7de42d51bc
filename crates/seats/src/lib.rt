// Seats for each role, and lines for them. There is no code here: specs/ has the definitions, proofs/ the theorems.
#![tactic(auto)]
