// What a checked certificate says of runs. There is no code here: specs/ has the cases, proofs/ the theorems.
#![tactic(auto)]
