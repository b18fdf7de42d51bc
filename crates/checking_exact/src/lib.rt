// The rules of the check as judgements, in the manner of source 004's Table 4. There is no code here: specs/ has the definitions that a reader
// believes, proofs/ the theorems that join them to what crate rules' contracts cite.
#![tactic(auto)]
