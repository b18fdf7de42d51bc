// Two files in one, and what merging promises. There is no code here: specs/ has the definitions that a reader believes, proofs/ the theorems that join them
// to what crate merging's contract cites.
#![tactic(auto)]
