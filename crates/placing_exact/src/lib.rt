// Placements of a file, and that placing finds the best one. There is no code here: specs/ has the definitions that a reader believes, proofs/ the
// theorems that join them to what crate placing's contracts cite.
#![tactic(auto)]
