// Runs and rounds with seats, of files. There is no code here: specs/ has the definitions that a reader believes, proofs/ the theorems that join them to
// what crate seating's contracts cite.
#![tactic(auto)]
