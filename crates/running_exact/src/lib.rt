// Runs are the calculus, and keep the rules. There is no code here: specs/ has the definitions that a reader believes, proofs/ the theorems that
// join them to what crate running's contracts cite.
#![tactic(auto)]
