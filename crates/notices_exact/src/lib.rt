// Notices and the plan in force, in the request's words. There is no code here: specs/ has the definitions that a reader believes, proofs/ the theorems that join them
// to what crate notices's contracts cite.
#![tactic(auto)]
