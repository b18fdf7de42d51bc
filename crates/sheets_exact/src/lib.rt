// What the group's sheet promises. There is no code here: specs/ has the definitions that a reader believes, proofs/ the theorems that join them to what
// crate sheets' contract cites.
#![tactic(auto)]
