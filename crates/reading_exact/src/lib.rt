// The clinic file as data, its encoding, and what reading refuses, in the words of the paper. There is no code here: specs/ has
// the definitions that a reader believes, proofs/ the theorems that join them to what crate format's contracts cite.
#![tactic(auto)]
