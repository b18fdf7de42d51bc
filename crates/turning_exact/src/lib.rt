// What turning refuses, and that a file turned and turned back is the same file, in the words of the request. There is no code here: specs/ has the
// definitions that a reader believes, proofs/ the theorems that join them to what crate turning's contracts cite.
#![tactic(auto)]
