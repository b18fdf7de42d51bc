// Opening hours: what the check and placing for a minute promise. There is no code here: specs/ has the definitions that a reader believes, proofs/ the
// theorems that join them to what the contracts of crates checking_at and placing_at cite.
#![tactic(auto)]
