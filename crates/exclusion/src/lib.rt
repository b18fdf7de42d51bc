// Mutual exclusion by one seat. There is no code here: specs/ has what is said of a session that is midway, proofs/ the theorem.
#![tactic(auto)]
