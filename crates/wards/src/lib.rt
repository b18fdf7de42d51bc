// What another ward can change in mine: nothing. There is no code here: specs/ has what two files share where they have one session in common, proofs/ the theorem.
#![tactic(auto)]
