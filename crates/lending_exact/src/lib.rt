// No code: what may be lent, in the words of the paper, and the theorems about it.
#![tactic(auto)]
