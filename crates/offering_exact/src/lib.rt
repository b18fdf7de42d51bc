// What the offers of a lent state are, and what stands in the output. There is no code here.
#![tactic(auto)]
