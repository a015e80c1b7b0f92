// The theorems over histories of builder calls. There is no code here.
#![tactic(auto)]
