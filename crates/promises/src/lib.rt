// The promises: theorems over the rules, in specs/ and, where an edit of a definition must be refused by them, in proofs/. There is no code here.
#![tactic(auto)]
