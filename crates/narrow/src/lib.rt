// How narrow the contracts are: that each allows one result only, in specs/. There is no code here.
#![tactic(auto)]
