// Laws: facts about the definitions of rules, in specs/. There is no code here.
#![tactic(auto)]
