// No code: the demands, the table of groups and worked examples, as theorems over the definitions that the calls' contracts cite.
#![tactic(auto)]
