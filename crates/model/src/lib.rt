// What a board means: its points, its ten calls, and what is proved of every series of them.
#![tactic(auto)]
