// What rules mean, and what is proved of document 01: see specs/. There is no code here.
#![tactic(auto)]
