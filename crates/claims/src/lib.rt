// The claims, on one page, and the description's cases. There is no code here.
#![tactic(auto)]
