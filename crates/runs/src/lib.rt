// Runs of a network, and what is true of every run from fresh. There is no code here: a run is made of the network's calls.
#![tactic(auto)]
