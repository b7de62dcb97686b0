// Why the method works, over bare numbers: definitions in specs/, the argument in proofs/. There is no code here.
#![tactic(auto)]
