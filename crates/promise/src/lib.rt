// What a panel's events do, in the words of crate protocol: definitions in specs/, their laws in proofs/. There is no code here.
#![tactic(auto)]
