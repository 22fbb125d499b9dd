// Laws on the integers: definitions in specs/, their laws in proofs/. No code.

#![tactic(auto)]
