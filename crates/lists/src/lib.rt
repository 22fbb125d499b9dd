// Laws on lists: definitions in specs/, their laws in proofs/. No code.

#![tactic(auto)]
