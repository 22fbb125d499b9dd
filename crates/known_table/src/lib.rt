// Document 01's starred known blocks: one table in specs/, one theorem in proofs/; and the text of the white block. No code.

#![tactic(auto)]
