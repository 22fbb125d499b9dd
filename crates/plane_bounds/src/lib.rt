// Demand 3 for whole planes (document 01, "Demand 3 in numbers", of what cards 1 and 2 of document 02 write): definition and laws.

#![tactic(auto)]
