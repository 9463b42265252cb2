// The rules of the search (document 01, "Placement" and "The search"), over the path alone. No code.
#![tactic(auto)]
