// The words that the definitions are written in, and their laws: specs/ has the words, proofs/ the laws.
#![tactic(auto)]
