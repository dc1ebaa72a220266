// Salvage over its whole run of NSERTs: specs/ says what is carried, what is reported and what it costs, proofs/ proves it from what `demands` states and
// proves. No code stands here.

#![tactic(auto)]
