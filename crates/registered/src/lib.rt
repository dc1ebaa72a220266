// The register over runs of its calls: specs/ says what no sequence of them can do, proofs/ proves it from what `demands` states and
// proves. No code stands here.

#![tactic(auto)]
