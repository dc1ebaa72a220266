// The reading set over trees and over runs of its calls: specs/ says which files it opens, that XTEND makes them, and what a run of its calls answers;
// proofs/ proves it from what `demands` states and proves. No code stands here.

#![tactic(auto)]
