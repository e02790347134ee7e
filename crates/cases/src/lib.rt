// The cases of document 01 that are marked to be proved, as one theorem about the definitions. No code.
#![tactic(auto)]
