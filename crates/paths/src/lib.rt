// Paths, ballot numbers and shape numbers as mathematics: definitions and lemmas over any order of places, with nothing to run.
// They stand below the code, since a block answerer has to cite that its places are the first coldest ones.
#![tactic(auto)]
