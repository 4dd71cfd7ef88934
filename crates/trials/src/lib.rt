// Statements on the order of a circle's ends and places, tried at every order: proofs/Forms.antt has the
// operations over any comparisons, proofs/Trials.antt the trials. They know whole numbers alone, and no
// interval; the crate `s1` draws its laws from them. There is no code here.
#![tactic(auto)]
