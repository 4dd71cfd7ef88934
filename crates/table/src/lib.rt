// Document 01's boundary examples that stand proved: proofs/Table.antt has them, a single table under a
// single theorem. There is no code here: each example is one of the operations' own definitions, which
// their contracts cite.
#![tactic(auto)]
