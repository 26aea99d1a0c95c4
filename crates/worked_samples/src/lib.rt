// Document 01's starred samples and document 02's examples of a norm, as one table
// of definitions and one fact about it: specs/Table.antt and proofs/Table.antt.
#![tactic(auto)]
