// Worked cases of documents 01 and 02, computed on the definitions alone: one table, and one theorem that covers it.
#![tactic(auto)]
