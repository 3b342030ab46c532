// Document 01's worked examples, computed through the definitions: one table with one proof. The crate has no code: the table and
// its proof are in specs/, and that every row is right in proofs/.
#![tactic(auto)]
