// Proofs alone, which the proofs of other crates cite: of functions over a record that their caller lends, of functions by value
// that lend one, and of loops over a slice of structs that their caller lends. specs/ has what the contracts of such loops name.

#![tactic(auto)]
