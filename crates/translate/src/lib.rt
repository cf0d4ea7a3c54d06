// The translation of modules into netlists: definitions and theorems; the code is crate translate_blocks' and translator's.

#![tactic(auto)]
