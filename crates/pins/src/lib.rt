// Tables over pin numbers, bits of a word and Booleans: the definitions and laws that every room above shares. There is
// no code.
#![tactic(auto)]
