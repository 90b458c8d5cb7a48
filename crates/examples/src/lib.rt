// The examples of the rules, proved of the definitions that the contracts cite: definitions and laws, no code.
// They stand above all layers, so that one table has them all.
#![tactic(auto)]
