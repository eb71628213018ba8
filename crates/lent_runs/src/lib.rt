// The card in lent words over whole lists of entries (document 02, order 10): if its owner hands the loan back unaltered at each step, block and loan go
// through such a list as the card by value does, so that every theorem of construction speaks of them too; what holds of altered loans; 11 by its number.
// Definitions and theorems; no function. It rests on the crates construction (definitions and theorems), block, loan, lent_text, lent_card, lent_helping
// and lent_steps.
#![tactic(auto)]
