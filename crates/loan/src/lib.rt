// The dictionaries in a loan of words (document 02, order 10): three words an item, those of process i from item w i on. How many each process has
// noted, and w, stand in the block. A loan that ends before the last item of a process holds none of them. It rests on the crates construction (types
// and definitions), codes and block (words), dictionary, helping, opening and programs (small values).
// Block, loan and process are arguments of their own (b, l, i): C lends the two slices apart, and a struct that holds a `&mut` has no `.new` of its fields: no plainer.
#![tactic(auto)]

mod fetching; // fetching.rt: the text of a program
mod items; // items.rt: items at a place
pub mod dictionaries; // dictionaries.rt: the dictionary of a process
pub mod simulating; // simulating.rt: the program of an announcement runs on them
