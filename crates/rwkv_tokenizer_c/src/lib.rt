// The calls that a Rust or C program links: each hands what it is lent to the call of `rwkv_tokenizer` with its name, and has its clauses.
// Kept: the C interface lends each slice by itself, so that every call makes the memory of them, and answers by its number.
#![tactic(auto)]

mod decode;
mod encode;
mod lent;
mod load;
