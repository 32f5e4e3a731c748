// The calls of the library, which `rwkv_tokenizer_c` exports to Rust and C programs. The result, but of `rwkv_fresh`, is the documents'
// number of the refusal, 0 if none; a report takes the values that it carries, and 0 for those that it does not.
// Kept: the C interface: `rwkv_tokenizer_c` hands out these numbers and reports as they are.
#![tactic(auto)]

mod decode;
mod encode;
mod lent;
mod load;

pub use decode::{rwkv_decode, rwkv_decode_lossy, rwkv_decode_utf8};
pub use encode::rwkv_encode;
pub use lent::{rwkv_add, rwkv_end, rwkv_fresh};
pub use load::rwkv_load;
