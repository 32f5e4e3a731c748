// What turns an answer into the documents' number and the cells of a report; the running encoder on a
// stream that is lent, with its report.
#![tactic(auto)]

pub mod decode;
pub mod encode;
pub mod lent;
pub mod load;
pub mod report;
