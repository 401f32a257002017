// A job's text and its answer's line, on slices: what the job program reads and writes.
//
// `read` takes the text of a job to its numbers, or refuses it; `write` puts an answer's line into a lent buffer.
// Definitions are in specs/; that the reader reads exactly the lines of the grammar is proved in proofs/.

#![tactic(auto)]

pub mod answer;
pub mod read;
pub mod write;
