//! Why a text is no request, in a sentence for people.
#![tactic(auto)]

mod fault_sentence;

pub use fault_sentence::FaultSentence;
