//! What tests are made of: samples beside bytes written elsewhere, and growths that are refused and
//! counted, which no contract states.

mod counting;
mod inner;
mod made;
mod texts;
mod wrong_calls;
