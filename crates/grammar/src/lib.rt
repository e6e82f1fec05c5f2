//! Grammars as data: what a rule derives, what begins as something that it derives, and that reading
//! with one token of foresight gives just that, and what it gives is the longest that fits. It has
//! definitions (`specs/`), words for writing rules among them, and laws (`proofs/`), and
//! no code.
#![tactic(auto)]
