//! Lemmas on doubly linked lists whose links are names (Knuth, The Art of Computer Programming, doubly linked lists).
//!
//! `specs/` has the definitions: nodes by name, each with a key and its neighbours, and when they are the chains of
//! their keys (`Links`); a slab as a table by its keys, and one of its rows changed (`Rows`). `proofs/` has what
//! becomes of the chains where a node is put in front of one, or taken out of one, and that no chain is longer than the
//! slab of its nodes. The crates above keep their nodes and heads each in its own way, and cite these.
#![tactic(auto)]
