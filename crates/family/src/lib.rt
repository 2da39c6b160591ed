#![tactic(auto)]
//! Families of line sizes. Definitions in specs/, theorems in proofs/; the code is what each family owns, and the name of a family.
mod family; // which family it is
mod line_sizes; // what a family owns
mod sdh; // the SDH family
mod sonet; // the SONET family

pub use family::Family;
pub use line_sizes::LineSizes;
pub use sdh::Sdh;
pub use sonet::Sonet;
