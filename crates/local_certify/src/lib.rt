//! Certification of an own transaction at its origin.
#![tactic(auto)]

pub mod certs;
mod judging;

pub use certs::{CertTurn, certify};
