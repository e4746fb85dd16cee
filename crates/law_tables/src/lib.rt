//! That the nine tables of a plan do with a packet what plan_units asks of them, table by table: what ports, ACLs,
//! admission, sources, routing, destinations and floods ask for. Proofs alone.
#![tactic(auto)]

pub mod acls;
pub mod admission;
pub mod destinations;
pub mod floods;
pub mod routes;
pub mod sources;
