//! Spheres of a placement, the playthrough, and the check of claimed spheres.
#![tactic(auto)]

mod check;
mod gather;
mod lacking;
mod laws;
mod place;
mod played;
mod refusal;
mod shown;
mod sphere;
mod table;
mod thin;

pub use check::check_spheres;
pub use laws::{playthroughs_are_one, spheres_are_one, spheres_show};
pub use played::playthrough;
pub use refusal::CheckRefusal;
pub use sphere::spheres;
