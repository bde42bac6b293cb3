//! The plane that leaps: a set of cells as squares of squares that remember what their middles become. Squares are
//! freed when the plane collects or is dropped.
mod building;
mod centre;
mod chains;
mod collecting;
mod far;
mod later;
mod leaping;
mod listing;
mod padding;
mod plane;
mod putting;
mod rows;
mod site;
mod square;
mod store;

pub use far::Side;
pub use plane::LeapPlane;
pub use store::NoLeap;
