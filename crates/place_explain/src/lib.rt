//! Why a byte of a file has its label: the label that a data source gives it, and the claims that cover it.
#![tactic(auto)]

mod covering;
mod laws;
mod named;
mod spot;

pub use covering::{covers, explain, is_inside};
pub use laws::{first_has_label, rewrites_the_label_alone};
pub use named::{
    Explained, NamedClaim, NamedClaims, NumberedClaims, Numbers, PlaceSource, explain_source,
};
