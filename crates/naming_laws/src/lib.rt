//! Values that name others, as numbers name the terms of a table: what rows and families of names say of the rows and
//! families that they name. `naming_law` says that partial solutions and maximal rows over what a family of names stands
//! for are those over the names, named.
#![tactic(auto)]

mod laws;

pub use laws::naming_law;
