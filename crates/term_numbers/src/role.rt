//! The roles of nodes.
ghost use Rattle.std.specs.Prelude.{◌<◌, All, IfOk};
ghost use Rattle.term_numbers.specs.held.Seen.{NodesAreBelow, AreRoles};

use std::alloc::{AllocError, Global};

/// Whether a node is the subject of a triple, and whether it is the object of one.
#[derive(Clone, Copy, PartialEq, Eq, Debug)]
pub(crate) struct Role {
    pub(crate) subject: bool,
    pub(crate) object: bool,
}

const NOBODY: Role = Role {
    subject: false,
    object: false,
};

/// The role of each of so many nodes.
pub(crate) fn roles(
    alloc: Global,
    triples: &[(u32, u32, u32)],
    nodes: usize,
) -> Result<Vec<Role>, AllocError>
    requires { All (NodesAreBelow nodes) triples.now }
    ensures { IfOk result (λ roles. AreRoles triples.now nodes roles.items) }
{
    let mut roles = vec![in alloc; NOBODY; nodes]?;
    for triple in triples {
        let (subject, _, object) = *triple;
        roles[subject as usize].subject = true;
        roles[object as usize].object = true;
    }
    Ok(roles)
}
