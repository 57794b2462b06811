//! The texts of a graph in four ascending groups.
ghost use Rattle.std.specs.Prelude.{◌≡◌, ◌<◌, bytes_eq, length, All, IfOk, OnOk};
ghost use Rattle.std.specs.List.{IsDistinct};
ghost use Rattle.term_numbers.specs.held.Seen.{NodesAreBelow, AreRoles};
ghost use Rattle.term_numbers.specs.held.Entries.{entries_from, AreSplit, AreGroups, PutsEntry, IsGroup, anywhere};

use crate::entry::Entry;
use crate::fault::number_from;
use crate::role::{Role, roles};
use crate::sort::sorted;
use crate::text::Text;
use bm_term::Term;
use std::alloc::{AllocError, Global};

/// The nodes by their roles.
#[derive(Drop)]
pub(crate) struct Groups<'a> {
    pub(crate) shared: Vec<Entry<'a>>,
    pub(crate) subjects: Vec<Entry<'a>>,
    pub(crate) objects: Vec<Entry<'a>>,
}

/// The nodes that are subject and object, subjects alone, and objects alone, each ascending.
pub(crate) fn group_nodes<'a>(
    alloc: Global,
    nodes: &'a [Term],
    triples: &[(u32, u32, u32)],
) -> Result<Groups<'a>, AllocError>
    requires below { All (NodesAreBelow (length nodes.now)) triples.now }
    requires differ { IsDistinct bytes_eq nodes.now }
    ensures { IfOk result (λ groups. AreGroups nodes.now triples.now groups.shared.items groups.subjects.items groups.objects.items) }
{
    let roles = roles(alloc, triples, nodes.len())?;
    let groups = split(alloc, nodes, &roles)?;
    Ok(Groups {
        shared: sorted(alloc, groups.shared)?,
        subjects: sorted(alloc, groups.subjects)?,
        objects: sorted(alloc, groups.objects)?,
    })
}

/// The nodes by their roles, in the order of first sight.
fn split<'a>(alloc: Global, nodes: &'a [Term], roles: &[Role]) -> Result<Groups<'a>, AllocError>
    requires { length roles.now ≡ length nodes.now }
    ensures { IfOk result (λ groups. AreSplit roles.now (entries_from 0 nodes.now) groups.shared.items groups.subjects.items groups.objects.items) }
{
    let mut groups = Groups {
        shared: Vec::new(alloc),
        subjects: Vec::new(alloc),
        objects: Vec::new(alloc),
    };
    for (place, node) in nodes.iter().enumerate() {
        let entry = Entry {
            text: Text::of(node),
            place: number_from(place)?,
        };
        put(&mut groups, roles[place], entry)?;
    }
    Ok(groups)
}

/// Puts an entry at the end of the group of its role.
fn put<'a>(groups: &mut Groups<'a>, role: Role, entry: Entry<'a>) -> Result<(), AllocError>
    ensures { OnOk result (PutsEntry role entry.entry groups.old.shared.items groups.new.shared.items groups.old.subjects.items groups.new.subjects.items groups.old.objects.items groups.new.objects.items) }
{
    match (role.subject, role.object) {
        (true, true) => groups.shared.push(entry)?,
        (true, false) => groups.subjects.push(entry)?,
        (false, true) => groups.objects.push(entry)?,
        (false, false) => {}
    }
    Ok(())
}

/// All texts, ascending.
pub(crate) fn ascending<'a>(alloc: Global, texts: &'a [Term]) -> Result<Vec<Entry<'a>>, AllocError>
    requires { IsDistinct bytes_eq texts.now }
    ensures { IfOk result (λ entries. IsGroup texts.now anywhere entries.items) }
{
    let entries = entries(alloc, texts)?;
    let ascending = sorted(alloc, entries)?;
    Ok(ascending)
}

/// All texts with their places.
fn entries<'a>(alloc: Global, texts: &'a [Term]) -> Result<Vec<Entry<'a>>, AllocError>
    ensures { IfOk result (λ entries. entries.items ≡ entries_from 0 texts.now) }
{
    let mut entries = Vec::with_capacity(alloc, texts.len())?;
    for (place, text) in texts.iter().enumerate() {
        entries.push(Entry {
            text: Text::of(text),
            place: number_from(place)?,
        })?;
    }
    Ok(entries)
}
