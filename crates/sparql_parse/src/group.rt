//! The groups of a query that are open, with their patterns so far.
ghost use Rattle.std.specs.Prelude.{◌≡◌, ◌<◌, ◌^◌, ◌+◌, [], ◌∷◌, IfOk, OnOk};
ghost use Rattle.alg_model.specs.Pattern.{Bgp, algebra_of};
ghost use Rattle.sparql_parse.specs.computed.Building.{closed, combined, in_innermost, joined_block, new_group, opened, pattern_so_far, with_group};
ghost use Rattle.sparql_parse.specs.held.Groups.{body_in, group_in};

use alg_model::{PatList, Pattern, TriplePat};
use std::alloc::{AllocError, Global};

/// A group that is open: its pattern up to its last block, the triple patterns of that block so far, and
/// whether it is OPTIONAL.
#[derive(Debug, Drop)]
pub(crate) struct OpenGroup {
    pattern: Pattern,
    block: PatList,
    optional: bool,
}

/// The open groups, the innermost last, the number of the next triple pattern, and the pattern of the
/// query's group once that is closed.
#[derive(Debug, Drop)]
pub(crate) struct Body {
    alloc: Global,
    groups: Vec<OpenGroup>,
    next: u16,
    whole: Pattern,
}

/// The empty basic graph pattern.
fn empty_pattern(alloc: Global) -> Pattern
    ensures { algebra_of result ≡ Bgp [] }
{
    Pattern::Bgp(PatList::new(alloc))
}

/// A pattern with a block after it, if there is one.
fn joined_block(alloc: Global, pattern: Pattern, block: PatList) -> Result<Pattern, AllocError>
    ensures { IfOk result (λ joined. algebra_of joined ≡ joined_block (algebra_of pattern) block) }
{
    if block.is_empty() {
        return Ok(pattern);
    }
    Pattern::join(alloc, pattern, Pattern::Bgp(block))
}

/// A pattern with that of a group in it: LeftJoin for OPTIONAL, else Join.
fn combined(
    alloc: Global,
    optional: bool,
    left: Pattern,
    right: Pattern,
) -> Result<Pattern, AllocError>
    ensures { IfOk result (λ both. algebra_of both ≡ combined optional (algebra_of left) (algebra_of right)) }
{
    if optional {
        Pattern::left_join(alloc, left, right)
    } else {
        Pattern::join(alloc, left, right)
    }
}

impl OpenGroup {
    /// A group that is opened.
    fn new(alloc: Global, optional: bool) -> OpenGroup
        ensures { group_in result ≡ new_group optional }
    {
        OpenGroup {
            pattern: empty_pattern(alloc),
            block: PatList::new(alloc),
            optional,
        }
    }

    /// The pattern, the last block included.
    fn into_pattern(self, alloc: Global) -> Result<Pattern, AllocError>
        ensures { IfOk result (λ pattern. algebra_of pattern ≡ pattern_so_far (group_in self)) }
    {
        joined_block(alloc, self.pattern, self.block)
    }

    /// The group with another in it, which is closed.
    fn with_group(self, alloc: Global, inner: OpenGroup) -> Result<OpenGroup, AllocError>
        ensures { IfOk result (λ group. group_in group ≡ with_group (group_in self) (group_in inner)) }
    {
        let optional = self.optional;
        let inner_optional = inner.optional;
        let left = self.into_pattern(alloc)?;
        let right = inner.into_pattern(alloc)?;
        let pattern = combined(alloc, inner_optional, left, right)?;
        Ok(OpenGroup {
            pattern,
            block: PatList::new(alloc),
            optional,
        })
    }
}

impl Body {
    /// The body of a query before its first token.
    pub(crate) fn new(alloc: Global) -> Body
        ensures { body_in result ≡ record { groups = []; next = 1; whole = Bgp [] } }
    {
        Body {
            alloc,
            groups: Vec::new(alloc),
            next: 1,
            whole: empty_pattern(alloc),
        }
    }

    /// The number of the next triple pattern.
    pub(crate) fn next(&self) -> u16
        ensures { result ≡ (body_in self.now).next }
    {
        self.next
    }

    /// The pattern of the query's group, which is closed.
    pub(crate) fn into_whole(self) -> Pattern
        ensures { algebra_of result ≡ (body_in self).whole }
    {
        self.whole
    }

    /// Opens a group. Where memory runs out, nothing is said of the body.
    pub(crate) fn open(&mut self, optional: bool) -> Result<(), AllocError>
        ensures { OnOk result (body_in self.new ≡ opened optional (body_in self.old)) }
    {
        self.groups.push(OpenGroup::new(self.alloc, optional))?;
        Ok(())
    }

    /// Closes the innermost group. Where memory runs out, nothing is said of the body.
    pub(crate) fn close(&mut self) -> Result<(), AllocError>
        ensures { OnOk result (body_in self.new ≡ closed (body_in self.old)) }
    {
        match self.groups.pop() {
            Some(inner) => self.close_in(inner),
            // Never comes: the tokens are a query, so each `}` has its `{` before it.
            None => Ok(()),
        }
    }

    /// Closes a group that was the innermost, and is taken out.
    fn close_in(&mut self, inner: OpenGroup) -> Result<(), AllocError>
        ensures { OnOk result (body_in self.new ≡ closed (record (body_in self.old) { groups = group_in inner ∷ (body_in self.old).groups })) }
    {
        match self.groups.pop() {
            Some(outer) => {
                let group = outer.with_group(self.alloc, inner)?;
                self.groups.push(group)?;
            }
            None => self.whole = inner.into_pattern(self.alloc)?,
        }
        Ok(())
    }

    /// Puts a triple pattern at the end of the innermost group's block. Where memory runs out, nothing is
    /// said of the body.
    pub(crate) fn push(&mut self, pattern: TriplePat) -> Result<(), AllocError>
        requires { (body_in self.old).next + 1 < 2 ^ 16 }
        ensures { OnOk result (body_in self.new ≡ record { groups = in_innermost pattern (body_in self.old).groups; next = (body_in self.old).next + 1; whole = (body_in self.old).whole }) }
    {
        // The other case never comes: the tokens are a query, so each triple pattern stands in a group.
        if let Some(mut group) = self.groups.pop() {
            group.block.push(pattern)?;
            self.groups.push(group)?;
        }
        self.next += 1;
        Ok(())
    }
}
