// A node of a tree, and its triple patterns, which are lent.
ghost use Rattle.std.specs.Prelude.{◌≡◌, ◌<◌, ◌==◌, ◌++◌, [], map, length, slice_get, All, Some, OnOk};
ghost use Rattle.alg_model.specs.VarSet.{TripleFits, list_set};
ghost use Rattle.pattern_tree.specs.Growing.{extended, fresh};

use alg_model::TriplePat;
use std::alloc::{AllocError, Global};
use std::marker::Model;

/// A node: its parent, the set of its variables, and its triple patterns. It is seen without the set.
#[derive(Debug, Drop)]
pub(crate) struct Node<'q> {
    parent: Option<u8>,
    vars: u64,
    patterns: Vec<&'q TriplePat>,
}

impl<'q> Model for Node<'q> {
    ghost use Rattle.std.specs.Prelude.{◌≡◌, map};
    ghost use Rattle.alg_model.specs.VarSet.{list_set};
    ghost use Rattle.pattern_tree.specs.Tree.{TreeNode};

    ghost Value = { TreeNode };

    ghost view = { λ n. record { parent = n.parent; patterns = map (λ p. p.now) n.patterns.items } };

    ghost invariant = { λ n. n.vars ≡ list_set (map (λ p. p.now) n.patterns.items) };
}

impl<'q> Node<'q> {
    /// A node without triple patterns.
    pub(crate) fn fresh(alloc: Global, parent: Option<u8>) -> Node<'q>
        ensures { result ≡ fresh parent }
    {
        Node {
            parent,
            vars: 0,
            patterns: Vec::new(alloc),
        }
    }

    /// Its parent, if it has one.
    pub(crate) fn parent(&self) -> Option<u8>
        ensures { result ≡ self.now.parent }
    {
        self.parent
    }

    /// The set of its variables.
    pub(crate) fn vars(&self) -> u64
        ensures { result ≡ list_set self.now.patterns }
    {
        self.vars
    }

    /// Its triple patterns.
    pub(crate) fn patterns(&self) -> PatRefs<'_, 'q>
        ensures { result ≡ self.now.patterns }
    {
        PatRefs {
            patterns: &self.patterns,
        }
    }

    /// Puts the triple patterns of a list after its own.
    pub(crate) fn lend(&mut self, patterns: &'q [TriplePat]) -> Result<(), AllocError>
        requires { All TripleFits patterns.now }
        ensures { OnOk result (self.new ≡ extended self.old patterns.now) }
    {
        lend_all(&mut self.patterns, &mut self.vars, patterns)
    }
}

// Puts the triple patterns of a list after others, and their variables into the set.
fn lend_all<'q>(
    into: &mut Vec<&'q TriplePat>,
    vars: &mut u64,
    patterns: &'q [TriplePat],
) -> Result<(), AllocError>
    requires fits { All TripleFits patterns.now }
    requires same { vars.old ≡ list_set (map (λ p. p.now) into.old.items) }
    ensures same { vars.new ≡ list_set (map (λ p. p.now) into.new.items) }
    ensures ok { OnOk result (map (λ p. p.now) into.new.items ≡ map (λ p. p.now) into.old.items ++ patterns.now) }
{
    for pattern in patterns {
        into.push(pattern)?;
        *vars |= pattern.vars();
    }
    Ok(())
}

/// The triple patterns of a node, which are lent. It is seen as the list of them.
#[derive(Debug, Drop)]
pub struct PatRefs<'a, 'q> {
    patterns: &'a [&'q TriplePat],
}

impl<'a, 'q> Model for PatRefs<'a, 'q> {
    ghost use Rattle.std.specs.Prelude.{List, map};
    ghost use Rattle.alg_model.specs.declared.pattern.TriplePat.{TriplePat};

    ghost Value = { List TriplePat };

    ghost view = { λ l. map (λ p. p.now) l.patterns.now };
}

impl<'a, 'q> PatRefs<'a, 'q> {
    /// How many there are.
    pub fn len(&self) -> usize
        ensures { result ≡ length self.now }
    {
        self.patterns.len()
    }

    /// Whether there is none.
    pub fn is_empty(&self) -> bool
        ensures { result ≡ (length self.now == 0) }
    {
        self.patterns.is_empty()
    }

    /// The i-th from 0.
    pub fn get(&self, i: usize) -> &'q TriplePat
        requires { i < length self.now }
        ensures { slice_get self.now i ≡ Some result.now }
    {
        lent(self.patterns, i)
    }
}

fn lent<'q>(patterns: &[&'q TriplePat], i: usize) -> &'q TriplePat
    requires { i < length patterns.now }
    ensures { slice_get (map (λ p. p.now) patterns.now) i ≡ Some result.now }
{
    patterns[i]
}
